// An accepted table.
ghost use Rattle.std.specs.Prelude.{◌≡◌};
ghost use Rattle.model.specs.TableCheck.{table_check};
ghost use Rattle.image.specs.Counts.{counts_of};
ghost use Rattle.tree.specs.Reading.{Reading};

use image::Image;

// An image that the table check accepted.
#[derive(Clone, Copy)]
pub struct Table<'a> {
    pub image: Image<'a>,
    pub ghost reading: { Reading image.bytes.now image.counts },
}

impl<'a> Table<'a> {
    // Of bytes that the table check accepted.
    pub fn of(bytes: &'a [u8]) -> Table<'a>
        requires { table_check bytes.now ≡ Ok tt }
        ensures { (result.image.bytes ≡ bytes.entry) × (result.image.counts ≡ counts_of bytes.now) }
    {
        Table {
            image: Image::of(bytes),
        }
    }
}
