// Reads a table image: its header's counts, the four parts that these cut from it, and for the walk the fields of each record by its
// number. Each function is equated with the tree that the image stands for.
#![tactic(auto)]

pub mod records;
pub mod slices;
pub mod texts;

ghost use Rattle.std.specs.Prelude.{ℕ, ◌<◌, slice_index};
ghost use Rattle.image.specs.Counts.{Counted};

use parts::records::Counts;

// An image whose sizes fit (rules 1 and 3), with its header's counts: they tell where each part begins.
#[derive(Clone, Copy)]
pub struct Image<'a> {
    pub bytes: &'a [u8],
    pub counts: Counts,
    pub ghost counted: { Counted bytes.now counts },
    // A fact of every slice of bytes, which proofs find here.
    pub ghost byte: { (i : ℕ) → slice_index bytes.now i < 256 },
}
