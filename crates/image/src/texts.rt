// Names and link bodies, as parts of the lent image.
ghost use Rattle.std.specs.Prelude.{◌≡◌, ◌+◌, ◌≤◌, ◌<◌};

use crate::Image;

impl<'a> Image<'a> {
    ghost use Rattle.image.specs.Images.{tree};

    // An entry's name.
    pub fn name(self, e: usize) -> &'a [u8]
        requires { (e < (tree self).entries) × ((tree self).name_offset e + (tree self).name_length e ≤ (tree self).text_length) }
        ensures { result.now ≡ (tree self.entry).name e }
    {
        let start = self.text_at() + self.name_offset(e);
        let end = start + self.name_length(e);
        &self.bytes[start..end]
    }

    // A symbolic link's body.
    pub fn body(self, n: usize) -> &'a [u8]
        requires { (n < (tree self).nodes) × ((tree self).first n + (tree self).count n ≤ (tree self).text_length) }
        ensures { result.now ≡ (tree self.entry).body n }
    {
        let start = self.text_at() + self.node_first(n);
        let end = start + self.node_count(n);
        &self.bytes[start..end]
    }
}
