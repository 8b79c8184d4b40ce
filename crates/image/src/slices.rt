// The four parts of an image: node, mount and entry records, and the text.
ghost use Rattle.std.specs.Prelude.{◌≡◌};
ghost use Rattle.model.specs.Tree.{sizes_of, nodes_part, mounts_part, entries_part, text_part};

use crate::Image;

impl<'a> Image<'a> {
    pub fn nodes(self) -> &'a [u8]
        ensures { result.now ≡ nodes_part (sizes_of self.entry.bytes.now) self.entry.bytes.now }
    {
        let end = 20 + 12 * self.counts.nodes;
        &self.bytes[20..end]
    }

    pub fn mounts(self) -> &'a [u8]
        ensures { result.now ≡ mounts_part (sizes_of self.entry.bytes.now) self.entry.bytes.now }
    {
        let start = 20 + 12 * self.counts.nodes;
        let end = start + 8 * self.counts.mounts;
        &self.bytes[start..end]
    }

    pub fn entries(self) -> &'a [u8]
        ensures { result.now ≡ entries_part (sizes_of self.entry.bytes.now) self.entry.bytes.now }
    {
        let start = 20 + 12 * self.counts.nodes + 8 * self.counts.mounts;
        let end = start + 8 * self.counts.entries;
        &self.bytes[start..end]
    }

    // The text ends with the image.
    pub fn text(self) -> &'a [u8]
        ensures { result.now ≡ text_part (sizes_of self.entry.bytes.now) self.entry.bytes.now }
    {
        let start = self.text_at();
        &self.bytes[start..]
    }
}
