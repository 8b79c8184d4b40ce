// The header's counts, and the fields of nodes, mounts and entries, by the record's number.
ghost use Rattle.std.specs.Prelude.{◌≡◌, ℕ, ◌+◌, ◌*◌, ◌^◌, ◌≤◌, ◌<◌, length};
ghost use Rattle.model.specs.Tree.{tree_of};
ghost use Rattle.laws.specs.Acceptance.{Sized};
ghost use Rattle.image.specs.Counts.{counts_of};

use crate::Image;
use fields::{u16_at, u32_at};
use parts::records::Counts;

// The header's counts: where mounts, entries and text begin follows from them.
pub fn read_counts(image: &[u8]) -> Counts
    requires { 20 ≤ length image.now }
    ensures { result ≡ counts_of image.now }
{
    Counts {
        nodes: u16_at(image, 4),
        mounts: u16_at(image, 6),
        entries: u16_at(image, 8),
    }
}

pub fn text_length(image: &[u8]) -> usize
    requires { 20 ≤ length image.now }
    ensures { (result ≡ (tree_of image.now).text_length) × (result < 2 ^ 32) }
{
    u32_at(image, 12)
}

impl<'a> Image<'a> {
    ghost use Rattle.model.specs.Tree.{sizes_of, mounts_at, entries_at, text_at};
    ghost use Rattle.image.specs.Images.{tree};

    // Of bytes whose sizes fit, with the counts that their header tells.
    pub fn of(bytes: &'a [u8]) -> Image<'a>
        requires { Sized bytes.now }
        ensures { (result.bytes ≡ bytes.entry) × (result.counts ≡ counts_of bytes.now) }
    {
        Image {
            bytes,
            counts: read_counts(bytes),
        }
    }

    // Where a node's record begins.
    fn node_at(self, n: usize) -> usize
        requires { n < (tree self).nodes }
        ensures { (result ≡ 20 + 12 * n) × (result + 12 ≤ length self.entry.bytes.now) }
    {
        20 + 12 * n
    }

    // Where a mount's record begins.
    fn mount_at(self, m: usize) -> usize
        requires { m < (tree self).mounts }
        ensures { (result ≡ mounts_at (sizes_of self.entry.bytes.now) + 8 * m) × (result + 8 ≤ length self.entry.bytes.now) }
    {
        20 + 12 * self.counts.nodes + 8 * m
    }

    // Where an entry's record begins.
    fn entry_at(self, e: usize) -> usize
        requires { e < (tree self).entries }
        ensures { (result ≡ entries_at (sizes_of self.entry.bytes.now) + 8 * e) × (result + 8 ≤ length self.entry.bytes.now) }
    {
        20 + 12 * self.counts.nodes + 8 * self.counts.mounts + 8 * e
    }

    // Where the text begins.
    pub fn text_at(self) -> usize
        ensures { (result ≡ text_at (sizes_of self.entry.bytes.now)) × (result + (tree self.entry).text_length ≡ length self.entry.bytes.now) }
    {
        20 + 12 * self.counts.nodes + 8 * self.counts.mounts + 8 * self.counts.entries
    }

    // A number, and no enum: a `match` on it tells the invalid range apart (DECISIONS, Forms).
    pub fn node_kind(self, n: usize) -> usize
        requires { n < (tree self).nodes }
        ensures { (result ≡ (tree self.entry).kind n) × (result < 2 ^ 16) }
    {
        u16_at(self.bytes, self.node_at(n))
    }

    pub fn node_parent(self, n: usize) -> usize
        requires { n < (tree self).nodes }
        ensures { (result ≡ (tree self.entry).parent n) × (result < 2 ^ 16) }
    {
        u16_at(self.bytes, self.node_at(n) + 2)
    }

    pub fn node_first(self, n: usize) -> usize
        requires { n < (tree self).nodes }
        ensures { (result ≡ (tree self.entry).first n) × (result < 2 ^ 32) }
    {
        u32_at(self.bytes, self.node_at(n) + 4)
    }

    pub fn node_count(self, n: usize) -> usize
        requires { n < (tree self).nodes }
        ensures { (result ≡ (tree self.entry).count n) × (result < 2 ^ 32) }
    {
        u32_at(self.bytes, self.node_at(n) + 8)
    }

    pub fn mount_root(self, m: usize) -> usize
        requires { m < (tree self).mounts }
        ensures { (result ≡ (tree self.entry).mount_root m) × (result < 2 ^ 16) }
    {
        u16_at(self.bytes, self.mount_at(m))
    }

    pub fn mount_parent(self, m: usize) -> usize
        requires { m < (tree self).mounts }
        ensures { (result ≡ (tree self.entry).mount_parent m) × (result < 2 ^ 16) }
    {
        u16_at(self.bytes, self.mount_at(m) + 2)
    }

    pub fn mount_point(self, m: usize) -> usize
        requires { m < (tree self).mounts }
        ensures { (result ≡ (tree self.entry).mount_point m) × (result < 2 ^ 16) }
    {
        u16_at(self.bytes, self.mount_at(m) + 4)
    }

    // A mount's point in its parent mount, both in one number, so that a search compares them at once.
    pub fn packed_point(self, m: usize) -> usize
        requires { m < (tree self).mounts }
        ensures { (result ≡ (tree self.entry).mount_parent m + 65536 * (tree self.entry).mount_point m) × ((tree self.entry).mount_parent m < 2 ^ 16) }
    {
        u32_at(self.bytes, self.mount_at(m) + 2)
    }

    pub fn name_offset(self, e: usize) -> usize
        requires { e < (tree self).entries }
        ensures { (result ≡ (tree self.entry).name_offset e) × (result < 2 ^ 32) }
    {
        u32_at(self.bytes, self.entry_at(e))
    }

    pub fn name_length(self, e: usize) -> usize
        requires { e < (tree self).entries }
        ensures { (result ≡ (tree self.entry).name_length e) × (result < 2 ^ 16) }
    {
        u16_at(self.bytes, self.entry_at(e) + 4)
    }

    pub fn entry_node(self, e: usize) -> usize
        requires { e < (tree self).entries }
        ensures { (result ≡ (tree self.entry).entry_node e) × (result < 2 ^ 16) }
    {
        u16_at(self.bytes, self.entry_at(e) + 6)
    }
}
