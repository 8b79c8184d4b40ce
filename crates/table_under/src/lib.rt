// The exact way to whether directories are under roots of mounts, for the records that the quick way does not settle. Each directory gets the
// row of the nearest mount root at or above it; a root's row has a bit for each root that it is under, so that a question is one bit.
#![tactic(auto)]

ghost use Rattle.std.specs.Prelude.{◌≡◌, ◌+◌, ◌*◌, ◌≤◌, ◌<◌, length};
ghost use Rattle.model.specs.Tree.{parent_in, mount_root_in};
ghost use Rattle.laws.specs.Acceptance.{DirectoriesHold};
ghost use Rattle.parts.specs.Parts.{mounts_tree, NodeRecords, MountRecords};
ghost use Rattle.table_leads.specs.Leads.{counted, lead_by, keeps, broken_from};
ghost use Rattle.table_under.specs.Rows.{bit_of, set_bit, copy_row, row_above, pass_to, pass_down, Fitting, Rooted, Numbered, within, Charted};

use parts::records::{Counts, mount_root, node_parent};
use table_leads::{Lead, first_unseen, lead_of};

// The most nodes that a table has: each has a number in a local array.
const NODES: usize = 4096;

// Four words for each of 256 mounts, and four that stay 0 for directories under no root.
const ROWS: usize = 1028;

// A number for each node, and a row of bits for each number.
#[derive(Drop)]
struct Chart {
    near: [u16; NODES],
    rows: [u64; ROWS],
}

fn copy_row(rows: &mut [u64; ROWS], from: usize, to: usize)
    requires { (from ≤ 256) × (to ≤ 256) }
    ensures { rows.new ≡ copy_row rows.old from to }
{
    rows.copy_within(4 * from..4 * from + 4, 4 * to);
}

fn set_bit(rows: &mut [u64; ROWS], row: usize, bit: usize)
    requires { (row ≤ 256) × (bit < 256) }
    ensures { rows.new ≡ set_bit rows.old row bit }
{
    let at = 4 * row + bit / 64;
    rows[at] |= 1u64 << (bit % 64);
}

fn has_bit(rows: &[u64; ROWS], row: usize, bit: usize) -> bool
    requires { (row ≤ 256) × (bit < 256) }
    ensures { result ≡ bit_of rows.now row bit }
{
    let word = rows[4 * row + bit / 64];
    (word >> (bit % 64)) % 2 == 1
}

impl Chart {
    // Gives a mount's root the mount's row.
    fn note_root(&mut self, mounts: &[u8], c: Counts, m: usize)
        requires { MountRecords c mounts.now × (m < c.mounts) × Rooted c.nodes (mount_root_in mounts.now) m self.old.near }
        ensures { Rooted c.nodes (mount_root_in mounts.now) (m + 1) self.new.near × (self.new.rows ≡ self.old.rows) }
    {
        let root = mount_root(mounts, m);
        if root < c.nodes {
            self.near[root] = (m + 1) as u16;
        }
    }

    fn note_roots(&mut self, mounts: &[u8], c: Counts)
        requires { MountRecords c mounts.now × Rooted c.nodes (mount_root_in mounts.now) 0 self.old.near }
        ensures { Rooted c.nodes (mount_root_in mounts.now) c.mounts self.new.near × (self.new.rows ≡ self.old.rows) }
    {
        for m in 0..c.mounts {
            self.note_root(mounts, c, m);
        }
    }

    // The row of the nearest root above a node: its parent's. A top, its own parent, has none.
    fn row_above(&self, nodes: &[u8], n: usize) -> u16
        requires { (12 * n + 12 ≤ length nodes.now) × (n < 4096) }
        ensures { result ≡ row_above (parent_in nodes.now) self.now.near n }
    {
        let parent = node_parent(nodes, n);
        if parent < n {
            return self.near[parent];
        }
        0
    }

    // A root's row is that of the root above it and its own bit; any other node has the row above.
    fn pass_to(&mut self, nodes: &[u8], n: usize)
        requires { (12 * n + 12 ≤ length nodes.now) × (n < 4096) × Fitting self.old }
        ensures { self.new ≡ pass_to (parent_in nodes.now) n self.old }
    {
        let above = self.row_above(nodes, n);
        let own = usize::from(self.near[n]);
        if own == 0 {
            self.near[n] = above;
            return;
        }
        copy_row(&mut self.rows, usize::from(above), own);
        set_bit(&mut self.rows, own, own - 1);
    }

    fn pass_down(&mut self, nodes: &[u8], c: Counts)
        requires { NodeRecords c nodes.now × Fitting self.old }
        ensures { self.new ≡ pass_down (parent_in nodes.now) c.nodes self.old }
    {
        for n in 0..c.nodes {
            self.pass_to(nodes, n);
        }
    }

    // Whether a directory is under a mount's root.
    fn is_within(&self, mounts: &[u8], c: Counts, mount: usize, node: usize) -> bool
        requires { MountRecords c mounts.now × Numbered c.nodes c.mounts (mount_root_in mounts.now) c.nodes self.now
            × (mount < c.mounts) × (node < c.nodes) }
        ensures { result ≡ within c.nodes self.now node (mount_root_in mounts.now mount) }
    {
        let root = mount_root(mounts, mount);
        root < c.nodes
            && has_bit(
                &self.rows,
                usize::from(self.near[node]),
                usize::from(self.near[root]) - 1,
            )
    }

    fn record_keeps(&self, nodes: &[u8], mounts: &[u8], c: Counts, links: bool, k: usize) -> bool
        requires { NodeRecords c nodes.now × MountRecords c mounts.now
            × Charted (mounts_tree c nodes.now mounts.now) c.nodes self.now × (k < counted links c) }
        ensures { result ≡ keeps (mounts_tree c nodes.now mounts.now)
            (lead_by links (mounts_tree c nodes.now mounts.now) k) }
    {
        match lead_of(nodes, mounts, c, links, k) {
            Lead::Settled => true,
            Lead::Into { mount, node } => self.is_within(mounts, c, mount, node),
            Lead::Dangling => false,
        }
    }

    fn first_failing(
        &self,
        nodes: &[u8],
        mounts: &[u8],
        c: Counts,
        links: bool,
        from: usize,
        end: usize,
    ) -> usize
        requires { NodeRecords c nodes.now × MountRecords c mounts.now
            × Charted (mounts_tree c nodes.now mounts.now) c.nodes self.now × (from ≤ end) × (end ≤ counted links c) }
        ensures { result ≡ broken_from links (mounts_tree c nodes.now mounts.now) from end }
    {
        for k in from..end {
            if !self.record_keeps(nodes, mounts, c, links, k) {
                return k;
            }
        }
        end
    }
}

// The lowest record from `from` on, below `end`, that breaks what its lead leaves of its rule, else `end`.
pub fn first_broken(
    nodes: &[u8],
    mounts: &[u8],
    c: Counts,
    links: bool,
    from: usize,
    end: usize,
) -> usize
    requires { NodeRecords c nodes.now × MountRecords c mounts.now × DirectoriesHold (mounts_tree c nodes.now mounts.now)
        × (from ≤ end) × (end ≤ counted links c) }
    ensures { result ≡ broken_from links (mounts_tree c nodes.now mounts.now) from end }
{
    let mut chart = Chart {
        near: [0; NODES],
        rows: [0; ROWS],
    };
    chart.note_roots(mounts, c);
    chart.pass_down(nodes, c);
    chart.first_failing(nodes, mounts, c, links, from, end)
}

// The same, by the quick way as far as that sees the rules kept, and from where it stops by the exact way. Links or mounts are a parameter of
// the code, so that neither way asks for each record which of them it is.
pub fn first_breaking<const LINKS: bool>(
    nodes: &[u8],
    mounts: &[u8],
    c: Counts,
    from: usize,
    end: usize,
) -> usize
    requires { NodeRecords c nodes.now × MountRecords c mounts.now × DirectoriesHold (mounts_tree c nodes.now mounts.now)
        × (from ≤ end) × (end ≤ counted LINKS c) }
    ensures { result ≡ broken_from LINKS (mounts_tree c nodes.now mounts.now) from end }
{
    let at = first_unseen(nodes, mounts, c, LINKS, from, end);
    if end <= at {
        return end;
    }
    first_broken(nodes, mounts, c, LINKS, at, end)
}
