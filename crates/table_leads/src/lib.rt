// What a record alone tells of rules 6 and 7, and the quick way to what is left: whether a directory is under a mount's root. The quick
// way follows parents for a number of steps that all records share, and goes as far as records are seen to keep their rule.
#![tactic(auto)]

ghost use Rattle.std.specs.Prelude.{true, [], ◌≡◌, ◌-◌, ◌≤◌, ◌<◌};
ghost use Rattle.model.specs.Tree.{is_directory, parent_in};
ghost use Rattle.laws.specs.Acceptance.{DirectoriesHold};
ghost use Rattle.parts.specs.Parts.{mounts_tree, NodeRecords, MountRecords};
ghost use Rattle.table_leads.specs.Leads.{point_lead, hangs_lead, mount_lead, link_lead, counted, lead_by, settled};
ghost use Rattle.table_leads.specs.Climbs.{climbed, steps_after, budget, unseen_from};

use parts::records::{
    Counts, is_directory, mount_parent, mount_point, mount_root, mount_zero, node_count,
    node_first, node_kind, node_parent,
};

// What a mount's or a magic link's own record tells of its rule.
#[derive(Clone, Copy)]
pub enum Lead {
    // The rule is kept.
    Settled,
    // It is kept if the node, a directory, is under the mount's root.
    Into { mount: usize, node: usize },
    // It is broken.
    Dangling,
}

fn mount_0_lead(mounts: &[u8], c: Counts) -> Lead
    requires { MountRecords c mounts.now }
    ensures { result ≡ hangs_lead (mounts_tree c [] mounts.now) 0 }
{
    if mount_parent(mounts, 0) == 0 && mount_point(mounts, 0) == mount_root(mounts, 0) {
        return Lead::Settled;
    }
    Lead::Dangling
}

fn point_lead(nodes: &[u8], mounts: &[u8], c: Counts, m: usize) -> Lead
    requires { NodeRecords c nodes.now × MountRecords c mounts.now × (m < c.mounts) }
    ensures { result ≡ point_lead (mounts_tree c nodes.now mounts.now) m }
{
    let parent = mount_parent(mounts, m);
    let point = mount_point(mounts, m);
    if parent < m && is_directory(nodes, c, point) && point != mount_root(mounts, parent) {
        return Lead::Into {
            mount: parent,
            node: point,
        };
    }
    Lead::Dangling
}

// Rule 6, but for mounts that share parent and point.
pub fn mount_lead(nodes: &[u8], mounts: &[u8], c: Counts, m: usize) -> Lead
    requires { NodeRecords c nodes.now × MountRecords c mounts.now × (m < c.mounts) }
    ensures { result ≡ mount_lead (mounts_tree c nodes.now mounts.now) m }
{
    if !is_directory(nodes, c, mount_root(mounts, m)) || mount_zero(mounts, m) != 0 {
        return Lead::Dangling;
    }
    if m == 0 {
        return mount_0_lead(mounts, c);
    }
    point_lead(nodes, mounts, c, m)
}

// Rule 7.
pub fn link_lead(nodes: &[u8], c: Counts, n: usize) -> Lead
    requires { NodeRecords c nodes.now × (n < c.nodes) }
    ensures { result ≡ link_lead (mounts_tree c nodes.now []) n }
{
    if node_kind(nodes, n) != 4 {
        return Lead::Settled;
    }
    let mount = node_first(nodes, n);
    let target = node_count(nodes, n);
    if c.mounts <= mount || c.nodes <= target {
        return Lead::Dangling;
    }
    let kind = node_kind(nodes, target);
    match kind {
        1 => Lead::Into {
            mount,
            node: target,
        },
        2 => Lead::Settled,
        _ => Lead::Dangling,
    }
}

pub fn is_settled(l: Lead) -> bool
    ensures { result ≡ settled l }
{
    matches!(l, Lead::Settled)
}

// Of magic links, or else of mounts.
pub fn lead_of(nodes: &[u8], mounts: &[u8], c: Counts, links: bool, k: usize) -> Lead
    requires { NodeRecords c nodes.now × MountRecords c mounts.now × (k < counted links c) }
    ensures { result ≡ lead_by links (mounts_tree c nodes.now mounts.now) k }
{
    if links {
        return link_lead(nodes, c, k);
    }
    mount_lead(nodes, mounts, c, k)
}

// Follows parents from a directory to a root, in as many steps as are left, and tells how many are left then. None, where the root was not
// met in time, tells nothing of the directory. At the top of a tree, its own parent, the steps run out.
fn climb(nodes: &[u8], c: Counts, n: usize, root: usize, steps: usize) -> Option<usize>
    requires { NodeRecords c nodes.now × DirectoriesHold (mounts_tree c nodes.now []) × (is_directory (mounts_tree c nodes.now []) n ≡ true) }
    ensures { result ≡ climbed (parent_in nodes.now) steps n root }
{
    let mut k = n;
    for left in (0..steps).rev() {
        if k <= root {
            return (k == root).then_some(left + 1);
        }
        k = node_parent(nodes, k);
    }
    None
}

// How many of the steps are left after a record that is seen to keep its rule.
fn steps_left(
    nodes: &[u8],
    mounts: &[u8],
    c: Counts,
    links: bool,
    k: usize,
    steps: usize,
) -> Option<usize>
    requires { NodeRecords c nodes.now × MountRecords c mounts.now × DirectoriesHold (mounts_tree c nodes.now mounts.now) × (k < counted links c) }
    ensures { result ≡ steps_after (mounts_tree c nodes.now mounts.now)
        (lead_by links (mounts_tree c nodes.now mounts.now) k) steps }
{
    match lead_of(nodes, mounts, c, links, k) {
        Lead::Settled => Some(steps),
        Lead::Into { mount, node } => climb(nodes, c, node, mount_root(mounts, mount), steps),
        Lead::Dangling => None,
    }
}

// Steps for small tables, beside those that grow with the nodes.
const SPARE: usize = 512;

// The lowest record from `from` on, below `end`, that is not seen to keep its rule, else `end`.
pub fn first_unseen(
    nodes: &[u8],
    mounts: &[u8],
    c: Counts,
    links: bool,
    from: usize,
    end: usize,
) -> usize
    requires { NodeRecords c nodes.now × MountRecords c mounts.now × DirectoriesHold (mounts_tree c nodes.now mounts.now)
        × (from ≤ end) × (end ≤ counted links c) }
    ensures { result ≡ unseen_from links (mounts_tree c nodes.now mounts.now) from (end - from) (budget c) }
{
    let mut left = 2 * c.nodes + SPARE;
    for k in from..end {
        let Some(rest) = steps_left(nodes, mounts, c, links, k, left) else {
            return k;
        };
        left = rest;
    }
    end
}
