// Rule 7 of the table check: the targets of magic links. A first pass goes as far as records alone keep the rule. From there on the quick way
// goes as far as it sees the rule kept, and from where it stops the exact way decides.
#![tactic(auto)]

ghost use Rattle.std.specs.Prelude.{true, ◌≡◌, []};
ghost use Rattle.model.specs.TableCheck.{rule7};
ghost use Rattle.laws.specs.Acceptance.{DirectoriesHold};
ghost use Rattle.parts.specs.Parts.{mounts_tree, NodeRecords, MountRecords};
ghost use Rattle.table_leads.specs.Leads.{broken_from};
ghost use Rattle.table_targets.specs.Targets.{first_unsettled};

use parts::lending::lend;
use parts::records::Counts;
use table_leads::{is_settled, link_lead};
use table_under::first_breaking;

// The lowest node whose record alone does not keep the rule, else the number of nodes.
fn first_unsettled(nodes: &[u8], c: Counts) -> usize
    requires { NodeRecords c nodes.now }
    ensures { result ≡ first_unsettled (mounts_tree c nodes.now []) }
{
    for n in 0..c.nodes {
        if !is_settled(link_lead(nodes, c, n)) {
            return n;
        }
    }
    c.nodes
}

// The lowest node that breaks the rule, else the number of nodes. What the search is lent is made where it is called, so that a table without
// magic links to directories does not pay for it.
fn first_bad(nodes: &[u8], mounts: &[u8], c: Counts) -> usize
    requires { NodeRecords c nodes.now × MountRecords c mounts.now × DirectoriesHold (mounts_tree c nodes.now mounts.now) }
    ensures { result ≡ broken_from true (mounts_tree c nodes.now mounts.now) 0 c.nodes }
{
    let end = c.nodes;
    let from = first_unsettled(nodes, c);
    if end <= from {
        return end;
    }
    let d = c;
    first_breaking::<true>(lend(nodes), lend(mounts), d, from, end)
}

// The lowest node whose magic link has a bad target.
pub fn first_bad_target(nodes: &[u8], mounts: &[u8], c: Counts) -> Option<usize>
    requires { NodeRecords c nodes.now × MountRecords c mounts.now × DirectoriesHold (mounts_tree c nodes.now mounts.now) }
    ensures { result ≡ rule7 (mounts_tree c nodes.now mounts.now) }
{
    let n = first_bad(nodes, mounts, c);
    if n < c.nodes {
        return Some(n);
    }
    None
}
