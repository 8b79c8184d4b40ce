// Rule 4 of the table check: node records, one function for each sentence.
#![tactic(auto)]

ghost use Rattle.std.specs.Prelude.{false, [], ◌≡◌, ◌^◌, ◌<◌};
ghost use Rattle.model.specs.Tree.{kind_in};
ghost use Rattle.model.specs.TableCheck.{counts_before, directory_count, directory_holds, file_holds, symlink_holds, magic_holds, node_holds, rule4};
ghost use Rattle.parts.specs.Parts.{nodes_tree, NodeRecords};
ghost use Rattle.table_texts.specs.Barred.{sure_records};

use model::MOST_TEXT;
use parts::records::{Counts, node_count, node_first, node_kind, node_parent};
use parts::texts::body;
use strings::holds_byte;
use table_texts::sure_records;

// `sum` is the sum of earlier directories' counts. A parent numbered no higher than the node is below N, as the node is.
fn directory_holds(nodes: &[u8], c: Counts, n: usize, sum: usize) -> bool
    requires { NodeRecords c nodes.now × (n < c.nodes) × (sum ≡ counts_before (nodes_tree c nodes.now []) n) }
    ensures { result ≡ directory_holds (nodes_tree c nodes.now []) n }
{
    let parent = node_parent(nodes, n);
    if n < parent || node_kind(nodes, parent) != 1 {
        return false;
    }
    node_first(nodes, n) == sum
}

fn file_holds(nodes: &[u8], c: Counts, n: usize) -> bool
    requires { NodeRecords c nodes.now × (n < c.nodes) }
    ensures { result ≡ file_holds (nodes_tree c nodes.now []) n }
{
    if node_parent(nodes, n) != 0 || node_first(nodes, n) != 0 {
        return false;
    }
    node_count(nodes, n) == 0
}

// The bodies of nodes below `sure` are known to have no zero byte.
fn symlink_holds(nodes: &[u8], text: &[u8], c: Counts, n: usize, sure: usize) -> bool
    requires { NodeRecords c nodes.now × (n < c.nodes) × (kind_in nodes.now n ≡ 3) × (sure ≡ sure_records false nodes.now text.now c.nodes) }
    ensures { result ≡ symlink_holds (nodes_tree c nodes.now text.now) n }
{
    let count = node_count(nodes, n);
    if node_parent(nodes, n) != 0
        || text.len() < node_first(nodes, n) + count
        || count == 0
        || MOST_TEXT < count
    {
        return false;
    }
    n < sure || !holds_byte(body(nodes, text, n), 0)
}

fn magic_holds(nodes: &[u8], c: Counts, n: usize) -> bool
    requires { NodeRecords c nodes.now × (n < c.nodes) }
    ensures { result ≡ magic_holds (nodes_tree c nodes.now []) n }
{
    node_parent(nodes, n) == 0
}

// The kind number, and its invalid range, decide which sentence a record has to keep.
fn node_holds(
    nodes: &[u8],
    text: &[u8],
    c: Counts,
    n: usize,
    kind: usize,
    sum: usize,
    sure: usize,
) -> bool
    requires { NodeRecords c nodes.now × (n < c.nodes) × (kind ≡ kind_in nodes.now n)
        × (sum ≡ counts_before (nodes_tree c nodes.now text.now) n) × (sure ≡ sure_records false nodes.now text.now c.nodes) }
    ensures { result ≡ node_holds (nodes_tree c nodes.now text.now) n }
{
    match kind {
        1 => directory_holds(nodes, c, n, sum),
        2 => file_holds(nodes, c, n),
        3 => symlink_holds(nodes, text, c, n, sure),
        4 => magic_holds(nodes, c, n),
        _ => false,
    }
}

// What a node adds to the sum of directories' counts.
fn directory_count(nodes: &[u8], c: Counts, n: usize, kind: usize) -> usize
    requires { NodeRecords c nodes.now × (n < c.nodes) × (kind ≡ kind_in nodes.now n) }
    ensures { (result ≡ directory_count (nodes_tree c nodes.now []) n) × (result < 2 ^ 32) }
{
    if kind == 1 { node_count(nodes, n) } else { 0 }
}

pub fn first_bad_node(nodes: &[u8], text: &[u8], c: Counts) -> Option<usize>
    requires { NodeRecords c nodes.now }
    ensures { result ≡ rule4 (nodes_tree c nodes.now text.now) }
{
    let sure = sure_records(nodes, text, c.nodes, false);
    let mut sum = 0;
    for n in 0..c.nodes {
        let kind = node_kind(nodes, n);
        if !node_holds(nodes, text, c, n, kind, sum, sure) {
            return Some(n);
        }
        sum += directory_count(nodes, c, n, kind);
    }
    if sum != c.entries {
        return Some(c.nodes);
    }
    None
}
