// Rule 5 of the table check: entry records, one function for each sentence. It goes over the directories and their entries inside,
// so that no owner is searched: the nodes keep rule 4, and so each entry is in one directory.
#![tactic(auto)]

mod names;

ghost use Rattle.std.specs.Prelude.{true, [], ◌≡◌, ◌-◌, ◌<◌};
ghost use Rattle.model.specs.Tree.{is_directory, first_in, count_in, entry_node_in};
ghost use Rattle.model.specs.TableCheck.{name_holds, stands_in_parent, entry_holds, rule5};
ghost use Rattle.laws.specs.Held.{Held};
ghost use Rattle.parts.specs.Parts.{entries_tree, NodeRecords};
ghost use Rattle.table_entries.specs.Given.{Given, Named};
ghost use Rattle.table_entries.specs.Ranges.{bad_in, bad_of, ascends_from, ends_entries};
ghost use Rattle.table_texts.specs.Barred.{sure_records};

use crate::names::name_holds;
use parts::records::{Counts, entry_node, node_count, node_first, node_kind, node_parent};
use parts::texts::name;
use string_order::comes_before;
use table_texts::sure_records;

// `first` is the first entry of the directory that holds the entry.
fn entry_ascends(entries: &[u8], text: &[u8], first: usize, e: usize) -> bool
    requires { Named entries.now text.now e × (first < e → Named entries.now text.now (e - 1)) }
    ensures { result ≡ ascends_from entries.now text.now first e }
{
    e <= first || comes_before(name(entries, text, e - 1), name(entries, text, e))
}

// An entry that names a directory stands in its parent, with a higher number. `n` is the directory that holds the entry.
fn stands_in_parent(nodes: &[u8], entries: &[u8], c: Counts, n: usize, e: usize) -> bool
    requires { Given c nodes.now entries.now [] × Held (entries_tree c nodes.now entries.now []) n e × (entry_node_in entries.now e < c.nodes) }
    ensures { result ≡ stands_in_parent (entries_tree c nodes.now entries.now []) e }
{
    let node = entry_node(entries, e);
    if node_kind(nodes, node) != 1 {
        return true;
    }
    let parent = node_parent(nodes, node);
    parent == n && parent < node
}

fn entry_holds(
    nodes: &[u8],
    entries: &[u8],
    text: &[u8],
    c: Counts,
    n: usize,
    first: usize,
    e: usize,
    sure: usize,
) -> bool
    requires { Given c nodes.now entries.now text.now × Held (entries_tree c nodes.now entries.now text.now) n e
        × (first ≡ first_in nodes.now n) × (first < e → name_holds (entries_tree c nodes.now entries.now text.now) (e - 1) ≡ true)
        × (sure ≡ sure_records true entries.now text.now c.entries) }
    ensures { result ≡ entry_holds (entries_tree c nodes.now entries.now text.now) e }
{
    if !name_holds(entries, text, c, e, sure)
        || c.nodes <= entry_node(entries, e)
        || !entry_ascends(entries, text, first, e)
    {
        return false;
    }
    stands_in_parent(nodes, entries, c, n, e)
}

fn bad_in_directory(
    nodes: &[u8],
    entries: &[u8],
    text: &[u8],
    c: Counts,
    n: usize,
    sure: usize,
) -> Option<usize>
    requires { Given c nodes.now entries.now text.now × (is_directory (entries_tree c nodes.now entries.now text.now) n ≡ true)
        × (sure ≡ sure_records true entries.now text.now c.entries) }
    ensures { result ≡ bad_in (entries_tree c nodes.now entries.now text.now)
        (first_in nodes.now n) (count_in nodes.now n) }
{
    let first = node_first(nodes, n);
    let end = first + node_count(nodes, n);
    for e in first..end {
        if !entry_holds(nodes, entries, text, c, n, first, e, sure) {
            return Some(e);
        }
    }
    None
}

fn bad_in_node(
    nodes: &[u8],
    entries: &[u8],
    text: &[u8],
    c: Counts,
    n: usize,
    sure: usize,
) -> Option<usize>
    requires { Given c nodes.now entries.now text.now × (n < c.nodes) × (sure ≡ sure_records true entries.now text.now c.entries) }
    ensures { result ≡ bad_of (entries_tree c nodes.now entries.now text.now) n }
{
    if node_kind(nodes, n) != 1 {
        return None;
    }
    bad_in_directory(nodes, entries, text, c, n, sure)
}

// Whether a directory has the last entry: the nodes after it have none.
fn ends_entries(nodes: &[u8], c: Counts, n: usize) -> bool
    requires { NodeRecords c nodes.now × (n < c.nodes) }
    ensures { result ≡ ends_entries c nodes.now n }
{
    node_kind(nodes, n) == 1 && node_first(nodes, n) + node_count(nodes, n) == c.entries
}

fn bad_entry(nodes: &[u8], entries: &[u8], text: &[u8], c: Counts, sure: usize) -> Option<usize>
    requires { Given c nodes.now entries.now text.now × (sure ≡ sure_records true entries.now text.now c.entries) }
    ensures { result ≡ rule5 (entries_tree c nodes.now entries.now text.now) }
{
    for n in 0..c.nodes {
        if let Some(e) = bad_in_node(nodes, entries, text, c, n, sure) {
            return Some(e);
        }
        if ends_entries(nodes, c, n) {
            return None;
        }
    }
    None
}

pub fn first_bad_entry(nodes: &[u8], entries: &[u8], text: &[u8], c: Counts) -> Option<usize>
    requires { Given c nodes.now entries.now text.now }
    ensures { result ≡ rule5 (entries_tree c nodes.now entries.now text.now) }
{
    if c.entries == 0 {
        return None;
    }
    bad_entry(
        nodes,
        entries,
        text,
        c,
        sure_records(entries, text, c.entries, true),
    )
}
