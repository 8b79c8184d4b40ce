// Writes the image of the tree that four parts stand for over the front of a lent buffer, part by part. Its callers have judged the parts.
#![tactic(auto)]

ghost use Rattle.std.specs.Prelude.{cond, List, [], ◌∷◌, ◌≡◌, ℕ, ◌+◌, ◌*◌, ◌^◌, ◌≤◌, ◌<◌, eqb, length};
ghost use Rattle.model.specs.Bytes.{fields_bytes, join_below, over};
ghost use Rattle.model.specs.Tree.{kind_in, parent_in, first_in, count_in, name_length_in, entry_node_in};
ghost use Rattle.model.specs.TableCheck.{sum_below, whole_length};
ghost use Rattle.model.specs.Build.{body_length, body_bytes, header_bytes, node_bytes, mount_bytes, entry_bytes, image_of};
ghost use Rattle.parts.specs.Parts.{parts_tree, nodes_tree, mounts_tree, NodeRecords, EntryRecords};
ghost use Rattle.parts.specs.declared.records.Counts.{Counts};
ghost use Rattle.image_writer.specs.Writing.{sizes_by, named_tree, NamesInside, BodiesInside, Fitting};

use parts::records::{
    Counts, entry_node, name_length, node_count, node_first, node_kind, node_parent,
};
use parts::texts::{body, name};
use writer::{lay, put, put_two};

// How many bytes the names take, the whole text, and the image.
#[derive(Clone, Copy)]
pub struct Lengths {
    pub names: usize,
    pub text: usize,
    pub whole: usize,
}

// The kind of a symbolic link.
const SYMLINK: usize = 3;

// How many bytes of the text a node's body takes.
pub fn body_length(nodes: &[u8], n: usize) -> usize
    requires { 12 * n + 12 ≤ length nodes.now }
    ensures { ((c : Counts) → result ≡ body_length (nodes_tree c nodes.now []) n) × (result < 2 ^ 32) }
{
    if node_kind(nodes, n) == SYMLINK {
        return node_count(nodes, n);
    }
    0
}

fn put_header(out: &mut [u8], c: Counts, l: Lengths)
    requires { (20 ≤ length out.old) × (l.whole ≡ whole_length (sizes_by c l.text)) }
    ensures { out.new ≡ over out.old 0 (header_bytes (sizes_by c l.text)) }
{
    lay(out, 0, b"TOC1");
    put_two::<2>(out, 4, c.nodes, c.mounts);
    put_two::<2>(out, 8, c.entries, 0);
    put_two::<4>(out, 12, l.text, l.whole);
}

// A node's first as it is written, a body beginning at a position of the text.
fn first_at(nodes: &[u8], n: usize, body: usize) -> usize
    requires { 12 * n + 12 ≤ length nodes.now }
    ensures { result ≡ cond (eqb (kind_in nodes.now n) 3) body (first_in nodes.now n) }
{
    if node_kind(nodes, n) == SYMLINK {
        return body;
    }
    node_first(nodes, n)
}

fn put_node(out: &mut [u8], at: usize, nodes: &[u8], n: usize, first: usize)
    requires { (12 * n + 12 ≤ length nodes.now) × (at + 12 ≤ length out.old) }
    ensures { out.new ≡ over out.old at
        (fields_bytes ((2, kind_in nodes.now n) ∷ (2, parent_in nodes.now n) ∷ (4, first) ∷ (4, count_in nodes.now n) ∷ [])) }
{
    put_two::<2>(out, at, node_kind(nodes, n), node_parent(nodes, n));
    put_two::<4>(out, at + 4, first, node_count(nodes, n));
}

fn put_nodes(out: &mut [u8], nodes: &[u8], c: Counts, names: usize)
    requires { NodeRecords c nodes.now × (20 + 12 * c.nodes ≤ length out.old) × (names < 2 ^ 32) }
    ensures { out.new ≡ over out.old 20 (join_below (node_bytes (nodes_tree c nodes.now []) names) c.nodes) }
{
    let mut body = names;
    for n in 0..c.nodes {
        put_node(out, 20 + 12 * n, nodes, n, first_at(nodes, n, body));
        body += body_length(nodes, n);
    }
}

// A mount's fields are written as they are, so its bytes are.
fn put_mounts(out: &mut [u8], from: usize, mounts: &[u8], c: Counts)
    requires { (length mounts.now ≡ 8 * c.mounts) × (from + 8 * c.mounts ≤ length out.old) }
    ensures { out.new ≡ over out.old from (join_below (mount_bytes (mounts_tree c [] mounts.now)) c.mounts) }
{
    lay(out, from, mounts);
}

fn put_entry(out: &mut [u8], at: usize, entries: &[u8], e: usize, name: usize)
    requires { (8 * e + 8 ≤ length entries.now) × (at + 8 ≤ length out.old) }
    ensures { out.new ≡ over out.old at
        (fields_bytes ((4, name) ∷ (2, name_length_in entries.now e) ∷ (2, entry_node_in entries.now e) ∷ [])) }
{
    put::<4>(out, at, name);
    put_two::<2>(out, at + 4, name_length(entries, e), entry_node(entries, e));
}

fn put_entries(out: &mut [u8], from: usize, entries: &[u8], c: Counts)
    requires { EntryRecords c entries.now × (from + 8 * c.entries ≤ length out.old) }
    ensures { out.new ≡ over out.old from (join_below (entry_bytes (named_tree c entries.now [])) c.entries) }
{
    let mut name = 0;
    for e in 0..c.entries {
        put_entry(out, from + 8 * e, entries, e, name);
        name += name_length(entries, e);
    }
}

// Parts of the text, each behind the one before it.
fn put_parts<'a, F: Fn(usize) -> &'a [u8]>(out: &mut [u8], from: usize, count: usize, part: F)
    requires called { (k : ℕ) → k < count → F.pre part k }
    requires room { (f : ℕ → List ℕ) × ((k : ℕ) (r : _) → k < count → F.post part k r → r.now ≡ f k)
        × (from + length (join_below f count) ≤ length out.old) }
    ensures { (f : ℕ → List ℕ) → ((k : ℕ) (r : _) → k < count → F.post part k r → r.now ≡ f k)
        → out.new ≡ over out.old from (join_below f count) }
{
    let mut at = from;
    for k in 0..count {
        let bytes = part(k);
        lay(out, at, bytes);
        at += bytes.len();
    }
}

fn put_names(out: &mut [u8], from: usize, entries: &[u8], text: &[u8], c: Counts)
    requires { EntryRecords c entries.now × NamesInside c entries.now text.now
        × (from + sum_below (name_length_in entries.now) c.entries ≤ length out.old) }
    ensures { out.new ≡ over out.old from (join_below (named_tree c entries.now text.now).name c.entries) }
{
    put_parts(out, from, c.entries, |e| name(entries, text, e));
}

// The body of a symbolic link, and of any other node nothing.
fn body_of<'a>(nodes: &[u8], text: &'a [u8], n: usize) -> &'a [u8]
    requires { (12 * n + 12 ≤ length nodes.now) × (kind_in nodes.now n ≡ 3 → first_in nodes.now n + count_in nodes.now n ≤ length text.now) }
    ensures { (c : Counts) → result.now ≡ body_bytes (nodes_tree c nodes.now text.now) n }
{
    if node_kind(nodes, n) == SYMLINK {
        return body(nodes, text, n);
    }
    &text[..0]
}

fn put_bodies(out: &mut [u8], from: usize, nodes: &[u8], text: &[u8], c: Counts)
    requires { NodeRecords c nodes.now × BodiesInside c nodes.now text.now
        × (from + sum_below (body_length (nodes_tree c nodes.now text.now)) c.nodes ≤ length out.old) }
    ensures { out.new ≡ over out.old from (join_below (body_bytes (nodes_tree c nodes.now text.now)) c.nodes) }
{
    put_parts(out, from, c.nodes, |n| body_of(nodes, text, n));
}

pub fn put_image(
    out: &mut [u8],
    nodes: &[u8],
    mounts: &[u8],
    entries: &[u8],
    text: &[u8],
    c: Counts,
    l: Lengths,
)
    requires { Fitting c nodes.now mounts.now entries.now text.now l (length out.old) }
    ensures { out.new ≡ over out.old 0
        (image_of (parts_tree c nodes.now mounts.now entries.now text.now)) }
{
    put_header(out, c, l);
    put_nodes(out, nodes, c, l.names);
    let mounts_at = 20 + 12 * c.nodes;
    put_mounts(out, mounts_at, mounts, c);
    let entries_at = mounts_at + 8 * c.mounts;
    put_entries(out, entries_at, entries, c);
    let text_at = entries_at + 8 * c.entries;
    put_names(out, text_at, entries, text, c);
    put_bodies(out, text_at + l.names, nodes, text, c);
}
