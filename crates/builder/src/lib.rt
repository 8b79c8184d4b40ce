// Writes the image of the tree that four lent parts stand for, once every rule has judged it: any parts of any lengths to an image, or to a refusal.
#![tactic(auto)]

ghost use Rattle.std.specs.Prelude.{List, [], ◌≡◌, ℕ, ◌*◌, ◌^◌, ◌≤◌, length};
ghost use Rattle.model.specs.Tree.{name_length_in};
ghost use Rattle.model.specs.TableCheck.{sum_below};
ghost use Rattle.model.specs.Build.{records_whole, body_length, built, buffer_after};
ghost use Rattle.parts.specs.Parts.{nodes_tree};
ghost use Rattle.builder.specs.Counted.{parts_by, counts_in, too_many, FewRecords, lengths_of};

use image_writer::{Lengths, body_length, put_image};
use model::{Broken, Unbuilt};
use parts::records::{Counts, name_length};
use table::{MOST_IMAGE, check_records, counts_fit};

// How many bytes the names of all entries take.
fn names_length(entries: &[u8], c: Counts) -> usize
    requires { (8 * c.entries ≤ length entries.now) × (c.entries ≤ 8192) }
    ensures { (result ≡ sum_below (name_length_in entries.now) c.entries) × (result ≤ 2 ^ 16 * c.entries) }
{
    (0..c.entries).map(|e| name_length(entries, e)).sum()
}

// How many bytes the bodies of all symbolic links take.
fn bodies_length(nodes: &[u8], c: Counts) -> usize
    requires { (12 * c.nodes ≤ length nodes.now) × (c.nodes ≤ 8192) }
    ensures { (result ≡ sum_below (body_length (nodes_tree c nodes.now [])) c.nodes) × (result ≤ 2 ^ 32 * c.nodes) }
{
    (0..c.nodes).map(|n| body_length(nodes, n)).sum()
}

// How many whole records there are.
fn count(nodes: &[u8], mounts: &[u8], entries: &[u8]) -> Counts
    ensures { result ≡ counts_in nodes.now mounts.now entries.now }
{
    Counts {
        nodes: nodes.len() / 12,
        mounts: mounts.len() / 8,
        entries: entries.len() / 8,
    }
}

// Where records of one kind alone are longer than an image may be, what they say need not be added up.
fn too_many(c: Counts) -> bool
    ensures { result ≡ too_many c }
{
    MOST_IMAGE / 12 < c.nodes || MOST_IMAGE / 8 < c.mounts || MOST_IMAGE / 8 < c.entries
}

fn measure(nodes: &[u8], entries: &[u8], c: Counts) -> Lengths
    requires { FewRecords c nodes.now entries.now }
    ensures { result ≡ lengths_of c nodes.now entries.now }
{
    let names = names_length(entries, c);
    let text = names + bodies_length(nodes, c);
    let records = 12 * c.nodes + 8 * c.mounts + 8 * c.entries;
    Lengths {
        names,
        text,
        whole: 20 + records + text,
    }
}

// No part has bytes behind its last whole record.
fn records_whole(nodes: &[u8], mounts: &[u8], entries: &[u8], c: Counts) -> bool
    requires { c ≡ counts_in nodes.now mounts.now entries.now }
    ensures { (text : List ℕ) → result ≡ records_whole (parts_by nodes.now mounts.now entries.now text) }
{
    nodes.len() == 12 * c.nodes && mounts.len() == 8 * c.mounts && entries.len() == 8 * c.entries
}

// Nothing is written before the last rule is judged, and the room.
pub fn build(
    nodes: &[u8],
    mounts: &[u8],
    entries: &[u8],
    text: &[u8],
    out: &mut [u8],
) -> Result<usize, Unbuilt>
    ensures { (result ≡ built (parts_by nodes.now mounts.now entries.now text.now) (length out.old))
        × (out.new ≡ buffer_after (parts_by nodes.now mounts.now entries.now text.now) out.old) }
{
    let c = count(nodes, mounts, entries);
    if too_many(c) {
        return Err(Unbuilt::Breaks(Broken { rule: 1, record: 0 }));
    }
    let l = measure(nodes, entries, c);
    if MOST_IMAGE < l.whole {
        return Err(Unbuilt::Breaks(Broken { rule: 1, record: 0 }));
    }
    if !counts_fit(c) {
        return Err(Unbuilt::Breaks(Broken { rule: 3, record: 0 }));
    }
    if !records_whole(nodes, mounts, entries, c) {
        return Err(Unbuilt::Breaks(Broken { rule: 3, record: 0 }));
    }
    check_records(nodes, mounts, entries, text, c)?;
    if out.len() < l.whole {
        return Err(Unbuilt::Short(l.whole));
    }
    put_image(out, nodes, mounts, entries, text, c, l);
    Ok(l.whole)
}
