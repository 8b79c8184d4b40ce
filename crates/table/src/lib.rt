// The table check: an image of any bytes and any length to accepted, or to the lowest rule broken with the lowest record.
#![tactic(auto)]

ghost use Rattle.std.specs.Prelude.{◌&&◌, ◌≡◌, ℕ, ◌^◌, ◌≤◌, ◌<◌, eqb, length, take};
ghost use Rattle.model.specs.Bytes.{field, same_bytes, ascii};
ghost use Rattle.model.specs.Tree.{sizes_of};
ghost use Rattle.model.specs.TableCheck.{counts_fit, whole_length, records_check, table_check};
ghost use Rattle.parts.specs.Parts.{parts_tree, NodeRecords, MountRecords, EntryRecords};
ghost use Rattle.image.specs.Counts.{counts_of};

use fields::{u16_at, u32_at};
use image::Image;
use image::records::{read_counts, text_length};
use model::Broken;
use parts::records::Counts;
use strings::same;
use table_entries::first_bad_entry;
use table_mounts::first_bad_mount;
use table_nodes::first_bad_node;
use table_targets::first_bad_target;

// The most bytes that an image has.
pub const MOST_IMAGE: usize = 65536;

// The most nodes, mounts and entries that a table has.
const MOST_NODES: usize = 4096;

const MOST_MOUNTS: usize = 256;

const MOST_ENTRIES: usize = 4096;

// Rule 2.
fn is_signed(image: &[u8]) -> bool
    requires { 20 ≤ length image.now }
    ensures { result ≡ same_bytes (take 4 image.now) (ascii "TOC1") && eqb (field 2 image.now 10) 0 }
{
    same(&image[..4], b"TOC1") && u16_at(image, 10) == 0
}

// Rule 3's counts.
pub fn counts_fit(c: Counts) -> bool
    ensures { (text : ℕ) → result ≡ counts_fit (record { nodes = c.nodes; mounts = c.mounts; entries = c.entries; text = text }) }
{
    if c.nodes == 0 || MOST_NODES < c.nodes || c.mounts == 0 || MOST_MOUNTS < c.mounts {
        return false;
    }
    c.entries <= MOST_ENTRIES
}

// Rule 3.
fn sizes_fit(image: &[u8], c: Counts, text: usize) -> bool
    requires { (20 ≤ length image.now) × (c ≡ counts_of image.now) × (text ≡ (sizes_of image.now).text) × (text < 2 ^ 32) }
    ensures { result ≡ counts_fit (sizes_of image.now) && eqb (field 4 image.now 16) (whole_length (sizes_of image.now))
        && eqb (length image.now) (whole_length (sizes_of image.now)) }
{
    if !counts_fit(c) {
        return false;
    }
    let whole = 20 + 12 * c.nodes + 8 * c.mounts + 8 * c.entries + text;
    u32_at(image, 16) == whole && image.len() == whole
}

// Rules 4 to 7 on four parts, each on what the ones before it have seen.
pub fn check_records(
    nodes: &[u8],
    mounts: &[u8],
    entries: &[u8],
    text: &[u8],
    c: Counts,
) -> Result<(), Broken>
    requires { NodeRecords c nodes.now × MountRecords c mounts.now × EntryRecords c entries.now }
    ensures { result ≡ records_check (parts_tree c nodes.now mounts.now entries.now text.now) }
{
    if let Some(record) = first_bad_node(nodes, text, c) {
        return Err(Broken { rule: 4, record });
    }
    if let Some(record) = first_bad_entry(nodes, entries, text, c) {
        return Err(Broken { rule: 5, record });
    }
    if let Some(record) = first_bad_mount(nodes, mounts, c) {
        return Err(Broken { rule: 6, record });
    }
    if let Some(record) = first_bad_target(nodes, mounts, c) {
        return Err(Broken { rule: 7, record });
    }
    Ok(())
}

// The image stays as it was.
pub fn check(image: &[u8]) -> Result<(), Broken>
    ensures { (result ≡ table_check image.now) × (image.exit.now ≡ image.entry.now) }
{
    if image.len() < 20 || MOST_IMAGE < image.len() {
        return Err(Broken { rule: 1, record: 0 });
    }
    if !is_signed(image) {
        return Err(Broken { rule: 2, record: 0 });
    }
    let c = read_counts(image);
    let text = text_length(image);
    if !sizes_fit(image, c, text) {
        return Err(Broken { rule: 3, record: 0 });
    }
    let table = Image {
        bytes: image,
        counts: c,
    };
    check_records(
        table.nodes(),
        table.mounts(),
        table.entries(),
        table.text(),
        c,
    )
}
