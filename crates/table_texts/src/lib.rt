// Zero bytes and slashes in names and bodies. Most often the text has none at all. Where it has, names and bodies are read one by one; where
// these are many or share the text, so that it would be read again and again, it is marked once instead.
#![tactic(auto)]

ghost use Rattle.std.specs.Prelude.{ℕ, ◌≡◌, ◌+◌, ◌*◌, ◌^◌, ◌≤◌, ◌<◌, length};
ghost use Rattle.text_marks.specs.Marks.{Marked};
ghost use Rattle.table_texts.specs.Barred.{record_size, part_start, part_length, record_barred, first_barred, few_records, sure_records, seen_clean, longer_than, is_marked, FirstTold};

use barred_bytes::{body_holds, holds_barred};
use parts::lending::lend;
use parts::records::{name_length, name_offset, node_count, node_first, node_kind};
use text_marks::Marks;

// The most bytes of a text that is marked.
const MOST_MARKED: usize = 65535;

#[tactic(auto, unfolding(crate::specs::Barred::part_start))]
fn part_start(records: &[u8], names: bool, k: usize) -> usize
    requires { record_size names * k + record_size names ≤ length records.now }
    ensures { (result ≡ part_start names records.now k) × (result < 2 ^ 32) }
{
    if names {
        return name_offset(records, k);
    }
    node_first(records, k)
}

#[tactic(auto, unfolding(crate::specs::Barred::part_length))]
fn part_length(records: &[u8], names: bool, k: usize) -> usize
    requires { record_size names * k + record_size names ≤ length records.now }
    ensures { (result ≡ part_length names records.now k) × (result < 2 ^ 32) }
{
    if names {
        return name_length(records, k);
    }
    if node_kind(records, k) == 3 {
        return node_count(records, k);
    }
    0
}

fn read_barred(records: &[u8], text: &[u8], names: bool, k: usize) -> bool
    requires { record_size names * k + record_size names ≤ length records.now }
    ensures { result ≡ record_barred names records.now text.now k }
{
    let at = part_start(records, names, k);
    let end = at + part_length(records, names, k);
    if text.len() < end {
        return false;
    }
    let s = &text[at..end];
    if names {
        return holds_barred(s, true);
    }
    body_holds(s)
}

// The first record that a test tells barred, else their count.
fn first_told<F: Fn(usize) -> bool>(count: usize, told: F) -> usize
    requires { (k : ℕ) → k < count → F.pre told k }
    ensures { FirstTold (F.post told) count result }
{
    for k in 0..count {
        if told(k) {
            return k;
        }
    }
    count
}

fn first_read(records: &[u8], text: &[u8], count: usize, names: bool) -> usize
    requires { record_size names * count ≤ length records.now }
    ensures { result ≡ first_barred names records.now text.now count }
{
    first_told(count, |k| read_barred(records, text, names, k))
}

fn marked_barred(records: &[u8], text: &[u8], names: bool, marks: &Marks, k: usize) -> bool
    requires { Marked names text.now marks.now × (record_size names * k + record_size names ≤ length records.now) }
    ensures { result ≡ record_barred names records.now text.now k }
{
    let at = part_start(records, names, k);
    let end = at + part_length(records, names, k);
    if text.len() < end {
        return false;
    }
    marks.next_barred(at) < end
}

fn first_marked(records: &[u8], text: &[u8], count: usize, names: bool, marks: &Marks) -> usize
    requires { Marked names text.now marks.now × (record_size names * count ≤ length records.now) }
    ensures { result ≡ first_barred names records.now text.now count }
{
    first_told(count, |k| marked_barred(records, text, names, marks, k))
}

fn first_by_marks(records: &[u8], text: &[u8], count: usize, names: bool) -> usize
    requires { (length text.now ≤ 65535) × (record_size names * count ≤ length records.now) }
    ensures { result ≡ first_barred names records.now text.now count }
{
    let mut marks = Marks::new();
    marks.fill(text, names);
    first_marked(records, text, count, names, &marks)
}

#[tactic(auto, unfolding(crate::specs::Barred::seen_clean))]
fn text_clean(text: &[u8], count: usize, names: bool) -> bool
    ensures { result ≡ seen_clean names text.now count }
{
    let many = if names {
        16 + text.len() / 64
    } else {
        4 + text.len() / 32
    };
    many <= count && !holds_barred(text, names)
}

fn longer(records: &[u8], count: usize, names: bool, limit: usize) -> bool
    requires { (record_size names * count ≤ length records.now) × (count ≤ 4096) }
    ensures { result ≡ longer_than names records.now count limit }
{
    let mut sum = 0;
    for k in 0..count {
        sum += part_length(records, names, k);
        if limit < sum {
            return true;
        }
    }
    false
}

// Marks cost more than reading where the records are few, or short, and don't share the text.
#[tactic(auto, unfolding(crate::specs::Barred::is_marked))]
fn is_marked(records: &[u8], text: &[u8], count: usize, names: bool) -> bool
    requires { (record_size names * count ≤ length records.now) × (count ≤ 4096) }
    ensures { result ≡ is_marked names records.now text.now count }
{
    if MOST_MARKED < text.len() {
        return false;
    }
    let many = if names {
        256 + text.len() / 64
    } else {
        256 + text.len() / 8
    };
    many < count || longer(records, count, names, text.len() + 8192)
}

// The function with the marks is called from two places: it is then not made part of this one, whose calls need not its stack.
fn first_barred(records: &[u8], text: &[u8], count: usize, names: bool) -> usize
    requires { (record_size names * count ≤ length records.now) × (count ≤ 4096) }
    ensures { result ≡ first_barred names records.now text.now count }
{
    if text_clean(text, count, names) {
        return count;
    }
    if !is_marked(records, text, count, names) {
        return first_read(records, text, count, names);
    }
    if names {
        return first_by_marks(records, text, count, true);
    }
    first_by_marks(records, text, count, false)
}

// Names and bodies of small tables are read as they come: names then one byte after the other.
#[tactic(auto, unfolding(crate::specs::Barred::few_records))]
fn few_records(text: &[u8], count: usize, names: bool) -> bool
    ensures { result ≡ few_records names text.now count }
{
    if !names {
        return count < 10;
    }
    count < 16 && text.len() < 4 * count + 24
}

// How many of the records, from the first on, are known to have no barred byte. The search is called from two places, so that it is not made
// part of the rules' loops.
pub fn sure_records(records: &[u8], text: &[u8], count: usize, names: bool) -> usize
    requires { (record_size names * count ≤ length records.now) × (count ≤ 4096) }
    ensures { result ≡ sure_records names records.now text.now count }
{
    if few_records(text, count, names) {
        return 0;
    }
    if names {
        return first_barred(lend(records), lend(text), count, true);
    }
    first_barred(lend(records), lend(text), count, false)
}
