// Names and link bodies, as parts of the lent text.
ghost use Rattle.std.specs.Prelude.{◌≡◌, ◌+◌, ◌*◌, ◌≤◌, length};
ghost use Rattle.model.specs.Bytes.{part};
ghost use Rattle.model.specs.Tree.{first_in, count_in, body_in, name_offset_in, name_length_in, name_in};

use crate::records::{name_length, name_offset, node_count, node_first};

// The part of a text from a position on, so many bytes long.
fn cut<'a>(text: &'a [u8], at: usize, count: usize) -> &'a [u8]
    requires { at + count ≤ length text.now }
    ensures { result.now ≡ part text.now at count }
{
    let end = at + count;
    &text[at..end]
}

// An entry's name.
pub fn name<'a>(entries: &[u8], text: &'a [u8], e: usize) -> &'a [u8]
    requires { (8 * e + 8 ≤ length entries.now) × (name_offset_in entries.now e + name_length_in entries.now e ≤ length text.now) }
    ensures { result.now ≡ name_in entries.now text.now e }
{
    cut(text, name_offset(entries, e), name_length(entries, e))
}

// A symbolic link's body.
pub fn body<'a>(nodes: &[u8], text: &'a [u8], n: usize) -> &'a [u8]
    requires { (12 * n + 12 ≤ length nodes.now) × (first_in nodes.now n + count_in nodes.now n ≤ length text.now) }
    ensures { result.now ≡ body_in nodes.now text.now n }
{
    cut(text, node_first(nodes, n), node_count(nodes, n))
}
