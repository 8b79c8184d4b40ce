// The marks of one block: a bit for each of its bytes, the first one lowest, set where the byte is barred.
ghost use Rattle.std.specs.Prelude.{cond, ◌≡◌, ◌+◌, ◌-◌, ◌≤◌, ◌<◌, eqb, length};
ghost use Rattle.model.specs.Bytes.{part, contains};
ghost use Rattle.barred_bytes.specs.Barred.{barred};
ghost use Rattle.text_marks.specs.Marks.{marks_of, block_marks};

use barred_bytes::{block_holds, is_barred};

const BLOCK: usize = 64;

fn weight(b: u8, byte: u8, value: u64) -> u64
    ensures { (result ≡ cond (eqb b byte) value 0) × (result ≤ value) }
{
    if b == byte {
        return value;
    }
    0
}

fn eight_marks(text: &[u8], byte: u8, at: usize) -> u64
    requires { at + 8 ≤ length text.now }
    ensures { (result ≡ marks_of (λ x. eqb x byte) text.now at 8) × (result < 256) }
{
    weight(text[at], byte, 1)
        + weight(text[at + 1], byte, 2)
        + weight(text[at + 2], byte, 4)
        + weight(text[at + 3], byte, 8)
        + weight(text[at + 4], byte, 16)
        + weight(text[at + 5], byte, 32)
        + weight(text[at + 6], byte, 64)
        + weight(text[at + 7], byte, 128)
}

fn full_marks(text: &[u8], byte: u8, at: usize) -> u64
    requires { at + 64 ≤ length text.now }
    ensures { result ≡ marks_of (λ x. eqb x byte) text.now at 64 }
{
    let mut marks = 0;
    for k in (0..8).rev() {
        marks = 256 * marks + eight_marks(text, byte, at + 8 * k);
    }
    marks
}

fn byte_marks(text: &[u8], byte: u8, at: usize) -> u64
    requires { at + 64 ≤ length text.now }
    ensures { result ≡ marks_of (λ x. eqb x byte) text.now at 64 }
{
    if !block_holds(text, byte, at, BLOCK) {
        return 0;
    }
    full_marks(text, byte, at)
}

// Of the last block, which is shorter.
fn short_marks(text: &[u8], names: bool, at: usize) -> u64
    requires { (at ≤ length text.now) × (length text.now < at + 64) }
    ensures { result ≡ marks_of (barred names) text.now at (length text.now - at) }
{
    let mut marks = 0;
    for i in (at..text.len()).rev() {
        marks = 2 * marks;
        if is_barred(text[i], names) {
            marks += 1;
        }
    }
    marks
}

// A byte is not both, so that the marks of zero bytes and of slashes are added.
pub fn block_marks(text: &[u8], names: bool, at: usize) -> u64
    requires { (at ≤ length text.now) × (length text.now ≤ 65535) }
    ensures { result ≡ block_marks names text.now at }
{
    if text.len() < at + BLOCK {
        return short_marks(text, names, at);
    }
    let zeros = byte_marks(text, 0, at);
    if !names {
        return zeros;
    }
    zeros + byte_marks(text, b'/', at)
}
