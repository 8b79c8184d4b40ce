// Bytes that names and bodies may not hold, in a text that is marked once: a bit for each byte, by blocks of 64, and for each block the first
// barred byte behind it. A part of a marked text is then known to be clean in a few steps, however long it is.
#![tactic(auto)]

pub mod blocks;

ghost use Rattle.std.specs.Prelude.{replicate, ◌≡◌, ◌*◌, ◌/◌, ◌%◌, ◌≤◌, ◌<◌, length};
ghost use Rattle.text_marks.specs.Marks.{first_of, marks_in, Marked, NextBarred};

use crate::blocks::block_marks;

#[tactic(auto, unfolding(crate::specs::Marks::first_of))]
fn first_of(marks: u64, at: usize, behind: usize) -> usize
    requires { at ≤ 65536 }
    ensures { result ≡ first_of marks at behind }
{
    if marks == 0 {
        return behind;
    }
    at + (u64::trailing_zeros(marks) as usize)
}

// From the last block on, so that what is behind a block is known.
pub fn fill(text: &[u8], names: bool, marks: &mut [u64], behind: &mut [u16])
    requires { (length text.now ≤ 65535) × (1024 ≤ length marks.old) × (1024 ≤ length behind.old) }
    ensures { Marked names text.now (marks_in marks.new behind.new) × (1024 ≤ length marks.new) × (1024 ≤ length behind.new) }
{
    let mut next = text.len();
    for b in (0..text.len() / 64 + 1).rev() {
        behind[b] = next as u16;
        let bits = block_marks(text, names, 64 * b);
        marks[b] = bits;
        next = first_of(bits, 64 * b, next);
    }
}

// The first barred byte from a position on, else the text's end, of a text that has these marks.
pub fn next_barred(marks: &[u64], behind: &[u16], at: usize) -> usize
    requires { (at ≤ 65535) × (1024 ≤ length marks.now) × (1024 ≤ length behind.now) }
    ensures { NextBarred (marks_in marks.now behind.now) at result }
{
    let b = at / 64;
    first_of(marks[b] >> ((at % 64) as u64), at, usize::from(behind[b]))
}

// So many blocks of 64 bytes begin in a text that may be marked.
const BLOCKS: usize = 1024;

// For each block its marks, and the first barred byte behind it.
#[derive(Drop)]
pub struct Marks {
    pub bits: [u64; BLOCKS],
    pub behind: [u16; BLOCKS],
}

impl Marks {
    // Of no text yet.
    pub fn new() -> Marks
        ensures { (result.bits ≡ replicate 1024 0) × (result.behind ≡ replicate 1024 0) }
    {
        Marks {
            bits: [0; BLOCKS],
            behind: [0; BLOCKS],
        }
    }

    // The marks of a text.
    pub fn fill(&mut self, text: &[u8], names: bool)
        requires { length text.now ≤ 65535 }
        ensures { Marked names text.now self.new }
    {
        fill(text, names, &mut self.bits, &mut self.behind);
    }

    // By these marks.
    pub fn next_barred(&self, at: usize) -> usize
        requires { at ≤ 65535 }
        ensures { NextBarred self.now at result }
    {
        next_barred(&self.bits, &self.behind, at)
    }
}
