// Strings compared by blocks of four or eight bytes, each a single load, and long ones by 32 bytes at a time before that. What decides
// is the first block that differs, or the last one, which may overlap the one before it so that no bytes are left over.
// A number is read as two halves, at each width by a function of its own: over the width it would be a loop over the bytes, which is no plainer.
#![tactic(auto)]

ghost use Rattle.std.specs.Prelude.{Bool, ◌≡◌, ℕ, ◌+◌, ◌^◌, ◌≤◌, ◌<◌, length};
ghost use Rattle.byte_blocks.specs.Blocks.{big_endian, reversed, Deciding, differ, first_differing};

use fields::{u32_at, u64_at};

fn big16_at(s: &[u8], at: usize) -> u64
    requires { at + 2 ≤ length s.now }
    ensures { (result ≡ big_endian 2 s.now at) × (result < 2 ^ 16) }
{
    256 * u64::from(s[at]) + u64::from(s[at + 1])
}

pub fn big32_at(s: &[u8], at: usize) -> u64
    requires { at + 4 ≤ length s.now }
    ensures { (result ≡ big_endian 4 s.now at) × (result < 2 ^ 32) }
{
    65536 * big16_at(s, at) + big16_at(s, at + 2)
}

// The compiler makes one instruction of it. Eight bytes highest first, read one by one, would be eight loads.
fn reversed64(x: u64) -> u64
    ensures { result ≡ reversed 8 x }
{
    x / 72057594037927936
        + 256 * (x / 281474976710656 % 256)
        + 65536 * (x / 1099511627776 % 256)
        + 16777216 * (x / 4294967296 % 256)
        + 4294967296 * (x / 16777216 % 256)
        + 1099511627776 * (x / 65536 % 256)
        + 281474976710656 * (x / 256 % 256)
        + 72057594037927936 * (x % 256)
}

pub fn big64_at(s: &[u8], at: usize) -> u64
    requires { at + 8 ≤ length s.now }
    ensures { result ≡ big_endian 8 s.now at }
{
    reversed64(u64_at(s, at))
}

pub fn deciding_four(a: &[u8], b: &[u8], last: usize) -> usize
    requires { (last ≤ 4) × (last + 4 ≤ length a.now) × (last + 4 ≤ length b.now) }
    ensures { Deciding 4 a.now b.now last result }
{
    if u32_at(a, 0) != u32_at(b, 0) {
        return 0;
    }
    last
}

// The first block that is told to differ, or the last one. The strings stand in its contract alone.
fn first_block<const WIDTH: usize, F: Fn(usize) -> bool>(
    a: &[u8],
    b: &[u8],
    last: usize,
    other: F,
) -> usize
    requires within { (0 < WIDTH) × (last + WIDTH ≤ length a.now) × (last + WIDTH ≤ length b.now) }
    requires called { (i : ℕ) → i < last → F.pre other i }
    requires told { (i : ℕ) (r : Bool) → i < last → F.post other i r → r ≡ differ WIDTH a.now b.now i }
    ensures { Deciding WIDTH a.now b.now last result }
{
    // A `step_by` costs three instructions more for each block: it tests besides that the next index does not overflow.
    let mut i = 0;
    while i < last {
        if other(i) {
            return i;
        }
        i += WIDTH;
    }
    last
}

pub fn deciding_eight(a: &[u8], b: &[u8], last: usize) -> usize
    requires { (last + 8 ≤ length a.now) × (last + 8 ≤ length b.now) }
    ensures { Deciding 8 a.now b.now last result }
{
    first_block::<8, _>(a, b, last, |i| u64_at(a, i) != u64_at(b, i))
}

// Whether the 32 bytes from `i` on differ. No early exit and always 32 steps: a few vector instructions, with nothing to set up.
fn differs(a: &[u8], b: &[u8], i: usize) -> bool
    requires { (i + 32 ≤ length a.now) × (i + 32 ≤ length b.now) }
    ensures { result ≡ differ 32 a.now b.now i }
{
    let mut found = false;
    for k in i..i + 32 {
        if a[k] != b[k] {
            found = true;
        }
    }
    found
}

fn deciding_thirty_two(a: &[u8], b: &[u8], last: usize) -> usize
    requires { (last + 32 ≤ length a.now) × (last + 32 ≤ length b.now) }
    ensures { Deciding 32 a.now b.now last result }
{
    first_block::<32, _>(a, b, last, |i| differs(a, b, i))
}

// Of the 32 bytes at `at` the first block of eight that differs, or the last of the four.
fn eight_within(a: &[u8], b: &[u8], at: usize) -> usize
    requires { (at + 32 ≤ length a.now) × (at + 32 ≤ length b.now) }
    ensures { result ≡ first_differing 8 3 a.now b.now at }
{
    if u64_at(a, at) != u64_at(b, at) {
        return at;
    }
    if u64_at(a, at + 8) != u64_at(b, at + 8) {
        return at + 8;
    }
    if u64_at(a, at + 16) != u64_at(b, at + 16) {
        return at + 16;
    }
    at + 24
}

// By 32 bytes at a time: the last 32 end where the last eight do.
fn deciding_far(a: &[u8], b: &[u8], last: usize) -> usize
    requires { (24 ≤ last) × (last + 8 ≤ length a.now) × (last + 8 ≤ length b.now) }
    ensures { Deciding 8 a.now b.now last result }
{
    eight_within(a, b, deciding_thirty_two(a, b, last - 24))
}

fn deciding_long(a: &[u8], b: &[u8], last: usize) -> usize
    requires { (last + 8 ≤ length a.now) × (last + 8 ≤ length b.now) }
    ensures { Deciding 8 a.now b.now last result }
{
    if last < 24 {
        return deciding_eight(a, b, last);
    }
    deciding_far(a, b, last)
}

// The four bytes that decide. A block of eight that decides is halved: its bytes highest first are not read by a single load.
pub fn deciding(a: &[u8], b: &[u8], last: usize) -> usize
    requires { (last + 4 ≤ length a.now) × (last + 4 ≤ length b.now) }
    ensures { Deciding 4 a.now b.now last result }
{
    if last < 4 {
        return deciding_four(a, b, last);
    }
    let at = deciding_long(a, b, last - 4);
    if u32_at(a, at) != u32_at(b, at) {
        return at;
    }
    at + 4
}
