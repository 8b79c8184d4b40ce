// Byte strings: whether one holds a byte, whether two are the same, and which is "." or "..".
#![tactic(auto)]

ghost use Rattle.std.specs.Prelude.{◌≡◌, ◌≤◌, ◌<◌, length};
ghost use Rattle.model.specs.Bytes.{contains, same_bytes};
ghost use Rattle.strings.specs.Dots.{dots_of};

mod names;

use byte_blocks::deciding_eight;
use fields::{u16_at, u32_at, u64_at};
pub use names::Dots;

pub fn holds_byte(s: &[u8], b: u8) -> bool
    ensures { result ≡ contains b s.now }
{
    s.contains(&b)
}

// Whether two short strings of one length are the same. It returns at the first block that differs: names are told apart by it in a loop.
pub fn same_short(a: &[u8], b: &[u8]) -> bool
    requires { (length a.now ≡ length b.now) × (1 ≤ length a.now) × (length a.now < 8) }
    ensures { result ≡ same_bytes a.now b.now }
{
    let n = a.len();
    if n < 4 {
        return a[0] == b[0] && (n == 1 || u16_at(a, n - 2) == u16_at(b, n - 2));
    }
    u32_at(a, 0) == u32_at(b, 0) && u32_at(a, n - 4) == u32_at(b, n - 4)
}

pub fn same(a: &[u8], b: &[u8]) -> bool
    ensures { result ≡ same_bytes a.now b.now }
{
    let n = a.len();
    if n != b.len() {
        return false;
    }
    if n == 0 {
        return true;
    }
    if n < 8 {
        return same_short(a, b);
    }
    let at = deciding_eight(a, b, n - 8);
    u64_at(a, at) == u64_at(b, at)
}

#[tactic(auto, using(crate::proofs::DotLaws::same_dot, crate::proofs::DotLaws::same_dots))]
pub fn dots(name: &[u8]) -> Dots
    ensures { result ≡ dots_of name.now }
{
    match name {
        b"." => Dots::CurDir,
        b".." => Dots::ParentDir,
        _ => Dots::Normal,
    }
}
