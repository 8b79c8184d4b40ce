// Bytes that names and bodies may not hold: whether a string that is read holds one.
#![tactic(auto)]

ghost use Rattle.std.specs.Prelude.{true, false, ◌≡◌, ◌+◌, ◌*◌, ◌≤◌, ◌<◌, length};
ghost use Rattle.model.specs.Bytes.{part, contains};
ghost use Rattle.barred_bytes.specs.Barred.{holds_barred, barred};

use strings::holds_byte;

// A zero byte is barred everywhere, a slash in names.
#[tactic(auto, unfolding(crate::specs::Barred::barred))]
pub fn is_barred(b: u8, names: bool) -> bool
    ensures { result ≡ barred names b }
{
    b == 0 || (names && b == b'/')
}

// Whether a byte stands in a part of so many bytes. No early exit: where their number is written at the call, the loop is compiled to a few
// vector instructions, with nothing to set up.
pub fn block_holds(s: &[u8], byte: u8, at: usize, width: usize) -> bool
    requires { at + width ≤ length s.now }
    ensures { result ≡ contains byte (part s.now at width) }
{
    let mut found = false;
    for i in 0..width {
        if s[at + i] == byte {
            found = true;
        }
    }
    found
}

#[tactic(auto, unfolding(crate::specs::Barred::holds_barred))]
fn eight_holds(s: &[u8], at: usize) -> bool
    requires { at + 8 ≤ length s.now }
    ensures { result ≡ holds_barred true (part s.now at 8) }
{
    block_holds(s, 0, at, 8) || block_holds(s, b'/', at, 8)
}

// Of a name of 8 to 16 bytes: its first eight, and its last eight, which may overlap them.
fn eights_hold(s: &[u8]) -> bool
    requires { (8 ≤ length s.now) × (length s.now ≤ 16) }
    ensures { result ≡ holds_barred true s.now }
{
    eight_holds(s, 0) || eight_holds(s, s.len() - 8)
}

// Of a name, byte by byte.
pub fn short_holds(s: &[u8]) -> bool
    ensures { result ≡ holds_barred true s.now }
{
    for b in s {
        if is_barred(*b, true) {
            return true;
        }
    }
    false
}

// Of a body of so many bytes to twice as many: its first, and its last, which may overlap them.
fn ends_hold<const WIDTH: usize>(s: &[u8]) -> bool
    requires { (WIDTH ≤ length s.now) × (length s.now ≤ 2 * WIDTH) }
    ensures { result ≡ holds_barred false s.now }
{
    block_holds(s, 0, 0, WIDTH) || block_holds(s, 0, s.len() - WIDTH, WIDTH)
}

// Whether a zero byte or a slash stands in a part of so many bytes: both are looked for at once, with a flag for each, and the loop is compiled as
// that of `block_holds` is.
fn either_holds(s: &[u8], at: usize, width: usize) -> bool
    requires { at + width ≤ length s.now }
    ensures { result ≡ holds_barred true (part s.now at width) }
{
    let mut zero = false;
    let mut slash = false;
    for k in 0..width {
        if s[at + k] == 0 {
            zero = true;
        }
        if s[at + k] == b'/' {
            slash = true;
        }
    }
    zero || slash
}

// Whether a barred byte stands in a part of so many bytes. Their number is an argument, so that this is made part of the loop over blocks before it
// is unrolled.
fn block_barred(s: &[u8], names: bool, at: usize, width: usize) -> bool
    requires { at + width ≤ length s.now }
    ensures { result ≡ holds_barred names (part s.now at width) }
{
    if names {
        return either_holds(s, at, width);
    }
    block_holds(s, 0, at, width)
}

// Of a name or a body of so many bytes or more, one block after the other; the last one ends with it, and may overlap the one before.
fn blocks_hold<const WIDTH: usize, const NAMES: bool>(s: &[u8]) -> bool
    requires { (0 < WIDTH) × (WIDTH ≤ length s.now) }
    ensures { result ≡ holds_barred NAMES s.now }
{
    let last = s.len() - WIDTH;
    for k in (0..last).step_by(WIDTH) {
        if block_barred(s, NAMES, k, WIDTH) {
            return true;
        }
    }
    block_barred(s, NAMES, last, WIDTH)
}

// Blocks of a length that is written here cost less than a search over the body's own. Bodies of less than 8 and of 33 to 63 bytes are searched.
pub fn body_holds(s: &[u8]) -> bool
    ensures { result ≡ holds_barred false s.now }
{
    match s.len() {
        8..=15 => ends_hold::<8>(s),
        16..=32 => ends_hold::<16>(s),
        64.. => blocks_hold::<64, false>(s),
        _ => holds_byte(s, 0),
    }
}

// Blocks cost less than two searches over a name's own length, which would go over it twice. Names of less than 8 bytes are read byte by byte.
pub fn holds_barred(s: &[u8], names: bool) -> bool
    ensures { result ≡ holds_barred names s.now }
{
    if !names {
        return holds_byte(s, 0);
    }
    match s.len() {
        0..=7 => short_holds(s),
        8..=15 => eights_hold(s),
        16..=31 => blocks_hold::<16, true>(s),
        32..=63 => blocks_hold::<32, true>(s),
        _ => blocks_hold::<64, true>(s),
    }
}
