// The checks of open_how (RULES 6): u64 flags, u16 mode, 6 padding bytes, u64 resolve.
#![tactic(auto)]

ghost use Rattle.std.specs.Prelude.{◌≡◌, ◌≤◌, ◌<◌, length};
ghost use Rattle.model.specs.Bytes.{has};
ghost use Rattle.model.specs.OpenHow.{unknown_bit, refuse_unknown, tail_set, length_refused, scopes_refused, mode_refused};
ghost use Rattle.checks.specs.Checks.{check_of};
ghost use Rattle.open_how.specs.Fields.{read_how};

use checks::refuse;
use fields::u64_at;
use model::{Errno, NOT_WALKED, Refusal};

pub const O_DIRECTORY: u64 = 0x10000;

pub const O_NOFOLLOW: u64 = 0x20000;

pub const O_PATH: u64 = 0x200000;

// Known, and without effect.
pub const O_CLOEXEC: u64 = 0x80000;

pub const KNOWN_FLAGS: u64 = O_DIRECTORY + O_NOFOLLOW + O_PATH + O_CLOEXEC;

pub const NO_XDEV: u64 = 1;

pub const NO_MAGICLINKS: u64 = 2;

pub const NO_SYMLINKS: u64 = 4;

pub const BENEATH: u64 = 8;

pub const IN_ROOT: u64 = 16;

pub const KNOWN_RESOLVE: u64 = NO_XDEV + NO_MAGICLINKS + NO_SYMLINKS + BENEATH + IN_ROOT;

// Whether a number has the bit whose value is given.
pub fn has(bit: u64, x: u64) -> bool
    requires { 0 < bit }
    ensures { result ≡ has bit x }
{
    x / bit % 2 == 1
}

// The bytes of an open_how's fields, and the most that one has.
pub const FIELDS: usize = 24;

const MOST_HOW: usize = 4096;

// The fields that a walk goes by: mode is 0 where it walks.
#[derive(Clone, Copy)]
pub struct How {
    pub flags: u64,
    pub resolve: u64,
}

// Whether a byte after the 24th is not zero. No early exit: the loop is then compiled to vector code.
fn tail_set(how: &[u8]) -> bool
    ensures { result ≡ tail_set how.now }
{
    let mut set = false;
    for i in FIELDS..how.len() {
        if how[i] != 0 {
            set = true;
        }
    }
    set
}

// Too short, too long, tail.
fn check_length(how: &[u8]) -> Result<(), Refusal>
    ensures { result ≡ check_of (length_refused how.now) }
{
    if how.len() < FIELDS {
        return refuse(Errno::Einval);
    }
    if MOST_HOW < how.len() {
        return refuse(Errno::E2big);
    }
    if tail_set(how) {
        return refuse(Errno::E2big);
    }
    Ok(())
}

// An unknown bit is named by its number, lowest first: b for bit b of flags, 64 + b for bit b of resolve. The base is 0 or 64.
fn check_bits(x: u64, known: u64, base: u32) -> Result<(), Refusal>
    requires { base ≤ 64 }
    ensures { result ≡ check_of (refuse_unknown base (unknown_bit known x)) }
{
    let unknown = x & !known;
    if unknown == 0 {
        return Ok(());
    }
    let detail = base + u64::trailing_zeros(unknown);
    Err(Refusal {
        errno: Errno::Einval,
        detail,
        progress: NOT_WALKED,
    })
}

// Both BENEATH and IN_ROOT.
fn check_scopes(resolve: u64) -> Result<(), Refusal>
    ensures { result ≡ check_of (scopes_refused resolve) }
{
    if has(BENEATH, resolve) && has(IN_ROOT, resolve) {
        return refuse(Errno::Einval);
    }
    Ok(())
}

// Mode or padding not zero: the eight bytes between flags and resolve, read as one number.
fn check_mode(how: &[u8]) -> Result<(), Refusal>
    requires { 24 ≤ length how.now }
    ensures { result ≡ check_of (mode_refused how.now) }
{
    if u64_at(how, 8) != 0 {
        return refuse(Errno::Einval);
    }
    Ok(())
}

// In this order: length, flags, resolve, both scopes, mode.
pub fn read_how(how: &[u8]) -> Result<How, Refusal>
    ensures { result ≡ read_how how.now }
{
    check_length(how)?;
    let flags = u64_at(how, 0);
    let resolve = u64_at(how, 16);
    check_bits(flags, KNOWN_FLAGS, 0)?;
    check_bits(resolve, KNOWN_RESOLVE, 64)?;
    check_scopes(resolve)?;
    check_mode(how)?;
    Ok(How { flags, resolve })
}
