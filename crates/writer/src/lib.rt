// Lays bytes over a lent buffer from a position on: little-endian fields of any width up to eight bytes, and copies of lent bytes.
#![tactic(auto)]

ghost use Rattle.std.specs.Prelude.{[], ◌∷◌, ◌≡◌, ◌+◌, ◌-◌, ◌*◌, ◌/◌, ◌%◌, ◌≤◌, length, take};
ghost use Rattle.model.specs.Bytes.{field_bytes, fields_bytes, over, part};

use fields::u64_at;

// A field of W bytes.
pub fn put<const W: usize>(out: &mut [u8], at: usize, x: usize)
    requires { (W ≤ 8) × (at + W ≤ length out.old) }
    ensures { out.new ≡ over out.old at (field_bytes W x) }
{
    out[at..at + W].copy_from_slice(&(x as u64).to_le_bytes()[..W]);
}

// Two fields of W bytes, side by side.
pub fn put_two<const W: usize>(out: &mut [u8], at: usize, x: usize, y: usize)
    requires { (W ≤ 8) × (at + (W + W) ≤ length out.old) }
    ensures { out.new ≡ over out.old at (fields_bytes ((W, x) ∷ (W, y) ∷ [])) }
{
    put::<W>(out, at, x);
    put::<W>(out, at + W, y);
}

// A copy of eight of the lent bytes.
fn word(out: &mut [u8], at: usize, s: &[u8], k: usize)
    requires { (at + k + 8 ≤ length out.old) × (k + 8 ≤ length s.now) }
    ensures { out.new ≡ over out.old (at + k) (part s.now k 8) }
{
    put::<8>(out, at + k, u64_at(s, k) as usize);
}

// Copies of eight bytes each, up to the last one to eight.
fn words(out: &mut [u8], at: usize, s: &[u8])
    requires { (8 ≤ length s.now) × (at + length s.now ≤ length out.old) }
    ensures { out.new ≡ over out.old at (take (8 * ((length s.now - 1) / 8)) s.now) }
{
    for k in (0..s.len() - 8).step_by(8) {
        word(out, at, s, k);
    }
}

// A copy byte by byte: for so few, what a `copy_from_slice` sets up costs more than it saves.
fn few(out: &mut [u8], at: usize, s: &[u8])
    requires { at + length s.now ≤ length out.old }
    ensures { out.new ≡ over out.old at s.now }
{
    for k in 0..s.len() {
        out[at + k] = s[k];
    }
}

// A copy of lent bytes. Its last eight bytes are one word too, which may begin in a word that is laid already: so none is left to go byte by byte.
pub fn lay(out: &mut [u8], at: usize, s: &[u8])
    requires { at + length s.now ≤ length out.old }
    ensures { out.new ≡ over out.old at s.now }
{
    if s.len() < 8 {
        few(out, at, s);
        return;
    }
    words(out, at, s);
    word(out, at, s, s.len() - 8);
}
