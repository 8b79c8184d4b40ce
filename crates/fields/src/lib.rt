// Little-endian fields. A wider one is made of two halves, so that one law over the width serves them all. Their results have other types, and
// one function over the width would need a loop over the bytes: no plainer, and maybe more than a single load.
#![tactic(auto)]

ghost use Rattle.std.specs.Prelude.{◌≡◌, ℕ, ◌+◌, ◌^◌, ◌≤◌, ◌<◌, length};
ghost use Rattle.model.specs.Bytes.{field};

#[tactic(auto, unfolding(model::specs::Bytes::field))]
pub fn u16_at(s: &[u8], at: usize) -> usize
    requires { at + 2 ≤ length s.now }
    ensures { (result ≡ field 2 s.now at) × (result < 2 ^ 16) }
{
    usize::from(s[at]) + 256 * usize::from(s[at + 1])
}

pub fn u32_at(s: &[u8], at: usize) -> usize
    requires { at + 4 ≤ length s.now }
    ensures { (result ≡ field 4 s.now at) × (result < 2 ^ 32) }
{
    u16_at(s, at) + 65536 * u16_at(s, at + 2)
}

pub fn u64_at(s: &[u8], at: usize) -> u64
    requires { at + 8 ≤ length s.now }
    ensures { (result ≡ field 8 s.now at) × (result < 2 ^ 64) }
{
    (u32_at(s, at) + 4294967296 * u32_at(s, at + 4)) as u64
}

// A field of 2 bytes at any position: a byte past the end reads as 0.
pub fn u16_within(s: &[u8], at: usize) -> usize
    ensures { (result ≡ field 2 s.now at) × (result < 2 ^ 16) }
{
    if s.len() <= at {
        return 0;
    }
    if s.len() <= at + 1 {
        return usize::from(s[at]);
    }
    u16_at(s, at)
}
