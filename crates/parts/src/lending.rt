// A slice made anew where it is passed on. One that is passed on as it came is kept in memory for that from the start, also where the call is
// not made.
ghost use Rattle.std.specs.Prelude.{◌≡◌};

pub fn lend<'a>(s: &'a [u8]) -> &'a [u8]
    ensures { result.now ≡ s.now }
{
    &s[0..]
}
