// "A reading place in the text that knows which bytes remain" (RULES 8.8): a `Reader` is a text and a position in it. `next_component`
// and `at_end` serve callers that hold a text and a position: they make the reader.
#![tactic(auto)]

ghost use Rattle.std.specs.Prelude.{◌≡◌, ◌≤◌, eqb, length, drop};
ghost use Rattle.text.specs.Positions.{next_start};
ghost use Rattle.reader.specs.Spans.{span_at};

use text::{component_end, skip_slashes};

// A text and a position in it: what remains are the bytes from there on.
#[derive(Clone, Copy)]
pub struct Reader<'a> {
    pub text: &'a [u8],
    pub at: usize,
}

// Where a component ends, and where the one after it starts, or where the text ends.
#[derive(Clone, Copy)]
pub struct Span {
    pub end: usize,
    pub next: usize,
}

impl<'a> Reader<'a> {
    // The reading place at a position of a text.
    pub fn at(text: &'a [u8], at: usize) -> Reader<'a>
        ensures { (result.text ≡ text.entry) × (result.at ≡ at) }
    {
        Reader { text, at }
    }

    // The bytes that remain, as a part of the text.
    pub fn remaining(self) -> &'a [u8]
        requires { self.at ≤ length self.text.now }
        ensures { result.now ≡ drop self.entry.at self.entry.text.now }
    {
        &self.text[self.at..]
    }

    // The component there: where it ends, and where the one after it starts.
    pub fn component(self) -> Span
        ensures { result ≡ span_at self.entry.text.now self.entry.at }
    {
        let end = component_end(self.text, self.at);
        let next = skip_slashes(self.text, end);
        Span { end, next }
    }

    // The reading place behind that component: where the one after it starts, in the same text.
    pub fn behind(self) -> Reader<'a>
        ensures { (result.text ≡ self.entry.text) × (result.at ≡ next_start self.entry.text.now self.entry.at) }
    {
        Reader {
            at: self.component().next,
            ..self
        }
    }
}

// The component at a position of a text.
pub fn next_component(text: &[u8], at: usize) -> Span
    ensures { result ≡ span_at text.now at }
{
    Reader::at(text, at).component()
}

// Whether no byte remains at a position of a text.
pub fn at_end(text: &[u8], at: usize) -> bool
    requires { at ≤ length text.now }
    ensures { result ≡ eqb at (length text.now) }
{
    Reader::at(text, at).remaining().is_empty()
}
