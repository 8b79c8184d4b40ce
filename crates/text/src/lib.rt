// Texts, that is the given path and the bodies of symbolic links: which bytes one has, and where in it the next component starts
// and ends.
#![tactic(auto)]

ghost use Rattle.std.specs.Prelude.{◌≡◌, ℕ, ◌≤◌, length};
ghost use Rattle.model.specs.Path.{absolute, ends_in_slash};
ghost use Rattle.image.specs.Images.{tree};
ghost use Rattle.text.specs.Positions.{component_end, past_slashes};
ghost use Rattle.text.specs.Texts.{text_of, between, Readable};

use image::Image;

// The text number of the given path. Any other is the node of a link. A number as theirs, and no case of its own, since the walk suspends a text and
// a position in it as one number.
pub const GIVEN_PATH: usize = 65535;

// Where the component at a position ends: at the next slash, or where the text ends.
pub fn component_end(s: &[u8], at: usize) -> usize
    ensures { result ≡ component_end s.now at }
{
    for end in at..s.len() {
        if s[end] == b'/' {
            return end;
        }
    }
    at.max(s.len())
}

// Past the slashes at a position: where the next component starts, or where the text ends.
pub fn skip_slashes(s: &[u8], at: usize) -> usize
    ensures { result ≡ past_slashes s.now at }
{
    for next in at..s.len() {
        if s[next] != b'/' {
            return next;
        }
    }
    at.max(s.len())
}

pub fn is_absolute(s: &[u8]) -> bool
    ensures { result ≡ absolute s.now }
{
    0 < s.len() && s[0] == b'/'
}

pub fn ends_in_slash(s: &[u8]) -> bool
    ensures { result ≡ ends_in_slash s.now }
{
    0 < s.len() && s[s.len() - 1] == b'/'
}

// A text by its number, as a part of the lent bytes.
pub fn text_of<'a>(image: Image<'a>, path: &'a [u8], text: usize) -> &'a [u8]
    requires { Readable (tree image) text }
    ensures { result.now ≡ text_of (tree image.entry) path.now text }
{
    if text == GIVEN_PATH {
        return path;
    }
    image.body(text)
}

// The bytes of a text between two positions: a component's name, as a part of the path or of the image.
pub fn name_of<'a>(image: Image<'a>, path: &'a [u8], text: usize, at: usize, end: usize) -> &'a [u8]
    requires { Readable (tree image) text × (at ≤ end) × (end ≤ length (text_of (tree image) path.now text)) }
    ensures { result.now ≡ between (text_of (tree image.entry) path.now text) at end }
{
    let here = text_of(image, path, text);
    &here[at..end]
}
