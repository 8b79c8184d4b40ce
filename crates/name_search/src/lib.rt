// A name in a directory: where names are few and short one by one, else by halving, which tells how many names it compared.
#![tactic(auto)]

ghost use Rattle.std.specs.Prelude.{true, ◌≡◌, ℕ, ◌<◌, length};
ghost use Rattle.model.specs.Bytes.{same_bytes};
ghost use Rattle.model.specs.Tree.{is_directory, lookup};
ghost use Rattle.model.specs.TableCheck.{name_holds};
ghost use Rattle.model.specs.Halving.{halving};
ghost use Rattle.image.specs.Images.{tree};
ghost use Rattle.name_search.specs.Halvings.{halving_of, in_common};

use image::Image;
use parts::lending::lend;
use std::cmp::Ordering;
use string_order::{alike, compare};
use strings::same_short;
use tree::Table;

// Whether an entry has the name, a short one. Most names differ in length, which is read first.
fn is_named(image: Image<'_>, e: usize, wanted: &[u8]) -> bool
    requires { (e < (tree image).entries) × name_holds (tree image) e ≡ true × (length wanted.now < 8) }
    ensures { result ≡ same_bytes ((tree image.entry).name e) wanted.now }
{
    image.name_length(e) == wanted.len() && same_short(image.name(e), wanted)
}

// The entry of a short name in a directory, name by name.
fn scan_names(t: Table<'_>, n: usize, wanted: &[u8]) -> Option<usize>
    requires { (is_directory (tree t.image) n ≡ true) × (length wanted.now < 8) }
    ensures { result ≡ lookup (tree t.entry.image) n wanted.now }
{
    let image = t.image;
    let first = image.node_first(n);
    for e in first..first + image.node_count(n) {
        if is_named(image, e, wanted) {
            return Some(e);
        }
    }
    None
}

// What a search by halving comes to: what it finds, and how many names it compares.
#[derive(Clone, Copy)]
pub struct Halving {
    pub found: Option<usize>,
    pub compared: usize,
}

// Names shorter than this, or fewer, are not worth looking for what they have in common.
const LONG: usize = 32;

const SOME: usize = 4;

// What a name has in common with the first and the last of a directory's names, it has with all.
fn in_common(t: Table<'_>, n: usize, wanted: &[u8]) -> usize
    requires { is_directory (tree t.image) n ≡ true }
    ensures { result ≡ in_common (tree t.entry.image) n wanted.now }
{
    if wanted.len() < LONG {
        return 0;
    }
    let image = t.image;
    let count = image.node_count(n);
    if count < SOME {
        return 0;
    }
    let first = image.node_first(n);
    let low = alike(image.name(first), wanted);
    let high = alike(image.name(first + count - 1), wanted);
    low.min(high)
}

// The search by halving, by hand since the rules count the names compared (RULES 18.7). What all names have in common with the one that is wanted is not compared again.
pub fn search_names(t: Table<'_>, n: usize, wanted: &[u8]) -> Halving
    requires { is_directory (tree t.image) n ≡ true }
    ensures { result ≡ halving_of (halving (tree t.entry.image) n wanted.now) }
{
    let image = t.image;
    let skip = in_common(t, n, wanted);
    let rest = &wanted[skip..];
    let mut from = image.node_first(n);
    let mut left = image.node_count(n);
    let mut compared = 0;
    while 0 < left {
        let half = (left - 1) / 2;
        let middle = from + half;
        let s = image.name(middle);
        compared += 1;
        match compare(rest, &s[skip..]) {
            Ordering::Equal => {
                return Halving {
                    found: Some(middle),
                    compared,
                };
            }
            Ordering::Less => {
                left = half;
            }
            Ordering::Greater => {
                from = middle + 1;
                left = left - 1 - half;
            }
        }
    }
    Halving {
        found: None,
        compared,
    }
}

fn found_by_halving(t: Table<'_>, n: usize, wanted: &[u8]) -> Option<usize>
    requires { is_directory (tree t.image) n ≡ true }
    ensures { result ≡ lookup (tree t.entry.image) n wanted.now }
{
    search_names(t, n, wanted).found
}

// Up to so many short names are gone over one by one, which costs the walk less than halving does.
const FEW: usize = 12;

const SHORT: usize = 8;

// The entry of a name in a directory. The name that is handed to the search is lent anew, so that the walk, into which this is compiled, can keep
// its own in registers.
pub fn find_entry(t: Table<'_>, n: usize, wanted: &[u8]) -> Option<usize>
    requires { is_directory (tree t.image) n ≡ true }
    ensures { result ≡ lookup (tree t.entry.image) n wanted.now }
{
    let count = t.image.node_count(n);
    if 0 < count && count <= FEW && wanted.len() < SHORT {
        return scan_names(t, n, wanted);
    }
    found_by_halving(t, n, lend(wanted))
}
