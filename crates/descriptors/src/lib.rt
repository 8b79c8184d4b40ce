// What is done to the descriptor table by a walk or a table check: opens and starts.
#![tactic(auto)]

ghost use Rattle.std.specs.Prelude.{List, ◌≡◌, ℕ, ◌≤◌, length, drop};
ghost use Rattle.model.specs.TableCheck.{table_check};
ghost use Rattle.model.specs.Descriptors.{open_path, start, asked_in_vain, serve};
ghost use Rattle.slots.specs.Slots.{slots_by};
ghost use Rattle.descriptor_table.specs.Replies.{Serves};
ghost use Rattle.descriptors.specs.Opening.{opened_by};

use descriptor_table::{deny, give};
use fields::u64_at;
use model::{Broken, Errno, Handle, Place, Reply};
use open_how::{FIELDS, O_DIRECTORY, has};
use resolver::{resolve, resolve_accepted};
use slots::{CLOSED, close_all, held, number_of, slot_at};
use table::check;
use tree::Table;

// Whether the mark is asked without O_DIRECTORY. An open_how of under 24 bytes is the resolver's to refuse (RULES 17.7).
fn asked_in_vain(marked: bool, how: &[u8]) -> bool
    ensures { result ≡ asked_in_vain marked how.now }
{
    marked && FIELDS <= how.len() && !has(O_DIRECTORY, u64_at(how, 0))
}

// The handle that a path is opened through, if the descriptor and the mark let it be.
fn opened_through(slots: &[u64], d: usize, marked: bool, how: &[u8]) -> Result<Handle, Errno>
    requires { 64 ≤ length slots.now }
    ensures { (image path : List ℕ) → serve image (slots_by slots.now) (open_path d marked path how.now)
        ≡ opened_by image (slots_by slots.now) marked path how.now result }
{
    let x = slot_at(slots, d);
    if x == CLOSED {
        return Err(Errno::Ebadf);
    }
    if asked_in_vain(marked, how) {
        return Err(Errno::Einval);
    }
    Ok(held(x))
}

// Opens a path from a descriptor, in a table that was accepted before.
pub fn open_accepted<'a>(
    image: &'a [u8],
    slots: &mut [u64],
    d: usize,
    marked: bool,
    path: &'a [u8],
    how: &[u8],
) -> Reply
    requires { (table_check image.now ≡ Ok tt) × (64 ≤ length slots.old) }
    ensures { Serves (serve image.now (slots_by slots.old) (open_path d marked path.now how.now)) slots.old slots.new result }
{
    match opened_through(slots, d, marked, how) {
        Ok(h) => give(slots, marked, resolve_accepted(image, h, path, how)),
        Err(errno) => deny(errno),
    }
}

// Opens a path from a descriptor, in an image of any bytes.
pub fn open<'a>(
    image: &'a [u8],
    slots: &mut [u64],
    d: usize,
    marked: bool,
    path: &'a [u8],
    how: &[u8],
) -> Reply
    requires { 64 ≤ length slots.old }
    ensures { Serves (serve image.now (slots_by slots.old) (open_path d marked path.now how.now)) slots.old slots.new result }
{
    match opened_through(slots, d, marked, how) {
        Ok(h) => give(slots, marked, resolve(image, h, path, how)),
        Err(errno) => deny(errno),
    }
}

// The start over a table that was accepted before: descriptor 0 on mount 0's root.
pub fn start_accepted(image: &[u8], slots: &mut [u64])
    requires { (table_check image.now ≡ Ok tt) × (64 ≤ length slots.old) }
    ensures { (slots_by slots.new ≡ start image.now) × (drop 64 slots.new ≡ drop 64 slots.old) }
{
    close_all(slots);
    let root = Place {
        mount: 0,
        node: Table::of(image).image.mount_root(0),
    };
    slots[0] = number_of(root, false);
}

// The start over an image of any bytes, with the table check's verdict: no descriptor is open if it is refused.
pub fn start(image: &[u8], slots: &mut [u64]) -> Result<(), Broken>
    requires { 64 ≤ length slots.old }
    ensures { (result ≡ table_check image.now) × (slots_by slots.new ≡ start image.now) × (drop 64 slots.new ≡ drop 64 slots.old) }
{
    let verdict = check(image);
    match verdict {
        Ok(()) => start_accepted(image, slots),
        Err(_) => close_all(slots),
    }
    verdict
}
