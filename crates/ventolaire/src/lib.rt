// The C interface, which `ventolaire_c` exports: pointers with lengths and numbers in, the answer as numbers into a lent array. A lent
// array that is too short is left as it was, and 0 is returned; else it is how many numbers were written. All else that is lent stays as
// it was, but for the 64 slots of a descriptor table, which a call that is not refused may change.
#![tactic(auto)]

ghost use Rattle.std.specs.Prelude.{List, ◌≡◌, ℕ, length};
ghost use Rattle.model.specs.Answers.{verdict_numbers};
ghost use Rattle.model.specs.TableCheck.{table_check};
ghost use Rattle.model.specs.Descriptors.{open_path, duplicate, close, set_mark, start, serve};
ghost use Rattle.slots.specs.Slots.{slots_by};
ghost use Rattle.builder.specs.Counted.{parts_by};
ghost use Rattle.ventolaire.specs.Written.{call_by, errnos_for, Writes, WritesAnswer, WritesLookup, WritesBuilt, PartsStay, WritesStart, WritesReply, Stay};

use builder::build;
use descriptor_table::{close, duplicate, set_mark};
use descriptors::{open, open_accepted, start, start_accepted};
use lookup::{lookup, lookup_accepted};
use model::{Errno, Handle};
use numbers::{errno_number, put_answer, put_built, put_lookup, put_reply, put_verdict};
use resolver::{resolve, resolve_accepted};
use slots::DESCRIPTORS;
use table::check;

// The table check: rule (0: accepted) and record.
pub fn ventolaire_check(image: &[u8], out: &mut [u64]) -> usize
    ensures { Writes (verdict_numbers (table_check image.now)) out.old out.new result × (image.exit.now ≡ image.entry.now) }
{
    if out.len() < 2 {
        return 0;
    }
    put_verdict(out, check(image));
    2
}

// The resolver: error number (0: found), detail, mount, node, components, links.
pub fn ventolaire_resolve<'a>(
    image: &'a [u8],
    mount: u64,
    node: u64,
    mark: bool,
    path: &'a [u8],
    how: &[u8],
    out: &mut [u64],
) -> usize
    ensures { WritesAnswer image.now (call_by mount node mark path.now how.now)
        image.exit.now (call_by mount node mark path.exit.now how.exit.now) out.old out.new result }
{
    if out.len() < 6 {
        return 0;
    }
    let h = Handle {
        mount: mount as usize,
        node: node as usize,
        mark,
    };
    put_answer(out, resolve(image, h, path, how));
    6
}

// The resolver for an image that `ventolaire_check` accepted and that has not changed since: the same answer without the table check.
pub fn ventolaire_resolve_accepted<'a>(
    image: &'a [u8],
    mount: u64,
    node: u64,
    mark: bool,
    path: &'a [u8],
    how: &[u8],
    out: &mut [u64],
) -> usize
    requires { table_check image.now ≡ Ok tt }
    ensures { WritesAnswer image.now (call_by mount node mark path.now how.now)
        image.exit.now (call_by mount node mark path.exit.now how.exit.now) out.old out.new result }
{
    if out.len() < 6 {
        return 0;
    }
    let h = Handle {
        mount: mount as usize,
        node: node as usize,
        mark,
    };
    put_answer(out, resolve_accepted(image, h, path, how));
    6
}

// A name looked up in one directory: error number (0: found), entry, node, names compared.
pub fn ventolaire_lookup(image: &[u8], node: u64, name: &[u8], out: &mut [u64]) -> usize
    ensures { WritesLookup image.now node name.now image.exit.now name.exit.now out.old out.new result }
{
    if out.len() < 4 {
        return 0;
    }
    put_lookup(out, lookup(image, node as usize, name));
    4
}

// The same in an image that `ventolaire_check` accepted and that has not changed since, without the table check.
pub fn ventolaire_lookup_accepted(image: &[u8], node: u64, name: &[u8], out: &mut [u64]) -> usize
    requires { table_check image.now ≡ Ok tt }
    ensures { WritesLookup image.now node name.now image.exit.now name.exit.now out.old out.new result }
{
    if out.len() < 4 {
        return 0;
    }
    put_lookup(out, lookup_accepted(image, node as usize, name));
    4
}

// Writes the image of four parts: error number (0: written), rule, record, bytes.
pub fn ventolaire_build(
    nodes: &[u8],
    mounts: &[u8],
    entries: &[u8],
    text: &[u8],
    buffer: &mut [u8],
    out: &mut [u64],
) -> usize
    ensures { WritesBuilt (parts_by nodes.now mounts.now entries.now text.now)
        buffer.old buffer.new out.old out.new result
        × PartsStay (parts_by nodes.now mounts.now entries.now text.now)
        (parts_by nodes.exit.now mounts.exit.now entries.exit.now text.exit.now) }
{
    if out.len() <= 3 {
        return 0;
    }
    put_built(out, build(nodes, mounts, entries, text, buffer));
    4
}

// The numbers of the errnos, in the order in which they are declared. An array with room for the first eleven alone gets these, and one
// with room for the first nine alone gets those. By three copies of fixed lengths: one of any length would call memcpy, which the header
// doesn't ask for.
pub fn ventolaire_errnos(out: &mut [u64]) -> usize
    ensures { Writes (errnos_for (length out.old)) out.old out.new result }
{
    let numbers = [
        errno_number(Errno::Euclean),
        errno_number(Errno::E2big),
        errno_number(Errno::Einval),
        errno_number(Errno::Enametoolong),
        errno_number(Errno::Enoent),
        errno_number(Errno::Ebadf),
        errno_number(Errno::Enotdir),
        errno_number(Errno::Eloop),
        errno_number(Errno::Exdev),
        errno_number(Errno::Emfile),
        errno_number(Errno::Enotty),
        errno_number(Errno::Erange),
    ];
    let room = out.len();
    if room < 9 {
        return 0;
    }
    if room < 11 {
        out[..9].copy_from_slice(&numbers[..9]);
        return 9;
    }
    if room < 12 {
        out[..11].copy_from_slice(&numbers[..11]);
        return 11;
    }
    out[..12].copy_from_slice(&numbers);
    12
}

// Descriptors as they start, and the table check's verdict.
pub fn ventolaire_start(image: &[u8], slots: &mut [u64; DESCRIPTORS], out: &mut [u64]) -> usize
    ensures { WritesStart image.now slots.old slots.new out.old out.new result × (image.exit.now ≡ image.entry.now) }
{
    if out.len() <= 1 {
        return 0;
    }
    put_verdict(out, start(image, slots));
    2
}

// Descriptors as they start, over an image that `ventolaire_check` accepted and that has not changed since.
pub fn ventolaire_start_accepted(image: &[u8], slots: &mut [u64; DESCRIPTORS])
    requires { table_check image.now ≡ Ok tt }
    ensures { (slots_by slots.new ≡ start image.now) × (image.exit.now ≡ image.entry.now) }
{
    start_accepted(image, slots);
}

// Opens a path from a descriptor: the answer's numbers, then the number given.
pub fn ventolaire_open<'a>(
    image: &'a [u8],
    slots: &mut [u64; DESCRIPTORS],
    number: u64,
    mark: bool,
    path: &'a [u8],
    how: &[u8],
    out: &mut [u64],
) -> usize
    ensures { WritesReply (serve image.now (slots_by slots.old) (open_path number mark path.now how.now))
        slots.old slots.new out.old out.new result
        × Stay image.now path.now how.now image.exit.now path.exit.now how.exit.now }
{
    if out.len() < 7 {
        return 0;
    }
    put_reply(out, open(image, slots, number as usize, mark, path, how));
    7
}

// The same in an image that `ventolaire_check` accepted and that has not changed since, without the table check.
pub fn ventolaire_open_accepted<'a>(
    image: &'a [u8],
    slots: &mut [u64; DESCRIPTORS],
    number: u64,
    mark: bool,
    path: &'a [u8],
    how: &[u8],
    out: &mut [u64],
) -> usize
    requires { table_check image.now ≡ Ok tt }
    ensures { WritesReply (serve image.now (slots_by slots.old) (open_path number mark path.now how.now))
        slots.old slots.new out.old out.new result
        × Stay image.now path.now how.now image.exit.now path.exit.now how.exit.now }
{
    if out.len() < 7 {
        return 0;
    }
    put_reply(
        out,
        open_accepted(image, slots, number as usize, mark, path, how),
    );
    7
}

// Duplicates a descriptor. No table is read.
pub fn ventolaire_dup(slots: &mut [u64; DESCRIPTORS], number: u64, out: &mut [u64]) -> usize
    ensures { (image : List ℕ) → WritesReply (serve image (slots_by slots.old) (duplicate number))
        slots.old slots.new out.old out.new result }
{
    if out.len() < 7 {
        return 0;
    }
    put_reply(out, duplicate(slots, number as usize));
    7
}

// Closes a descriptor. No table is read.
pub fn ventolaire_close(slots: &mut [u64; DESCRIPTORS], number: u64, out: &mut [u64]) -> usize
    ensures { (image : List ℕ) → WritesReply (serve image (slots_by slots.old) (close number))
        slots.old slots.new out.old out.new result }
{
    if out.len() < 7 {
        return 0;
    }
    put_reply(out, close(slots, number as usize));
    7
}

// Marks a descriptor.
pub fn ventolaire_set_mark(
    image: &[u8],
    slots: &mut [u64; DESCRIPTORS],
    number: u64,
    out: &mut [u64],
) -> usize
    ensures { WritesReply (serve image.now (slots_by slots.old) (set_mark number)) slots.old slots.new out.old out.new result
        × (image.exit.now ≡ image.entry.now) }
{
    if out.len() < 7 {
        return 0;
    }
    put_reply(out, set_mark(image, slots, number as usize));
    7
}
