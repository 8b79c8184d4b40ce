// The C interface as a static library: each function of `ventolaire` under its own name, with its contract.
#![tactic(auto)]

ghost use Rattle.std.specs.Prelude.{List, ◌≡◌, ℕ, length};
ghost use Rattle.model.specs.Answers.{verdict_numbers};
ghost use Rattle.model.specs.TableCheck.{table_check};
ghost use Rattle.model.specs.Descriptors.{open_path, duplicate, close, set_mark, start, serve};
ghost use Rattle.slots.specs.Slots.{slots_by};
ghost use Rattle.builder.specs.Counted.{parts_by};
ghost use Rattle.ventolaire.specs.Written.{call_by, errnos_for, Writes, WritesAnswer, WritesLookup, WritesBuilt, PartsStay, WritesStart, WritesReply, Stay};

use slots::DESCRIPTORS;

// The table check: rule (0: accepted) and record.
#[unsafe(no_mangle)]
pub extern "C" fn ventolaire_check(image: &[u8], out: &mut [u64]) -> usize
    ensures { Writes (verdict_numbers (table_check image.now)) out.old out.new result × (image.exit.now ≡ image.entry.now) }
{
    ventolaire::ventolaire_check(image, out)
}

// The resolver: error number (0: found), detail, mount, node, components, links.
#[unsafe(no_mangle)]
pub extern "C" fn ventolaire_resolve<'a>(
    image: &'a [u8],
    mount: u64,
    node: u64,
    mark: bool,
    path: &'a [u8],
    how: &[u8],
    out: &mut [u64],
) -> usize
    ensures { WritesAnswer image.now (call_by mount node mark path.now how.now)
        image.exit.now (call_by mount node mark path.exit.now how.exit.now) out.old out.new result }
{
    ventolaire::ventolaire_resolve(image, mount, node, mark, path, how, out)
}

// The resolver for an image that `ventolaire_check` accepted and that has not changed since: the same answer without the table check.
#[unsafe(no_mangle)]
pub extern "C" fn ventolaire_resolve_accepted<'a>(
    image: &'a [u8],
    mount: u64,
    node: u64,
    mark: bool,
    path: &'a [u8],
    how: &[u8],
    out: &mut [u64],
) -> usize
    requires { table_check image.now ≡ Ok tt }
    ensures { WritesAnswer image.now (call_by mount node mark path.now how.now)
        image.exit.now (call_by mount node mark path.exit.now how.exit.now) out.old out.new result }
{
    ventolaire::ventolaire_resolve_accepted(image, mount, node, mark, path, how, out)
}

// A name looked up in one directory: error number (0: found), entry, node, names compared.
#[unsafe(no_mangle)]
pub extern "C" fn ventolaire_lookup(image: &[u8], node: u64, name: &[u8], out: &mut [u64]) -> usize
    ensures { WritesLookup image.now node name.now image.exit.now name.exit.now out.old out.new result }
{
    ventolaire::ventolaire_lookup(image, node, name, out)
}

// The same in an image that `ventolaire_check` accepted and that has not changed since, without the table check.
#[unsafe(no_mangle)]
pub extern "C" fn ventolaire_lookup_accepted(
    image: &[u8],
    node: u64,
    name: &[u8],
    out: &mut [u64],
) -> usize
    requires { table_check image.now ≡ Ok tt }
    ensures { WritesLookup image.now node name.now image.exit.now name.exit.now out.old out.new result }
{
    ventolaire::ventolaire_lookup_accepted(image, node, name, out)
}

// Writes the image of four parts: error number (0: written), rule, record, bytes.
#[unsafe(no_mangle)]
pub extern "C" fn ventolaire_build(
    nodes: &[u8],
    mounts: &[u8],
    entries: &[u8],
    text: &[u8],
    buffer: &mut [u8],
    out: &mut [u64],
) -> usize
    ensures { WritesBuilt (parts_by nodes.now mounts.now entries.now text.now)
        buffer.old buffer.new out.old out.new result
        × PartsStay (parts_by nodes.now mounts.now entries.now text.now)
        (parts_by nodes.exit.now mounts.exit.now entries.exit.now text.exit.now) }
{
    ventolaire::ventolaire_build(nodes, mounts, entries, text, buffer, out)
}

// The numbers of the errnos, in the order in which they are declared. An array with room for the first
// eleven alone gets these, and one with room for the first nine alone gets those.
#[unsafe(no_mangle)]
pub extern "C" fn ventolaire_errnos(out: &mut [u64]) -> usize
    ensures { Writes (errnos_for (length out.old)) out.old out.new result }
{
    ventolaire::ventolaire_errnos(out)
}

// Descriptors as they start, and the table check's verdict.
#[unsafe(no_mangle)]
pub extern "C" fn ventolaire_start(
    image: &[u8],
    slots: &mut [u64; DESCRIPTORS],
    out: &mut [u64],
) -> usize
    ensures { WritesStart image.now slots.old slots.new out.old out.new result × (image.exit.now ≡ image.entry.now) }
{
    ventolaire::ventolaire_start(image, slots, out)
}

// Descriptors as they start, over an image that `ventolaire_check` accepted and that has not changed since.
#[unsafe(no_mangle)]
pub extern "C" fn ventolaire_start_accepted(image: &[u8], slots: &mut [u64; DESCRIPTORS])
    requires { table_check image.now ≡ Ok tt }
    ensures { (slots_by slots.new ≡ start image.now) × (image.exit.now ≡ image.entry.now) }
{
    ventolaire::ventolaire_start_accepted(image, slots);
}

// Opens a path from a descriptor: the answer's numbers, then the number given.
#[unsafe(no_mangle)]
pub extern "C" fn ventolaire_open<'a>(
    image: &'a [u8],
    slots: &mut [u64; DESCRIPTORS],
    number: u64,
    mark: bool,
    path: &'a [u8],
    how: &[u8],
    out: &mut [u64],
) -> usize
    ensures { WritesReply (serve image.now (slots_by slots.old) (open_path number mark path.now how.now))
        slots.old slots.new out.old out.new result
        × Stay image.now path.now how.now image.exit.now path.exit.now how.exit.now }
{
    ventolaire::ventolaire_open(image, slots, number, mark, path, how, out)
}

// The same in an image that `ventolaire_check` accepted and that has not changed since, without the table check.
#[unsafe(no_mangle)]
pub extern "C" fn ventolaire_open_accepted<'a>(
    image: &'a [u8],
    slots: &mut [u64; DESCRIPTORS],
    number: u64,
    mark: bool,
    path: &'a [u8],
    how: &[u8],
    out: &mut [u64],
) -> usize
    requires { table_check image.now ≡ Ok tt }
    ensures { WritesReply (serve image.now (slots_by slots.old) (open_path number mark path.now how.now))
        slots.old slots.new out.old out.new result
        × Stay image.now path.now how.now image.exit.now path.exit.now how.exit.now }
{
    ventolaire::ventolaire_open_accepted(image, slots, number, mark, path, how, out)
}

// Duplicates a descriptor. No table is read.
#[unsafe(no_mangle)]
pub extern "C" fn ventolaire_dup(
    slots: &mut [u64; DESCRIPTORS],
    number: u64,
    out: &mut [u64],
) -> usize
    ensures { (image : List ℕ) → WritesReply (serve image (slots_by slots.old) (duplicate number))
        slots.old slots.new out.old out.new result }
{
    ventolaire::ventolaire_dup(slots, number, out)
}

// Closes a descriptor. No table is read.
#[unsafe(no_mangle)]
pub extern "C" fn ventolaire_close(
    slots: &mut [u64; DESCRIPTORS],
    number: u64,
    out: &mut [u64],
) -> usize
    ensures { (image : List ℕ) → WritesReply (serve image (slots_by slots.old) (close number))
        slots.old slots.new out.old out.new result }
{
    ventolaire::ventolaire_close(slots, number, out)
}

// Marks a descriptor.
#[unsafe(no_mangle)]
pub extern "C" fn ventolaire_set_mark(
    image: &[u8],
    slots: &mut [u64; DESCRIPTORS],
    number: u64,
    out: &mut [u64],
) -> usize
    ensures { WritesReply (serve image.now (slots_by slots.old) (set_mark number)) slots.old slots.new out.old out.new result
        × (image.exit.now ≡ image.entry.now) }
{
    ventolaire::ventolaire_set_mark(image, slots, number, out)
}
