// A slot as one number: 0 is closed; a handle's is its mark, its node and its mount, from the lowest bit on, and one more.
#![tactic(auto)]

ghost use Rattle.std.specs.Prelude.{◌++◌, ◌≡◌, ◌≤◌, ◌<◌, length, drop, replicate};
ghost use Rattle.model.specs.Descriptors.{holding, handle_at, slot_at, lowest_free};
ghost use Rattle.slots.specs.Slots.{slot_by, slots_by, Fits};

use model::{Handle, Place};

// The descriptors of a table.
pub const DESCRIPTORS: usize = 64;

// A closed slot's number. A number, and no Option: the 64 are lent through the C interface.
pub const CLOSED: u64 = 0;

const MOUNT: usize = 4294967296;

const NODES: usize = 2147483648;

// The handle that the number of an open slot stands for.
pub fn held(x: u64) -> Handle
    requires { 0 < x }
    ensures { (slot_by x ≡ holding result) × (result.mount < 4294967296) }
{
    let bits = (x - 1) as usize;
    Handle {
        mount: bits / MOUNT,
        node: bits / 2 % NODES,
        mark: bits % 2 == 1,
    }
}

// The number of a slot that holds a place, marked or not.
pub fn number_of(p: Place, marked: bool) -> u64
    requires { Fits p }
    ensures { slot_by result ≡ holding (handle_at p marked) }
{
    let bits = MOUNT * p.mount + 2 * p.node;
    if marked {
        return bits as u64 + 2;
    }
    bits as u64 + 1
}

// The number of a descriptor's slot; one above 63 has none, as if it were closed.
pub fn slot_at(slots: &[u64], d: usize) -> u64
    requires { 64 ≤ length slots.now }
    ensures { slot_by result ≡ slot_at (slots_by slots.now) d }
{
    if DESCRIPTORS <= d {
        return CLOSED;
    }
    slots[d]
}

// The lowest descriptor that is free, if one is.
pub fn lowest_free(slots: &[u64]) -> Option<usize>
    requires { 64 ≤ length slots.now }
    ensures { result ≡ lowest_free (slots_by slots.now) }
{
    slots[..DESCRIPTORS].iter().position(|x| *x == CLOSED)
}

// All descriptors closed.
pub fn close_all(slots: &mut [u64])
    requires { 64 ≤ length slots.old }
    ensures { slots.new ≡ replicate 64 0 ++ drop 64 slots.old }
{
    slots[..DESCRIPTORS].fill(CLOSED);
}
