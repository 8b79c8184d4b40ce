// The descriptor table: 64 lent numbers, each a slot that is closed or holds a handle. Whatever numbers they are, they stand for some 64
// slots. A refusal leaves them as they were. Nothing here checks a table or walks. The lent slice may hold more than 64: an array would ask more of
// callers.
#![tactic(auto)]

ghost use Rattle.std.specs.Prelude.{true, List, ◌≡◌, ℕ, ◌≤◌, ◌<◌, length};
ghost use Rattle.model.specs.Answers.{refusal, not_walked};
ghost use Rattle.model.specs.Tree.{tree_of, is_directory};
ghost use Rattle.model.specs.Descriptors.{duplicate, close, set_mark, answering, serve};
ghost use Rattle.slots.specs.Slots.{slots_by};
ghost use Rattle.descriptor_table.specs.Replies.{Serves, FoundFits};

use fields::u16_within;
use model::{Answer, Descriptor, Errno, NO_DETAIL, NOT_WALKED, Place, Refusal, Reply};
use slots::{CLOSED, held, lowest_free, number_of, slot_at};

// A refusal of the descriptor table's own: both counts 0, no detail (RULES 17.8).
pub fn deny(errno: Errno) -> Reply
    ensures { result ≡ Reply.Refused (refusal errno not_walked) }
{
    Reply::Refused(Refusal {
        errno,
        detail: NO_DETAIL,
        progress: NOT_WALKED,
    })
}

// Whether a number is a directory's, in an image of any bytes.
fn is_directory(image: &[u8], n: usize) -> bool
    ensures { (result ≡ is_directory (tree_of image.now) n) × (result ≡ true → n < 65536) }
{
    n < u16_within(image, 4) && u16_within(image, 20 + 12 * n) == 1
}

// What the resolver answered: a place found stands in the lowest free number, marked only if that was asked.
pub fn give(slots: &mut [u64], marked: bool, answer: Answer) -> Reply
    requires { (64 ≤ length slots.old) × FoundFits answer }
    ensures { Serves (answering (slots_by slots.old) marked answer) slots.old slots.new result }
{
    match answer {
        Answer::Found(reached) => {
            let Some(number) = lowest_free(slots) else {
                return deny(Errno::Emfile);
            };
            slots[number] = number_of(reached.place, marked);
            Reply::Opened(Descriptor { number, reached })
        }
        Answer::Refused(r) => Reply::Refused(r),
    }
}

// A copy of a descriptor's handle, mark and all, in the lowest free number. No table is read.
pub fn duplicate(slots: &mut [u64], d: usize) -> Reply
    requires { 64 ≤ length slots.old }
    ensures { (image : List ℕ) → Serves (serve image (slots_by slots.old) (duplicate d)) slots.old slots.new result }
{
    let x = slot_at(slots, d);
    if x == CLOSED {
        return deny(Errno::Ebadf);
    }
    let Some(number) = lowest_free(slots) else {
        return deny(Errno::Emfile);
    };
    slots[number] = x;
    Reply::Duplicated(number)
}

// Frees a descriptor's number. No table is read.
pub fn close(slots: &mut [u64], d: usize) -> Reply
    requires { 64 ≤ length slots.old }
    ensures { (image : List ℕ) → Serves (serve image (slots_by slots.old) (close d)) slots.old slots.new result }
{
    let x = slot_at(slots, d);
    if x == CLOSED {
        return deny(Errno::Ebadf);
    }
    slots[d] = CLOSED;
    Reply::Done
}

// Marks a descriptor that holds a directory.
pub fn set_mark(image: &[u8], slots: &mut [u64], d: usize) -> Reply
    requires { 64 ≤ length slots.old }
    ensures { Serves (serve image.now (slots_by slots.old) (set_mark d)) slots.old slots.new result }
{
    let x = slot_at(slots, d);
    if x == CLOSED {
        return deny(Errno::Ebadf);
    }
    let h = held(x);
    if !is_directory(image, h.node) {
        return deny(Errno::Enotty);
    }
    slots[d] = number_of(Place::from(h), true);
    Reply::Done
}
