// Rule 6 of the table check: mounts. Those that share parent and point with an earlier one are looked for first; below the lowest of them,
// what each record tells by itself decides, by the quick way as far as that sees the rule kept, and from where it stops by the exact way.
#![tactic(auto)]

ghost use Rattle.std.specs.Prelude.{false, [], ◌≡◌, ◌+◌, ◌*◌, ◌≤◌, ◌<◌, length};
ghost use Rattle.model.specs.TableCheck.{shares_point, rule6};
ghost use Rattle.laws.specs.Acceptance.{DirectoriesHold};
ghost use Rattle.parts.specs.Parts.{mounts_tree, NodeRecords, MountRecords};
ghost use Rattle.table_leads.specs.Leads.{broken_from};
ghost use Rattle.table_mounts.specs.Clashes.{uncounted, first_clash, slot_of, Noted};

use parts::lending::lend;
use parts::records::{Counts, packed_point};
use table_leads::{is_settled, mount_lead};
use table_under::first_breaking;

// A byte for each of so many classes of points.
const SLOTS: usize = 1024;

// So few mounts are searched sooner than the bytes are cleared.
const FEW: usize = 36;

// Whether an earlier mount other than mount 0 has the same parent and point.
fn shares_point(mounts: &[u8], m: usize) -> bool
    requires { 8 * m + 8 ≤ length mounts.now }
    ensures { result ≡ shares_point (uncounted mounts.now) m }
{
    let wanted = packed_point(mounts, m);
    for k in 1..m {
        if packed_point(mounts, k) == wanted {
            return true;
        }
    }
    false
}

fn first_clash_of_few(mounts: &[u8], c: Counts) -> usize
    requires { MountRecords c mounts.now }
    ensures { result ≡ first_clash (mounts_tree c [] mounts.now) }
{
    for m in 1..c.mounts {
        if shares_point(mounts, m) {
            return m;
        }
    }
    c.mounts
}

// The byte of a mount's point. Those that share parent and point share it; those that share the point alone don't, up to some 256.
fn slot(mounts: &[u8], m: usize) -> usize
    requires { 8 * m + 8 ≤ length mounts.now }
    ensures { (result ≡ slot_of mounts.now m) × (result < 1024) }
{
    let packed = packed_point(mounts, m);
    (packed / 65536 + 4 * packed) % SLOTS
}

// Whether a mount shares its point. The earlier mounts are searched only if its byte is set, and it is set for the later ones.
fn clashes(mounts: &[u8], points: &mut [u8], m: usize) -> bool
    requires { (8 * m + 8 ≤ length mounts.now) × Noted mounts.now m points.old }
    ensures { (result ≡ shares_point (uncounted mounts.now) m) × Noted mounts.now (m + 1) points.new
        × (length points.new ≡ length points.old) }
{
    let at = slot(mounts, m);
    if points[at] != 0 {
        return shares_point(mounts, m);
    }
    points[at] = 1;
    false
}

// Its loop stands apart from that of few mounts: the test has a state, the bytes, whose promise a closure's contract would have to carry
// from call to call.
fn first_clash_of_many(mounts: &[u8], c: Counts) -> usize
    requires { MountRecords c mounts.now }
    ensures { result ≡ first_clash (mounts_tree c [] mounts.now) }
{
    let mut points = [0u8; SLOTS];
    for m in 1..c.mounts {
        if clashes(mounts, &mut points, m) {
            return m;
        }
    }
    c.mounts
}

// The lowest mount that shares parent and point with an earlier one, else the number of mounts.
fn first_clash(mounts: &[u8], c: Counts) -> usize
    requires { MountRecords c mounts.now }
    ensures { result ≡ first_clash (mounts_tree c [] mounts.now) }
{
    if c.mounts <= FEW {
        return first_clash_of_few(mounts, c);
    }
    first_clash_of_many(mounts, c)
}

// The lowest mount below `end` that breaks the rule by itself, else `end`. What the search is lent is made where it is called, so that a
// table with one mount does not pay for it.
fn first_broken_below(nodes: &[u8], mounts: &[u8], c: Counts, end: usize) -> usize
    requires { NodeRecords c nodes.now × MountRecords c mounts.now × DirectoriesHold (mounts_tree c nodes.now mounts.now)
        × (1 ≤ end) × (end ≤ c.mounts) }
    ensures { result ≡ broken_from false (mounts_tree c nodes.now mounts.now) 0 end }
{
    if !is_settled(mount_lead(nodes, mounts, c, 0)) {
        return 0;
    }
    if end <= 1 {
        return end;
    }
    let d = c;
    first_breaking::<false>(lend(nodes), lend(mounts), d, 1, end)
}

pub fn first_bad_mount(nodes: &[u8], mounts: &[u8], c: Counts) -> Option<usize>
    requires { NodeRecords c nodes.now × MountRecords c mounts.now × DirectoriesHold (mounts_tree c nodes.now mounts.now) }
    ensures { result ≡ rule6 (mounts_tree c nodes.now mounts.now) }
{
    let m = first_broken_below(nodes, mounts, c, first_clash(mounts, c));
    if m < c.mounts {
        return Some(m);
    }
    None
}
