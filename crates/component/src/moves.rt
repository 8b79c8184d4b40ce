// Moves with no link in them: entering a mount, and ".." (RULES 9.8, 9.11).
ghost use Rattle.std.specs.Prelude.{true, ◌≡◌, ◌<◌};
ghost use Rattle.model.specs.Tree.{is_directory};
ghost use Rattle.image.specs.Images.{tree};
ghost use Rattle.model.specs.Walk.{enter, to_parent, climb, go_up};
ghost use Rattle.laws.specs.Inside.{Inside};
ghost use Rattle.request.specs.Scopes.{asked, limits};
ghost use Rattle.component.specs.Outcomes.{move_outcome, MovesUnder, up_from};

use crate::Outcome;
use model::{Errno, Place};
use open_how::{BENEATH, NO_XDEV, has};
use request::Scope;
use tree::{Table, find_mount};

// Enters the mount that covers a place, if there is one.
pub fn enter(t: Table<'_>, resolve: u64, p: Place) -> Outcome
    requires { Inside (tree t.image) p }
    ensures { MovesUnder resolve (enter (tree t.entry.image) p) result }
{
    match find_mount(t, p.mount, p.node) {
        Some(m) => {
            if has(NO_XDEV, resolve) {
                return Outcome::Stop(Errno::Exdev);
            }
            Outcome::Go(Place {
                mount: m,
                node: t.image.mount_root(m),
            })
        }
        None => Outcome::Go(p),
    }
}

fn to_parent(t: Table<'_>, resolve: u64, p: Place) -> Outcome
    requires { (p.mount < (tree t.image).mounts) × (is_directory (tree t.image) p.node ≡ true) }
    ensures { MovesUnder resolve (to_parent (tree t.entry.image) p) result }
{
    let parent = Place {
        node: t.image.node_parent(p.node),
        ..p
    };
    enter(t, resolve, parent)
}

// At a mount's root the climb to its point comes first.
fn climb(t: Table<'_>, resolve: u64, p: Place) -> Outcome
    requires { (p.mount < (tree t.image).mounts) × (is_directory (tree t.image) p.node ≡ true) }
    ensures { MovesUnder resolve (climb (tree t.entry.image) p) result }
{
    if p.node != t.image.mount_root(p.mount) {
        return to_parent(t, resolve, p);
    }
    if has(NO_XDEV, resolve) {
        return Outcome::Stop(Errno::Exdev);
    }
    let point = Place {
        mount: t.image.mount_parent(p.mount),
        node: t.image.mount_point(p.mount),
    };
    to_parent(t, resolve, point)
}

// At the root, or mount 0's root, ".." stays.
fn up_from(k: Scope<'_>, p: Place) -> Outcome
    requires { (p.mount < (tree k.table.image).mounts) × (is_directory (tree k.table.image) p.node ≡ true) }
    ensures { result ≡ move_outcome (limits k.entry) (up_from (asked k.entry) p) }
{
    if p == k.request.root {
        return Outcome::Go(p);
    }
    let top = Place {
        mount: 0,
        node: k.table.image.mount_root(0),
    };
    if p == top {
        return Outcome::Go(p);
    }
    climb(k.table, k.request.resolve, p)
}

// "..", with Escape at the handle's place.
pub fn go_up(k: Scope<'_>, p: Place) -> Outcome
    requires { (p.mount < (tree k.table.image).mounts) × (is_directory (tree k.table.image) p.node ≡ true) }
    ensures { result ≡ move_outcome (limits k.entry) (go_up (asked k.entry) p) }
{
    if p == k.request.handle {
        if k.request.mark {
            return Outcome::Stop(Errno::Enoent);
        }
        if has(BENEATH, k.request.resolve) {
            return Outcome::Stop(Errno::Exdev);
        }
    }
    up_from(k, p)
}
