// One component of a walk, with no list of open texts: where it leads from a place, under the restrictions that are set.
#![tactic(auto)]

mod links;
mod moves;

ghost use Rattle.std.specs.Prelude.{true, ◌≡◌, ◌<◌};
ghost use Rattle.model.specs.Tree.{is_directory};
ghost use Rattle.image.specs.Images.{tree};
ghost use Rattle.model.specs.Walk.{step_to, by_name, one_component};
ghost use Rattle.laws.specs.Inside.{Inside};
ghost use Rattle.request.specs.Scopes.{asked, limits};
ghost use Rattle.component.specs.Outcomes.{outcome};

use crate::links::link_to;
use crate::moves::{enter, go_up};
use model::{Errno, MOST_NAME, Place};
use name_search::find_entry;
use request::Scope;
use strings::{Dots, dots};

// Where one component leads: the walk stops with an error, goes on from a place, goes on from the target of a magic link, or reads
// the body of the symbolic link whose node is given, from a place.
#[derive(Clone, Copy)]
pub enum Outcome {
    Stop(Errno),
    Go(Place),
    Target(Place),
    Read(usize, Place),
}

// A named node, by its kind. Only a directory can be covered. An accepted table has none but 1 to 4; any other is no link, and so
// stepped to.
fn step_to(k: Scope<'_>, last: bool, links: usize, p: Place, n: usize) -> Outcome
    requires { Inside (tree k.table.image) p × (n < (tree k.table.image).nodes) }
    ensures { result ≡ outcome (limits k.entry) links (step_to (asked k.entry) last p n) }
{
    let there = Place { node: n, ..p };
    match k.table.image.node_kind(n) {
        1 => enter(k.table, k.request.resolve, there),
        2 => Outcome::Go(there),
        3 => link_to(k, last, links, p, n, false),
        4 => link_to(k, last, links, p, n, true),
        _ => Outcome::Go(there),
    }
}

fn by_name(k: Scope<'_>, last: bool, links: usize, p: Place, name: &[u8]) -> Outcome
    requires { Inside (tree k.table.image) p × (is_directory (tree k.table.image) p.node ≡ true) }
    ensures { result ≡ outcome (limits k.entry) links (by_name (asked k.entry) last p name.now) }
{
    if MOST_NAME < name.len() {
        return Outcome::Stop(Errno::Enametoolong);
    }
    match find_entry(k.table, p.node, name) {
        Some(e) => step_to(k, last, links, p, k.table.image.entry_node(e)),
        None => Outcome::Stop(Errno::Enoent),
    }
}

// One component, taken at a directory: "." stays, ".." goes up, any other is a name.
pub fn take_component(k: Scope<'_>, last: bool, links: usize, p: Place, name: &[u8]) -> Outcome
    requires { Inside (tree k.table.image) p × (is_directory (tree k.table.image) p.node ≡ true) }
    ensures { result ≡ outcome (limits k.entry) links (one_component (asked k.entry) last p name.now) }
{
    match dots(name) {
        Dots::CurDir => Outcome::Go(p),
        Dots::ParentDir => go_up(k, p),
        Dots::Normal => by_name(k, last, links, p, name),
    }
}
