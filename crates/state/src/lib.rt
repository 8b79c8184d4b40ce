// What becomes of a walk's state: a component taken, a place stood on, a link followed, an error, and the end.
#![tactic(auto)]

ghost use Rattle.std.specs.Prelude.{◌||◌, ◌≡◌, ◌<◌};
ghost use Rattle.model.specs.Answers.{refused};
ghost use Rattle.model.specs.Walk.{taken, standing_on, followed_to, finish};
ghost use Rattle.laws.specs.Inside.{Inside};
ghost use Rattle.image.specs.Images.{tree};
ghost use Rattle.request.specs.Scopes.{asked};

use model::{Answer, Errno, NO_DETAIL, Place, Progress, Reached, Refusal, State};
use request::Scope;

// An error that stops the walk, with the counts that it stands at; no such error has a detail.
pub fn stop(errno: Errno, progress: Progress) -> Answer
    ensures { result ≡ refused errno progress }
{
    Answer::Refused(Refusal {
        errno,
        detail: NO_DETAIL,
        progress,
    })
}

// The end: a directory where one is required, and no link without O_PATH. An accepted table has no kind but 1 to 4; any other is no
// directory and no link.
pub fn finish(k: Scope<'_>, s: State) -> Answer
    requires { Inside (tree k.table.image) s.place }
    ensures { result ≡ finish (asked k.entry) s }
{
    let found = Answer::Found(Reached {
        place: s.place,
        progress: s.progress,
    });
    match k.table.image.node_kind(s.place.node) {
        1 => found,
        _ if s.directory => stop(Errno::Enotdir, s.progress),
        2 => found,
        3 | 4 if !k.request.opath => stop(Errno::Eloop, s.progress),
        3 | 4 => found,
        _ => found,
    }
}

// "Taking it adds 1 to the components." (RULES 9.6)
pub fn taken(s: State) -> State
    requires { s.progress.components < 83968 }
    ensures { result ≡ taken s }
{
    State {
        progress: Progress {
            components: s.progress.components + 1,
            ..s.progress
        },
        ..s
    }
}

pub fn standing_on(p: Place, s: State) -> State
    ensures { result ≡ standing_on p s }
{
    State { place: p, ..s }
}

// "Only now does it count as followed" (RULES 9.15); a slash at the end of a followed last body requires a directory.
pub fn followed_to(p: Place, slash: bool, s: State) -> State
    requires { s.progress.links < 40 }
    ensures { result ≡ followed_to p slash s }
{
    State {
        place: p,
        progress: Progress {
            links: s.progress.links + 1,
            ..s.progress
        },
        directory: s.directory || slash,
    }
}
