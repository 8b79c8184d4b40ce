// What a call asks of its walk, once no check refuses it.
#![tactic(auto)]

mod scope;

ghost use Rattle.std.specs.Prelude.{not, ◌||◌, ◌≡◌};
ghost use Rattle.model.specs.Bytes.{has};
ghost use Rattle.model.specs.OpenHow.{O_NOFOLLOW};
ghost use Rattle.request.specs.Requests.{numbers_by};

pub use crate::scope::Scope;
use model::{Handle, Place};
use open_how::{How, IN_ROOT, O_NOFOLLOW, O_PATH, has};
use tree::Table;

// A request as numbers: the handle's place and mark, the root, resolve's bits, whether a last link is followed, and O_PATH.
#[derive(Clone, Copy)]
pub struct Request {
    pub handle: Place,
    pub root: Place,
    pub mark: bool,
    pub resolve: u64,
    pub follow: bool,
    pub opath: bool,
}

// "A last link is followed unless O_NOFOLLOW is set and the given path does not end in "/"." (RULES 9.12)
fn follows_last(flags: u64, slash: bool) -> bool
    ensures { result ≡ not (has O_NOFOLLOW flags) || slash }
{
    !has(O_NOFOLLOW, flags) || slash
}

// From the handle, the open_how's fields and whether the path ends in a slash. "The root is the handle under IN_ROOT, else mount 0's
// root." (RULES 9.2)
pub fn request_of(t: Table<'_>, h: Handle, f: How, slash: bool) -> Request
    ensures { result ≡ numbers_by t.entry.image.bytes.now h f slash }
{
    let handle = Place::from(h);
    let root = if has(IN_ROOT, f.resolve) {
        handle
    } else {
        Place {
            mount: 0,
            node: t.image.mount_root(0),
        }
    };
    Request {
        handle,
        root,
        mark: h.mark,
        resolve: f.resolve,
        follow: follows_last(f.flags, slash),
        opath: has(O_PATH, f.flags),
    }
}
