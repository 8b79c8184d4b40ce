// The resolver: a table image, a handle, a path and an open_how of any bytes to the answer.
#![tactic(auto)]

ghost use Rattle.std.specs.Prelude.{false, ◌||◌, ◌≡◌, ℕ, ◌≤◌, length};
ghost use Rattle.model.specs.Bytes.{has};
ghost use Rattle.model.specs.OpenHow.{O_DIRECTORY};
ghost use Rattle.model.specs.Path.{absolute};
ghost use Rattle.model.specs.TableCheck.{table_check};
ghost use Rattle.model.specs.Trace.{answer};
ghost use Rattle.model.specs.Walk.{begin_at, walk_path};
ghost use Rattle.model.specs.Resolve.{call_of, resolve};
ghost use Rattle.laws.specs.Inside.{Inside};
ghost use Rattle.image.specs.Images.{tree};
ghost use Rattle.request.specs.Scopes.{asked, limits};
ghost use Rattle.resolver.specs.Answering.{Kept, Answered};
ghost use Rattle.resolver.specs.Comparing.{Compared};

use call::check_call;
use model::{Answer, Errno, Handle, MOST_LINKS, NOT_WALKED, Place, State};
use open_how::{BENEATH, O_DIRECTORY, has};
use request::{Scope, request_of};
use state::{finish, stop};
use table::check;
use text::{GIVEN_PATH, ends_in_slash, is_absolute, skip_slashes};
use tree::Table;
use walk::{Walk, run};

// A walk from a place: a path of slashes alone has no component.
fn begin(k: Scope<'_>, path: &[u8], directory: bool, p: Place) -> Answer
    requires { Inside (tree k.table.image) p × (length path.now ≤ 4095) }
    ensures { result ≡ answer (limits k.entry) (begin_at (asked k.entry) directory path.now p) }
{
    let start = skip_slashes(path, 0);
    let state = State {
        place: p,
        progress: NOT_WALKED,
        directory,
    };
    if start == path.len() {
        return finish(k, state);
    }
    let mut stack = [0u32; MOST_LINKS];
    let w = Walk {
        state,
        text: GIVEN_PATH,
        at: start,
        depth: 0,
    };
    run(k, path, w, &mut stack)
}

// Start is met by an absolute path, with both counts 0 (RULES 9.3). Such a path does not begin at the handle, which may then be anywhere.
fn walk_path(k: Scope<'_>, path: &[u8], directory: bool) -> Answer
    requires { (absolute path.now ≡ false → Inside (tree k.table.image) k.request.handle) × (length path.now ≤ 4095) }
    ensures { result ≡ answer (limits k.entry) (walk_path (asked k.entry) directory path.now) }
{
    if !is_absolute(path) {
        return begin(k, path, directory, k.request.handle);
    }
    if k.request.mark {
        return stop(Errno::Enoent, NOT_WALKED);
    }
    if has(BENEATH, k.request.resolve) {
        return stop(Errno::Exdev, NOT_WALKED);
    }
    begin(k, path, directory, k.request.root)
}

// "A directory is required by O_DIRECTORY, by a "/" ending the path, .." (RULES 9.4)
fn needs_directory(flags: u64, slash: bool) -> bool
    ensures { result ≡ has O_DIRECTORY flags || slash }
{
    has(O_DIRECTORY, flags) || slash
}

// The checks before the walk, then the walk.
fn resolve_in(table: Table<'_>, h: Handle, path: &[u8], how: &[u8]) -> Answer
    ensures { result ≡ resolve table.entry.image.bytes.now (call_of h path.now how.now) }
{
    match check_call(table, h, path, how) {
        Ok(f) => {
            let slash = ends_in_slash(path);
            let request = request_of(table, h, f, slash);
            let k = Scope { table, request };
            walk_path(k, path, needs_directory(f.flags, slash))
        }
        Err(r) => Answer::Refused(r),
    }
}

// The answer over a table that was accepted before, for a caller who checked it once.
pub fn resolve_accepted<'a>(image: &'a [u8], h: Handle, path: &'a [u8], how: &[u8]) -> Answer
    requires { table_check image.now ≡ Ok tt }
    ensures { Answered image.now (call_of h path.now how.now) image.exit.now (call_of h path.exit.now how.exit.now) result }
{
    resolve_in(Table::of(image), h, path, how)
}

// The answer, for any bytes at all. Its counts are at most 83,968 and 40, and what is lent stays as it was.
pub fn resolve<'a>(image: &'a [u8], h: Handle, path: &'a [u8], how: &[u8]) -> Answer
    ensures { Answered image.now (call_of h path.now how.now) image.exit.now (call_of h path.exit.now how.exit.now) result }
{
    match check(image) {
        Ok(()) => resolve_accepted(image, h, path, how),
        Err(_) => stop(Errno::Euclean, NOT_WALKED),
    }
}

// The answers of two calls.
#[derive(Clone, Copy)]
pub struct Pair {
    pub first: Answer,
    pub second: Answer,
}

// Two calls over one table and path: what the second adds to the first's restrictions can only stop its walk.
pub fn resolve_pair<'a>(
    image: &'a [u8],
    path: &'a [u8],
    h: Handle,
    how: &[u8],
    then: Handle,
    restricted: &[u8],
) -> Pair
    ensures { Compared image.now (call_of h path.now how.now) (call_of then path.now restricted.now) result.first result.second
        × Kept image.now (call_of h path.now how.now) image.exit.now (call_of h path.exit.now how.exit.now)
        × (restricted.exit.now ≡ restricted.entry.now) }
{
    let first = resolve(image, h, path, how);
    let second = resolve(image, then, path, restricted);
    Pair { first, second }
}
