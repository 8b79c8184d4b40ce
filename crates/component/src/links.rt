// Following a link: its events under the restrictions, and where it leads.
ghost use Rattle.std.specs.Prelude.{not, ◌&&◌, ◌||◌, eqb, ltb, ◌≡◌, ◌<◌};
ghost use Rattle.model.specs.Bytes.{has};
ghost use Rattle.model.specs.OpenHow.{NO_XDEV};
ghost use Rattle.image.specs.Images.{tree};
ghost use Rattle.model.specs.Walk.{magic_link, symbolic_link, step_to};
ghost use Rattle.request.specs.Scopes.{asked, limits};
ghost use Rattle.component.specs.Outcomes.{outcome, unlimited, link_kind};

use crate::Outcome;
use model::{Errno, MOST_LINKS, Place};
use open_how::{BENEATH, IN_ROOT, NO_MAGICLINKS, NO_SYMLINKS, NO_XDEV, has};
use request::Scope;
use text::is_absolute;

// Whether NO_XDEV bars the way between two mounts that are not the same.
fn barred(resolve: u64, m: usize, n: usize) -> bool
    ensures { result ≡ not (eqb m n) && has NO_XDEV resolve }
{
    m != n && has(NO_XDEV, resolve)
}

// Events Link and Magic, then the target; under IN_ROOT it is refused.
fn follow_magic(k: Scope<'_>, p: Place, n: usize) -> Outcome
    requires { n < (tree k.table.image).nodes }
    ensures { result ≡ unlimited (limits k.entry) (magic_link (asked k.entry) p n) }
{
    if has(NO_SYMLINKS, k.request.resolve) {
        return Outcome::Stop(Errno::Eloop);
    }
    if k.request.mark {
        return Outcome::Stop(Errno::Enoent);
    }
    if has(NO_MAGICLINKS, k.request.resolve) {
        return Outcome::Stop(Errno::Eloop);
    }
    let mount = k.table.image.node_first(n);
    if barred(k.request.resolve, mount, p.mount) {
        return Outcome::Stop(Errno::Exdev);
    }
    if has(BENEATH, k.request.resolve) {
        return Outcome::Stop(Errno::Exdev);
    }
    if has(IN_ROOT, k.request.resolve) {
        return Outcome::Stop(Errno::Exdev);
    }
    let node = k.table.image.node_count(n);
    Outcome::Target(Place { mount, node })
}

// Events Link and, for a body that starts with a slash, Jump; then the body, from the root or from where the link is named.
fn follow_symbolic(k: Scope<'_>, p: Place, n: usize) -> Outcome
    requires { (n < (tree k.table.image).nodes) × ((tree k.table.image).kind n ≡ 3) }
    ensures { result ≡ unlimited (limits k.entry) (symbolic_link (asked k.entry) p n) }
{
    if has(NO_SYMLINKS, k.request.resolve) {
        return Outcome::Stop(Errno::Eloop);
    }
    if !is_absolute(k.table.image.body(n)) {
        return Outcome::Read(n, p);
    }
    if k.request.mark {
        return Outcome::Stop(Errno::Enoent);
    }
    if has(BENEATH, k.request.resolve) {
        return Outcome::Stop(Errno::Exdev);
    }
    if barred(k.request.resolve, p.mount, k.request.root.mount) {
        return Outcome::Stop(Errno::Exdev);
    }
    Outcome::Read(n, k.request.root)
}

// "A link that is not last, or is last and followed" (RULES 9.10)
fn is_followed(last: bool, follow: bool) -> bool
    ensures { result ≡ not last || follow }
{
    !last || follow
}

// The 41st link of a walk is refused before any of its events.
fn is_spent(links: usize) -> bool
    ensures { result ≡ not (ltb links 40) }
{
    MOST_LINKS <= links
}

// A link, magic or symbolic: followed, or a place to stand on.
pub fn link_to(k: Scope<'_>, last: bool, links: usize, p: Place, n: usize, magic: bool) -> Outcome
    requires { (n < (tree k.table.image).nodes) × ((tree k.table.image).kind n ≡ link_kind magic) }
    ensures { result ≡ outcome (limits k.entry) links (step_to (asked k.entry) last p n) }
{
    if !is_followed(last, k.request.follow) {
        return Outcome::Go(Place { node: n, ..p });
    }
    if is_spent(links) {
        return Outcome::Stop(Errno::Eloop);
    }
    if magic {
        return follow_magic(k, p, n);
    }
    follow_symbolic(k, p, n)
}
