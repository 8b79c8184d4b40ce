// The walk: a state that goes forward one component at a time over the open texts, and the run over it.
#![tactic(auto)]

ghost use Rattle.std.specs.Prelude.{◌&&◌, ◌≡◌, eqb, ◌≤◌, ◌<◌};
ghost use Rattle.walk.specs.OpenTexts.{rest, Resting, Ready, Advanced, Behind, Proceeded, Entered, Stepped};

use component::{Outcome, take_component};
use image::Image;
use model::{Answer, Errno, Place, State};
use reader::{at_end, next_component};
use request::Scope;
use state::{finish, followed_to, standing_on, stop, taken};
use text::{ends_in_slash, name_of, skip_slashes, text_of};

// A walk between two components: its state, the text that it reads and where in it, and how many texts are suspended behind that.
// The stack that holds these is lent beside it: a walk is a plain value, which the compiler keeps in registers from one component to the next.
#[derive(Clone, Copy)]
pub struct Walk {
    pub state: State,
    pub text: usize,
    pub at: usize,
    pub depth: usize,
}

// The next state, or the end: every component taken, or an error in a state. Each case holds a whole state in the same place, so that
// the compiler keeps it in registers from one component to the next.
#[derive(Clone, Copy)]
pub enum Next {
    More(Walk),
    Done(State),
    Failed(Errno, State),
}

// The positions of a text, its end among them: a text and a position in it are one number.
const POSITIONS: usize = 4096;

// After a component: on in the same text, back in the one suspended last, or at the end. A suspended text has a component left, so
// one step back is enough.
fn advance(image: Image<'_>, path: &[u8], stack: &[u32], w: Walk) -> Next
    requires { Resting image.bytes.now path.now stack.now w }
    ensures { Advanced image.entry.bytes.now path.now stack.now w result }
{
    let here = text_of(image, path, w.text);
    if !at_end(here, w.at) {
        return Next::More(w);
    }
    if w.depth == 0 {
        return Next::Done(w.state);
    }
    let depth = w.depth - 1;
    let v = stack[depth] as usize;
    Next::More(Walk {
        text: v / POSITIONS,
        at: v % POSITIONS,
        depth,
        ..w
    })
}

// Starts on the body of a link, at its first component; what is left of the present text is suspended, if anything is.
fn enter_body(
    image: Image<'_>,
    path: &[u8],
    stack: &mut [u32],
    w: Walk,
    s: State,
    n: usize,
    start: usize,
) -> Walk
    requires { Resting image.bytes.now path.now stack.old w × (w.depth < 40) × (n ≤ 65535) }
    ensures { Entered image.entry.bytes.now path.now stack.old w s n start stack.new result }
{
    let body = Walk {
        state: s,
        text: n,
        at: start,
        ..w
    };
    let here = text_of(image, path, w.text);
    if !at_end(here, w.at) {
        stack[w.depth] = (w.text * POSITIONS + w.at) as u32;
        return Walk {
            depth: w.depth + 1,
            ..body
        };
    }
    body
}

// Reads the body of a symbolic link from a place. A body of slashes alone has no component: the walk goes on behind the link.
fn read_body(
    k: Scope<'_>,
    path: &[u8],
    stack: &mut [u32],
    w: Walk,
    last: bool,
    n: usize,
    p: Place,
) -> Next
    requires { Behind k.table.image.bytes.now path.now stack.old w last (Outcome.Read n p) }
    ensures { Proceeded k.entry.table.image.bytes.now path.now stack.old w (Outcome.Read n p) stack.new result }
{
    let image = k.table.image;
    let text = image.body(n);
    let slash = last && ends_in_slash(text);
    let start = skip_slashes(text, 0);
    let state = followed_to(p, slash, w.state);
    if start == text.len() {
        return advance(image, path, stack, Walk { state, ..w });
    }
    Next::More(enter_body(image, path, stack, w, state, n, start))
}

// What an outcome comes to; `w` has taken the component and stands behind it.
fn proceed(k: Scope<'_>, path: &[u8], stack: &mut [u32], w: Walk, last: bool, o: Outcome) -> Next
    requires { Behind k.table.image.bytes.now path.now stack.old w last o }
    ensures { Proceeded k.entry.table.image.bytes.now path.now stack.old w o stack.new result }
{
    match o {
        Outcome::Stop(errno) => Next::Failed(errno, w.state),
        Outcome::Go(p) => {
            let state = standing_on(p, w.state);
            advance(k.table.image, path, stack, Walk { state, ..w })
        }
        Outcome::Target(p) => {
            let state = followed_to(p, false, w.state);
            advance(k.table.image, path, stack, Walk { state, ..w })
        }
        Outcome::Read(n, p) => read_body(k, path, stack, w, last, n, p),
    }
}

// Whether a node of a kind names others: a directory does; a file and a link don't, and an accepted table has no other kind.
fn names(kind: usize) -> bool
    ensures { result ≡ eqb kind 1 }
{
    match kind {
        1 => true,
        2 | 3 | 4 => false,
        _ => false,
    }
}

impl Walk {
    // One component: what the result stands for is the definitions' step of what the walk stood for.
    pub fn step(self, k: Scope<'_>, path: &[u8], stack: &mut [u32]) -> Next
        requires { Ready k.table.image.bytes.now path.now stack.old self }
        ensures { Stepped k.entry.table.image.bytes.now k.entry.request path.now stack.old self stack.new result }
    {
        let state = self.state;
        let image = k.table.image;
        if !names(image.node_kind(state.place.node)) {
            return Next::Failed(Errno::Enotdir, state);
        }
        let here = text_of(image, path, self.text);
        let span = next_component(here, self.at);
        let last = at_end(here, span.next) && self.depth == 0;
        let name = name_of(image, path, self.text, self.at, span.end);
        let o = take_component(k, last, state.progress.links, state.place, name);
        let behind = Walk {
            state: taken(state),
            at: span.next,
            ..self
        };
        proceed(k, path, stack, behind, last, o)
    }
}

// All components, one after the other. What the stack holds at the end is left free: it is the walk's own, and no answer shows it.
pub fn run(k: Scope<'_>, path: &[u8], w: Walk, stack: &mut [u32]) -> Answer
    requires { Ready k.table.image.bytes.now path.now stack.old w }
    ensures { result ≡ rest k.entry.table.image.bytes.now k.entry.request path.now stack.old w }
{
    let mut at = w;
    loop {
        match at.step(k, path, stack) {
            Next::More(on) => at = on,
            Next::Done(end) => return finish(k, end),
            Next::Failed(errno, end) => return stop(errno, end.progress),
        }
    }
}
