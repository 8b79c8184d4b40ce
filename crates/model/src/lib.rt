// The types that the definitions, the promises and the code share. The definitions are in specs/, the theorems over them in
// proofs/.
#![tactic(auto)]

// The limits of a walk (RULES 11): the most bytes that a name has,
pub const MOST_NAME: usize = 255;

// and a text, be it the given path or a link's body;
pub const MOST_TEXT: usize = 4095;

// the most links that a walk follows.
pub const MOST_LINKS: usize = 40;

// The detail of an answer that names no unknown bit.
pub const NO_DETAIL: u32 = 255;

// A place (RULES 3.5): a node as it is seen through one mount.
#[derive(Clone, Copy, PartialEq, Eq)]
pub struct Place {
    pub mount: usize,
    pub node: usize,
}

// A directory handle. The mark is the below mark of OpenBSD's O_BELOW proposal, kept with the handle (RULES 5.1, 6.9).
#[derive(Clone, Copy)]
pub struct Handle {
    pub mount: usize,
    pub node: usize,
    pub mark: bool,
}

impl From<Handle> for Place {
    ghost use Rattle.std.specs.Prelude.{◌≡◌};
    ghost use Rattle.model.specs.Handles.{place_of};

    ghost from_gives = { λ h p. p ≡ place_of h };

    fn from(h: Handle) -> Place {
        Place {
            mount: h.mount,
            node: h.node,
        }
    }
}

// How far a walk came: components taken and links followed (RULES 11.2).
#[derive(Clone, Copy)]
pub struct Progress {
    pub components: usize,
    pub links: usize,
}

// Before the walk both counts are 0 (RULES 5.4).
pub const NOT_WALKED: Progress = Progress {
    components: 0,
    links: 0,
};

// A walk's state: where it stands, how far it came, and whether it must end on a directory (RULES 9.1).
#[derive(Clone, Copy)]
pub struct State {
    pub place: Place,
    pub progress: Progress,
    pub directory: bool,
}

// What Found carries (RULES 5.3).
#[derive(Clone, Copy)]
pub struct Reached {
    pub place: Place,
    pub progress: Progress,
}

// The error numbers that the resolver and the descriptor table give, by their usual names (RULES 5.7, 17.8).
#[derive(Clone, Copy)]
pub enum Errno {
    Euclean = 117,
    E2big = 7,
    Einval = 22,
    Enametoolong = 36,
    Enoent = 2,
    Ebadf = 9,
    Enotdir = 20,
    Eloop = 40,
    Exdev = 18,
    Emfile = 24,
    Enotty = 25,
    Erange = 34,
}

// What a refusal carries (RULES 5.4): detail is an unknown bit's number, else NO_DETAIL.
#[derive(Clone, Copy)]
pub struct Refusal {
    pub errno: Errno,
    pub detail: u32,
    pub progress: Progress,
}

// The resolver's answer. No `Result`: the rules name its two cases, and what each holds (DECISIONS, Forms).
#[derive(Clone, Copy)]
pub enum Answer {
    Found(Reached),
    Refused(Refusal),
}

// Why the table check does not accept: the lowest rule broken, with the lowest record that breaks it (RULES 4.8). A rule is told by the number that
// the rules and the C interface give it.
#[derive(Clone, Copy)]
pub struct Broken {
    pub rule: usize,
    pub record: usize,
}

// A descriptor that was opened: its number, and what was reached (RULES 17.6).
#[derive(Clone, Copy)]
pub struct Descriptor {
    pub number: usize,
    pub reached: Reached,
}

// What a descriptor call comes to (RULES 17.3): a path opened, a number duplicated, a close or a mark done, or a refusal.
// No `Result`: the refusal is one of the four cases that the rules list.
#[derive(Clone, Copy)]
pub enum Reply {
    Opened(Descriptor),
    Duplicated(usize),
    Done,
    Refused(Refusal),
}

// An entry found by its name: its number, the node that it names, and how many names were compared (RULES 18.7).
#[derive(Clone, Copy)]
pub struct Entry {
    pub number: usize,
    pub node: usize,
    pub compared: usize,
}

// Why no entry is found, and how many names were compared (RULES 18.6).
#[derive(Clone, Copy)]
pub struct Miss {
    pub errno: Errno,
    pub compared: usize,
}

// Why an image is not written (RULES 19.10): a rule that it would break, or a buffer too short for it, with the length that it needs.
#[derive(Clone, Copy)]
pub enum Unbuilt {
    Breaks(Broken),
    Short(usize),
}

impl From<Broken> for Unbuilt {
    ghost use Rattle.std.specs.Prelude.{◌≡◌};
    ghost use Rattle.model.specs.declared.Unbuilt.TheVariants.{Breaks};

    ghost from_gives = { λ b u. u ≡ Breaks b };

    fn from(b: Broken) -> Unbuilt {
        Unbuilt::Breaks(b)
    }
}
