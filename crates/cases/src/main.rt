// Runs the cases of its standard input, compares each answer with the expected one, and says of each which it was.
//
// The input is written by tests/cases/write: a u32 count, then a record of 100 bytes for each case, then the bytes that the records
// lend. All numbers are little-endian. A record: u32 kind (1: table check, 2: call, 3: start of descriptors, 4: open, 5: duplicate,
// 6: close, 7: set the mark, 8: lookup, 9: build); u32 offset and u32 length of the image (of a build the node records), the path (of a
// lookup the name that is looked up, of a build the mounts), the open_how (of a build the entries) and the case's name; u32 mark, of an
// open whether it is asked; u64 mount, of a descriptor call the descriptor, of a build the buffer's length; u64 node, of a lookup the
// directory; seven u32, the expected numbers: two for a check and a start, six for a call, seven for a descriptor call, four for a lookup
// and a build, then zeros; u32 offset and u32 length of a build's text, and of the image that it is to write, empty where it is refused.
// A start's descriptors are those of the records after it. A build whose buffer is not left as it should be answers 1 as the fifth number.
#![tactic(auto)]

ghost use Rattle.std.specs.Prelude.{◌≡◌, ◌↔◌, ◌+◌, ◌≤◌, length, IsTrue};

use fields::{u32_at, u64_at};
use ventolaire::{
    ventolaire_build, ventolaire_check, ventolaire_close, ventolaire_dup, ventolaire_lookup,
    ventolaire_open, ventolaire_resolve, ventolaire_set_mark, ventolaire_start,
};

// What a record asks for.
#[derive(Clone, Copy)]
enum Kind {
    Check,
    Call,
    Start,
    Open,
    Duplicate,
    Close,
    SetMark,
    Lookup,
    Build,
}

// A number of no kind.
#[derive(Clone, Copy)]
struct Unknown(usize);

impl TryFrom<usize> for Kind {
    type Error = Unknown;

    fn try_from(number: usize) -> Result<Kind, Unknown> {
        match number {
            1 => Ok(Kind::Check),
            2 => Ok(Kind::Call),
            3 => Ok(Kind::Start),
            4 => Ok(Kind::Open),
            5 => Ok(Kind::Duplicate),
            6 => Ok(Kind::Close),
            7 => Ok(Kind::SetMark),
            8 => Ok(Kind::Lookup),
            9 => Ok(Kind::Build),
            _ => Err(Unknown(number)),
        }
    }
}

// Of a number that the list does not have: 0 is run as a call, a higher one sets the mark.
fn kind_of(number: usize) -> Kind {
    match Kind::try_from(number) {
        Ok(kind) => kind,
        Err(Unknown(0)) => Kind::Call,
        Err(_) => Kind::SetMark,
    }
}

// The part of the input whose offset and length stand at a place, or nothing where it reaches outside.
fn part(s: &[u8], at: usize) -> &[u8]
    requires { at + 8 ≤ length s.now }
{
    let from = u32_at(s, at);
    let count = u32_at(s, at + 4);
    s.get(from..from + count).unwrap_or(&[])
}

// What stands in a buffer before it is lent to a build: a byte that is written shows.
const CANARY: u8 = 0xA5;

// A buffer of canaries has the image at its front and is else as it was.
fn holds(buffer: &[u8], image: &[u8]) -> bool {
    match buffer.strip_prefix(image) {
        Some(rest) => rest.iter().all(|b| *b == CANARY),
        None => false,
    }
}

// A build into a buffer of canaries, longer than any that the list asks for: four numbers, then 1 where the buffer is not as it should be
// or is shorter than asked.
fn build(s: &[u8], at: usize, out: &mut [u64; 7])
    requires { at + 100 ≤ length s.now }
{
    let mut buffer = [CANARY; 65600];
    let room = u64_at(s, at + 40) as usize;
    if buffer.len() < room {
        out[4] = 1;
        return;
    }
    let nodes = part(s, at + 4);
    let mounts = part(s, at + 12);
    let entries = part(s, at + 20);
    let text = part(s, at + 84);
    let image = part(s, at + 92);
    ventolaire_build(nodes, mounts, entries, text, &mut buffer[..room], out);
    let written = if out[0] == 0 { image } else { &image[..0] };
    if !holds(&buffer, written) {
        out[4] = 1;
    }
}

// The numbers of a record of any kind: two of a check and a start, four of a lookup, six of a call, seven of a descriptor call.
fn answered(s: &[u8], at: usize, slots: &mut [u64; 64]) -> [u64; 7]
    requires { at + 100 ≤ length s.now }
{
    let mut out = [0; 7];
    let image = part(s, at + 4);
    let path = part(s, at + 12);
    let how = part(s, at + 20);
    let mark = u32_at(s, at + 36) == 1;
    let number = u64_at(s, at + 40);
    let node = u64_at(s, at + 48);
    match kind_of(u32_at(s, at)) {
        Kind::Check => {
            ventolaire_check(image, &mut out);
        }
        Kind::Call => {
            ventolaire_resolve(image, number, node, mark, path, how, &mut out);
        }
        Kind::Start => {
            ventolaire_start(image, slots, &mut out);
        }
        Kind::Open => {
            ventolaire_open(image, slots, number, mark, path, how, &mut out);
        }
        Kind::Duplicate => {
            ventolaire_dup(slots, number, &mut out);
        }
        Kind::Close => {
            ventolaire_close(slots, number, &mut out);
        }
        Kind::SetMark => {
            ventolaire_set_mark(image, slots, number, &mut out);
        }
        Kind::Lookup => {
            ventolaire_lookup(image, node, path, &mut out);
        }
        Kind::Build => build(s, at, &mut out),
    }
    out
}

fn expected(s: &[u8], at: usize) -> [u64; 7]
    requires { at + 100 ≤ length s.now }
{
    let mut out = [0; 7];
    for (i, place) in out.iter_mut().enumerate() {
        *place = u32_at(s, at + 56 + 4 * i) as u64;
    }
    out
}

fn same(a: [u64; 7], b: [u64; 7]) -> bool
    ensures { IsTrue result ↔ a ≡ b }
{
    a == b
}

// By the crate io, as all that is printed: std's writing would trust more of the system.
fn print_seven(numbers: [u64; 7]) {
    for n in numbers {
        io::write_all(1, b" ");
        io::print_decimal(1, n);
    }
}

// Runs the case whose record begins at a place, and says whether it passed.
fn run_case(s: &[u8], at: usize, slots: &mut [u64; 64]) -> bool
    requires { at + 100 ≤ length s.now }
{
    let name = part(s, at + 28);
    let want = expected(s, at);
    let got = answered(s, at, slots);
    let passed = same(want, got);
    if passed {
        io::write_all(1, b"ok ");
        io::write_all(1, name);
    } else {
        io::write_all(1, b"no ");
        io::write_all(1, name);
        io::write_all(1, b": expected");
        print_seven(want);
        io::write_all(1, b", got");
        print_seven(got);
    }
    io::write_all(1, b"\n");
    passed
}

// Runs a number of cases and answers how many passed. A record that is cut off counts as failed.
fn run(s: &[u8], count: usize) -> usize
    requires { count ≤ 65536 }
    ensures { result ≤ count }
{
    let mut slots = [0; 64];
    let mut passed = 0;
    for i in 0..count {
        let at = 4 + 100 * i;
        if s.len() < at + 100 {
            break;
        }
        if run_case(s, at, &mut slots) {
            passed += 1;
        }
    }
    passed
}

// The most cases that a list may have.
const MOST_CASES: usize = 65536;

fn run_all(s: &[u8]) {
    if s.len() < 4 {
        return;
    }
    let count = u32_at(s, 0);
    if MOST_CASES < count {
        return;
    }
    let passed = run(s, count);
    io::print_decimal(1, passed as u64);
    io::write_all(1, b" passed, ");
    io::print_decimal(1, (count - passed) as u64);
    io::write_all(1, b" failed\n");
}

// Room for the input, which is cut there. By std's Vec and reader the program would run longer lists, and trust more of the system. The promise tells main
// the length, which lending it as a slice asks for.
fn room() -> [u8; 2097152]
    ensures { 2097152 ≡ length result }
{
    [0; 2097152]
}

fn main() {
    let mut input = room();
    let n = io::read_full(0, &mut input);
    run_all(&input[..n]);
}
