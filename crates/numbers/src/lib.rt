// What a public call tells, as numbers at the front of a lent array: a verdict, an answer, a lookup, a reply, and in them an errno's number.
#![tactic(auto)]

ghost use Rattle.std.specs.Prelude.{◌++◌, ◌≡◌, ◌≤◌, length, drop, Result};
ghost use Rattle.model.specs.Answers.{errno_number, answer_numbers, verdict_numbers};
ghost use Rattle.model.specs.Lookup.{lookup_numbers};
ghost use Rattle.model.specs.Build.{built_numbers};
ghost use Rattle.model.specs.Descriptors.{reply_numbers};

use model::{Answer, Broken, Entry, Errno, Miss, NO_DETAIL, Reply, Unbuilt};

pub fn errno_number(e: Errno) -> u64
    ensures { result ≡ errno_number e }
{
    e as u64
}

// Numbers at the front of an array; what stands behind them stays.
fn put<const N: usize>(out: &mut [u64], values: [u64; N])
    requires { N ≤ length out.old }
    ensures { out.new ≡ values.entry ++ drop N out.old }
{
    out[..N].copy_from_slice(&values);
}

pub fn put_verdict(out: &mut [u64], v: Result<(), Broken>)
    requires { 2 ≤ length out.old }
    ensures { out.new ≡ verdict_numbers v ++ drop 2 out.old }
{
    match v {
        Ok(()) => put(out, [0, 0]),
        Err(b) => put(out, [b.rule as u64, b.record as u64]),
    }
}

pub fn put_built(out: &mut [u64], b: Result<usize, Unbuilt>)
    requires { 4 ≤ length out.old }
    ensures { out.new ≡ built_numbers b ++ drop 4 out.old }
{
    match b {
        Ok(bytes) => put(out, [0, 0, 0, bytes as u64]),
        Err(Unbuilt::Breaks(b)) => {
            let errno = errno_number(Errno::Euclean);
            put(out, [errno, b.rule as u64, b.record as u64, 0]);
        }
        Err(Unbuilt::Short(bytes)) => {
            put(out, [errno_number(Errno::Erange), 0, 0, bytes as u64]);
        }
    }
}

pub fn put_lookup(out: &mut [u64], l: Result<Entry, Miss>)
    requires { 4 ≤ length out.old }
    ensures { out.new ≡ lookup_numbers l ++ drop 4 out.old }
{
    match l {
        Ok(e) => put(out, [0, e.number as u64, e.node as u64, e.compared as u64]),
        Err(m) => put(out, [errno_number(m.errno), 0, 0, m.compared as u64]),
    }
}

pub fn put_answer(out: &mut [u64], a: Answer)
    requires { 6 ≤ length out.old }
    ensures { out.new ≡ answer_numbers a ++ drop 6 out.old }
{
    match a {
        Answer::Found(r) => put(
            out,
            [
                0,
                NO_DETAIL as u64,
                r.place.mount as u64,
                r.place.node as u64,
                r.progress.components as u64,
                r.progress.links as u64,
            ],
        ),
        Answer::Refused(r) => put(
            out,
            [
                errno_number(r.errno),
                r.detail as u64,
                0,
                0,
                r.progress.components as u64,
                r.progress.links as u64,
            ],
        ),
    }
}

pub fn put_reply(out: &mut [u64], r: Reply)
    requires { 7 ≤ length out.old }
    ensures { out.new ≡ reply_numbers r ++ drop 7 out.old }
{
    match r {
        Reply::Opened(o) => put(
            out,
            [
                0,
                NO_DETAIL as u64,
                o.reached.place.mount as u64,
                o.reached.place.node as u64,
                o.reached.progress.components as u64,
                o.reached.progress.links as u64,
                o.number as u64,
            ],
        ),
        Reply::Duplicated(number) => put(out, [0, NO_DETAIL as u64, 0, 0, 0, 0, number as u64]),
        Reply::Done => put(out, [0, NO_DETAIL as u64, 0, 0, 0, 0, 0]),
        Reply::Refused(q) => put(
            out,
            [
                errno_number(q.errno),
                q.detail as u64,
                0,
                0,
                q.progress.components as u64,
                q.progress.links as u64,
                0,
            ],
        ),
    }
}
