// Which of two byte strings comes first, and how many bytes they have in common at their start.
#![tactic(auto)]

ghost use Rattle.std.specs.Prelude.{cond, ◌≡◌, ◌≤◌, ◌<◌, eqb};
ghost use Rattle.model.specs.Bytes.{before};
ghost use Rattle.string_order.specs.Orders.{order_of, ordered};
ghost use Rattle.string_order.specs.Starts.{alike_blocks};

use byte_blocks::{big32_at, big64_at, deciding, deciding_eight, deciding_four};
use fields::u64_at;
use std::cmp::Ordering;

// Byte by byte, for the shortest.
fn before_bytes(a: &[u8], b: &[u8]) -> bool
    ensures { result ≡ before a.now b.now }
{
    let n = a.len();
    for i in 0..n {
        if b.len() <= i {
            return false;
        }
        if a[i] != b[i] {
            return a[i] < b[i];
        }
    }
    n < b.len()
}

pub fn comes_before(a: &[u8], b: &[u8]) -> bool
    ensures { result ≡ before a.now b.now }
{
    let n = a.len().min(b.len());
    if n < 4 {
        return before_bytes(a, b);
    }
    let at = deciding(a, b, n - 4);
    let x = big32_at(a, at);
    let y = big32_at(b, at);
    if x != y {
        return x < y;
    }
    a.len() < b.len()
}

// By the block that decides, and by the lengths where it is the same in both.
fn block_order(p: u64, q: u64, m: usize, n: usize) -> Ordering
    ensures { result ≡ cond (eqb p q) (order_of m n) (order_of p q) }
{
    // A `then_with` costs some ten instructions more: it makes the first order before it tests it.
    if p == q {
        return m.cmp(&n);
    }
    p.cmp(&q)
}

// Byte by byte, for the shortest.
fn compare_bytes(a: &[u8], b: &[u8]) -> Ordering
    ensures { result ≡ ordered a.now b.now }
{
    let n = a.len().min(b.len());
    for i in 0..n {
        if a[i] != b[i] {
            return a[i].cmp(&b[i]);
        }
    }
    a.len().cmp(&b.len())
}

// Which of two strings comes first, or that they are the same: for a search, which goes on by the answer.
pub fn compare(a: &[u8], b: &[u8]) -> Ordering
    ensures { result ≡ ordered a.now b.now }
{
    let n = a.len().min(b.len());
    if n < 4 {
        return compare_bytes(a, b);
    }
    if n < 8 {
        let at = deciding_four(a, b, n - 4);
        return block_order(big32_at(a, at), big32_at(b, at), a.len(), b.len());
    }
    let at = deciding_eight(a, b, n - 8);
    block_order(big64_at(a, at), big64_at(b, at), a.len(), b.len())
}

// How many bytes two strings have in common at their start, by whole blocks of eight.
pub fn alike(a: &[u8], b: &[u8]) -> usize
    ensures { result ≡ alike_blocks a.now b.now }
{
    let n = a.len().min(b.len()) / 8;
    for k in 0..n {
        if u64_at(a, 8 * k) != u64_at(b, 8 * k) {
            return 8 * k;
        }
    }
    8 * n
}
