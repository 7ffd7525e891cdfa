// One record: a call, its keys and arguments, and the answer that the Rust gave.
ghost use Rattle.std.specs.Prelude.{◌+◌, ◌^◌, ◌<◌};
ghost use Rattle.replay_key.specs.Counts.{IsPrefixLen};

use crate::answers::{Said, answer, reach};
use crate::asked;

// The byte at i, or 0 past the end.
fn byte(s: &[u8], i: usize) -> u8 {
    s.get(i).copied().unwrap_or(0)
}

// A byte as a number of 64 bits.
fn wide(x: u8) -> u64
    ensures { result < 256 }
{
    u64::from(x)
}

// Two bytes from i on, the first one highest.
fn two(s: &[u8], i: usize) -> u64
    requires { i < 4096 }
    ensures { result < 65536 }
{
    wide(byte(s, i)) * 256 + wide(byte(s, i + 1))
}

// Four bytes from i on, the first one highest.
fn four(s: &[u8], i: usize) -> u64
    requires { i < 4000 }
    ensures { result < 2 ^ 32 }
{
    two(s, i) * 65536 + two(s, i + 2)
}

// Eight bytes from i on, the first one highest.
fn eight(s: &[u8], i: usize) -> u64
    requires { i < 3000 }
{
    four(s, i) * 0x1_0000_0000 + four(s, i + 4)
}

// Writes a byte; nothing where there is no such place.
fn put(out: &mut [u8], i: usize, x: u8) {
    if i < out.len() {
        out[i] = x;
    }
}

// The number after x, of those that a key's bytes are made from.
fn stir(x: u64) -> u64 {
    (x % 65537 * 75 + 74) % 65537
}

// The lowest eight bits.
fn low(x: u64) -> u8 {
    (x % 256) as u8
}

// A byte of a key of that kind: the seed itself, or the lowest bits of x.
fn choose(kind: u8, seed: u8, x: u64) -> u8 {
    if kind == 0 {
        return seed;
    }
    low(x)
}

// Writes the bytes of a key, all the same or stirred from a seed, then one of them changed; tells how many.
fn build(rec: &[u8], from: usize, out: &mut [u8]) -> usize
    requires { from < 1000 }
    ensures { IsPrefixLen result out.new }
{
    let n = two(rec, from) as usize;
    if out.len() < n {
        return 0;
    }
    let kind = byte(rec, from + 2);
    let seed = byte(rec, from + 3);
    let mut x = wide(seed);
    // The bytes before this place are written, and x is the number that the last one came from.
    for place in &mut out[..n] {
        x = stir(x);
        *place = choose(kind, seed, x);
    }
    let at = two(rec, from + 4) as usize;
    if at < n {
        put(out, at, byte(rec, from + 6));
    }
    n
}

// Whether the answer of the recorded call is the recorded one, and that of the same call on a key that holds its bytes. Such a key is
// refused by `judge` where a question is.
fn agrees_on(rec: &[u8], a: &[u8], b: &[u8]) -> bool {
    let op = byte(rec, 0);
    let layer = byte(rec, 15);
    let x = eight(rec, 16);
    let y = eight(rec, 24);
    if !same(rec, answer(op, a, b, layer, x, y)) {
        return false;
    }
    if !asked::is_held(op) {
        return true;
    }
    let k = reach(a, layer);
    if op < 11 && asked::judgement(a, k) != wide(byte(rec, 32)) {
        return false;
    }
    same(rec, asked::answer(op, a, b, k, x, y))
}

// Builds the two keys of a record and makes the call; whether it agrees.
pub(crate) fn agrees(rec: &[u8]) -> bool {
    let mut a = [0u8; 300];
    let mut b = [0u8; 300];
    let m = build(rec, 1, &mut a);
    let n = build(rec, 8, &mut b);
    agrees_on(rec, &a[..m], &b[..n])
}

// Whether the record has this answer.
fn same(rec: &[u8], said: Said) -> bool {
    said.number == wide(byte(rec, 32))
        && said.a == eight(rec, 40)
        && said.b == eight(rec, 48)
        && said.c == eight(rec, 56)
}
