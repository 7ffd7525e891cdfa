// Each call on a key, and its answer as a number and three values.
use key::{Layer, Refused};
use refusal::Refusal;
use std::cmp::Ordering;

// What a call said: 0 or the number of a refusal, and three values, 0 where there is none.
#[derive(Clone, Copy)]
pub struct Said {
    pub number: u64,
    pub a: u64,
    pub b: u64,
    pub c: u64,
}

// One value, accepted.
fn value(a: u64) -> Said {
    Said {
        number: 0,
        a,
        b: 0,
        c: 0,
    }
}

// The three numbers of a key, accepted.
fn layer(k: Layer) -> Said {
    Said {
        number: 0,
        a: k.ikey,
        b: k.shift_count as u64,
        c: k.suffix_start as u64,
    }
}

// A refusal with the numbers that are handed back.
fn refused(r: Refused) -> Said {
    let k = layer(r.layer);
    Said {
        number: refusal::number(r.why),
        a: k.a,
        b: k.b,
        c: k.c,
    }
}

// A refusal that hands nothing back.
fn nothing(why: Refusal) -> Said {
    Said {
        number: refusal::number(why),
        a: 0,
        b: 0,
        c: 0,
    }
}

// An order as the record has it: 0 less, 1 equal, 2 greater.
fn order(o: Ordering) -> u64 {
    match o {
        Ordering::Less => 0,
        Ordering::Equal => 1,
        Ordering::Greater => 2,
    }
}

// What `new` says.
fn made(r: Result<Layer, Refusal>) -> Said {
    match r {
        Ok(k) => layer(k),
        Err(why) => nothing(why),
    }
}

// What a shift or an unshift says.
fn moved(r: Result<Layer, Refused>) -> Said {
    match r {
        Ok(k) => layer(k),
        Err(r) => refused(r),
    }
}

// What a call says that tells a length, a count or an offset.
pub(crate) fn count(r: Result<usize, Refused>) -> Said {
    match r {
        Ok(n) => value(n as u64),
        Err(r) => refused(r),
    }
}

// What a call says that tells an ikey.
pub(crate) fn word(r: Result<u64, Refused>) -> Said {
    match r {
        Ok(w) => value(w),
        Err(r) => refused(r),
    }
}

// What a call says that tells whether something is so: 1 for yes, 0 for no.
pub(crate) fn told(r: Result<bool, Refused>) -> Said {
    match r {
        Ok(b) => value(u64::from(b)),
        Err(r) => refused(r),
    }
}

// What a comparison says.
pub(crate) fn compared(r: Result<Ordering, Refused>) -> Said {
    match r {
        Ok(o) => value(order(o)),
        Err(r) => refused(r),
    }
}

// What the comparison of two whole keys says.
fn whole(r: Result<Ordering, Refusal>) -> Said {
    match r {
        Ok(o) => value(order(o)),
        Err(why) => nothing(why),
    }
}

// What the judgement of a key says.
pub(crate) fn judged(r: Result<(), Refused>) -> Said {
    match r {
        Ok(()) => value(0),
        Err(r) => refused(r),
    }
}

// A refusal's number or 0, and the numbers of a key.
pub(crate) fn numbers(number: u64, ikey: u64, shift_count: usize, suffix_start: usize) -> Said {
    Said {
        number,
        a: ikey,
        b: shift_count as u64,
        c: suffix_start as u64,
    }
}

// A part, by its length and a sum over its bytes; or the number of its refusal.
pub(crate) fn part(number: u64, s: &[u8]) -> Said {
    if number != 0 {
        return numbers(number, 0, 0, 0);
    }
    Said {
        number: 0,
        a: s.len() as u64,
        b: sum(s),
        c: 0,
    }
}

// A sum over bytes and their order, as the record has it.
fn sum(s: &[u8]) -> u64 {
    let mut x: u64 = 1;
    for b in s {
        x = mix(x, u64::from(*b));
    }
    x
}

// The sum with one byte more.
fn mix(x: u64, b: u64) -> u64 {
    (x % 65521 * 31 + b % 256 + 1) % 65521
}

// The numbers of no key: zeros.
fn none() -> Layer {
    Layer {
        ikey: 0,
        shift_count: 0,
        suffix_start: 0,
    }
}

// The key of a at a layer. A key that is too long has no numbers: zeros.
pub(crate) fn reach(a: &[u8], layer: u8) -> Layer {
    let Ok(k) = key::new(a) else {
        return none();
    };
    let Ok(l) = key::shift_by(a, k.ikey, k.shift_count, k.suffix_start, layer as usize * 8) else {
        return none();
    };
    l
}

// What a call says that asks for a number, by its code in the sample.
fn plain(op: u8, a: &[u8], k: Layer) -> Said {
    match op {
        2 => count(key::len(a, k.ikey, k.shift_count, k.suffix_start)),
        3 => word(key::ikey(a, k.ikey, k.shift_count, k.suffix_start)),
        4 => count(key::shift_count(a, k.ikey, k.shift_count, k.suffix_start)),
        5 => count(key::suffix_start(a, k.ikey, k.shift_count, k.suffix_start)),
        6 => count(key::current_len(a, k.ikey, k.shift_count, k.suffix_start)),
        _ => count(key::suffix_len(a, k.ikey, k.shift_count, k.suffix_start)),
    }
}

// What a call says that asks whether something is so.
fn tests(op: u8, a: &[u8], k: Layer) -> Said {
    match op {
        8 => told(key::is_empty(a, k.ikey, k.shift_count, k.suffix_start)),
        9 => told(key::is_shifted(a, k.ikey, k.shift_count, k.suffix_start)),
        _ => told(key::has_suffix(a, k.ikey, k.shift_count, k.suffix_start)),
    }
}

// What a call says that moves the key, by so many bytes where it takes them.
fn moves(op: u8, a: &[u8], k: Layer, by: u64) -> Said {
    match op {
        11 => moved(key::shift(a, k.ikey, k.shift_count, k.suffix_start)),
        12 => moved(key::shift_by(a, k.ikey, k.shift_count, k.suffix_start, by as usize)),
        13 => moved(key::unshift(a, k.ikey, k.shift_count, k.suffix_start)),
        _ => moved(key::unshift_all(a, k.ikey, k.shift_count, k.suffix_start)),
    }
}

// What `suffix` says, as a length and a sum.
fn suffixed(a: &[u8], k: Layer) -> Said {
    let i = k.ikey;
    let s = k.shift_count;
    let p = k.suffix_start;
    part(
        key::inside::refusal_of(a, i, s, p),
        key::inside::suffix(a, i, s, p),
    )
}

// What `full_data` says, as a length and a sum.
fn data(a: &[u8], k: Layer) -> Said {
    let i = k.ikey;
    let s = k.shift_count;
    let p = k.suffix_start;
    part(
        key::inside::refusal_of(a, i, s, p),
        key::inside::full_data(a, i, s, p),
    )
}

// What a call on a key at a layer says, by its code in the sample.
fn on_key(op: u8, a: &[u8], b: &[u8], k: Layer, x: u64, y: u64) -> Said {
    if op < 8 {
        return plain(op, a, k);
    }
    if op < 11 {
        return tests(op, a, k);
    }
    if op < 15 {
        return moves(op, a, k, x);
    }
    if op == 15 {
        return suffixed(a, k);
    }
    if op == 16 {
        return data(a, k);
    }
    if op == 17 {
        return compared(key::compare(a, k.ikey, k.shift_count, k.suffix_start, x, y as usize));
    }
    compared(key::compare_suffix(a, k.ikey, k.shift_count, k.suffix_start, b))
}

// The answer of a call: its number in the sample, two keys, a layer and two arguments.
pub(crate) fn answer(op: u8, a: &[u8], b: &[u8], layer: u8, x: u64, y: u64) -> Said {
    if op == 0 {
        return value(ikey::read_ikey(a, x as usize));
    }
    if op == 1 {
        return made(key::new(a));
    }
    if op == 19 {
        return value(order(ikey::compare_ikey(x, y)));
    }
    if op == 20 {
        return whole(ikey::compare_keys(a, b));
    }
    on_key(op, a, b, reach(a, layer), x, y)
}
