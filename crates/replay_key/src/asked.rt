// The recorded calls once more, on a key that holds its bytes.
use crate::answers::{Said, compared, count, judged, numbers, part, told, word};
use crate::held;
use held_key::Numbers;
use key::Layer;

// The numbers of a key beside its refusal, as an answer.
fn moved(n: Numbers) -> Said {
    numbers(n.refusal, n.ikey, n.shift_count, n.suffix_start)
}

// What a call says that asks for a number, by its code in the sample.
fn plain(op: u8, a: &[u8], i: u64, s: usize, p: usize) -> Said {
    match op {
        2 => count(held::len(a, i, s, p)),
        3 => word(held::ikey(a, i, s, p)),
        4 => count(held::shift_count(a, i, s, p)),
        5 => count(held::suffix_start(a, i, s, p)),
        6 => count(held::current_len(a, i, s, p)),
        _ => count(held::suffix_len(a, i, s, p)),
    }
}

// What a call says that asks whether something is so.
fn tests(op: u8, a: &[u8], i: u64, s: usize, p: usize) -> Said {
    match op {
        8 => told(held::is_empty(a, i, s, p)),
        9 => told(held::is_shifted(a, i, s, p)),
        _ => told(held::has_suffix(a, i, s, p)),
    }
}

// What a call says that moves the key, by so many bytes where it takes them.
fn moves(op: u8, a: &[u8], i: u64, s: usize, p: usize, by: u64) -> Said {
    match op {
        11 => moved(held::shift(a, i, s, p)),
        12 => moved(held::shift_by(a, i, s, p, by as usize)),
        13 => moved(held::unshift(a, i, s, p)),
        _ => moved(held::unshift_all(a, i, s, p)),
    }
}

// What `suffix` and `full_data` say, as a length and a sum.
fn parts(op: u8, a: &[u8], i: u64, s: usize, p: usize) -> Said {
    match op {
        15 => part(held::suffix_number(a, i, s, p), held::suffix(a, i, s, p)),
        _ => part(
            held::full_data_number(a, i, s, p),
            held::full_data(a, i, s, p),
        ),
    }
}

// Whether a call makes a key or takes one.
pub(crate) fn is_held(op: u8) -> bool {
    matches!(op, 1..=18)
}

// Its answer, of a key that holds these bytes.
pub(crate) fn answer(op: u8, a: &[u8], b: &[u8], k: Layer, x: u64, y: u64) -> Said {
    let i = k.ikey;
    let s = k.shift_count;
    let p = k.suffix_start;
    if op == 1 {
        return moved(held::new(a));
    }
    if op < 8 {
        return plain(op, a, i, s, p);
    }
    if op < 11 {
        return tests(op, a, i, s, p);
    }
    if op < 15 {
        return moves(op, a, i, s, p, x);
    }
    if op < 17 {
        return parts(op, a, i, s, p);
    }
    if op == 17 {
        return compared(held::compare(a, i, s, p, x, y as usize));
    }
    compared(held::compare_suffix(a, i, s, p, b))
}

// The number that `judge` gives such a key.
pub(crate) fn judgement(a: &[u8], k: Layer) -> u64 {
    judged(held::judge(a, k.ikey, k.shift_count, k.suffix_start)).number
}
