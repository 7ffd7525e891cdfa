// One recorded call on the index, at fixed places of a line of 570 bytes: the call, its number, a frame number, another number, the sum of
// the memory after it, the length of a key and the key. tests/calls.py makes such lines and says which is which.
ghost use Rattle.std.specs.Prelude.{◌≤◌};

use index::{Listed, PutRefused};
use memory_layout::CELL_BYTES;
use refusal::Refusal;

// Which call the line records, by its first byte; 0 where the line is empty.
pub(crate) fn call(text: &[u8]) -> u8 {
    if text.len() == 0 {
        return 0;
    }
    text[0]
}

// The number that the call answered: 0, or that of a refusal.
fn number(text: &[u8]) -> u64 {
    hex_digits::two(text, 1)
}

// The frame number of the line: the one put, or the one told.
fn frame(text: &[u8]) -> u64 {
    hex_digits::sixteen(text, 3)
}

// The other number of the line: the k of a k-th entry, the slots that rest after a put or the nodes that it lacks, or the number of
// entries.
fn other(text: &[u8]) -> u64 {
    hex_digits::sixteen(text, 19)
}

// How many nodes a new memory has.
pub(crate) fn nodes_of(text: &[u8]) -> usize {
    hex_digits::four(text, 23) as usize
}

// How many cells a new memory has.
pub(crate) fn cells_of(text: &[u8]) -> usize {
    hex_digits::four(text, 31) as usize
}

// The key's length, at most 257.
fn length(text: &[u8]) -> usize
    ensures { result ≤ 257 }
{
    let n = hex_digits::four(text, 51) as usize;
    n.min(257)
}

// The bytes of the key, filled up with zeros.
fn key_of(text: &[u8]) -> [u8; 257] {
    let mut key = [0u8; 257];
    for (i, byte) in key.iter_mut().enumerate() {
        *byte = hex_digits::byte(text, 55 + 2 * i);
    }
    key
}

// Whether the call says what the line has, and the memory after it has the line's sum.
pub(crate) fn agrees(nodes: &mut [u64], cells: &mut [u64], bytes: &mut [u8], text: &[u8]) -> bool {
    let space = key_of(text);
    let n = length(text);
    let key = &space[0..n];
    if !says(nodes, cells, bytes, key, text) {
        return false;
    }
    replay_sum::of(nodes, cells, bytes) == hex_digits::sixteen(text, 35)
}

// Makes the recorded call; whether it says what the line has.
fn says(nodes: &mut [u64], cells: &mut [u64], bytes: &mut [u8], key: &[u8], text: &[u8]) -> bool {
    let which = call(text);
    if which == b'c' {
        return cleared_number(index::clear(nodes, cells, bytes)) == number(text);
    }
    if which == b'p' {
        return put(index::put(nodes, cells, bytes, key, frame(text)), text);
    }
    if which == b'd' {
        return removed_number(index::remove(nodes, cells, bytes, key)) == number(text);
    }
    if which == b'n' {
        return counted(index::count(nodes, cells, bytes), text);
    }
    if which == b'f' {
        return found(index::find(nodes, cells, bytes, key), text);
    }
    reached(
        bytes,
        index::kth(nodes, cells, bytes, other(text)),
        key,
        text,
    )
}

// The number that a clear answers: 0, or that of its refusal.
fn cleared_number(answer: Result<(), Refusal>) -> u64 {
    match answer {
        Ok(()) => 0,
        Err(why) => refusal::number(why),
    }
}

// Whether a put says what the line has; accepted also how many slots rest, of 14 how many nodes are lacking.
fn put(answer: Result<usize, PutRefused>, text: &[u8]) -> bool {
    match answer {
        Ok(resting) => number(text) == 0 && resting as u64 == other(text),
        Err(PutRefused::TooFewNodes(lacking)) => number(text) == 14 && lacking == other(text),
        Err(PutRefused::Refused(why)) => refusal::number(why) == number(text),
    }
}

// The number that a removal answers: 0, or that of its refusal.
fn removed_number(answer: Result<(), Refusal>) -> u64 {
    match answer {
        Ok(()) => 0,
        Err(why) => refusal::number(why),
    }
}

// Whether a count says what the line has.
fn counted(answer: Result<u64, Refusal>, text: &[u8]) -> bool {
    match answer {
        Ok(n) => number(text) == 0 && n == other(text),
        Err(why) => refusal::number(why) == number(text),
    }
}

// Whether a find says what the line has.
fn found(answer: Result<u64, Refusal>, text: &[u8]) -> bool {
    match answer {
        Ok(x) => number(text) == 0 && x == frame(text),
        Err(why) => refusal::number(why) == number(text),
    }
}

// Whether k-th says what the line has, and the key stands in the cell that it tells.
fn reached(bytes: &[u8], answer: Result<Listed, Refusal>, key: &[u8], text: &[u8]) -> bool {
    match answer {
        Ok(entry) => {
            number(text) == 0
                && entry.frame == frame(text)
                && stands(bytes, entry.cell, entry.length, key)
        }
        Err(why) => refusal::number(why) == number(text),
    }
}

// Whether the key stands in a cell, and has this length.
fn stands(bytes: &[u8], cell: u64, length: u64, key: &[u8]) -> bool {
    if length != key.len() as u64 || 255 <= cell {
        return false;
    }
    match bytes.get(cell as usize * CELL_BYTES..) {
        Some(rest) => rest.starts_with(key),
        None => false,
    }
}
