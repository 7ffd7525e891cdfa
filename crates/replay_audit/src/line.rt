// One recorded line: what to do to the memory, and what the audit says to it. 28 bytes: an operation, a slice, an index of eight hex
// digits, a value of sixteen, the verdict and a line feed. tests/README.md says how the list was made.
use crate::pace;
use memory_layout::{CELL_BYTES, CELL_WORDS, HEADER_WORDS, NODE_WORDS};

// How much of the memory is lent: words of nodes, words of cells, bytes.
#[derive(Clone, Copy)]
pub(crate) struct Lengths {
    pub nodes: usize,
    pub cells: usize,
    pub bytes: usize,
}

// What the line is to do, by its first byte.
pub(crate) fn operation(text: &[u8]) -> u8 {
    at(text, 0)
}

// The byte at i, or 0 past the end.
fn at(text: &[u8], i: usize) -> u8 {
    text.get(i).copied().unwrap_or(0)
}

// The index of the word or byte that the line names.
fn index(text: &[u8]) -> usize {
    hex_digits::eight(text, 2) as usize
}

// The value that goes there.
fn value(text: &[u8]) -> u64 {
    hex_digits::sixteen(text, 10)
}

// The lengths of so many nodes and cells. Where they are too many for the memory, every verdict differs.
pub(crate) fn room_for(text: &[u8]) -> Lengths {
    let n = hex_digits::four(text, 6) as usize;
    let c = hex_digits::four(text, 22) as usize;
    Lengths {
        nodes: HEADER_WORDS + n * NODE_WORDS,
        cells: c * CELL_WORDS,
        bytes: c * CELL_BYTES,
    }
}

// The lengths as they are lent.
pub(crate) fn lent(text: &[u8]) -> Lengths {
    Lengths {
        nodes: index(text),
        cells: hex_digits::eight(text, 10) as usize,
        bytes: hex_digits::eight(text, 18) as usize,
    }
}

// Whether the audit of what is lent says what the line has.
pub(crate) fn agrees(nodes: &[u64], cells: &[u64], bytes: &[u8], l: Lengths, text: &[u8]) -> bool {
    if nodes.len() < l.nodes || cells.len() < l.cells || bytes.len() < l.bytes {
        return false;
    }
    let audited = audit::audit(&nodes[..l.nodes], &cells[..l.cells], &bytes[..l.bytes]);
    at(text, 26) == shown(audited.is_ok())
}

// What is measured, on what is lent.
pub(crate) fn measured(nodes: &[u64], cells: &[u64], bytes: &[u8], l: Lengths, text: &[u8]) -> u64 {
    if nodes.len() < l.nodes || cells.len() < l.cells || bytes.len() < l.bytes {
        return 0;
    }
    let (nodes, cells, bytes) = (&nodes[..l.nodes], &cells[..l.cells], &bytes[..l.bytes]);
    pace::measured(nodes, cells, bytes, at(text, 1), value(text))
}

// A verdict as the line has it: `1` for a tree, `0` for none.
fn shown(tree: bool) -> u8 {
    if tree { b'1' } else { b'0' }
}

// Changes the word or byte that the line names, and hands back what stood there.
pub(crate) fn change(nodes: &mut [u64], cells: &mut [u64], bytes: &mut [u8], text: &[u8]) -> u64 {
    put(nodes, cells, bytes, at(text, 1), index(text), value(text))
}

// Writes back what stood in that word or byte.
pub(crate) fn undo(nodes: &mut [u64], cells: &mut [u64], bytes: &mut [u8], text: &[u8], old: u64) {
    put(nodes, cells, bytes, at(text, 1), index(text), old);
}

// Writes a word of the nodes or of the cells, or a byte, and hands back what stood there.
fn put(
    nodes: &mut [u64],
    cells: &mut [u64],
    bytes: &mut [u8],
    which: u8,
    i: usize,
    value: u64,
) -> u64 {
    if which == b'n' {
        return put_word(nodes, i, value);
    }
    if which == b'c' {
        return put_word(cells, i, value);
    }
    put_byte(bytes, i, value)
}

// Writes one word, and hands back what stood there; 0 where there is no such word.
fn put_word(words: &mut [u64], i: usize, value: u64) -> u64 {
    if words.len() <= i {
        return 0;
    }
    let old = words[i];
    words[i] = value;
    old
}

// Writes one byte, and hands back what stood there; 0 where there is no such byte.
fn put_byte(bytes: &mut [u8], i: usize, value: u64) -> u64 {
    if bytes.len() <= i {
        return 0;
    }
    let old = u64::from(bytes[i]);
    bytes[i] = (value % 256) as u8;
    old
}
