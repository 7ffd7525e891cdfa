// What lines write before a call is made: the memory, the card, and the room where images are written out. What lies past an end is passed
// over.
ghost use Rattle.std.specs.Prelude.{◌<◌};

use crate::line;

// Carries out a line that makes no call; says whether it was one.
pub(crate) fn written(
    nodes: &mut [u64],
    cells: &mut [u64],
    bytes: &mut [u8],
    card: &mut [u8],
    out: &mut [u8],
    text: &[u8],
) -> bool {
    if in_memory(nodes, cells, bytes, text) {
        return true;
    }
    on_card(card, out, text)
}

// Carries out a line that writes into the memory; says whether it was one.
fn in_memory(nodes: &mut [u64], cells: &mut [u64], bytes: &mut [u8], text: &[u8]) -> bool {
    let does = line::does(text);
    if does == b'm' {
        fill(nodes, cells, bytes, line::told(text), line::byte(text, 0));
        return true;
    }
    if does == b'w' {
        set(nodes, cells, bytes, text);
        return true;
    }
    false
}

// Carries out a line that writes on the card or out; says whether it was one.
fn on_card(card: &mut [u8], out: &mut [u8], text: &[u8]) -> bool {
    let does = line::does(text);
    if does == b'b' {
        lay(card, line::place(text), line::length(text), text);
        return true;
    }
    if does == b'r' {
        run(
            card,
            line::place(text),
            line::length(text),
            line::byte(text, 0),
        );
        return true;
    }
    if does == b'o' {
        run(
            out,
            line::place(text),
            line::length(text),
            line::byte(text, 0),
        );
        return true;
    }
    if does == b't' {
        take(out, card, line::length(text));
        return true;
    }
    false
}

// All of the memory becomes one word and one byte.
fn fill(nodes: &mut [u64], cells: &mut [u64], bytes: &mut [u8], word: u64, byte: u8) {
    all_words(nodes, word);
    all_words(cells, word);
    run(bytes, 0, bytes.len(), byte);
}

// All words become one.
fn all_words(words: &mut [u64], word: u64) {
    let mut i: usize = 0;
    while i < words.len() {
        set_word(words, i, word);
        i += 1;
    }
}

// One word or byte of the memory becomes what the line tells.
fn set(nodes: &mut [u64], cells: &mut [u64], bytes: &mut [u8], text: &[u8]) {
    let which = line::number(text);
    let at = line::place(text);
    let value = line::told(text);
    if which == 0 {
        set_word(nodes, at, value);
        return;
    }
    if which == 1 {
        set_word(cells, at, value);
        return;
    }
    set_byte(bytes, at, 0, low_byte(value));
}

// Writes one word.
fn set_word(words: &mut [u64], at: usize, value: u64) {
    if at < words.len() {
        words[at] = value;
    }
}

// Writes the byte that stands i behind a place.
fn set_byte(bytes: &mut [u8], at: usize, i: usize, byte: u8) {
    if bytes.len() <= at {
        return;
    }
    if bytes.len() - at <= i {
        return;
    }
    bytes[at + i] = byte;
}

// The lowest eight bits.
fn low_byte(value: u64) -> u8
    ensures { result < 256 }
{
    (value % 256) as u8
}

// The line's first n bytes, at most 32, come at a place.
fn lay(bytes: &mut [u8], at: usize, n: usize, text: &[u8]) {
    let mut i: usize = 0;
    while i < 32 {
        if n <= i {
            return;
        }
        set_byte(bytes, at, i, line::byte(text, i));
        i += 1;
    }
}

// One byte comes n times, from a place on.
fn run(bytes: &mut [u8], at: usize, n: usize, byte: u8) {
    let mut i: usize = 0;
    while i < n {
        set_byte(bytes, at, i, byte);
        i += 1;
    }
}

// The first n bytes that were written out come on the card.
fn take(out: &[u8], card: &mut [u8], n: usize) {
    if out.len() < n {
        return;
    }
    if card.len() < n {
        return;
    }
    lent_words::inside::copy_bytes(out, 0, card, 0, n);
}
