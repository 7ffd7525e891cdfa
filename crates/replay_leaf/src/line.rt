// One recorded search: the numbers of the answer, the word, the key, the entries and the cells, at fixed places of a line.
// oracle/leaf/README.md says which.
ghost use Rattle.std.specs.Prelude.{◌<◌};

use crate::lent;
use leaf::{Entry, Outcome, Refused};
use std::array;

// What a search said: 0, the outcome and its number; or the refusal's number and the word.
#[derive(Clone, Copy)]
struct Said {
    number: u64,
    outcome: u64,
    value: u64,
}

// An accepted search: its outcome, and the slot or the position.
fn accepted(outcome: u64, value: usize) -> Said {
    Said {
        number: 0,
        outcome,
        value: value as u64,
    }
}

// What a search said, as numbers.
fn told(searched: Result<Outcome, Refused>) -> Said {
    match searched {
        Ok(Outcome::Found(slot)) => accepted(0, slot),
        Ok(Outcome::Conflict(slot)) => accepted(1, slot),
        Ok(Outcome::Layer(slot)) => accepted(2, slot),
        Ok(Outcome::NotFound(position)) => accepted(3, position),
        Err(refused) => Said {
            number: refusal::number(refused.why),
            outcome: 0,
            value: refused.word,
        },
    }
}

// The entry in a slot.
fn entry_at(text: &[u8], slot: usize) -> Entry
    requires { slot < 15 }
{
    let from = 165 + 25 * slot;
    Entry {
        ikey: hex_digits::sixteen(text, from),
        class: hex_digits::two(text, from + 17),
        at: hex_digits::four(text, from + 20),
    }
}

// The entries of the line, by slot.
fn entries_of(text: &[u8]) -> [Entry; 15] {
    array::from_fn(|slot| entry_at(text, slot))
}

// The two words of each cell: its length + 1, and a frame number.
fn cells_of(text: &[u8]) -> [u64; 40] {
    let mut cells = [0u64; 40];
    for cell in 0..15 {
        cells[2 * cell] = hex_digits::four(text, 540 + 62 * cell);
        cells[2 * cell + 1] = 7;
    }
    cells
}

// The bytes of the cells: 256 each, of which the line has the first 28.
fn bytes_of(text: &[u8]) -> [u8; 4200] {
    let mut bytes = [0u8; 4200];
    for cell in 0..15 {
        for k in 0..28 {
            bytes[256 * cell + k] = hex_digits::byte(text, 545 + 62 * cell + 2 * k);
        }
    }
    bytes
}

// The key, of which the line has the first 28 bytes.
fn key_of(text: &[u8]) -> [u8; 300] {
    let mut key = [0u8; 300];
    for k in 0..28 {
        key[k] = hex_digits::byte(text, 108 + 2 * k);
    }
    key
}

// The answer to the search of the line among entries by value, with these words, bytes and key lent.
fn ask(text: &[u8], cells: &[u64], bytes: &[u8], key: &[u8]) -> Said {
    told(leaf::search(
        hex_digits::sixteen(text, 25),
        entries_of(text),
        cells,
        bytes,
        key,
        hex_digits::sixteen(text, 42),
        hex_digits::sixteen(text, 59) as usize,
        hex_digits::sixteen(text, 76) as usize,
    ))
}

// The answer to the same search among the same entries, lent.
fn ask_lent(text: &[u8], cells: &[u64], bytes: &[u8], key: &[u8]) -> Said {
    told(lent::search(
        hex_digits::sixteen(text, 25),
        entries_of(text),
        cells,
        bytes,
        key,
        hex_digits::sixteen(text, 42),
        hex_digits::sixteen(text, 59) as usize,
        hex_digits::sixteen(text, 76) as usize,
    ))
}

// Whether the line has this answer.
fn is_recorded(text: &[u8], answer: Said) -> bool {
    answer.number == hex_digits::two(text, 2)
        && answer.outcome == hex_digits::two(text, 5)
        && answer.value == hex_digits::sixteen(text, 8)
}

// Whether both searches say what the line says.
fn agree_both(text: &[u8], cells: &[u64], bytes: &[u8], key: &[u8]) -> bool {
    is_recorded(text, ask(text, cells, bytes, key))
        && is_recorded(text, ask_lent(text, cells, bytes, key))
}

// Whether the port says what the line says, with as many words and bytes lent as the line says.
fn agrees_on(text: &[u8], cells: &[u64], bytes: &[u8], key: &[u8]) -> bool {
    let words = hex_digits::four(text, 93) as usize;
    let room = hex_digits::four(text, 98) as usize;
    let length = hex_digits::four(text, 103) as usize;
    if cells.len() < words || bytes.len() < room || key.len() < length {
        return false;
    }
    agree_both(text, &cells[..words], &bytes[..room], &key[..length])
}

// Whether the port says to the recorded search what the line says.
pub(crate) fn agrees(text: &[u8]) -> bool {
    let cells = cells_of(text);
    let bytes = bytes_of(text);
    let key = key_of(text);
    agrees_on(text, &cells, &bytes, &key)
}
