// The scan, and what is answered with right and with wrong lent lengths; the judgement of a leaf and of what is lent is passed on from
// the crates below. What a caller must know stands in `requires`.
ghost use Rattle.std.specs.Prelude.{◌≡◌, true, ◌*◌, ◌≤◌, length};
ghost use Rattle.refusal.specs.Answer.{refused};
ghost use Rattle.nibbles.specs.Words.{valid_word};
ghost use Rattle.order.specs.Layer.{class_at};
ghost use Rattle.leaf.specs.Leaf.{lent_right, of_kind};
ghost use Rattle.leaf.specs.Search.{values_of, said_searched, given_back, met_with, outcome, unlent_said, lent_said, Searchable};

use crate::{Entry, Outcome, Refused};
pub use leaf_entries::inside::{
    are_good, are_of_kind, are_rising, compare, is_less, is_of_kind, is_valid, size_of, slot_at,
};
pub use lent_cells::inside::{are_lent, is_cell, is_suffix};
use refusal::Refusal;
use std::cmp::Ordering;

// A refusal, with the word and the key's numbers as they were given.
pub fn refuse(
    why: Refusal,
    word: u64,
    ikey: u64,
    shift_count: usize,
    suffix_start: usize,
) -> Result<Outcome, Refused>
    ensures { said_searched result ≡ refused why (given_back word ikey shift_count suffix_start) }
{
    Err(Refused {
        why,
        word,
        ikey,
        shift_count,
        suffix_start,
    })
}

// What is answered with wrong lent lengths, where the word is valid.
pub fn not_lent(
    word: u64,
    key: &[u8],
    ikey: u64,
    shift_count: usize,
    suffix_start: usize,
) -> Result<Outcome, Refused>
    ensures { said_searched result ≡ unlent_said word key.now ikey shift_count suffix_start }
{
    if !keys_fit::is_fit(key, ikey, shift_count, suffix_start) {
        return refuse(Refusal::Key, word, ikey, shift_count, suffix_start);
    }
    refuse(Refusal::Memory, word, ikey, shift_count, suffix_start)
}

// The outcome at an entry that has the key's ikey and class.
pub fn met(e: Entry, slot: usize, cells: &[u64], bytes: &[u8], key: &[u8], start: usize) -> Outcome
    requires { (lent_right cells.now bytes.now ≡ true) × (of_kind cells.now e ≡ true) × (start ≤ length key.now) }
    ensures { values_of result ≡ met_with cells.now bytes.now key.now start e slot }
{
    if e.class == 10 {
        return Outcome::Layer(slot);
    }
    if e.class != 9 {
        return Outcome::Found(slot);
    }
    if is_suffix(cells, bytes, e.at, key, start) {
        return Outcome::Found(slot);
    }
    Outcome::Conflict(slot)
}

// The scan: past the entries that are less than the key, to the one that has its ikey and class, or to the first that is greater.
pub fn scan(
    word: u64,
    entries: [Entry; 15],
    cells: &[u64],
    bytes: &[u8],
    key: &[u8],
    ikey: u64,
    shift_count: usize,
    suffix_start: usize,
) -> Outcome
    requires { Searchable word entries cells.now bytes.now key.now ikey shift_count suffix_start }
    ensures { values_of result ≡ outcome word entries cells.now bytes.now key.now ikey
        (class_at key.now (8 * shift_count)) suffix_start }
{
    let size = size_of(word);
    let length = key_layer::inside::left(key, shift_count);
    // The key is greater than every entry before position i.
    for i in 0..size {
        let slot = slot_at(word, i);
        let e = entries[slot];
        match compare(ikey, length, e) {
            Ordering::Greater => {}
            Ordering::Equal => return met(e, slot, cells, bytes, key, suffix_start),
            Ordering::Less => return Outcome::NotFound(i),
        }
    }
    Outcome::NotFound(size)
}

// What is answered with right lent lengths, where the word is valid.
pub fn in_lent(
    word: u64,
    entries: [Entry; 15],
    cells: &[u64],
    bytes: &[u8],
    key: &[u8],
    ikey: u64,
    shift_count: usize,
    suffix_start: usize,
) -> Result<Outcome, Refused>
    requires { (valid_word 15 word ≡ true) × (lent_right cells.now bytes.now ≡ true) }
    ensures { said_searched result ≡ lent_said word entries cells.now bytes.now key.now ikey
        shift_count suffix_start }
{
    if !are_good(word, entries, cells) {
        return refuse(Refusal::Node, word, ikey, shift_count, suffix_start);
    }
    if !keys_fit::is_fit(key, ikey, shift_count, suffix_start) {
        return refuse(Refusal::Key, word, ikey, shift_count, suffix_start);
    }
    Ok(scan(
        word,
        entries,
        cells,
        bytes,
        key,
        ikey,
        shift_count,
        suffix_start,
    ))
}
