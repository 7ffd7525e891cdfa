// The judgement of a leaf's slot word and of its entries in order. For the search and for the index, which knows what it holds:
// what a caller must know stands in `requires`.
ghost use Rattle.std.specs.Prelude.{◌≡◌, true, ◌<◌};
ghost use Rattle.bank.specs.Bank.{slot_at};
ghost use Rattle.nibbles.specs.Words.{valid_word};
ghost use Rattle.order.specs.Layer.{class_of};
ghost use Rattle.ikey.specs.Said.{order_of};
ghost use Rattle.leaf_entries.specs.Lists.{every};
ghost use Rattle.leaf_entries.specs.Leaf.{slots_of, entries_in_order, against, less, rising, of_kind, good_entries};

use crate::Entry;
use lent_cells::inside::is_cell;
use nibbles::inside::nibble;
pub use nibbles::inside::size_of;
use std::cmp::Ordering;

// Whether a leaf's slot word is valid, at width 15.
pub fn is_valid(word: u64) -> bool
    ensures { result ≡ valid_word 15 word }
{
    permuter::from_value(word, 15).is_ok()
}

// The slot at a position of any word.
pub fn slot_of(word: u64, i: usize) -> usize
    requires { i < 15 }
    ensures { (result ≡ slot_at i (slots_of word)) × (result < 16) }
{
    nibble(word, i + 1)
}

// The slot at a position of a valid word.
pub fn slot_at(word: u64, i: usize) -> usize
    requires { (valid_word 15 word ≡ true) × (i < 15) }
    ensures { (result ≡ slot_at i (slots_of word)) × (result < 15) }
{
    slot_of(word, i)
}

// Whether an entry is of the kind that a leaf holds: a class of 0 to 10, and a cell in use unless it is a link.
pub fn is_of_kind(cells: &[u64], e: Entry) -> bool
    ensures { result ≡ of_kind cells.now e }
{
    e.class <= 10 && (e.class == 10 || is_cell(cells, e.at))
}

// Whether every entry in use is of the kind that a leaf holds.
pub fn are_of_kind(word: u64, entries: [Entry; 15], cells: &[u64]) -> bool
    requires { valid_word 15 word ≡ true }
    ensures { result ≡ every (of_kind cells.now) (entries_in_order word entries) }
{
    let size = size_of(word);
    // The entries before position i are of that kind.
    for i in 0..size {
        let slot = slot_at(word, i);
        if !is_of_kind(cells, entries[slot]) {
            return false;
        }
    }
    true
}

// How an ikey and a length stand to an entry, at one layer.
pub fn compare(ikey: u64, length: usize, e: Entry) -> Ordering
    ensures { order_of result ≡ against ikey (class_of length) e }
{
    ikey::inside::at_layer(ikey, length, e.ikey, e.class as usize)
}

// Whether the first entry is less than the second.
pub fn is_less(e: Entry, d: Entry) -> bool
    ensures { result ≡ less e d }
{
    compare(e.ikey, e.class as usize, d).is_lt()
}

// Whether the entries in use strictly rise.
pub fn are_rising(word: u64, entries: [Entry; 15]) -> bool
    requires { valid_word 15 word ≡ true }
    ensures { result ≡ rising (entries_in_order word entries) }
{
    let size = size_of(word);
    // The entries before position i strictly rise.
    for i in 1..size {
        let before = slot_at(word, i - 1);
        let slot = slot_at(word, i);
        if !is_less(entries[before], entries[slot]) {
            return false;
        }
    }
    true
}

// Whether the entries in use are as a leaf holds them: of its kind, and strictly rising.
pub fn are_good(word: u64, entries: [Entry; 15], cells: &[u64]) -> bool
    requires { valid_word 15 word ≡ true }
    ensures { result ≡ good_entries cells.now (entries_in_order word entries) }
{
    are_of_kind(word, entries, cells) && are_rising(word, entries)
}
