// Leaf search: a leaf is a slot word of width 15 and fifteen entries by value, and its cells are lent. The search judges the leaf,
// the key and the lent lengths, and refuses by number.
#![tactic(auto)]

ghost use Rattle.std.specs.Prelude.{◌≡◌};
ghost use Rattle.leaf.specs.Search.{said_searched, search_said};

pub use leaf_entries::Entry;
use refusal::Refusal;

pub mod inside;

// What a search finds: the slot of the entry that it met, or the position where the key belongs.
#[derive(Clone, Copy)]
pub enum Outcome {
    Found(usize),
    Conflict(usize),
    Layer(usize),
    NotFound(usize),
}

// A refused search: why, and the word and the key's numbers as they were given.
#[derive(Clone, Copy)]
pub struct Refused {
    pub why: Refusal,
    pub word: u64,
    pub ikey: u64,
    pub shift_count: usize,
    pub suffix_start: usize,
}

// The entry for a key in a leaf, or the place where one belongs.
pub fn search(
    word: u64,
    entries: [Entry; 15],
    cells: &[u64],
    bytes: &[u8],
    key: &[u8],
    ikey: u64,
    shift_count: usize,
    suffix_start: usize,
) -> Result<Outcome, Refused>
    ensures { said_searched result ≡ search_said word entries cells.now bytes.now key.now ikey
        shift_count suffix_start }
{
    if !inside::is_valid(word) {
        return inside::refuse(Refusal::Node, word, ikey, shift_count, suffix_start);
    }
    if !inside::are_lent(cells, bytes) {
        return inside::not_lent(word, key, ikey, shift_count, suffix_start);
    }
    inside::in_lent(
        word,
        entries,
        cells,
        bytes,
        key,
        ikey,
        shift_count,
        suffix_start,
    )
}
