// The search of a leaf whose entries are lent as a slice of records: a thin function above the search over fifteen entries by value.
// With another number of entries than fifteen the lent lengths are wrong.
#![tactic(auto)]

ghost use Rattle.std.specs.Prelude.{◌≡◌};
ghost use Rattle.leaf.specs.Search.{said_searched};
ghost use Rattle.lent_leaf.specs.Search.{lent_search_said};

pub use leaf::{Entry, Outcome, Refused};

pub mod inside;

// The entry for a key in a leaf, or the place where one belongs.
pub fn search(
    word: u64,
    entries: &[Entry],
    cells: &[u64],
    bytes: &[u8],
    key: &[u8],
    ikey: u64,
    shift_count: usize,
    suffix_start: usize,
) -> Result<Outcome, Refused>
    ensures { said_searched result ≡ lent_search_said word entries.now cells.now bytes.now
        key.now ikey shift_count suffix_start }
{
    if entries.len() != 15 {
        return inside::unlent(word, key, ikey, shift_count, suffix_start);
    }
    leaf::search(
        word,
        inside::fifteen(entries),
        cells,
        bytes,
        key,
        ikey,
        shift_count,
        suffix_start,
    )
}
