// The search of a leaf whose entries are lent, with entries by value: fifteen of them are lent to it.
ghost use Rattle.std.specs.Prelude.{◌≡◌};
ghost use Rattle.leaf.specs.Search.{said_searched, search_said};

use leaf::{Entry, Outcome, Refused};

// Searches a leaf with these fifteen entries lent.
pub fn search(
    word: u64,
    entries: [Entry; 15],
    cells: &[u64],
    bytes: &[u8],
    key: &[u8],
    ikey: u64,
    shift_count: usize,
    suffix_start: usize,
) -> Result<Outcome, Refused>
    ensures { said_searched result ≡ search_said word entries cells.now bytes.now key.now ikey
        shift_count suffix_start }
{
    lent_leaf::search(
        word,
        &entries,
        cells,
        bytes,
        key,
        ikey,
        shift_count,
        suffix_start,
    )
}
