// Lent cells: the judgement of their lengths and of a cell, and a stored suffix against a key's own. What a caller must know stands
// in `requires`.
ghost use Rattle.std.specs.Prelude.{◌≡◌, ◌≤◌, length, drop};
ghost use Rattle.lent_cells.specs.Cells.{lent_right, Lent, cell_right, Cell, stored_suffix, same_bytes};

use memory_layout::{CELL_BYTES, CELL_WORDS, MOST_LENT};

// Whether the lent lengths are right: 1 to 255 cells of two words, and 256 bytes for each.
#[tactic(auto, unfolding(crate::specs::Cells::lent_right))]
pub fn are_lent(cells: &[u64], bytes: &[u8]) -> bool
    ensures { result ≡ lent_right cells.now bytes.now }
{
    let n = cells.len();
    let count = n / CELL_WORDS;
    if n % CELL_WORDS != 0 || count < 1 || MOST_LENT < count {
        return false;
    }
    bytes.len() == CELL_BYTES * count
}

// Whether a number is that of a cell that an entry may have: one that holds a key.
#[tactic(auto, unfolding(crate::specs::Cells::cell_right))]
pub fn is_cell(cells: &[u64], cell: u64) -> bool
    ensures { result ≡ cell_right cells.now cell }
{
    let at = cell as usize;
    if cells.len() / CELL_WORDS <= at {
        return false;
    }
    let length = cells[CELL_WORDS * at];
    1 <= length && length <= 257
}

// Whether a cell's bytes from the key's suffix start on are the key's own from there on.
pub fn is_suffix(cells: &[u64], bytes: &[u8], cell: u64, key: &[u8], start: usize) -> bool
    requires { Lent cells.now bytes.now × Cell cells.now cell × (start ≤ length key.now) }
    ensures { result ≡ same_bytes (stored_suffix cells.now bytes.now cell start) (drop start key.now) }
{
    let at = cell as usize;
    let length = cells[CELL_WORDS * at] as usize - 1;
    let from = CELL_BYTES * at + start.min(length);
    let to = CELL_BYTES * at + length;
    ikey::inside::compare_parts(&bytes[from..to], &key[start..]).is_eq()
}
