// One cell, judged alone: for the walk that has judged the lent lengths. What a caller must know stands in `requires`.
ghost use Rattle.std.specs.Prelude.{◌≡◌, ◌+◌, ◌-◌, ◌≤◌, length, take};
ghost use Rattle.order.specs.Layer.{class_of};
ghost use Rattle.arena.specs.Layout.{cell_end, key_end};
ghost use Rattle.forest.specs.Cells.{cell_right, under, keyed, filed, is_cell_free};

use memory_layout::{CELL_BYTES, CELL_WORDS};
use zeros::inside::{bytes_zero, words_zero};

// Whether a cell is one in use: a key of up to 256 bytes, and zeros past its end.
pub fn cell_right(cells: &[u64], bytes: &[u8], c: usize) -> bool
    requires { (cell_end c ≤ length cells.now) × (key_end c ≤ length bytes.now) }
    ensures { result ≡ cell_right cells.now bytes.now c }
{
    let mark = cells[c * CELL_WORDS];
    if mark < 1 {
        return false;
    }
    if 257 < mark {
        return false;
    }
    let len = (mark - 1) as usize;
    bytes_zero(bytes, c * CELL_BYTES + len, CELL_BYTES - len)
}

// The key has the ikeys of the links above it, and goes on behind each: it does so where it goes on behind the last, so that its length
// is looked at once.
pub fn is_under(key: &[u8], above: &[u64], links: usize) -> bool
    requires { (links ≤ length above.now) × (links ≤ 31) }
    ensures { result ≡ under key.now 0 (take links above.now) }
{
    if links == 0 {
        return true;
    }
    if key.len() <= 8 * links {
        return false;
    }
    // The key has the ikeys of the first i links, and goes on behind each.
    for i in 0..links {
        if keys_read::inside::eight(&key[8 * i..]) != above[i] {
            return false;
        }
    }
    true
}

// How many bytes stand behind an offset: none past the end.
pub fn left_behind(len: usize, offset: usize) -> usize
    ensures { result ≡ len - offset }
{
    len.saturating_sub(offset)
}

// The class of so many bytes: 0 to 8, or 9 for longer.
pub fn class_of(left: usize) -> u64
    ensures { result ≡ class_of left }
{
    left.min(9) as u64
}

// Whether a key has the ikeys of the links above it, then this ikey and length class.
pub fn is_keyed(key: &[u8], above: &[u64], links: usize, ikey: u64, class: u64) -> bool
    requires { (links ≤ length above.now) × (links ≤ 31) }
    ensures { result ≡ keyed key.now (take links above.now) ikey class }
{
    if !is_under(key, above, links) {
        return false;
    }
    if keys_read::read_ikey(key, 8 * links) != ikey {
        return false;
    }
    class_of(left_behind(key.len(), 8 * links)) == class
}

// Whether cell c belongs to an entry of this ikey and class, below these links.
pub fn is_filed(
    cells: &[u64],
    bytes: &[u8],
    above: &[u64],
    links: usize,
    ikey: u64,
    class: u64,
    c: usize,
) -> bool
    requires c_in_bounds { (cell_end c ≤ length cells.now) × (key_end c ≤ length bytes.now) }
    requires links_in_bounds { (links ≤ length above.now) × (links ≤ 31) }
    ensures { result ≡ filed cells.now bytes.now (take links above.now) ikey class c }
{
    if !cell_right(cells, bytes, c) {
        return false;
    }
    let len = (arena::inside::mark(cells, c) - 1) as usize;
    let key = arena::inside::key_of(bytes, c, len);
    is_keyed(key, above, links, ikey, class)
}

// Whether cell c is free: its words and bytes are zero.
pub fn cell_free(cells: &[u64], bytes: &[u8], c: usize) -> bool
    requires { (cell_end c ≤ length cells.now) × (key_end c ≤ length bytes.now) }
    ensures { result ≡ is_cell_free cells.now bytes.now c }
{
    if !words_zero(cells, c * CELL_WORDS, CELL_WORDS) {
        return false;
    }
    bytes_zero(bytes, c * CELL_BYTES, CELL_BYTES)
}
