// The bytes of a stream by a cursor, block after block. What a caller must know stands in `requires`: the cells of the entries, all of
// them lent.
ghost use Rattle.std.specs.Prelude.{◌≡◌, ◌++◌, ◌+◌, ◌*◌, ◌-◌, ◌^◌, ◌≤◌, ◌<◌, min, length, get_or, set, drop};
ghost use Rattle.lent_words.specs.Parts.{put_part};
ghost use Rattle.card_block.specs.Words.{low_first};
ghost use Rattle.card_block.specs.Check.{block_of};
ghost use Rattle.card_stream.specs.Image.{blocks_of};
ghost use Rattle.card_stream.specs.Stream.{entry_bytes, unfilled, stream_of};
ghost use Rattle.card_writer.specs.Save.{written};
ghost use Rattle.card_writer.specs.Listing.{lens_of, frames_of, lent, entry_at, entries_at, Whole};
ghost use Rattle.card_writer.specs.Cursor.{size_of, piece, next_of, further, Placed, rest_of, front};

use crate::{Cursor, Written};

// What stands behind the last piece.
const FILL: u8 = 0;

// Byte i of a number, the lowest first.
fn byte_of(x: u64, i: usize) -> u8
    requires { i < 8 }
    ensures { result ≡ get_or (low_first 8 x) i 0 }
{
    let mut y = x;
    let mut j: usize = 0;
    while j < i {
        y = y / 0x100;
        j += 1;
    }
    (y % 0x100) as u8
}

// The lower of two numbers.
fn least(a: u64, b: u64) -> u64
    ensures { result ≡ min a b }
{
    if a < b { a } else { b }
}

// A word of a cell: its mark, or its frame; 0 where no such cell is lent.
fn word_in(cells: &[u64], c: u64, i: usize) -> u64
    requires { i < 2 }
    ensures { result ≡ get_or cells.now (c * 2 + i) 0 }
{
    if ((cells.len() / 2) as u64) < c {
        return 0;
    }
    let at = c as usize * 2 + i;
    if cells.len() <= at {
        return 0;
    }
    cells[at]
}

// One less, and 0 for none.
fn less_one(mark: u64) -> u64
    ensures { result ≡ mark - 1 }
{
    if mark < 1 {
        return 0;
    }
    mark - 1
}

// The length of key k.
fn len_at(order: &[u64], cells: &[u64], k: usize) -> usize
    requires { k < length order.now }
    ensures { (result ≡ min (get_or (lens_of order.now cells.now) k 0) 256) × (result ≤ 256) }
{
    let mark = word_in(cells, order[k], 0);
    least(less_one(mark), 256) as usize
}

// The frame of key k.
fn frame_at(order: &[u64], cells: &[u64], k: usize) -> u64
    requires { k < length order.now }
    ensures { result ≡ get_or (frames_of order.now cells.now) k 0 }
{
    word_in(cells, order[k], 1)
}

// The size of a piece.
fn size_of(order: &[u64], cells: &[u64], p: usize) -> usize
    requires { p ≤ length order.now }
    ensures { (result ≡ size_of (lens_of order.now cells.now) p) × (result ≤ 266) }
{
    if p == 0 {
        return 4;
    }
    10 + len_at(order, cells, p - 1)
}

// A byte of an entry.
fn entry_byte(order: &[u64], cells: &[u64], bytes: &[u8], k: usize, at: usize) -> u8
    requires { (k < length order.now) × (256 * get_or order.now k 0 + 256 ≤ length bytes.now) × (length bytes.now ≤ 65280) }
    ensures { result ≡ get_or (entry_bytes (entry_at (lent order.now cells.now bytes.now) k)) at 0 }
{
    let len = len_at(order, cells, k);
    if at < 2 {
        return byte_of(len as u64, at);
    }
    let o = at - 2;
    if o < len {
        let c = order[k] as usize;
        return bytes[256 * c + o];
    }
    let f = o - len;
    if f < 8 {
        return byte_of(frame_at(order, cells, k), f);
    }
    0
}

// A byte of a piece.
fn piece_byte(order: &[u64], cells: &[u64], bytes: &[u8], n: usize, p: usize, at: usize) -> u8
    requires { Whole (lent order.now cells.now bytes.now) n × (p ≤ n) }
    ensures { result ≡ get_or (piece (lent order.now cells.now bytes.now) n p) at 0 }
{
    if p == 0 {
        if at < 4 {
            return byte_of(n as u64, at);
        }
        return 0;
    }
    entry_byte(order, cells, bytes, p - 1, at)
}

// The byte at a cursor.
fn cursor_byte(order: &[u64], cells: &[u64], bytes: &[u8], n: usize, c: Cursor) -> u8
    requires { Whole (lent order.now cells.now bytes.now) n × Placed (lens_of order.now cells.now) n c }
    ensures { result ≡ get_or (rest_of (lent order.now cells.now bytes.now) n c) 0 0 }
{
    let p = c.piece;
    if n < p {
        return FILL;
    }
    piece_byte(order, cells, bytes, n, p, c.at)
}

// The next place.
fn next(order: &[u64], cells: &[u64], n: usize, c: Cursor) -> Cursor
    requires { (n ≤ length order.now) × (n ≤ 255) × Placed (lens_of order.now cells.now) n c }
    ensures { result ≡ next_of (lens_of order.now cells.now) n c }
{
    let p = c.piece;
    if n < p {
        return c;
    }
    let at = c.at + 1;
    if at < size_of(order, cells, p) {
        return Cursor { piece: p, at };
    }
    Cursor {
        piece: p + 1,
        at: 0,
    }
}

// One byte at a place.
fn put(bytes: &mut [u8], at: usize, byte: u8)
    requires { at < length bytes.old }
    ensures { bytes.new ≡ set bytes.old at byte }
{
    bytes[at] = byte;
}

// The first 504 bytes of a block, from a cursor on.
fn fill_stream(
    order: &[u64],
    cells: &[u64],
    bytes: &[u8],
    n: usize,
    c: Cursor,
    block: &mut [u8],
) -> Cursor
    requires { Whole (lent order.now cells.now bytes.now) n × Placed (lens_of order.now cells.now) n c
        × (length block.old ≡ 512) }
    ensures { (block.new
        ≡ put_part block.old 0 (front 504 (rest_of (lent order.now cells.now bytes.now) n c)))
        × (result ≡ further (lens_of order.now cells.now) n 504 c) }
{
    let mut s = c;
    let mut j: usize = 0;
    while j < 504 {
        let byte = cursor_byte(order, cells, bytes, n, s);
        put(block, j, byte);
        s = next(order, cells, n, s);
        j += 1;
    }
    s
}

// A block: 504 bytes of the stream from a cursor on, and their check.
fn fill_block(
    order: &[u64],
    cells: &[u64],
    bytes: &[u8],
    n: usize,
    c: Cursor,
    number: u32,
    block: &mut [u8],
) -> Cursor
    requires { Whole (lent order.now cells.now bytes.now) n × Placed (lens_of order.now cells.now) n c
        × (length block.old ≡ 512) }
    ensures { (block.new
        ≡ block_of number (front 504 (rest_of (lent order.now cells.now bytes.now) n c)))
        × (result ≡ further (lens_of order.now cells.now) n 504 c) }
{
    let next = fill_stream(order, cells, bytes, n, c, block);
    card_block::inside::seal(block, number);
    next
}

// The image of n entries, in so many blocks: each is filled in its own part of the buffer, and the bytes behind the last one stay.
pub fn write(order: &[u64], cells: &[u64], bytes: &[u8], n: usize, out: &mut [u8], blocks: usize)
    requires { Whole (lent order.now cells.now bytes.now) n
        × (length (stream_of (entries_at (lent order.now cells.now bytes.now) 0 n)) ≡ 504 * blocks) × (512 * blocks ≤ length out.old)
        × (blocks < 2 ^ 32) }
    ensures { out.new
        ≡ blocks_of blocks (stream_of (entries_at (lent order.now cells.now bytes.now) 0 n))
        ++ drop (512 * blocks) out.old }
{
    let mut c = Cursor { piece: 0, at: 0 };
    let mut i: usize = 0;
    while i < blocks {
        let to = 512 * i;
        c = fill_block(order, cells, bytes, n, c, i as u32, &mut out[to..to + 512]);
        i += 1;
    }
}

// How many bytes the stream has without its fill.
fn total(order: &[u64], cells: &[u64], bytes: &[u8], n: usize) -> usize
    requires { Whole (lent order.now cells.now bytes.now) n }
    ensures { (result ≡ length (unfilled (entries_at (lent order.now cells.now bytes.now) 0 n)))
        × (result ≤ 70000) }
{
    let mut sum: usize = 4;
    let mut i: usize = 0;
    while i < n {
        sum += size_of(order, cells, i + 1);
        i += 1;
    }
    sum
}

// The image of n entries, or nothing where the buffer is too short.
pub fn save(order: &[u64], cells: &[u64], bytes: &[u8], n: usize, out: &mut [u8]) -> Written
    requires { Whole (lent order.now cells.now bytes.now) n }
    ensures { (out.new, result)
        ≡ written (entries_at (lent order.now cells.now bytes.now) 0 n) out.old }
{
    let blocks = (total(order, cells, bytes, n) + 503) / 504;
    if out.len() < 512 * blocks {
        return Written::Short;
    }
    write(order, cells, bytes, n, out, blocks);
    Written::Blocks(blocks)
}
