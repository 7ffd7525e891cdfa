// A block of 512 bytes filled and judged. What a caller must know stands in `requires`: that the bytes are there.
ghost use Rattle.std.specs.Prelude.{◌≡◌, ◌+◌, ◌≤◌, length, drop};
ghost use Rattle.lent_words.specs.Parts.{put_part};
ghost use Rattle.card_block.specs.Words.{little_endian, low_first};
ghost use Rattle.card_block.specs.Check.{check_of, block_of, good_block};

use crate::Sums;

// The word of four bytes from a place on, the first one lowest.
pub fn word(bytes: &[u8], at: usize) -> u32
    requires { at + 4 ≤ length bytes.now }
    ensures { result ≡ little_endian 4 (drop at bytes.now) }
{
    u32::from_le_bytes([bytes[at], bytes[at + 1], bytes[at + 2], bytes[at + 3]])
}

// The check of the first 504 bytes of a block, by its number. Both sums run round at 2^32.
pub fn checked(block: &[u8], number: u32) -> Sums
    requires { 504 ≤ length block.now }
    ensures { result ≡ check_of number block.now }
{
    let mut a = number.wrapping_add(1);
    let mut b: u32 = 0;
    // `a` and `b` are the sums of the first i words
    for i in 0..126 {
        let w = word(block, 4 * i);
        a = a.wrapping_add(w);
        b = b.wrapping_add(a);
    }
    Sums { a, b }
}

// Whether a block's last two words are the check of the rest.
pub fn is_good(block: &[u8], number: u32) -> bool
    requires { 512 ≤ length block.now }
    ensures { result ≡ good_block number block.now }
{
    let s = checked(block, number);
    word(block, 504) == s.a && word(block, 508) == s.b
}

// A word in four bytes from a place on, the lowest first.
fn put_word(bytes: &mut [u8], at: usize, w: u32)
    requires { at + 4 ≤ length bytes.old }
    ensures { bytes.new ≡ put_part bytes.old at (low_first 4 w) }
{
    bytes[at..at + 4].copy_from_slice(&w.to_le_bytes());
}

// Finishes a block whose first 504 bytes stand: their check goes behind them.
pub fn seal(block: &mut [u8], number: u32)
    requires { length block.old ≡ 512 }
    ensures { block.new ≡ block_of number block.old }
{
    let s = checked(block, number);
    put_word(block, 504, s.a);
    put_word(block, 508, s.b);
}
