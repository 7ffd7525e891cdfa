// Slot words made from slot words: positions turned, set and exchanged, the size changed. What a caller must know stands in `requires`.
// What a caller reads of a word, its size and one nibble, is passed on from the crate below.
ghost use Rattle.std.specs.Prelude.{◌≡◌, ◌∷◌, ℕ, ◌+◌, ◌-◌, ◌*◌, ◌/◌, ◌%◌, ◌^◌, ◌≤◌, ◌<◌, set};
ghost use Rattle.bank.specs.Lists.{turned};
ghost use Rattle.bank.specs.Bank.{inserted_from_back, exchanged, resized, place_in_use};
ghost use Rattle.nibbles.specs.Nibbles.{pack, nibbles};
ghost use Rattle.nibbles.specs.Words.{bank_of, word_of};

use nibbles::inside::{high, join, low};
pub use nibbles::inside::{nibble, size_of};

// Nibbles a to c-1 become old b to c-1, then old a to b-1.
pub fn turn(x: u64, width: usize, a: usize, b: usize, c: usize) -> u64
    requires { (a ≤ b) × (b ≤ c) × (c ≤ width) × (width ≤ 15) × (x < 2 ^ (4 * width)) }
    ensures { result ≡ pack (turned a b c (nibbles width x)) }
{
    let first = low(high(x, a), b - a);
    let second = low(high(x, b), c - b);
    let above = join(first, high(x, c), b - a);
    join(low(x, a), join(second, above, c - b), a)
}

// The positions of a word, without what strays above its width.
fn positions(word: u64, width: usize) -> u64
    requires { width ≤ 15 }
    ensures { result ≡ word / 16 % 2 ^ (4 * width) }
{
    low(high(word, 1), width)
}

// The word without what strays above its width.
pub fn cleared(word: u64, width: usize) -> u64
    requires { width ≤ 15 }
    ensures { result ≡ word_of (bank_of width word) }
{
    join(low(word, 1), positions(word, width), 1)
}

// The word whose positions a to c-1 are old b to c-1, then old a to b-1, with a size of its own.
pub fn moved(word: u64, width: usize, a: usize, b: usize, c: usize, size: usize) -> u64
    requires { (a ≤ b) × (b ≤ c) × (c ≤ width) × (width ≤ 15) × (size < 16) }
    ensures { result ≡ pack (size ∷ turned a b c (nibbles width (word / 16))) }
{
    join(size as u64, turn(positions(word, width), width, a, b, c), 1)
}

// The nibbles below the width, where those from the width on are at hand.
fn below(word: u64, upper: u64, width: usize) -> u64
    requires { (width ≤ 15) × (upper ≡ word / 2 ^ (4 * width)) }
    ensures { result ≡ word % 2 ^ (4 * width) }
{
    word - (upper << (4 * width))
}

// The slot at the back goes to position i, the later ones move up, and one more is in use. It is one sum: what moves up by a nibble
// becomes sixteen times as much, so fifteen times as much is added to it, and the slot at the back goes below.
pub fn inserted(word: u64, width: usize, i: usize) -> u64
    requires { (i ≤ word % 16) × (word % 16 < width) × (width ≤ 15) }
    ensures { result ≡ word_of (inserted_from_back i (bank_of width word)) }
{
    let upper = high(word, width);
    let last = low(upper, 1);
    let kept = below(word, upper, width);
    let later = high(kept, i + 1);
    kept + ((15 * later + last) << (4 * (i + 1))) + 1
}

// Sets nibble k to d; the others stay.
pub fn put(x: u64, width: usize, k: usize, d: usize) -> u64
    requires { (k < width) × (width ≤ 15) × (d < 16) × (x < 2 ^ (4 * width)) }
    ensures { result ≡ pack (set (nibbles width x) k d) }
{
    join(low(x, k), join(d as u64, high(x, k + 1), 1), k)
}

// The same positions with another size.
pub fn resize(word: u64, width: usize, n: usize) -> u64
    requires { (n < 16) × (width ≤ 15) }
    ensures { result ≡ word_of (resized n (bank_of width word)) }
{
    join(n as u64, positions(word, width), 1)
}

// Positions i and j change places.
pub fn swap(word: u64, width: usize, i: usize, j: usize) -> u64
    requires { (i < width) × (j < width) × (width ≤ 15) }
    ensures { result ≡ word_of (exchanged i j (bank_of width word)) }
{
    let slots = positions(word, width);
    let one = put(slots, width, i, nibble(slots, j));
    let both = put(one, width, j, nibble(slots, i));
    join(low(word, 1), both, 1)
}

// The position in use that holds the slot, or the size.
pub fn place(word: u64, width: usize, slot: usize) -> usize
    requires { (word % 16 ≤ width) × (width ≤ 15) }
    ensures { result ≡ place_in_use slot (bank_of width word) }
{
    let size = size_of(word);
    // No position before i holds the slot.
    for i in 0..size {
        if nibble(word, i + 1) == slot {
            return i;
        }
    }
    size
}
