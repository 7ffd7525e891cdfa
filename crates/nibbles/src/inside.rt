// The nibbles of a slot word by shifts and masks, and the judgement of a word. What a caller must know stands in
// `requires`.
ghost use Rattle.std.specs.Prelude.{◌≡◌, ℕ, ◌+◌, ◌-◌, ◌*◌, ◌/◌, ◌%◌, ◌^◌, ◌≤◌, ◌<◌};
ghost use Rattle.bank.specs.Lists.{each_once};
ghost use Rattle.nibbles.specs.Nibbles.{nibbles};
ghost use Rattle.nibbles.specs.Words.{valid_word, cleared_word, judged};

use refusal::Refusal;

// Nibble i is i.
const RISING: u64 = 0xFEDC_BA98_7654_3210;

// The k lowest nibbles.
pub fn low(x: u64, k: usize) -> u64
    requires { k < 16 }
    ensures { result ≡ x % 2 ^ (4 * k) }
{
    x & ((1u64 << (4 * k)) - 1)
}

// The nibbles from k on.
pub fn high(x: u64, k: usize) -> u64
    requires { k < 16 }
    ensures { result ≡ x / 2 ^ (4 * k) }
{
    x >> (4 * k)
}

// k nibbles, and others above them.
pub fn join(below: u64, above: u64, k: usize) -> u64
    requires { (k < 16) × (below < 2 ^ (4 * k)) × (above < 2 ^ (4 * (16 - k))) }
    ensures { result ≡ above * 2 ^ (4 * k) + below }
{
    (above << (4 * k)) | below
}

// Nibble k.
pub fn nibble(x: u64, k: usize) -> usize
    requires { k < 16 }
    ensures { result ≡ x / 2 ^ (4 * k) % 16 }
{
    ((x >> (4 * k)) & 15) as usize
}

// How many slots are in use: the lowest nibble.
pub fn size_of(word: u64) -> usize
    ensures { result ≡ word % 16 }
{
    (word & 15) as usize
}

// Whether the sixteen nibbles are 0 to 15, once each: sixteen marks, and none is missing. A nibble is marked with one bit of the next
// one above it, which spares a mask; the two copies of the marks are laid over each other at the end. The halves go side by side: one
// turn marks a nibble of each, and the highest nibble, which is not 0, ends the loop.
pub fn each_once(x: u64) -> bool
    requires { 2 ^ 60 ≤ x }
    ensures { result ≡ each_once (nibbles 16 x) }
{
    let mut marks: u32 = 0;
    let mut low = x;
    let mut high = x >> 32;
    // As many nibbles of each half are marked, and `low` and `high` have the others.
    loop {
        marks = marks | (1u32 << (high & 31));
        marks = marks | (1u32 << (low & 31));
        low = low >> 4;
        high = high >> 4;
        if high == 0 {
            break;
        }
    }
    0xFFFE_FFFF < (marks | (marks << 16))
}

// The positions of a word, and from the width on each place with its own number, whatever strays there: where two numbers differ, bit by
// bit, a second time gives the first.
fn filled(word: u64, width: usize) -> u64
    requires { width ≤ 15 }
    ensures { result ≡ 0xFEDCBA9876543210 / 2 ^ (4 * width) * 2 ^ (4 * width) + word / 16 % 2 ^ (4 * width) }
{
    let slots = high(word, 1);
    (high(RISING ^ slots, width) << (4 * width)) ^ slots
}

// Whether a word is valid once its stray bits are cleared. The places above the width are filled with their own numbers, so that one test
// fits every width and nothing that strays is seen.
pub fn valid(word: u64, width: usize) -> bool
    requires { width ≤ 15 }
    ensures { result ≡ valid_word width (cleared_word width word) }
{
    if width < size_of(word) {
        return false;
    }
    each_once(filled(word, width))
}

// Whether a word may be used at its width: refusal 1 for the width, 2 for the word.
pub fn judge(word: u64, width: usize) -> Result<(), Refusal>
    ensures { result ≡ judged width word }
{
    if width < 1 || 15 < width {
        return Err(Refusal::Width);
    }
    if !valid(word, width) {
        return Err(Refusal::Word);
    }
    Ok(())
}
