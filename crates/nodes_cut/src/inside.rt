// The cut of a full leaf, and slot words of a leaf. What a caller must know stands in `requires`.
ghost use Rattle.std.specs.Prelude.{◌≡◌, ◌≤◌, get_or};
ghost use Rattle.bank.specs.Calls.{remove};
ghost use Rattle.permuter.specs.Words.{changed, made_sorted};
ghost use Rattle.leaf.specs.Cut.{cut_of};

use leaf::Entry;

// The slot word after `remove` at position p; as it was where that is refused.
pub fn without(word: u64, p: usize) -> u64
    ensures { result ≡ get_or (changed 15 word (remove p)).values 0 0 }
{
    match permuter::remove(word, 15, p) {
        Ok(after) => after,
        Err(refused) => refused.word,
    }
}

// The slot word of a leaf with slots 0 to n-1 in use, in order.
pub fn sorted_word(n: usize) -> u64
    requires { n ≤ 15 }
    ensures { result ≡ get_or (made_sorted 15 n).values 0 0 }
{
    permuter::make_sorted(15, n).unwrap_or(0)
}

// Where sixteen entries are cut: the ikeys on both sides differ, nearest to 8, the lower on a tie.
pub fn cut(entries: [Entry; 16]) -> usize
    ensures { (result ≡ cut_of entries) × (1 ≤ result) × (result ≤ 15) }
{
    // No cut less than `far` away from 8 has different ikeys on its sides.
    for far in 0..8 {
        if entries[8 - far - 1].ikey != entries[8 - far].ikey {
            return 8 - far;
        }
        if entries[8 + far - 1].ikey != entries[8 + far].ikey {
            return 8 + far;
        }
    }
    8
}
