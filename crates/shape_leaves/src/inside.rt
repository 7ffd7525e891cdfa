// One leaf, judged alone: for the walk that has judged the lent lengths. What a caller must know stands in `requires`.
ghost use Rattle.std.specs.Prelude.{◌≡◌, true, ◌+◌, ◌%◌, ◌≤◌, ◌<◌, eqb, length};
ghost use Rattle.nibbles.specs.Words.{valid_word};
ghost use Rattle.leaf.specs.Lists.{every};
ghost use Rattle.leaf.specs.Leaf.{rising};
ghost use Rattle.arena.specs.Layout.{node_end, word_at};
ghost use Rattle.forest.specs.Nodes.{entry_at, entries_at, rest_at, of_class, is_zero, leaf_right};

use leaf::Entry;
use leaf_entries::inside::{size_of, slot_at};
use memory_layout::{CLASSES, HEADER_WORDS, IKEYS, LEAF, NODE_WORDS, REFS};

// The entry in a slot of node k.
pub fn entry_at(nodes: &[u64], k: usize, slot: usize) -> Entry
    requires { (node_end k ≤ length nodes.now) × (slot < 15) }
    ensures { result ≡ entry_at nodes.now k slot }
{
    let at = HEADER_WORDS + k * NODE_WORDS;
    Entry {
        ikey: nodes[at + IKEYS + slot],
        class: nodes[at + CLASSES + slot],
        at: nodes[at + REFS + slot],
    }
}

// Whether node k is a leaf by the rules: its kind, a valid slot word, classes, rising entries, and zeros in the free slots.
pub fn leaf_right(nodes: &[u64], k: usize) -> bool
    requires { node_end k ≤ length nodes.now }
    ensures { result ≡ leaf_right nodes.now k }
{
    if nodes[HEADER_WORDS + k * NODE_WORDS] != LEAF {
        return false;
    }
    let word = nodes[HEADER_WORDS + k * NODE_WORDS + 1];
    if !leaf::inside::is_valid(word) {
        return false;
    }
    if !entries_of_class(nodes, k, word) {
        return false;
    }
    if !entries_rising(nodes, k, word) {
        return false;
    }
    rest_zero(nodes, k, word)
}

// Whether each entry in use has a class of 0 to 10.
pub fn entries_of_class(nodes: &[u64], k: usize, word: u64) -> bool
    requires { (node_end k ≤ length nodes.now) × (valid_word 15 word ≡ true) × (word ≡ word_at nodes.now k 1) }
    ensures { result ≡ every of_class (entries_at nodes.now k) }
{
    let size = size_of(word);
    // The entries before position i have such a class.
    for i in 0..size {
        let slot = slot_at(word, i);
        if 10 < nodes[HEADER_WORDS + k * NODE_WORDS + CLASSES + slot] {
            return false;
        }
    }
    true
}

// Whether the entries in use strictly rise.
pub fn entries_rising(nodes: &[u64], k: usize, word: u64) -> bool
    requires { (node_end k ≤ length nodes.now) × (valid_word 15 word ≡ true) × (word ≡ word_at nodes.now k 1) }
    ensures { result ≡ rising (entries_at nodes.now k) }
{
    let size = size_of(word);
    // The entries before position i strictly rise.
    for i in 1..size {
        let e = entry_at(nodes, k, slot_at(word, i - 1));
        let d = entry_at(nodes, k, slot_at(word, i));
        if !leaf::inside::is_less(e, d) {
            return false;
        }
    }
    true
}

// Whether the slots that are not in use are zero: the word's nibbles go by from the first free one on, and what stands in their slots is
// laid over each other.
pub fn rest_zero(nodes: &[u64], k: usize, word: u64) -> bool
    requires { (node_end k ≤ length nodes.now) × (valid_word 15 word ≡ true) × (word ≡ word_at nodes.now k 1) }
    ensures { result ≡ every is_zero (rest_at nodes.now k) }
{
    let size = size_of(word);
    let mut rest = (word >> 4) >> (4 * size);
    let mut found: u64 = 0;
    // `rest` has the nibbles of the free slots that are still to come, and `found` is 0 where those before are zero.
    for _ in size..15 {
        let e = entry_at(nodes, k, size_of(rest));
        found |= laid_over(e);
        rest >>= 4;
    }
    found == 0
}

// The three numbers of an entry laid over each other: 0 where each is.
pub fn laid_over(e: Entry) -> u64
    ensures { eqb result 0 ≡ is_zero e }
{
    e.ikey | e.class | e.at
}
