// A leaf of lent memory read, and one made of entries. What a caller must know stands in `requires`; what only a tree has is not required.
ghost use Rattle.std.specs.Prelude.{◌≡◌, ◌∷◌, ◌++◌, ◌+◌, ◌≤◌, ◌<◌, length, take, drop};
ghost use Rattle.memory_layout.specs.Numbers.{most_node_words};
ghost use Rattle.leaf.specs.Leaf.{rank};
ghost use Rattle.leaf.specs.Search.{place_greater};
ghost use Rattle.forest.specs.Nodes.{slots_at, entries_at};
ghost use Rattle.model.specs.Leaves.{leaf_with, fifteen_at};

use arena::inside::Leaf;
use leaf::Entry;
use leaf::inside::size_of;
use node_words::inside::{entry_of, slot_of, word_of};
use nodes_cut::inside::sorted_word;

// The position where an entry belongs: the first whose entry is greater, or the size.
pub fn place_greater(nodes: &[u64], k: usize, e: Entry) -> usize
    requires { (length nodes.now ≤ most_node_words) × (k < 255) }
    ensures value { result ≡ place_greater e.ikey (rank e) (entries_at nodes.now k) }
    ensures upper_bound { result ≤ (slots_at nodes.now k).size }
{
    let word = word_of(nodes, k as u64, 1);
    let size = size_of(word);
    let mut i: usize = 0;
    // No entry before position i is greater.
    while i < size {
        let d = entry_of(nodes, k as u64, slot_of(word, i));
        if leaf::inside::is_less(e, d) {
            return i;
        }
        i += 1;
    }
    size
}

// A leaf of n of these entries from a place on, in slots 0, 1, ..
pub fn leaf_of(entries: [Entry; 16], from: usize, n: usize) -> Leaf
    requires { (n ≤ 15) × (from + n ≤ 16) }
    ensures { result ≡ leaf_with (take n (drop from entries)) }
{
    let mut ikeys = [0u64; 15];
    let mut classes = [0u64; 15];
    let mut refs = [0u64; 15];
    let mut i: usize = 0;
    // The first i slots hold the first i of these entries, and all later ones are zero.
    while i < n {
        let e = entries[from + i];
        ikeys[i] = e.ikey;
        classes[i] = e.class;
        refs[i] = e.at;
        i += 1;
    }
    let word = sorted_word(n);
    Leaf {
        word,
        ikeys,
        classes,
        refs,
    }
}

// The entries at all fifteen positions of leaf k, with one more put in at position p.
pub fn sixteen(nodes: &[u64], k: usize, p: usize, e: Entry) -> [Entry; 16]
    requires { (length nodes.now ≤ most_node_words) × (k < 255) × (p ≤ 15) }
    ensures { result ≡ take p (fifteen_at nodes.now k) ++ e ∷ drop p (fifteen_at nodes.now k) }
{
    let word = word_of(nodes, k as u64, 1);
    let mut all = [Entry {
        ikey: 0,
        class: 0,
        at: 0,
    }; 16];
    let mut i: usize = 0;
    // The first i of the sixteen are in place.
    while i < 16 {
        if i < p {
            all[i] = entry_of(nodes, k as u64, slot_of(word, i));
            i += 1;
            continue;
        }
        if p < i {
            all[i] = entry_of(nodes, k as u64, slot_of(word, i - 1));
            i += 1;
            continue;
        }
        all[i] = e;
        i += 1;
    }
    all
}
