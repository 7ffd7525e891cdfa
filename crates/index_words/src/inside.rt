// A word or an entry of one node changed. What a caller must know stands in `requires`; what only a tree has is not required.
ghost use Rattle.std.specs.Prelude.{◌≡◌, ◌+◌, ◌*◌, ◌≤◌, ◌<◌, length, set};
ghost use Rattle.memory_layout.specs.Numbers.{most_node_words};
ghost use Rattle.arena.specs.Layout.{node_start};
ghost use Rattle.model.specs.Leaves.{fresh_node, entry_put, entry_taken};

use leaf::Entry;
use memory_layout::{CLASSES, HEADER_WORDS, IKEYS, NODE_WORDS, REFS};
use node_words::inside::{slot_of, word_of};
use nodes_cut::inside::without;

// Writes a word of memory; nothing where there is no such word.
pub fn put_at(words: &mut [u64], at: usize, w: u64)
    ensures { words.new ≡ set words.old at w }
{
    if words.len() <= at {
        return;
    }
    words[at] = w;
}

// The lowest free node, 0 where none is free.
pub fn lowest(nodes: &[u64], count: usize) -> usize
    requires { (node_start count ≡ length nodes.now) × (1 ≤ count) }
    ensures { (result ≡ fresh_node nodes.now count) × (result < count) }
{
    let Some(k) = arena::inside::lowest_free_node(nodes, count) else {
        return 0;
    };
    k
}

// Writes the three numbers of an entry into a slot of leaf k.
pub fn put_entry(nodes: &mut [u64], k: usize, slot: usize, e: Entry)
    requires { (k < 255) × (slot < 16) }
    ensures { nodes.new ≡ entry_put nodes.old k slot e }
{
    let at = HEADER_WORDS + k * NODE_WORDS;
    put_at(nodes, at + IKEYS + slot, e.ikey);
    put_at(nodes, at + CLASSES + slot, e.class);
    put_at(nodes, at + REFS + slot, e.at);
}

// Takes the entry at position p out of leaf k: its slot is free and zero again.
pub fn take_entry(nodes: &mut [u64], k: usize, p: usize)
    requires { (length nodes.old ≤ most_node_words) × (k < 255) × (p < 15) }
    ensures { nodes.new ≡ entry_taken nodes.old k p }
{
    let word = word_of(nodes, k as u64, 1);
    let slot = slot_of(word, p);
    put_at(nodes, HEADER_WORDS + k * NODE_WORDS + 1, without(word, p));
    put_entry(
        nodes,
        k,
        slot,
        Entry {
            ikey: 0,
            class: 0,
            at: 0,
        },
    );
}
