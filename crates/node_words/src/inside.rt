// A word of a node and an entry in a slot, whether or not they stand in lent memory; the slot at a position of a leaf's word is passed on.
// What a caller must know stands in `requires`.
ghost use Rattle.std.specs.Prelude.{◌≡◌, ◌≤◌, ◌<◌, length};
ghost use Rattle.memory_layout.specs.Numbers.{most_node_words};
ghost use Rattle.arena.specs.Layout.{word_at};
ghost use Rattle.forest.specs.Nodes.{entry_at};

use leaf::Entry;
pub use leaf_entries::inside::slot_of;
use memory_layout::{CLASSES, HEADER_WORDS, IKEYS, NODE_WORDS, REFS};

// Word i of node n, 0 where there is no such node.
pub fn word_of(nodes: &[u64], n: u64, i: usize) -> u64
    requires { (length nodes.now ≤ most_node_words) × (i < 48) }
    ensures { result ≡ word_at nodes.now n i }
{
    if 255 <= n {
        return 0;
    }
    let at = HEADER_WORDS + n as usize * NODE_WORDS + i;
    if nodes.len() <= at {
        return 0;
    }
    nodes[at]
}

// The entry in a slot of node n.
pub fn entry_of(nodes: &[u64], n: u64, slot: usize) -> Entry
    requires { (length nodes.now ≤ most_node_words) × (slot < 16) }
    ensures { result ≡ entry_at nodes.now n slot }
{
    let ikey = word_of(nodes, n, IKEYS + slot);
    let class = word_of(nodes, n, CLASSES + slot);
    let at = word_of(nodes, n, REFS + slot);
    Entry { ikey, class, at }
}
