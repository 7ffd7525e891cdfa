// One internode or free node, judged alone, and the way down to a leaf: for the walk that has judged the lent lengths. What a caller
// must know stands in `requires`. The judgements of leaves, of cells, and of zeros, are passed on from the crates below.
ghost use Rattle.std.specs.Prelude.{◌≡◌, ◌+◌, ◌≤◌, length};
ghost use Rattle.internode.specs.Lists as internode;
ghost use Rattle.arena.specs.Parts.{part};
ghost use Rattle.arena.specs.Layout.{node_start, node_end};
ghost use Rattle.forest.specs.Nodes.{internode_right, node_free};
ghost use Rattle.forest.specs.Walk.{height_at};

use memory_layout::{CHILDREN, HEADER_WORDS, IKEYS, INTERNODE, NODE_WORDS};
pub use shape_cells::inside::{
    cell_free, cell_right, class_of, is_filed, is_keyed, is_under, left_behind,
};
pub use shape_leaves::inside::{entries_of_class, entries_rising, entry_at, leaf_right, rest_zero};
pub use zeros::inside::{bytes_zero, words_zero};

// Whether node k is an internode by the rules: its kind, at most 15 rising ikeys, and zeros behind them and behind the children.
pub fn internode_right(nodes: &[u64], k: usize) -> bool
    requires { node_end k ≤ length nodes.now }
    ensures { result ≡ internode_right nodes.now k }
{
    let at = HEADER_WORDS + k * NODE_WORDS;
    if nodes[at] != INTERNODE {
        return false;
    }
    let count = nodes[at + 1];
    if 15 < count {
        return false;
    }
    let n = count as usize;
    if !ikeys_rising(nodes, at + IKEYS, n) {
        return false;
    }
    if !words_zero(nodes, at + IKEYS + n, 15 - n) {
        return false;
    }
    words_zero(nodes, at + 18 + n, 29 - n)
}

// Whether n words from `at` on strictly rise.
pub fn ikeys_rising(words: &[u64], at: usize, n: usize) -> bool
    requires { at + n ≤ length words.now }
    ensures { result ≡ internode.rising (part words.now at n) }
{
    // The first i words strictly rise.
    for i in 1..n {
        if words[at + i] <= words[at + i - 1] {
            return false;
        }
    }
    true
}

// Whether node k is free: all its words are zero.
pub fn node_free(nodes: &[u64], k: usize) -> bool
    requires { node_end k ≤ length nodes.now }
    ensures { result ≡ node_free nodes.now k }
{
    words_zero(nodes, HEADER_WORDS + k * NODE_WORDS, NODE_WORDS)
}

// How far it is down to a leaf by first children; 255 steps at most.
pub fn height(nodes: &[u64], count: usize, root: u64) -> usize
    requires { node_start count ≡ length nodes.now }
    ensures { result ≡ height_at nodes.now 255 root }
{
    let mut n = root;
    // n is reached from the root by h first children.
    for h in 0..255 {
        if count as u64 <= n {
            return h;
        }
        let at = HEADER_WORDS + n as usize * NODE_WORDS;
        if nodes[at] != INTERNODE {
            return h;
        }
        n = nodes[at + CHILDREN];
    }
    255
}
