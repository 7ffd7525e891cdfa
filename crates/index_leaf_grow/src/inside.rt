// An entry more in a leaf. What a caller must know stands in `requires`; what only a tree has is not required.
ghost use Rattle.std.specs.Prelude.{◌≡◌, ◌≤◌, ◌<◌, length};
ghost use Rattle.arena.specs.Layout.{node_start};
ghost use Rattle.leaf.specs.Cut.{cut_of};
ghost use Rattle.model.specs.Leaves.{leaf_split, leaf_grown, rest_of, half_for, leaf_rests};

use index_leaf::inside::{leaf_of, place_greater, sixteen};
use index_words::inside::{lowest, put_at, put_entry};
use leaf::Entry;
use leaf::inside::size_of;
use memory_layout::{HEADER_WORDS, NODE_WORDS};
use model::{Grown, Landed};
use node_words::inside::{slot_of, word_of};
use nodes_cut::inside::cut;
use turns::inside::inserted;

// How many slots rest in the half, of sixteen entries cut in two at c, in which an entry with this ikey is.
fn half_rests(entries: [Entry; 16], c: usize, ikey: u64) -> usize
    requires { (c ≡ cut_of entries) × (1 ≤ c) × (c ≤ 15) }
    ensures { result ≡ rest_of (length (half_for entries ikey)) }
{
    if ikey < entries[c].ikey {
        return 15 - c;
    }
    c - 1
}

// Writes sixteen entries, cut at c, to two leaves: k, and on its right the lowest free node.
fn put_halves(nodes: &mut [u64], count: usize, k: usize, entries: [Entry; 16], c: usize) -> Grown
    requires { (node_start count ≡ length nodes.old) × (k < count) × (count ≤ 255) × (c ≡ cut_of entries) × (1 ≤ c) × (c ≤ 15) }
    ensures { (nodes.new, result) ≡ leaf_split nodes.old count k entries }
{
    let right = lowest(nodes, count);
    let up = entries[c].ikey;
    arena::inside::store_leaf(nodes, k, leaf_of(entries, 0, c));
    arena::inside::store_leaf(nodes, right, leaf_of(entries, c, 16 - c));
    Grown::Two {
        ikey: up,
        node: right as u64,
    }
}

// Writes sixteen entries to two leaves, and tells how many slots rest in the one in which the entry with this ikey is.
pub fn split_leaf(
    nodes: &mut [u64],
    count: usize,
    k: usize,
    entries: [Entry; 16],
    ikey: u64,
) -> Landed
    requires { (node_start count ≡ length nodes.old) × (k < count) × (count ≤ 255) }
    ensures { ((nodes.new, result.grown) ≡ leaf_split nodes.old count k entries)
        × (result.resting ≡ rest_of (length (half_for entries ikey))) }
{
    let c = cut(entries);
    let grown = put_halves(nodes, count, k, entries, c);
    let resting = half_rests(entries, c, ikey);
    Landed { grown, resting }
}

// Adds an entry to leaf k: the slot at the back is put to use at its position; a full leaf becomes two. Tells how many slots rest in the
// leaf where the entry is then.
pub fn grow_leaf(nodes: &mut [u64], count: usize, k: usize, e: Entry) -> Landed
    requires { (node_start count ≡ length nodes.old) × (k < count) × (count ≤ 255) }
    ensures { ((nodes.new, result.grown) ≡ leaf_grown nodes.old count k e)
        × (result.resting ≡ leaf_rests nodes.old k e) }
{
    let p = place_greater(nodes, k, e);
    let word = word_of(nodes, k as u64, 1);
    let size = size_of(word);
    if size < 15 {
        put_at(
            nodes,
            HEADER_WORDS + k * NODE_WORDS + 1,
            inserted(word, 15, p),
        );
        put_entry(nodes, k, slot_of(word, 14), e);
        return Landed {
            grown: Grown::One,
            resting: 14 - size,
        };
    }
    let entries = sixteen(nodes, k, p, e);
    split_leaf(nodes, count, k, entries, e.ikey)
}
