// The cells of a layer, a node, a leaf, an entry, noted one after the other in a lent row of numbers, as far as it has room. What a
// caller must know is right lent lengths; that memory is a tree is not required.
ghost use Rattle.std.specs.Prelude.{◌≡◌, ◌-◌, ◌≤◌, length};
ghost use Rattle.model.specs.Listed.{cells_of_leaf, cells_of_node, cells_of_layer};
ghost use Rattle.seek.specs.Lengths.{NodesLent};
ghost use Rattle.seek.specs.Below.{layers_below, cells_at};
ghost use Rattle.index_listed.specs.Noted.{noted, noted_all};

use leaf_entries::Entry;
use node_words::inside::{entry_of, slot_of, word_of};

// One cell, if there is room.
fn note(order: &mut [u64], at: usize, cell: u64) -> usize
    ensures { (order.new, result) ≡ noted (order.old, at) cell }
{
    if at < order.len() {
        order[at] = cell;
        return at + 1;
    }
    at
}

// Of a layer.
#[cycle(list_entry_list_layer_list_leaf_list_node)]
pub fn list_layer(nodes: &[u64], links: usize, root: u64, order: &mut [u64], at: usize) -> usize
    requires { NodesLent (length nodes.now) × (links ≤ 31) }
    ensures { (order.new, result) ≡ noted_all (order.old, at) (cells_of_layer (31 - links) nodes.now root) }
{
    let height = seek::inside::height_of(nodes, root);
    list_node(nodes, links, height, root, order, at)
}

// Of a node of this height.
#[cycle(list_entry_list_layer_list_leaf_list_node)]
fn list_node(
    nodes: &[u64],
    links: usize,
    height: usize,
    n: u64,
    order: &mut [u64],
    at: usize,
) -> usize
    requires { NodesLent (length nodes.now) × (links ≤ 31) }
    ensures { (order.new, result)
        ≡ noted_all (order.old, at) (cells_of_node (layers_below (31 - links) nodes.now) nodes.now height n) }
{
    if height == 0 {
        return list_leaf(nodes, links, n, order, at);
    }
    let many = seek::inside::children_of(nodes, n);
    let mut to = at;
    let mut i: usize = 0;
    while i < many {
        let child = seek::inside::child_at(nodes, n, i);
        i += 1;
        to = list_node(nodes, links, height - 1, child, order, to);
    }
    to
}

// Of a leaf, its entries in order.
#[cycle(list_entry_list_layer_list_leaf_list_node)]
fn list_leaf(nodes: &[u64], links: usize, n: u64, order: &mut [u64], at: usize) -> usize
    requires { NodesLent (length nodes.now) × (links ≤ 31) }
    ensures { (order.new, result)
        ≡ noted_all (order.old, at) (cells_of_leaf (layers_below (31 - links) nodes.now) nodes.now n) }
{
    let word = word_of(nodes, n, 1);
    let size = (word % 16) as usize;
    let mut to = at;
    let mut i: usize = 0;
    while i < size {
        let slot = slot_of(word, i);
        i += 1;
        let e = entry_of(nodes, n, slot);
        to = list_entry(nodes, links, e, order, to);
    }
    to
}

// Of an entry: its cell, or the layer below.
#[cycle(list_entry_list_layer_list_leaf_list_node)]
fn list_entry(nodes: &[u64], links: usize, e: Entry, order: &mut [u64], at: usize) -> usize
    requires { NodesLent (length nodes.now) × (links ≤ 31) }
    ensures { (order.new, result)
        ≡ noted_all (order.old, at) (cells_at (layers_below (31 - links) nodes.now) e) }
{
    if e.class == 10 {
        if links == 31 {
            return at;
        }
        return list_layer(nodes, links + 1, e.at, order, at);
    }
    note(order, at, e.at)
}
