// Empty layers given back, with right lent lengths: safe and ended whatever stands in memory, and right where it is a tree. What a caller
// must know stands in `requires`.
ghost use Rattle.std.specs.Prelude.{◌≡◌, ◌≤◌, ◌<◌, length};
ghost use Rattle.arena.specs.Layout.{node_end};
ghost use Rattle.arena.specs.Memory.{memory};
ghost use Rattle.model.specs.GivenBack.{node_of_word, link_place, empty_layer, without_layer, all_given_back};
ghost use Rattle.seek.specs.Lengths.{NodesLent, CellsLent};

use memory_layout::{HEADER_WORDS, LEAF, NODE_WORDS};
use model::Met;
use node_words::inside::word_of;

// The position, in a leaf of the layer above, of the link by which the key comes to a layer so many links down.
fn link_place(nodes: &[u64], key: &[u8], leaf: u64, links: usize) -> usize
    requires { NodesLent (length nodes.now) × (1 ≤ links) × (links ≤ 32) }
    ensures { result ≡ link_place nodes.now key.now leaf links }
{
    let offset = 8 * (links - 1);
    let ikey = ikey::read_ikey(key, offset);
    let left = shape::inside::left_behind(key.len(), offset);
    seek::inside::place_equal(nodes, leaf, ikey, left)
}

// Whether the layer of this root is below the first, and one empty leaf.
fn is_empty_layer(nodes: &[u64], key: &[u8], holder: usize, root: u64, links: usize) -> bool
    requires { NodesLent (length nodes.now) × (links ≤ 32) }
    ensures { result ≡ empty_layer nodes.now key.now holder root links }
{
    if links == 0 {
        return false;
    }
    if word_of(nodes, root, 0) != LEAF {
        return false;
    }
    if word_of(nodes, root, 1) % 16 != 0 {
        return false;
    }
    if holder < HEADER_WORDS {
        return false;
    }
    let leaf = ((holder - HEADER_WORDS) / NODE_WORDS) as u64;
    let size = (word_of(nodes, leaf, 1) % 16) as usize;
    link_place(nodes, key, leaf, links) < size
}

// Takes the link to that layer out of the leaf above, and frees its node.
fn free_layer(nodes: &mut [u64], key: &[u8], holder: usize, root: u64, links: usize)
    requires nodes_lent { NodesLent (length nodes.old) × (1 ≤ links) × (links ≤ 32) }
    requires le_holder { (2 ≤ holder) × (node_of_word holder < 255) × (link_place nodes.old key.now (node_of_word holder) links < 15) }
    requires root_in_bounds { node_end root ≤ length nodes.old }
    ensures nodes_after { nodes.new ≡ without_layer nodes.old key.now holder root links }
    ensures nodes_len_unchanged { length nodes.new ≡ length nodes.old }
{
    let leaf = (holder - HEADER_WORDS) / NODE_WORDS;
    let p = link_place(nodes, key, leaf as u64, links);
    index_words::inside::take_entry(nodes, leaf, p);
    arena::inside::free_node(nodes, root as usize);
}

// Gives back the layer where the key is missing, if it is empty, then the one above, and so on, in so many steps at most.
pub fn give_back(nodes: &mut [u64], cells: &[u64], bytes: &[u8], key: &[u8], steps: usize)
    requires { NodesLent (length nodes.old) × CellsLent (length cells.now) (length bytes.now) × (length key.now ≤ 256) }
    ensures { memory nodes.new cells.now bytes.now
        ≡ all_given_back steps (memory nodes.old cells.now bytes.now) key.now }
{
    if steps == 0 {
        return;
    }
    let met = seek::inside::seek(nodes, cells, bytes, key, 0, 0, nodes[0]);
    let Met::Missing {
        holder,
        root,
        links,
    } = met
    else {
        return;
    };
    if !is_empty_layer(nodes, key, holder, root, links) {
        return;
    }
    free_layer(nodes, key, holder, root, links);
    give_back(nodes, cells, bytes, key, steps - 1);
}
