// Reading lent memory, with right lent lengths: safe and ended whatever stands in it, and right where it is a tree. What a caller
// must know stands in `requires`.
ghost use Rattle.std.specs.Prelude.{◌≡◌, ℕ, ◌+◌, ◌-◌, ◌*◌, ◌≤◌, ◌<◌, length, get_or};
ghost use Rattle.std.proofs.Math.Dec.{compare_is_eq};
ghost use Rattle.memory_layout.specs.Numbers.{most_node_words, refs_from, children_from};
ghost use Rattle.bank.specs.Bank.{slot_at};
ghost use Rattle.leaf.specs.Leaf.{slots_of, against};
ghost use Rattle.leaf.specs.Search.{place_equal};
ghost use Rattle.order.specs.Layer.{ikey_at, class_of, class_at};
ghost use Rattle.arena.specs.Layout.{node_start, word_at};
ghost use Rattle.arena.specs.Memory.{memory, node_count, cell_count};
ghost use Rattle.forest.specs.Nodes.{entry_at, entries_at, ikeys_at, children_at};
ghost use Rattle.forest.specs.Walk.{height_at};
ghost use Rattle.model.specs.Down.{child_for, leaf_for, leaf_in};
ghost use Rattle.model.specs.Meet.{has_key, meet};
ghost use Rattle.model.specs.Listed.{cells_of_leaf, cells_of_node, cells_of_layer, reach};
ghost use Rattle.seek.specs.Lengths.{NodesLent, CellsLent};
ghost use Rattle.seek.specs.Places.{place_among};
ghost use Rattle.seek.specs.Within.{Within};
ghost use Rattle.seek.specs.Below.{layers_below, cells_at};

use leaf::Entry;
use leaf::inside::size_of;
use memory_layout::{CELL_WORDS, CHILDREN, HEADER_WORDS, IKEYS, NODE_WORDS, REFS};
use model::{Met, Reached};
use node_words::inside::{entry_of, slot_of, word_of};
use std::cmp::Ordering;

// ---- down a layer

// The place after the last ikey of an internode that is not above this one.
pub fn place_for(nodes: &[u64], n: u64, ikey: u64) -> usize
    requires { (length nodes.now ≤ most_node_words) × (n < 255) }
    ensures value { result ≡ place_among ikey (ikeys_at nodes.now n) }
    ensures upper_bound { (result ≤ word_at nodes.now n 1) × (result ≤ length nodes.now) }
{
    let count = word_of(nodes, n, 1);
    let mut place: usize = 0;
    let mut i: usize = 0;
    // `place` is the place after the last of the first i ikeys that is not above this one.
    while (i as u64) < count {
        let at = HEADER_WORDS + n as usize * NODE_WORDS + IKEYS + i;
        if nodes.len() <= at {
            return place;
        }
        if ikey < nodes[at] {
            i += 1;
            continue;
        }
        i += 1;
        place = i;
    }
    place
}

// The child of an internode for an ikey.
pub fn child_for(nodes: &[u64], n: u64, ikey: u64) -> u64
    requires { length nodes.now ≤ most_node_words }
    ensures { result ≡ child_for nodes.now n ikey }
{
    if 255 <= n {
        return 0;
    }
    let at = HEADER_WORDS + n as usize * NODE_WORDS + CHILDREN + place_for(nodes, n, ikey);
    if nodes.len() <= at {
        return 0;
    }
    nodes[at]
}

// The leaf for an ikey, from a node of this height down.
pub fn leaf_for(nodes: &[u64], height: usize, node: u64, ikey: u64) -> u64
    requires { length nodes.now ≤ most_node_words }
    ensures { result ≡ leaf_for nodes.now height node ikey }
{
    let mut n = node;
    let mut h = height;
    // The leaf for the ikey is below n, h steps down.
    while 0 < h {
        n = child_for(nodes, n, ikey);
        h -= 1;
    }
    n
}

// Whether an entry has this ikey and the class of this length.
pub fn is_same(ikey: u64, len: usize, e: Entry) -> bool
    ensures { result ≡ compare_is_eq (against ikey (class_of len) e) }
{
    let order = leaf::inside::compare(ikey, len, e);
    match order {
        Ordering::Less => false,
        Ordering::Equal => true,
        Ordering::Greater => false,
    }
}

// The first position whose entry has this ikey and the class of this length, or the size.
pub fn place_equal(nodes: &[u64], n: u64, ikey: u64, len: usize) -> usize
    requires { length nodes.now ≤ most_node_words }
    ensures { result ≡ place_equal ikey (class_of len) (entries_at nodes.now n) }
{
    let word = word_of(nodes, n, 1);
    let size = size_of(word);
    let mut i: usize = 0;
    // No entry before position i has this ikey and class.
    while i < size {
        let slot = slot_of(word, i);
        let e = entry_of(nodes, n, slot);
        if is_same(ikey, len, e) {
            return i;
        }
        i += 1;
    }
    size
}

// How far it is down to a leaf by first children.
pub fn height_of(nodes: &[u64], root: u64) -> usize
    requires { NodesLent (length nodes.now) }
    ensures { (result ≡ height_at nodes.now 255 root) × (result ≤ 255) }
{
    shape::inside::height(nodes, nodes.len() / NODE_WORDS, root)
}

// Where a key goes in a layer: the leaf for its ikey, and the position of its ikey and class there, or the size.
#[derive(Clone, Copy)]
pub struct Place {
    leaf: u64,
    position: usize,
}

// Where a key goes in the layer of this root, so many links down.
pub fn place_in(nodes: &[u64], key: &[u8], links: usize, root: u64) -> Place
    requires { NodesLent (length nodes.now) × (links ≤ 31) }
    ensures leaf_value { result.leaf ≡ leaf_in nodes.now root (ikey_at key.now (8 * links)) }
    ensures position_value { result.position ≡ place_equal (ikey_at key.now (8 * links)) (class_at key.now (8 * links))
        (entries_at nodes.now result.leaf) }
{
    let ikey = ikey::read_ikey(key, 8 * links);
    let left = shape::inside::left_behind(key.len(), 8 * links);
    let height = height_of(nodes, root);
    let leaf = leaf_for(nodes, height, root, ikey);
    let position = place_equal(nodes, leaf, ikey, left);
    Place { leaf, position }
}

// ---- to a key

// Whether cell c holds this key.
pub fn has_key(cells: &[u64], bytes: &[u8], c: u64, key: &[u8]) -> bool
    requires { CellsLent (length cells.now) (length bytes.now) × (length key.now ≤ 256) }
    ensures { result ≡ has_key cells.now bytes.now c key.now }
{
    if (cells.len() / CELL_WORDS) as u64 <= c {
        return false;
    }
    let k = c as usize;
    if cells[k * CELL_WORDS] != key.len() as u64 + 1 {
        return false;
    }
    let stored = arena::inside::key_of(bytes, k, key.len());
    let order = ikey::inside::compare_parts(stored, key);
    match order {
        Ordering::Less => false,
        Ordering::Equal => true,
        Ordering::Greater => false,
    }
}

// The word of memory that holds the number of the entry in a slot.
pub fn number_word(n: u64, slot: usize) -> usize
    requires { (n < 255) × (slot < 16) }
    ensures { result ≡ node_start n + refs_from + slot }
{
    HEADER_WORDS + n as usize * NODE_WORDS + REFS + slot
}

// Where a key is, from a layer down: stored, in conflict with another, or missing in a layer.
pub fn seek(
    nodes: &[u64],
    cells: &[u64],
    bytes: &[u8],
    key: &[u8],
    links: usize,
    holder: usize,
    root: u64,
) -> Met
    requires nodes_lent { NodesLent (length nodes.now) × CellsLent (length cells.now) (length bytes.now) }
    requires key_len_bound { (length key.now ≤ 256) × (links ≤ 31) }
    ensures value { result ≡ meet (31 - links) (memory nodes.now cells.now bytes.now)
        key.now links holder root }
    ensures within { Within (node_count (length nodes.now)) (cell_count (length cells.now)) result }
{
    let place = place_in(nodes, key, links, root);
    let n = place.leaf;
    let p = place.position;
    let word = word_of(nodes, n, 1);
    if size_of(word) <= p {
        return Met::Missing {
            holder,
            root,
            links,
        };
    }
    let slot = slot_of(word, p);
    let e = entry_of(nodes, n, slot);
    if e.class != 10 {
        if has_key(cells, bytes, e.at, key) {
            return Met::Stored {
                leaf: n,
                position: p,
                cell: e.at,
            };
        }
        return Met::Conflict {
            leaf: n,
            position: p,
            cell: e.at,
            links,
        };
    }
    let below = number_word(n, slot);
    if links == 31 {
        return Met::Missing {
            holder: below,
            root: e.at,
            links: 32,
        };
    }
    seek(nodes, cells, bytes, key, links + 1, below, e.at)
}

// ---- to the k-th entry

// The k-th entry of a layer, by its root.
#[cycle(kth_entry_kth_layer_kth_leaf_kth_node)]
pub fn kth_layer(nodes: &[u64], links: usize, root: u64, k: u64) -> Reached
    requires { NodesLent (length nodes.now) × (links ≤ 31) }
    ensures { result ≡ reach k (cells_of_layer (31 - links) nodes.now root) }
{
    let height = height_of(nodes, root);
    kth_node(nodes, links, height, root, k)
}

// The k-th entry below a node of this height.
#[cycle(kth_entry_kth_layer_kth_leaf_kth_node)]
pub fn kth_node(nodes: &[u64], links: usize, height: usize, n: u64, k: u64) -> Reached
    requires { NodesLent (length nodes.now) × (links ≤ 31) }
    ensures { result ≡ reach k (cells_of_node (layers_below (31 - links) nodes.now) nodes.now height n) }
{
    if height == 0 {
        return kth_leaf(nodes, links, n, k);
    }
    let many = children_of(nodes, n);
    let mut left = k;
    let mut i: usize = 0;
    // The k-th entry is the `left`-th below the children from i on.
    while i < many {
        let child = child_at(nodes, n, i);
        let reached = kth_node(nodes, links, height - 1, child, left);
        match reached {
            Reached::Here(c) => {
                return Reached::Here(c);
            }
            Reached::Beyond(more) => {
                left = more;
                i += 1;
                continue;
            }
        }
    }
    Reached::Beyond(left)
}

// How many children an internode has, and lent memory has room for.
pub fn children_of(nodes: &[u64], n: u64) -> usize
    requires { length nodes.now ≤ most_node_words }
    ensures { result ≡ length (children_at nodes.now n) }
{
    if 255 <= n {
        return 0;
    }
    let start = HEADER_WORDS + n as usize * NODE_WORDS;
    if nodes.len() <= start + CHILDREN {
        return 0;
    }
    let room = nodes.len() - (start + CHILDREN);
    let count = nodes[start + 1];
    if count < room as u64 {
        return count as usize + 1;
    }
    room
}

// Child i of an internode.
pub fn child_at(nodes: &[u64], n: u64, i: usize) -> u64
    requires { (length nodes.now ≤ most_node_words) × (node_start n + children_from + i < length nodes.now)
        × (i ≤ word_at nodes.now n 1) }
    ensures { result ≡ get_or (children_at nodes.now n) i 0 }
{
    nodes[HEADER_WORDS + n as usize * NODE_WORDS + CHILDREN + i]
}

// The k-th entry of a leaf, with the layers below its links.
#[cycle(kth_entry_kth_layer_kth_leaf_kth_node)]
pub fn kth_leaf(nodes: &[u64], links: usize, n: u64, k: u64) -> Reached
    requires { NodesLent (length nodes.now) × (links ≤ 31) }
    ensures { result ≡ reach k (cells_of_leaf (layers_below (31 - links) nodes.now) nodes.now n) }
{
    let word = word_of(nodes, n, 1);
    let size = size_of(word);
    let mut left = k;
    let mut i: usize = 0;
    // The k-th entry is the `left`-th of the entries from position i on, and of the layers below them.
    while i < size {
        let slot = slot_of(word, i);
        let e = entry_of(nodes, n, slot);
        let reached = kth_entry(nodes, links, e, left);
        match reached {
            Reached::Here(c) => {
                return Reached::Here(c);
            }
            Reached::Beyond(more) => {
                left = more;
                i += 1;
                continue;
            }
        }
    }
    Reached::Beyond(left)
}

// The k-th of what one entry of a leaf stands for: its own cell, or the entries of the layer below.
#[cycle(kth_entry_kth_layer_kth_leaf_kth_node)]
pub fn kth_entry(nodes: &[u64], links: usize, e: Entry, k: u64) -> Reached
    requires { NodesLent (length nodes.now) × (links ≤ 31) }
    ensures { result ≡ reach k (cells_at (layers_below (31 - links) nodes.now) e) }
{
    if e.class == 10 {
        if links == 31 {
            return Reached::Beyond(k);
        }
        return kth_layer(nodes, links + 1, e.at, k);
    }
    if k == 0 {
        return Reached::Here(e.at);
    }
    Reached::Beyond(k - 1)
}
