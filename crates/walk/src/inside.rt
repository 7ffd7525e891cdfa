// The walk: layer walk calls node walk, which calls layer walk at a link. For the audit, which has judged the lent lengths. What a
// caller must know stands in `requires`.
ghost use Rattle.std.specs.Prelude.{◌≡◌, ◌+◌, ◌-◌, ◌≤◌, ◌<◌, length, take};
ghost use Rattle.arena.specs.Layout.{node_end};
ghost use Rattle.arena.specs.Memory.{memory};
ghost use Rattle.forest.specs.Trees.{seen_as};
ghost use Rattle.forest.specs.Walk.{walk_leaf, walk_internode, walk_node, walk_layer};
ghost use Rattle.edge.specs.Edges.{left_of, right_of};
ghost use Rattle.walk.specs.Steps.{edge_at, told, refs_at, cell_of, Lent, LentCells};

use audit_seen::inside::see_number;
use leaf::Entry;
use memory_layout::{CELL_WORDS, CHILDREN, HEADER_WORDS, IKEYS, NODE_WORDS};

// Walks one layer from its root on; false at the first thing that is against the rules. `above` has the ikeys of the links taken so far
// at its front: a walk writes those of its own links behind them, and leaves the front as it was.
#[cycle(walk_entry_walk_internode_walk_layer_walk_leaf_walk_node)]
pub fn walk_layer(
    nodes: &[u64],
    cells: &[u64],
    bytes: &[u8],
    seen: &mut [u8],
    above: &mut [u64],
    links: usize,
    root: u64,
) -> bool
    requires { Lent nodes.now cells.now bytes.now seen.old above.old links }
    ensures seen_after { told result seen.new
        ≡ walk_layer (31 - links) (memory nodes.now cells.now bytes.now)
        (take links above.old) root seen.old }
    ensures above_unchanged { take links above.new ≡ take links above.old }
{
    let h = shape::inside::height(nodes, nodes.len() / NODE_WORDS, root);
    walk_node(nodes, cells, bytes, seen, above, links, h, None, None, root)
}

// Walks one node of this height, between two edges: takes its number, and goes on as a leaf or an internode.
#[cycle(walk_entry_walk_internode_walk_layer_walk_leaf_walk_node)]
fn walk_node(
    nodes: &[u64],
    cells: &[u64],
    bytes: &[u8],
    seen: &mut [u8],
    above: &mut [u64],
    links: usize,
    h: usize,
    low: Option<u64>,
    high: Option<u64>,
    n: u64,
) -> bool
    requires { Lent nodes.now cells.now bytes.now seen.old above.old links }
    ensures seen_after { told result seen.new
        ≡ walk_node (refs_at (memory nodes.now cells.now bytes.now) above.old links)
        nodes.now h (left_of low) (right_of high) n seen.old }
    ensures above_unchanged { take links above.new ≡ take links above.old }
{
    if (nodes.len() / NODE_WORDS) as u64 <= n {
        return false;
    }
    let k = n as usize;
    if !see_number(seen, 2 * k) {
        return false;
    }
    if h == 0 {
        return walk_leaf(nodes, cells, bytes, seen, above, links, low, high, k);
    }
    walk_internode(nodes, cells, bytes, seen, above, links, h - 1, low, high, k)
}

// Walks one leaf: judges it, then its entries in order.
#[cycle(walk_entry_walk_internode_walk_layer_walk_leaf_walk_node)]
fn walk_leaf(
    nodes: &[u64],
    cells: &[u64],
    bytes: &[u8],
    seen: &mut [u8],
    above: &mut [u64],
    links: usize,
    low: Option<u64>,
    high: Option<u64>,
    k: usize,
) -> bool
    requires lent { Lent nodes.now cells.now bytes.now seen.old above.old links }
    requires k_in_bounds { node_end k ≤ length nodes.now }
    ensures seen_after { told result seen.new
        ≡ walk_leaf (refs_at (memory nodes.now cells.now bytes.now) above.old links)
        nodes.now (left_of low) (right_of high) k seen.old }
    ensures above_unchanged { take links above.new ≡ take links above.old }
{
    if !shape::inside::leaf_right(nodes, k) {
        return false;
    }
    let word = nodes[HEADER_WORDS + k * NODE_WORDS + 1];
    let size = leaf::inside::size_of(word);
    // The entries before position i lie between the edges and are walked.
    for i in 0..size {
        let slot = leaf::inside::slot_at(word, i);
        let e = shape::inside::entry_at(nodes, k, slot);
        if !edge::inside::is_within(low, high, e.ikey) {
            return false;
        }
        if !walk_entry(nodes, cells, bytes, seen, above, links, e) {
            return false;
        }
    }
    true
}

// Walks what an entry stands for: its cell, or the layer below at a link.
#[cycle(walk_entry_walk_internode_walk_layer_walk_leaf_walk_node)]
fn walk_entry(
    nodes: &[u64],
    cells: &[u64],
    bytes: &[u8],
    seen: &mut [u8],
    above: &mut [u64],
    links: usize,
    e: Entry,
) -> bool
    requires { Lent nodes.now cells.now bytes.now seen.old above.old links }
    ensures seen_after { told result seen.new
        ≡ refs_at (memory nodes.now cells.now bytes.now) above.old links (seen_as e).0
        (seen_as e).1 seen.old }
    ensures above_unchanged { take links above.new ≡ take links above.old }
{
    if e.class != 10 {
        return walk_cell(cells, bytes, seen, above, links, e);
    }
    if links == 31 {
        return false;
    }
    arena::inside::put1(above, links, e.ikey);
    walk_layer(nodes, cells, bytes, seen, above, links + 1, e.at)
}

// Whether an entry's cell is there and rightly filed; takes its number.
fn walk_cell(
    cells: &[u64],
    bytes: &[u8],
    seen: &mut [u8],
    above: &[u64],
    links: usize,
    e: Entry,
) -> bool
    requires { LentCells cells.now bytes.now seen.old above.now links }
    ensures { told result seen.new
        ≡ cell_of cells.now bytes.now (take links above.now) e seen.old }
{
    if (cells.len() / CELL_WORDS) as u64 <= e.at {
        return false;
    }
    let c = e.at as usize;
    if !shape::inside::is_filed(cells, bytes, above, links, e.ikey, e.class, c) {
        return false;
    }
    see_number(seen, 2 * c + 1)
}

// Walks one internode: judges it, then its children in order, each between its own edges.
#[cycle(walk_entry_walk_internode_walk_layer_walk_leaf_walk_node)]
fn walk_internode(
    nodes: &[u64],
    cells: &[u64],
    bytes: &[u8],
    seen: &mut [u8],
    above: &mut [u64],
    links: usize,
    h: usize,
    low: Option<u64>,
    high: Option<u64>,
    k: usize,
) -> bool
    requires lent { Lent nodes.now cells.now bytes.now seen.old above.old links }
    requires k_in_bounds { node_end k ≤ length nodes.now }
    ensures seen_after { told result seen.new
        ≡ walk_internode (walk_node (refs_at (memory nodes.now cells.now bytes.now)
        above.old links) nodes.now h) nodes.now (left_of low) (right_of high) k
        seen.old }
    ensures above_unchanged { take links above.new ≡ take links above.old }
{
    if !shape::inside::internode_right(nodes, k) {
        return false;
    }
    let at = HEADER_WORDS + k * NODE_WORDS;
    let n = nodes[at + 1] as usize;
    let mut left = low;
    // The first i children are walked, and `left` is the edge between them and the next. Up to n + 1, and not `..=n`: that one ends in
    // its last turn, so its proof would say the last child's turn twice.
    for i in 0..n + 1 {
        let right = right_edge(nodes, at + IKEYS + i, i < n, high);
        if !edge::inside::is_between(left, right) {
            return false;
        }
        let c = nodes[at + CHILDREN + i];
        if !walk_node(nodes, cells, bytes, seen, above, links, h, left, right, c) {
            return false;
        }
        left = right;
    }
    true
}

// The edge to the right of a child: the ikey that stands there, or the node's own behind the last.
fn right_edge(nodes: &[u64], at: usize, inner: bool, high: Option<u64>) -> Option<u64>
    requires { at < length nodes.now }
    ensures { result ≡ edge_at nodes.now at inner high }
{
    if inner { Some(nodes[at]) } else { high }
}
