// One node of lent memory changed: an internode here, words and leaves passed on. What a caller must know stands in `requires`; what
// only a tree has is not required.
ghost use Rattle.std.specs.Prelude.{◌≡◌, ◌≤◌, ◌<◌, length};
ghost use Rattle.internode.specs.Node.{child_place};
ghost use Rattle.arena.specs.Layout.{node_start, node_end};
ghost use Rattle.forest.specs.Nodes.{count_at};
ghost use Rattle.model.specs.Internodes.{internode_in, internode_put, internode_split, internode_grown, over_two};

pub use index_leaf::inside::leaf_of;
pub use index_leaf_grow::inside::grow_leaf;
pub use index_words::inside::{lowest, put_at, take_entry};
use internode::Internode;
use memory_layout::{HEADER_WORDS, NODE_WORDS};
use model::Grown;

// Internode k by value.
pub fn load(nodes: &[u64], k: usize) -> Internode
    requires { node_end k ≤ length nodes.now }
    ensures { result ≡ internode_in nodes.now k }
{
    let x = arena::inside::load_internode(nodes, k);
    let n = x.n as usize;
    let ikeys = x.ikeys;
    let children = x.children;
    Internode { n, ikeys, children }
}

// Writes an internode to node k.
pub fn store(nodes: &mut [u64], k: usize, x: Internode)
    requires { node_end k ≤ length nodes.old }
    ensures { nodes.new ≡ internode_put nodes.old k x }
{
    let n = x.n as u64;
    let ikeys = x.ikeys;
    let children = x.children;
    arena::inside::store_internode(nodes, k, arena::inside::Internode { n, ikeys, children });
}

// The place of the child after the last ikey not above this one, whatever the order of the ikeys.
pub fn place_of(x: Internode, ikey: u64) -> usize
    requires { x.n ≤ 15 }
    ensures { (result ≡ child_place x ikey) × (result ≤ x.n) }
{
    let mut j = x.n;
    // All ikeys from j on are above this one.
    while 0 < j {
        if x.ikeys[j - 1] <= ikey {
            return j;
        }
        j -= 1;
    }
    0
}

// Writes a full internode with one ikey and child more to two nodes: k, and on its right the lowest free node.
pub fn split_internode(
    nodes: &mut [u64],
    count: usize,
    k: usize,
    p: usize,
    ikey: u64,
    child: u64,
) -> Grown
    requires { (node_start count ≡ length nodes.old) × (k < count) × (count ≤ 255) × (count_at nodes.old k ≡ 15) × (p ≤ 15) }
    ensures { (nodes.new, result) ≡ internode_split nodes.old count k p ikey child }
{
    let x = load(nodes, k);
    let halves = internode::inside::split_insert(x, p, ikey, child);
    let right = lowest(nodes, count);
    let below = halves.left;
    let above = halves.right;
    store(nodes, k, below);
    store(nodes, right, above);
    Grown::Two {
        ikey: halves.up,
        node: right as u64,
    }
}

// Adds an ikey, and the child right of it, to internode k; a full one becomes two.
pub fn grow_internode(nodes: &mut [u64], count: usize, k: usize, ikey: u64, child: u64) -> Grown
    requires { (node_start count ≡ length nodes.old) × (k < count) × (count ≤ 255) }
    ensures { (nodes.new, result) ≡ internode_grown nodes.old count k ikey child }
{
    let x = load(nodes, k);
    if 15 < x.n {
        return Grown::One;
    }
    let p = place_of(x, ikey);
    if x.n < 15 {
        store(nodes, k, internode::inside::insert(x, p, ikey, child));
        return Grown::One;
    }
    split_internode(nodes, count, k, p, ikey, child)
}

// The internode over two nodes, with the ikey between them.
pub fn over_two(left: u64, ikey: u64, right: u64) -> Internode
    ensures { result ≡ over_two left ikey right }
{
    let mut ikeys = [0u64; 15];
    let mut children = [0u64; 16];
    ikeys[0] = ikey;
    children[0] = left;
    children[1] = right;
    Internode {
        n: 1,
        ikeys,
        children,
    }
}
