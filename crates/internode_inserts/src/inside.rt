// An ikey and a child more, in one node, or in two where the node is full. For callers who have judged the node: what they must
// know stands in `requires`.
ghost use Rattle.std.specs.Prelude.{◌≡◌, ◌+◌, ◌≤◌, ◌<◌, take, drop};
ghost use Rattle.internode_inserts.specs.Insert.{inserted};
ghost use Rattle.internode_inserts.specs.Split.{shifted, node_of, split_of};

use crate::Split;
use internode_places::Internode;

// Writes ikey p and child p+1, after all later ones have moved up by one.
pub fn insert(mut node: Internode, p: usize, ikey: u64, child: u64) -> Internode
    requires { (node.n < 15) × (p ≤ node.n) }
    ensures { result ≡ inserted node p ikey child }
{
    let n = node.n;
    node.ikeys.copy_within(p..n, p + 1);
    node.children.copy_within(p + 1..n + 1, p + 2);
    node.ikeys[p] = ikey;
    node.children[p + 1] = child;
    node.n = n + 1;
    node
}

// Copies so many ikeys, and the children right of them, from place `at` of one node to place p of another.
pub fn shift_from(
    mut node: Internode,
    p: usize,
    src: Internode,
    at: usize,
    count: usize,
) -> Internode
    requires { (p + count ≤ 15) × (at + count ≤ 15) }
    ensures { result ≡ shifted node p src at count }
{
    node.ikeys[p..p + count].copy_from_slice(&src.ikeys[at..at + count]);
    node.children[p + 1..p + 1 + count].copy_from_slice(&src.children[at + 1..at + 1 + count]);
    node
}

// So many ikeys of a node from a place on, and the children beside them.
pub fn part(node: Internode, from: usize, count: usize) -> Internode
    requires { from + count ≤ 15 }
    ensures { (result.n ≡ count) × (result ≡ node_of (take count (drop from node.ikeys))
        (take (count + 1) (drop from node.children))) }
{
    let first = node.children[from];
    let mut children = [0u64; 16];
    children[0] = first;
    let empty = Internode {
        n: count,
        ikeys: [0u64; 15],
        children,
    };
    shift_from(empty, 0, node, from, count)
}

// A full node with one key more: 8 keys left, the ninth goes up, 7 right.
pub fn split_insert(node: Internode, p: usize, ikey: u64, child: u64) -> Split
    requires { (node.n ≡ 15) × (p ≤ 15) }
    ensures { result ≡ split_of node p ikey child }
{
    if p < 8 {
        let few = part(node, 0, 7);
        let left = insert(few, p, ikey, child);
        let right = part(node, 8, 7);
        let up = node.ikeys[7];
        return Split { left, up, right };
    }
    let left = part(node, 0, 8);
    if p < 9 {
        let mut right = part(node, 8, 7);
        right.children[0] = child;
        return Split {
            left,
            up: ikey,
            right,
        };
    }
    let few = part(node, 9, 6);
    let right = insert(few, p - 9, ikey, child);
    let up = node.ikeys[8];
    Split { left, up, right }
}
