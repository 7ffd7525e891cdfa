// Whether a node is good, and where an ikey belongs in it. For callers who know their node: what they must know stands in
// `requires`.
ghost use Rattle.std.specs.Prelude.{◌≡◌, true, ◌≤◌};
ghost use Rattle.internode_places.specs.Lists.{rising, inserted_at};
ghost use Rattle.internode_places.specs.Node.{keys_of, good, insert_position, child_place};

use crate::Internode;

// Whether n is at most 15 and the n ikeys strictly rise; refusal 3 where not.
pub fn is_good(node: Internode) -> bool
    ensures { result ≡ good node }
{
    let n = node.n;
    let few = n <= 15;
    few && node.ikeys[..n].is_sorted_by(|before, k| *before < *k)
}

// The place of the first ikey not below the target, or n.
pub fn insert_position(node: Internode, target: u64) -> usize
    requires { node.n ≤ 15 }
    ensures { result ≡ insert_position node target }
{
    let n = node.n;
    let keys = &node.ikeys[..n];
    keys.iter().position(|k| target <= *k).unwrap_or(n)
}

// The place of the child after the last ikey not above the target: that of the first ikey above it, since they rise.
pub fn child_place(node: Internode, target: u64) -> usize
    requires { good node ≡ true }
    ensures { (result ≡ child_place node target) × (result ≤ node.n) × (result ≤ 15) }
{
    let n = node.n;
    let keys = &node.ikeys[..n];
    keys.iter().position(|k| target < *k).unwrap_or(n)
}

// Whether the order stays strict with the ikey at p; refusal 9 where not.
pub fn keeps_order(node: Internode, p: usize, ikey: u64) -> bool
    requires { (good node ≡ true) × (p ≤ node.n) }
    ensures { result ≡ rising (inserted_at p ikey (keys_of node)) }
{
    if p < node.n && node.ikeys[p] <= ikey {
        return false;
    }
    p == 0 || node.ikeys[p - 1] < ikey
}
