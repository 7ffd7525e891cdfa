// An entry more below a node, where nodes enough are free. What a caller must know stands in `requires`; what only a tree has is not
// required.
ghost use Rattle.std.specs.Prelude.{◌≡◌, ◌≤◌, length};
ghost use Rattle.arena.specs.Layout.{node_start};
ghost use Rattle.model.specs.Grow.{node_grown, node_rests};

use leaf::Entry;
use model::{Grown, Landed};

// Adds an entry to the leaf for it, below a node of this height; tells whether that node became two, and how many slots rest in the leaf
// where the entry is then.
pub fn grow_node(nodes: &mut [u64], count: usize, height: usize, n: u64, e: Entry) -> Landed
    requires { (node_start count ≡ length nodes.old) × (1 ≤ count) × (count ≤ 255) }
    ensures { ((nodes.new, result.grown) ≡ node_grown nodes.old count height n e)
        × (result.resting ≡ node_rests nodes.old count height n e) }
{
    if count as u64 <= n {
        return Landed {
            grown: Grown::One,
            resting: 0,
        };
    }
    let k = n as usize;
    if height == 0 {
        return edit::inside::grow_leaf(nodes, count, k, e);
    }
    let child = seek::inside::child_for(nodes, n, e.ikey);
    let below = grow_node(nodes, count, height - 1, child, e);
    let resting = below.resting;
    let grown = below.grown;
    if let Grown::Two { ikey, node } = grown {
        let here = edit::inside::grow_internode(nodes, count, k, ikey, node);
        return Landed {
            grown: here,
            resting,
        };
    }
    Landed {
        grown: Grown::One,
        resting,
    }
}
