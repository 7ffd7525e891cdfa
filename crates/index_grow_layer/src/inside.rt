// An entry more in a layer, where nodes enough are free. What a caller must know stands in `requires`; what only a tree has is not
// required.
ghost use Rattle.std.specs.Prelude.{◌≡◌, ◌≤◌, length};
ghost use Rattle.arena.specs.Layout.{node_start};
ghost use Rattle.model.specs.Grow.{layer_grown, layer_rests};

use leaf::Entry;
use model::Grown;

// Adds an entry to the layer whose root's number stands in the word `holder`; where the root becomes two, a new one goes above them.
// Tells how many slots rest in the leaf where the entry is then.
pub fn grow_layer(nodes: &mut [u64], count: usize, holder: usize, root: u64, e: Entry) -> usize
    requires { (node_start count ≡ length nodes.old) × (1 ≤ count) × (count ≤ 255) }
    ensures { (nodes.new ≡ layer_grown nodes.old count holder root e)
        × (result ≡ layer_rests nodes.old count root e) }
{
    let height = shape::inside::height(nodes, count, root);
    let landed = index_grow_node::inside::grow_node(nodes, count, height, root, e);
    let resting = landed.resting;
    let grown = landed.grown;
    let Grown::Two { ikey, node } = grown else {
        return resting;
    };
    let top = edit::inside::lowest(nodes, count);
    edit::inside::store(nodes, top, edit::inside::over_two(root, ikey, node));
    edit::inside::put_at(nodes, holder, top as u64);
    resting
}
