// An internode for C: n, its fifteen ikeys and its sixteen children, as numbers of the caller's.
ghost use Rattle.std.specs.Prelude.{[], ◌∷◌, ◌++◌};
ghost use Rattle.internode.specs.Calls.{find_said, compare_said, child_said, insert_said};
ghost use Rattle.crossing.specs.Crossing.{Crossed};
ghost use Rattle.nodes_crossing.specs.Node.{lent_node, CrossedNode};

use nodes_crossing::{give_child, give_node, give_order, give_place, take_node};

// The first ikey not below the target, or n.
#[unsafe(no_mangle)]
pub extern "C" fn cherchivola_find_insert_position(
    n: usize,
    ikeys: &[u64; 15],
    children: &[u64; 16],
    target: u64,
    position: &mut usize,
) -> u64
    ensures { Crossed
        (find_said (lent_node n ikeys.now children.now) target) result
        (position.old ∷ []) (position.new ∷ []) }
{
    let node = take_node(n, ikeys, children);
    give_place(internode::find_insert_position(node, target), position)
}

// How the target stands to ikey p.
#[unsafe(no_mangle)]
pub extern "C" fn cherchivola_compare_key(
    n: usize,
    ikeys: &[u64; 15],
    children: &[u64; 16],
    target: u64,
    p: usize,
    order: &mut u64,
) -> u64
    ensures { Crossed
        (compare_said (lent_node n ikeys.now children.now) target p) result
        (order.old ∷ []) (order.new ∷ []) }
{
    let node = take_node(n, ikeys, children);
    give_order(internode::compare_key(node, target, p), order)
}

// The child after the last ikey not above the target.
#[unsafe(no_mangle)]
pub extern "C" fn cherchivola_child_for(
    n: usize,
    ikeys: &[u64; 15],
    children: &[u64; 16],
    target: u64,
    child: &mut u64,
) -> u64
    ensures { Crossed
        (child_said (lent_node n ikeys.now children.now) target) result
        (child.old ∷ []) (child.new ∷ []) }
{
    let node = take_node(n, ikeys, children);
    give_child(internode::child_for(node, target), child)
}

// Key p and child p+1 are written, and the later ones move up.
#[unsafe(no_mangle)]
pub extern "C" fn cherchivola_insert_key_and_child(
    n: &mut usize,
    ikeys: &mut [u64; 15],
    children: &mut [u64; 16],
    p: usize,
    ikey: u64,
    child: u64,
) -> u64
    ensures { CrossedNode
        (insert_said (lent_node n.old ikeys.old children.old) p ikey child) result
        (n.new ∷ (ikeys.new ++ children.new)) }
{
    let node = take_node(*n, ikeys, children);
    give_node(
        internode::insert_key_and_child(node, p, ikey, child),
        n,
        ikeys,
        children,
    )
}
