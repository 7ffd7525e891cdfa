// An answer of an internode taken apart for C: its number to return, its values into the lent numbers.
#![tactic(auto)]

ghost use Rattle.std.specs.Prelude.{◌≡◌, [], ◌∷◌, ◌++◌};
ghost use Rattle.internode.specs.Node.{numbers};
ghost use Rattle.internode.specs.Answers.{said_place, said_child, said_compared, said_inserted};
ghost use Rattle.crossing.specs.Crossing.{Crossed};
ghost use Rattle.nodes_crossing.specs.Node.{lent_node, CrossedNode};

use internode::{Internode, Refused};
use keys_crossing::order_number;
use refusal::Refusal;
use std::cmp::Ordering;

// The internode of these numbers.
pub fn take_node(n: usize, ikeys: &[u64; 15], children: &[u64; 16]) -> Internode
    ensures { result ≡ lent_node n ikeys.now children.now }
{
    let lent_ikeys = *ikeys;
    let lent_children = *children;
    Internode {
        n,
        ikeys: lent_ikeys,
        children: lent_children,
    }
}

// Writes a place and returns 0; refused, writes nothing and returns the number.
pub fn give_place(answer: Result<usize, Refusal>, position: &mut usize) -> u64
    ensures { Crossed (said_place answer) result (position.old ∷ []) (position.new ∷ []) }
{
    match answer {
        Ok(p) => {
            *position = p;
            0
        }
        Err(why) => refusal::number(why),
    }
}

// Writes the number of a child and returns 0; refused, writes nothing and returns the number.
pub fn give_child(answer: Result<u64, Refusal>, child: &mut u64) -> u64
    ensures { Crossed (said_child answer) result (child.old ∷ []) (child.new ∷ []) }
{
    match answer {
        Ok(number) => {
            *child = number;
            0
        }
        Err(why) => refusal::number(why),
    }
}

// Writes how an ikey stands to another and returns 0; refused, writes nothing and returns the number.
pub fn give_order(answer: Result<Ordering, Refusal>, order: &mut u64) -> u64
    ensures { Crossed (said_compared answer) result (order.old ∷ []) (order.new ∷ []) }
{
    match answer {
        Ok(is) => {
            *order = order_number(is);
            0
        }
        Err(why) => refusal::number(why),
    }
}

// Writes all that a node holds.
fn write_node(node: Internode, n: &mut usize, ikeys: &mut [u64; 15], children: &mut [u64; 16])
    ensures { n.new ∷ (ikeys.new ++ children.new) ≡ numbers node }
{
    let new_ikeys = node.ikeys;
    let new_children = node.children;
    *n = node.n;
    *ikeys = new_ikeys;
    *children = new_children;
}

// Writes the node that comes back, which a refused insertion has left as it was, and returns 0 or the number of the refusal.
pub fn give_node(
    answer: Result<Internode, Refused>,
    n: &mut usize,
    ikeys: &mut [u64; 15],
    children: &mut [u64; 16],
) -> u64
    ensures { CrossedNode (said_inserted answer) result
        (n.new ∷ (ikeys.new ++ children.new)) }
{
    match answer {
        Ok(node) => {
            write_node(node, n, ikeys, children);
            0
        }
        Err(refused) => {
            write_node(refused.node, n, ikeys, children);
            refusal::number(refused.why)
        }
    }
}
