// A recorded call put to the library `internode`, and its answer: a number, a value, and the node that is handed back.
use internode::{Internode, inside};
use refusal::Refusal;
use std::cmp::Ordering;

// What a call said: 0 or the number of a refusal, a value, and the node that is handed back.
#[derive(Clone, Copy)]
pub struct Said {
    pub number: u64,
    pub value: u64,
    pub node: Internode,
}

// An order as the line has it: 0 less, 1 equal, 2 greater.
fn place_of(order: Ordering) -> u64 {
    match order {
        Ordering::Less => 0,
        Ordering::Equal => 1,
        Ordering::Greater => 2,
    }
}

// What a question said, and the node as it was.
fn told(answer: Result<u64, Refusal>, node: Internode) -> Said {
    match answer {
        Ok(value) => Said {
            number: 0,
            value,
            node,
        },
        Err(why) => Said {
            number: refusal::number(why),
            value: 0,
            node,
        },
    }
}

// The place for an ikey, and the node as it was.
fn find(node: Internode, ikey: u64) -> Said {
    told(
        internode::find_insert_position(node, ikey).map(|p| p as u64),
        node,
    )
}

// How an ikey stands to that at p, and the node as it was.
fn compare(node: Internode, ikey: u64, p: usize) -> Said {
    told(internode::compare_key(node, ikey, p).map(place_of), node)
}

// The child for an ikey, and the node as it was.
fn descend(node: Internode, ikey: u64) -> Said {
    told(internode::child_for(node, ikey), node)
}

// The node with an ikey and a child more, or as it was beside a refusal.
fn insert(node: Internode, p: usize, ikey: u64, child: u64) -> Said {
    match internode::insert_key_and_child(node, p, ikey, child) {
        Ok(node) => told(Ok(0), node),
        Err(refused) => told(Err(refused.why), refused.node),
    }
}

// What a call says that there is not: 16, which is no refusal, and the node as it was.
fn no_call(node: Internode) -> Said {
    Said {
        number: 16,
        value: 0,
        node,
    }
}

// One half of a split and the key that goes up. A node that is not full says 16.
fn split(node: Internode, p: usize, ikey: u64, child: u64, right: bool) -> Said {
    if node.n != 15 || 15 < p {
        return no_call(node);
    }
    let halves = inside::split_insert(node, p, ikey, child);
    let half = if right { halves.right } else { halves.left };
    told(Ok(halves.up), half)
}

// The answer to the call with this code. A code that no call has says 16.
pub(crate) fn ask(call: u64, p: usize, ikey: u64, child: u64, node: Internode) -> Said {
    match call {
        0 => find(node, ikey),
        1 => compare(node, ikey, p),
        2 => descend(node, ikey),
        3 => insert(node, p, ikey, child),
        4 => split(node, p, ikey, child, false),
        5 => split(node, p, ikey, child, true),
        _ => no_call(node),
    }
}
