// One more ikey and child in an internode: in the node itself, or in two halves and the key between them.
#![tactic(auto)]

use internode_places::Internode;

pub mod inside;

// The two halves of a full node with one key more, and the key between them.
#[derive(Clone, Copy)]
pub struct Split {
    pub left: Internode,
    pub up: u64,
    pub right: Internode,
}
