// The rules of the tree that one leaf of lent memory can be judged by alone.
#![tactic(auto)]

pub mod inside;
