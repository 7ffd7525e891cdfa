// The rules of the tree that one node or one cell of lent memory can be judged by alone: internodes and free nodes here; leaves, cells
// and zeros from the crates below.
#![tactic(auto)]

pub mod inside;
