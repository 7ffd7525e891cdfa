// The numbers of nodes and cells that a walk through lent memory has seen: each taken once, the rest free, and the cells counted.
#![tactic(auto)]

pub mod inside;
