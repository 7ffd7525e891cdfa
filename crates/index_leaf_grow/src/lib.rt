// An entry more in a leaf of lent memory: in one node, or in two.
#![tactic(auto)]

pub mod inside;
