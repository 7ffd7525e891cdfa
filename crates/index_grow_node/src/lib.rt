// An entry more below a node of lent memory.
#![tactic(auto)]

pub mod inside;
