// An entry more in a layer of lent memory.
#![tactic(auto)]

pub mod inside;
