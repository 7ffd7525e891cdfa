// A word or an entry of one node of lent memory changed.
#![tactic(auto)]

pub mod inside;
