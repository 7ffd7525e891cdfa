// One leaf or one internode of lent memory with an entry or a child more or less.
#![tactic(auto)]

pub mod inside;
