// Words of nodes in lent memory, read whatever stands there.
#![tactic(auto)]

pub mod inside;
