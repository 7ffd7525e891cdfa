// One line in, its answer out: read, carried out on lent memory, and printed to lent bytes.
#![tactic(auto)]

pub mod inside;
