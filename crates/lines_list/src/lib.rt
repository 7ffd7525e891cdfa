// The listing of an index, printed to lent bytes.
#![tactic(auto)]

pub mod inside;
