// All cells in key order, listed by one walk.
#![tactic(auto)]

pub mod inside;
