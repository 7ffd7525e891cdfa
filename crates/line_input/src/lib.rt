// The lines of an input that comes in parts.
#![tactic(auto)]

pub mod inside;
