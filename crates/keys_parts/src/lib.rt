// The parts of the bytes that a key stands on.
#![tactic(auto)]

pub mod inside;
