// The lines that are printed, on slices that the caller lends.
#![tactic(auto)]

pub mod inside;
