// What the program `card` prints of an image that it reads, and of one that it saves, on slices that the caller lends.
#![tactic(auto)]

pub mod inside;
