// A block of an image: 504 bytes of the stream, and their check in the last eight.
#![tactic(auto)]

pub mod inside;

// The sum of a block's words, and the sum of those sums.
#[derive(Clone, Copy)]
pub struct Sums {
    pub a: u32,
    pub b: u32,
}
