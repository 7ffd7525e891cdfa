// The machine that takes the stream of an image byte by byte.
#![tactic(auto)]

pub mod inside;

// The field that is being read.
#[derive(Clone, Copy)]
pub enum Stage {
    Counting,
    Measuring,
    Naming,
    Framing,
    Filling,
    Stopped,
}

// Where the machine stands.
#[derive(Clone, Copy)]
pub struct Fields {
    pub stage: Stage,
    // where the field starts, or the wrong part
    pub place: usize,
    // how many of its bytes have come, and how many it has
    pub held: usize,
    pub need: usize,
    // how many entries come behind this one, and how many zeros of the fill
    pub left: usize,
    pub zeros: usize,
    // the last key's length and one, or 0
    pub last: usize,
    // whether the last byte made an entry whole, and its frame
    pub got: bool,
    pub frame: u64,
}
