// A key's numbers at a layer, and a refused call on a key: what the crates above share. The definitions of all of them, and the
// laws by which they are proved, stand here too.
#![tactic(auto)]

pub use refusal::Refusal;

pub mod inside;

// A key's numbers at a layer.
#[derive(Clone, Copy)]
pub struct Layer {
    pub ikey: u64,
    pub shift_count: usize,
    pub suffix_start: usize,
}

// A call on a key that is refused: why, and the key's numbers as they were passed.
#[derive(Clone, Copy)]
pub struct Refused {
    pub why: Refusal,
    pub layer: Layer,
}
