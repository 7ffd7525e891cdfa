// The entries of a leaf, in the order of its slot word: how they compare, and whether they are good.
#![tactic(auto)]

pub mod inside;

// An entry of a leaf. Classes 0 to 8 are a length, 9 is longer and stored whole, and `at` is a cell; 10 is longer too, and `at` is
// the root of the layer below. The class stays a number: lent memory, which C gives, holds it as one, and may hold any.
#[derive(Clone, Copy)]
pub struct Entry {
    pub ikey: u64,
    pub class: u64,
    pub at: u64,
}
