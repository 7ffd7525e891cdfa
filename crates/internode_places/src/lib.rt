// An internode by value: n ikeys in strictly rising order and one child more. Whether one is good, and where an ikey belongs in it.
#![tactic(auto)]

pub mod inside;

// The first n ikeys and the first n + 1 children are in use. The arrays stay: memory is fixed, and C lends the same arrays.
#[derive(Clone, Copy)]
pub struct Internode {
    pub n: usize,
    pub ikeys: [u64; 15],
    pub children: [u64; 16],
}
