// A wide bank by its bytes: a bank of 16 to 24 slots in 25 bytes, and whether it is valid. All of it is inside: for the calls of crate
// wide_bank, and for whoever has judged the bank.
#![tactic(auto)]

pub mod inside;
