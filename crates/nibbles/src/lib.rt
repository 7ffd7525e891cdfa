// A slot word by its nibbles: a bank of up to fifteen slots in one u64, by shifts and masks, and whether it is valid. All of it is
// inside: for the calls of crate permuter, and for whoever has judged the word.
#![tactic(auto)]

pub mod inside;
