// Wide banks made from wide banks: positions moved and exchanged, and the sorted bank. All of it is inside: for the calls of crate
// wide_bank, and for whoever has judged the bank.
#![tactic(auto)]

pub mod inside;
