// Sorted slot words from a table of 240, for `make_sorted` and `empty`. All of it is inside: for whoever has judged the width and the size.
#![tactic(auto)]

pub mod inside;
