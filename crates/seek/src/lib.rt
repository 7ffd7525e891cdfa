// Ways through lent memory that is a tree: to a key, and to the k-th entry.
#![tactic(auto)]

pub mod inside;
