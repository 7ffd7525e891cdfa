// A leaf of lent memory read: where an entry belongs, and the entries with one more; and a leaf made of entries.
#![tactic(auto)]

pub mod inside;
