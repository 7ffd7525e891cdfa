// Nodes and cells of lent memory by value, as docs/LAYOUT.md has them, and their free numbers. All of it is inside: for the
// calls of crate arena and those above, and for whoever has judged the lent lengths.
#![tactic(auto)]

pub mod inside;
