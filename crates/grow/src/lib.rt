// Changes of lent memory that is a tree, with room enough: an entry more, an entry less, a conflict turned into layers.
#![tactic(auto)]

pub mod inside;
