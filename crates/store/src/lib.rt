// A new key at the place that it has met: whether there is room for it, and lent memory with it.
#![tactic(auto)]

pub mod inside;
