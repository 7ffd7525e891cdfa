// The walk through lent memory from a root down: each node and cell on the way judged, and its number taken once.
#![tactic(auto)]

pub mod inside;
