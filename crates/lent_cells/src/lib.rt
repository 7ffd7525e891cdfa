// Lent cells: the judgement of their lengths and of a cell, and a stored suffix against a key's own.
#![tactic(auto)]

pub mod inside;
