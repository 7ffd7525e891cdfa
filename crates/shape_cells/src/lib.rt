// The rules of the tree that one cell of lent memory can be judged by alone, and the key in it by the links above.
#![tactic(auto)]

pub mod inside;
