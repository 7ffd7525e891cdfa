// The ikeys between which a node lies on the way down, and whether an ikey lies there.
#![tactic(auto)]

pub mod inside;
