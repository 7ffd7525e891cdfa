// Empty layers given back: the node of a layer below the first that is one empty leaf becomes free, and the link to it goes.
#![tactic(auto)]

pub mod inside;
