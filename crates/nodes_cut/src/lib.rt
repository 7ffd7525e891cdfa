// Where a full leaf is cut in two, and the slot words of a leaf that is written anew or has an entry less.
#![tactic(auto)]

pub mod inside;
