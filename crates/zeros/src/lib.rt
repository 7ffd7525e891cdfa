// Whether a part of lent words or bytes holds nothing but zeros.
#![tactic(auto)]

pub mod inside;
