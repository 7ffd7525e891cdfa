// Every line of an input answered, in whatever parts the input comes, and each answer written.
#![tactic(auto)]

pub mod inside;
