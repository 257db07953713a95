//! What the rules of a script give to the laws of its runs. Each law is the contract of a function that does nothing.
#![tactic(auto)]

pub mod fields;
pub mod sensible;
