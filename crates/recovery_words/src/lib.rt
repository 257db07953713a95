//! In every state of a recovery each rank holds at most the words that it may: beside what it held at the last commit
//! it has room for a strip. Each law is the contract of a function that does nothing.
#![tactic(auto)]

pub mod rounds;
pub mod states;
