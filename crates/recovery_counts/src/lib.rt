//! How many records a recovery takes: at most what the definitions allow for one, from the round of a process row to the whole. Each
//! law is the contract of a function that does nothing, in the form that a loop goes on by: what was made so far, and one thing more.
#![tactic(auto)]

pub mod lines;
pub mod losses;
pub mod strips;
pub mod times;
