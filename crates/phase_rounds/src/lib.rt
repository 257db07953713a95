//! Rounds of phases: what the events of a round do to the words that the strips of matrices hold.
//!
//! The calculus of rounds (`round_laws`) says what events make of the tiles of ranks, the laws of
//! phases (`phase_laws`, `elimination`) what kernels and messages make of words. Here the two meet,
//! once for each of the rounds that phases are made of. Each law is the contract of a function
//! that does nothing; a phase cites the lemma beside it.
#![tactic(auto)]

pub mod rounds;
pub mod turns;
