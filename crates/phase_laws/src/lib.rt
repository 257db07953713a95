//! What the records of the machine say of words: each law here takes what a kernel, a message or
//! the code law of `rank_machine` says of slots, and gives what a law of `elimination` asks for.
//!
//! A matrix lies on a grid by its layout. The ranks of one process column hold in a slot the
//! strips of a block column; a column of these strips is a function of the global row. Each law
//! is the contract of a function that does nothing.
#![tactic(auto)]

pub mod code_law;
pub mod kernels;
pub mod search;
