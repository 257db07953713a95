//! The plain data of a run: matrices, words, lists of numbers, scripts and whole matrix files.
#![tactic(auto)]

mod command;
mod files;
mod flips;
mod index_list;
mod matrix;
mod script;
mod word;

pub use command::Command;
pub use files::Files;
pub use flips::Flip;
pub use index_list::IndexList;
pub use matrix::{Mat, Part, column_of, put_part};
pub use script::Script;
pub use word::Word;
