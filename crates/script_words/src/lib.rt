//! The words of scripts and matrix files: lines, names, numbers, commands by their words, and the matrices that files spell.
#![tactic(auto)]

mod commands;
mod fault;
mod kinds;
mod lines;
mod matrix_file;
mod names;
mod numbers;
mod routine_lines;

pub use commands::command_of;
pub use fault::{Refused, TextFault};
pub use kinds::{CommandWord, Kind, command_word, is_word};
pub use lines::{Stop, cut, line_words, skip_one};
pub use matrix_file::parse_matrix;
pub use names::{is_name, is_text};
pub use numbers::number_of;
