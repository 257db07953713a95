//! The rules of a script's lines: of their words, of the routines' arguments, and of what the lines so far count; what a script tells as
//! a whole; and the lines that the ranks can run.
#![tactic(auto)]

mod counts;
mod distributions;
mod flips;
mod routines;
mod rules;
mod runs;
mod told;

pub use counts::Counts;
pub use distributions::{Distribution, distribution_of, distribution_on};
pub use routines::is_option;
pub use rules::{is_shape, maker_command, more_code, word_code, words_code};
pub use runs::first_unrunnable;
pub use told::{Told, told_by};
