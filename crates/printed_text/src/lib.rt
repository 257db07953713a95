//! The texts of printed values: matrices, lists of pivots, INFO, and numbers of wrong words.
#![tactic(auto)]

mod values;

pub use values::{info_text, matrix_text, pivots_text, wrong_text};
