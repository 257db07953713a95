//! The round of a product for one group of C, of matrices that lie block-cyclically on one process grid.
#![tactic(auto)]

pub mod laws;
mod rounds;

pub use rounds::{GroupProduct, multiply_group, strip_slot};
