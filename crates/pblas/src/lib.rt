//! PBLAS on the ranks: products of matrices that lie block-cyclically on one process grid, over losses.
#![tactic(auto)]

mod products;

pub use products::pgemm;
