//! The laws of elimination: what its panels do to whole matrices, to the strips of process rows,
//! and to the weighted sums of columns that code columns hold.
//!
//! Each law is the contract of a function that does nothing. Words are functions of row and
//! column, both counted from 0; a column is a function of the row; `p` is the modulus, and
//! `inverse` gives each word its inverse. `serial_model` defines the elimination by columns that
//! they speak of. A panel is the `width` columns from `first` on, of which the first `n` are
//! eliminated: fewer than its width where the matrix has fewer rows than columns.
#![tactic(auto)]

pub mod by_panels;
pub mod code;
mod columns;
pub mod panel;
pub mod solve;
pub mod strip;
pub mod whole;
