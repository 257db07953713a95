//! Sums of products of words by lanes: sixteen sums at a time in `u64` lanes, reduced once at the end.
//!
//! Words are numbers up to 65,536 and a modulus is from 1 to 65,537, so that a product is at most `2 ^ 32` and many of them fit a
//! lane. What is left of a slice behind its last sixteen words is done by a plain loop, to the same words.
#![tactic(auto)]

mod lanes;
mod plain;
mod products;

pub use plain::{axpy, dot, scale};
pub use products::add_products;
