//! Dense kernels on parts of one matrix, modulo a prime: products, triangular solves, elimination
//! of a column and exchange of rows.
//!
//! They are what BLAS and LAPACK have for one process, over a prime field. Each works in place and
//! takes no memory, leaves all words outside its part as they were, and asks for operands whose
//! words are below the modulus and whose shapes agree.
#![tactic(auto)]

mod cuts;
mod product;
mod rows;
mod scaling;
mod solve;
mod words;

pub use product::mul_add;
pub use rows::{eliminate, first_nonzero, swap_rows};
pub use run_data::{Mat, Part, put_part};
pub use scaling::{add_scaled, scale};
pub use solve::{solve_lower, solve_upper};
