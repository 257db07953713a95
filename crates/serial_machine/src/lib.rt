//! The serial machine: the commands of a script one after another, on whole matrices.
//!
//! Every command is computed at once by the kernels, on a matrix that its name stands for. There is no grid, no block and no
//! message. `serial_model` says what the run is.
#![tactic(auto)]

mod factors;
mod inverses;
mod options;
mod product;
mod run;
mod sides;
mod solves;
mod texts;
mod turned_factors;
mod values;
mod windows;
mod wrong;

pub use inverses::{inverse, invert_with_factors};
pub use run::serial;
pub use sides::{add_transpose, solve_from_side};
pub use solves::Triangle;
pub use turned_factors::solve_with_transpose;
