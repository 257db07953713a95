//! The run of a script on the ranks, line by line and over losses: each line that makes records is a phase that is driven from the
//! commit before it to its own. A `matrix` line feeds its file, a `print` line takes the strips of a matrix and makes its text of them,
//! a `drop` line is a commit alone.
#![tactic(auto)]

mod lines;
mod opening;
mod printing;
mod running;

pub use loss_recovery::Drove;
pub use running::{Ran, run};
