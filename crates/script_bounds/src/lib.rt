//! How many records a script makes at most: of its lines, of its longest phase, and of a recovery.
#![tactic(auto)]

mod bounds;
mod flips;
mod recovery;
mod steps;

pub use bounds::{bound, phase_steps};
pub use recovery::recovery_steps;
