//! A recovery on the world: what lost ranks held at the last commit is made anew, however often ranks are lost meanwhile.
//!
//! A recovery is a restore, a spawn for each lost rank by rising number, and then for each grid by its number the rounds of its live
//! matrices by line, process row and group, and those of its live lists by line; and at the end the healed commit. A loss that falls on the way
//! begins it again.
#![tactic(auto)]

mod grids;
mod healing;
mod lists;
mod rows;
mod spawns;

pub use healing::{Drove, heal};
