//! Links between the ranks of a machine: first in, first out, of a fixed capacity.
#![tactic(auto)]

mod links;

pub use links::{Links, NoMemory};
