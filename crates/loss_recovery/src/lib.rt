//! Phases, and how one is driven over losses.
//!
//! A phase is what happens between two commits. It says which slots it saves, what is to be done one after another, and under which mark
//! it commits. `drive` carries a phase out; where a rank is lost it has the machine healed and begins the phase again.
#![tactic(auto)]

mod driving;

pub use driving::{Carried, drive};
pub use world_heal::{Drove, heal};
