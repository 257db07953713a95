//! Phases: what happens between two commits of a run.
//!
//! A phase says which slots it saves, what is to be done one after another, and under which mark it commits. It can be begun again from the
//! last commit as often as ranks are lost.
#![tactic(auto)]

mod phase;

pub use phase::{Next, Phase};
