//! Losses that come so close to one another that no recovery need end between them, and that a run whose losses leave time is never cut
//! short. Each law is the contract of a function that does nothing.
#![tactic(auto)]

pub mod completing;
