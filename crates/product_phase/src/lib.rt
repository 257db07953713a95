//! `ProductPhase`, a group of C in `C := BETA * C + ALPHA * A * B`.
#![tactic(auto)]

mod multiplying;

pub use multiplying::ProductPhase;
