//! What holds between two lines of a run gives what the phase of the next line asks, and holds again after it.
#![tactic(auto)]
