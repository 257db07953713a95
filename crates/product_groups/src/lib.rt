//! What holds between two groups of the matrix that a line multiplies into: before the first group, from each to the next, after the last, and where
//! the run is cut short. Nothing is computed here: definitions stand in `specs/`, lemmas in `proofs/`.
#![tactic(auto)]
