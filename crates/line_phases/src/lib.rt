//! What the phases of `matrix`, `print` and `drop` lines ask holds between two lines of a run, and what holds after them. Nothing is computed here:
//! definitions stand in `specs/`, lemmas in `proofs/`.
#![tactic(auto)]
