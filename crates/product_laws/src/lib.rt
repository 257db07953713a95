//! What the phase of a group of a product asks and does, in `specs/`, and the laws by which it is a phase, in `proofs/`.
#![tactic(auto)]
