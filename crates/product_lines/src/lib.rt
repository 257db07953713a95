//! What an accepted script gives a `pgemm` line on the ranks: its job, the three matrices that its names mean, and where they lie; and that the phase of a group of its
//! product may be driven. Nothing is computed here: definitions stand in `specs/`, lemmas in `proofs/`.
#![tactic(auto)]
