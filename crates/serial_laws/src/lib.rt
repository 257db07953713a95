//! An accepted script with the files of its matrix lines can be run serially. The definitions stand in `specs/`, the laws in `proofs/`.
#![tactic(auto)]
