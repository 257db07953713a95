//! The definitions of the serial run: what each command makes of whole matrices, and the text that is printed. They stand in
//! `specs/` alone, where the crates above cite them.
#![tactic(auto)]

pub use run_data::{Files, Script};
