//! Scripts and matrix files as text, and the texts of printed values.
#![tactic(auto)]

mod checking;
mod reading;

pub use checking::check;
pub use printed_text::{info_text, matrix_text, pivots_text};
pub use reading::parse_script;
pub use script_bounds::{bound, phase_steps, recovery_steps};
pub use script_rules::first_unrunnable;
pub use script_words::{Refused, TextFault, parse_matrix};
