//! The rank machine: its records, as plain data that code and definitions share. What each record does and when it is legal
//! stands in `specs/`; docs/MACHINE.md says the same in words.
#![tactic(auto)]

mod kernel;
mod layout;
mod mark;
mod record;
mod slot;

pub use kernel::{Cut, Kernel};
pub use layout::Layout;
pub use mark::Mark;
pub use record::{Loss, Rec};
pub use run_data::Part;
pub use slot::{Piece, Slot, SlotKind, Tile};
