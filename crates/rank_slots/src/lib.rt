//! The slots of a rank: what they hold, what was saved of them and which are fresh; what a step of a round does to them; and how
//! the memories of all ranks stand for a state of the rank machine.
#![tactic(auto)]

mod cells;

pub use cells::{Cell, Cells, clear, find_cell, find_tile, keep, put, save, take_out, undo, words};
pub use rank_machine::{Cut, Kernel, Mark, Piece, Slot, SlotKind, Tile};
pub use run_data::{IndexList, Mat, Part};
pub use script_lines::{Layout, Line};
