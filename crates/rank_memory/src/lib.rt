//! The memory of one rank: the slots that it holds, and the kernels that change them.
#![tactic(auto)]

mod applied;
mod changed;
mod kernels;
mod made;
mod mem;
mod pieces;
mod reads;
mod rows;
mod search;
mod words;

pub use mem::RankMem;
pub use rank_machine::{Cut, Kernel, Piece, Slot, SlotKind, Tile};
pub use rank_slots::{Cell, Cells};
pub use run_data::{IndexList, Mat, Part};
pub use script_lines::{Layout, Line};
