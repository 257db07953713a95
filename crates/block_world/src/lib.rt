//! The world: what the ranks of the rank machine hold, kept at every return as the replay of a legal journal.
#![tactic(auto)]

mod keeper;
mod ranks;
mod world;

pub use rank_machine::{Cut, Kernel, Loss, Mark, Piece, Rec, Slot, SlotKind, Tile};
pub use rank_memory::RankMem;
pub use rank_run::{Event, Order, Ran, Round};
pub use run_data::{Command, Files, IndexList, Mat, Part, Script, Word};
pub use world::{Did, Taken, World};
