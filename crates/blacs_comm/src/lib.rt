//! Events of a round that move pieces among the ranks of a process grid: sends, broadcasts, and combines.
//!
//! A call appends events to a round. Its contract says which, and what they do to the memories that the round leads to. So
//! whoever builds a round puts the effects of the calls together, and looks at no event.
//!
//! Broadcasts and combines go over a scope of a grid, in one of three topologies, as in the BLACS (routines xGEBS2D and
//! xGSUM2D, arguments SCOPE and TOP).
#![tactic(auto)]

mod events;
mod topology;

pub use events::{broadcast, combine, send_piece, work_at, work_each};
pub use rank_run::NoMemory;
pub use topology::Topology;
