//! What the lines of a script ask of the ranks: its grids, where each matrix lies, which lines factor and drop what, and which
//! slots are live under a mark.
#![tactic(auto)]

mod layouts;
mod lines;
mod live;

pub use layouts::{grids_of, layout_in};
pub use lines::{Line, lines_of};
pub use live::{
    Groups, factoring, find, is_live, is_live_beside, is_live_list, is_live_matrix, layout_at,
    live_groups,
};
pub use rank_machine::Layout;
