//! The code of the rounds of a recovery.
#![tactic(auto)]

mod copies;
mod mending;
mod places;

pub use copies::{copies_reach_all_lost, copy_row, some_rank_is_kept};
pub use mending::{Place, mend_row, rebuild_code};
pub use places::place_of;
