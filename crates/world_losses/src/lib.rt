//! What has become of a world whose ranks were lost: which columns of a process row are lost, whether a row is beyond repair, and
//! whether the spares last.
#![tactic(auto)]

mod beyond;
mod columns;
mod spares;

pub use beyond::{first_beyond, holds_live};
pub use columns::{lost_columns, lost_in};
pub use spares::first_without_spare;
