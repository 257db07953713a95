//! The text of a journal, and how many records of each sort it has.
//!
//! A journal is written as one line a record: the record's number, a space, and its words with a space between two. Numbers are
//! decimal and count from 0; a loss has no number and is not counted, so its line is its words alone. Each line ends with a line
//! feed.
//!
//! | record | its words |
//! |---|---|
//! | a strip is fed, a slot is saved, the host takes a tile | `feed`, `save` or `take`, the rank, the slot |
//! | a kernel | its name, the rank, its operands |
//! | a message is sent | `send`, the sender, the receiver, the piece |
//! | a message is received | `recv`, the receiver, the sender, the piece |
//! | saved tiles go back | `restore` |
//! | a lost rank is replaced, a rank is lost | `spawn` or `lose`, the rank |
//! | a commit | `commit`, the line, `end` or `part`, the closed panels, the open panel (0 or 1), the merged groups, `healed` or `plain` |
//!
//! A slot is a letter for its kind (`d` data, `c` code, `l` low, `o` open, `v` pivots, `w` work), its id, a dot and its group, as
//! `d2.0`. A piece is a slot, and where it is a part of one, the local rows and columns follow, half open: `d2.0[0:4,1:2]`.
//!
//! | kernel | its operands |
//! |---|---|
//! | `zero` | the slot, its rows, its columns |
//! | `copy` | the piece written, the piece read |
//! | `scale` | the piece, the factor |
//! | `add` | the piece written, the factor, the piece read, and `whole`, or `upper` or `lower` and the number of the block column |
//! | `muladd` | the piece written, the factor, the left piece, the right piece |
//! | `lower`, `upper` | the piece written, the piece with the triangle, and `U` where its diagonal counts as 1, or `N` |
//! | `swap` | the slot, two local rows |
//! | `first` | the slot written, the piece read, a local column, the bound that the row's number is above |
//! | `diag` | the slot written, the piece read, the greatest place that is looked at |
//! | `least` | the slot written, the piece read |
//! | `elim` | the slot, a local column, the global row of the pivot from 0, the piece with that row |
//! | `push` | the slot, the piece read, the global row from 0 that goes in where the piece holds no number |
//! | `trans` | the slot written, the piece read |
#![tactic(auto)]

mod count;
mod kernel;
mod line;
mod tally;
mod text;
mod word;

pub use count::counts;
pub use tally::Counts;
pub use text::journal_text;
