//! Matrices that are distributed over the ranks of a process grid: cutting their strips, placing strips in a whole matrix, and the
//! events that make their code strips.
//!
//! A group of a matrix is as many block columns side by side as the grid has data columns, one on each. Of each group a
//! data rank holds one strip: all its local rows of the group's block column on its process column. A strip is always as
//! wide as a block; where the matrix has no column, it has zeros, its padding. A rank without a local row holds strips of
//! no rows. A code rank holds one code strip of each group, the sum of the data strips of its process row, each times a weight. Rows, columns, ranks and groups count from 0.
#![tactic(auto)]

mod encode;
mod laws;
mod site;
mod strips;

pub use encode::{encode_group, encode_group_on};
pub use laws::{events_make_code_strips, strips_make_matrix};
pub use site::{ListShape, Site};
pub use strips::{place, strip};
