//! The erasure code of a process row. A row has `q` data columns and `f` code columns, and at each
//! place of a tile it holds one symbol a column. The symbol of code column `c` is the sum over the
//! data columns of their weights at `c` times their symbols. The weights form a Cauchy matrix, all
//! of whose square parts are nonsingular, so any `f` lost symbols can be computed from the others.
#![tactic(auto)]

mod decode;
mod weights;

pub use decode::{Coefs, decode_row};
pub use weights::weight;
