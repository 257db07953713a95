//! Layouts: where matrices lie.
use array_desc::Desc;
use blacs_grid::Grid;

/// Where a matrix lies: a grid and a descriptor on it.
#[derive(Clone, Copy)]
pub struct Layout {
    pub grid: Grid,
    pub desc: Desc,
}
