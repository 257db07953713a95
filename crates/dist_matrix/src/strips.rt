//! Strips: cut from a whole matrix, and placed in one.

ghost use Rattle.std.specs.Prelude.{◌≡◌, ◌-◌, ◌*◌, ◌<◌, min, IsTrue, IfOk};
ghost use Rattle.array_desc.specs.Descriptors.{IsDesc};
ghost use Rattle.array_desc.specs.Maps.{groups, block_in};
ghost use Rattle.blacs_grid.specs.Limits.{IsGrid};
ghost use Rattle.blacs_grid.specs.Places.{row_of, col_of, is_data_rank};
ghost use Rattle.rank_machine.specs.Setting.{strip_of, strip_rows};
ghost use Rattle.dist_matrix.specs.Strips.{layout_of, with_strip, HasShape, HasStripShape, HoldsEntries, IsPadded};

use array_desc::{Desc, global, numroc};
use blacs_grid::Grid;
use run_data::Mat;
use std::alloc::{AllocError as NoMemory, Global};

/// The padded strip of a group of a matrix on a data rank.
///
/// It has the rank's local rows and the columns of a block: those of the group's block column on the rank's process
/// column, and zeros where the matrix has no column. It fails only where memory runs out.
pub fn strip(
    alloc: Global,
    m: &Mat,
    d: &Desc,
    grid: &Grid,
    rank: u32,
    group: u32,
) -> Result<Mat, NoMemory>
    requires grid { IsGrid grid.now }
    requires descriptor { IsDesc grid.now.p grid.now.q d.now }
    requires whole { HasShape (layout_of grid.now d.now) m.now }
    requires data_rank { IsTrue (is_data_rank grid.now rank) }
    requires group_in { group < groups d.now.n d.now.nb grid.now.q }
    ensures value { IfOk result (λ s. s ≡ strip_of (layout_of grid.now d.now) m.now rank group) }
    ensures shape { IfOk result (HasStripShape (layout_of grid.now d.now) rank) }
    ensures padded { IfOk result (IsPadded (layout_of grid.now d.now) rank group) }
    ensures entries { IfOk result (HoldsEntries (layout_of grid.now d.now) m.now rank group) }
{
    let at = span_of(d, grid, rank, group);
    let mut result = Mat::zeros(alloc, at.rows, d.nb)?;
    for j in 0..at.columns {
        for i in 0..at.rows {
            let row = global(i, d.mb, at.process_row, d.rsrc, grid.p);
            result.set(i, j, m.get(row, at.first_column + j));
        }
    }
    Ok(result)
}

/// Places a strip of a group on a data rank in a whole matrix.
///
/// The words of the matrix that lie in the strip become those of the strip; all others stay. The padding is not read.
pub fn place(out: &mut Mat, d: &Desc, grid: &Grid, rank: u32, group: u32, strip: &Mat)
    requires grid { IsGrid grid.now }
    requires descriptor { IsDesc grid.now.p grid.now.q d.now }
    requires whole { HasShape (layout_of grid.now d.now) out.old }
    requires data_rank { IsTrue (is_data_rank grid.now rank) }
    requires group_in { group < groups d.now.n d.now.nb grid.now.q }
    requires shape { HasStripShape (layout_of grid.now d.now) rank strip.now }
    ensures value { out.new ≡ with_strip (layout_of grid.now d.now) out.old rank group strip.now }
    ensures whole_kept { HasShape (layout_of grid.now d.now) out.new }
    ensures read_back { IsPadded (layout_of grid.now d.now) rank group strip.now
        → strip_of (layout_of grid.now d.now) out.new rank group ≡ strip.now }
{
    let at = span_of(d, grid, rank, group);
    let _shaped = out.rows();
    let _strip_shaped = strip.rows();
    for j in 0..at.columns {
        for i in 0..at.rows {
            let row = global(i, d.mb, at.process_row, d.rsrc, grid.p);
            out.set(row, at.first_column + j, strip.get(i, j));
        }
    }
}

/// Where the words of a strip lie in the whole matrix.
#[derive(Clone, Copy)]
struct Span {
    /// The process row of the strip.
    process_row: u32,
    /// How many rows the strip has.
    rows: u32,
    /// The column of the matrix that is the strip's first.
    first_column: u32,
    /// How many columns of the strip are columns of the matrix.
    columns: u32,
}

/// Where the words of the strip of a group on a data rank lie.
fn span_of(d: &Desc, grid: &Grid, rank: u32, group: u32) -> Span
    requires grid { IsGrid grid.now }
    requires descriptor { IsDesc grid.now.p grid.now.q d.now }
    requires data_rank { IsTrue (is_data_rank grid.now rank) }
    requires group_in { group < groups d.now.n d.now.nb grid.now.q }
    ensures process_row { result.process_row ≡ row_of grid.now rank }
    ensures process_row_in { result.process_row < grid.now.p }
    ensures rows { result.rows ≡ strip_rows (layout_of grid.now d.now) (row_of grid.now rank) }
    ensures first_column { result.first_column ≡ block_in group (col_of grid.now rank) d.now.csrc grid.now.q * d.now.nb }
    ensures columns { result.columns ≡ min (d.now.n - result.first_column) d.now.nb }
{
    let (process_row, process_column) = coords(grid, rank);
    let first_column = global(group * d.nb, d.nb, process_column, d.csrc, grid.q);
    Span {
        process_row,
        rows: numroc(d.m, d.mb, process_row, d.rsrc, grid.p),
        first_column,
        columns: d.n.saturating_sub(first_column).min(d.nb),
    }
}

/// The process row and the process column of a data rank.
fn coords(grid: &Grid, rank: u32) -> (u32, u32)
    requires grid { IsGrid grid.now }
    requires data_rank { IsTrue (is_data_rank grid.now rank) }
    ensures row { result.0 ≡ row_of grid.now rank }
    ensures row_in { result.0 < grid.now.p }
    ensures column { result.1 ≡ col_of grid.now rank }
    ensures column_in { result.1 < grid.now.q }
{
    match grid.coords(rank) {
        Some(at) => at,
        None => unreachable!(),
    }
}
