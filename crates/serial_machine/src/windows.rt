//! Windows of whole matrices.
ghost use Rattle.std.specs.Prelude.{◌≡◌, ◌<◌, ◌-◌, ◌+◌, ◌^◌};
ghost use Rattle.run_data.specs.Matrix.{Matrix};
ghost use Rattle.run_data.specs.Parts.{IsWithin, whole_part};
ghost use Rattle.serial_model.specs.Solves.{window, window_copied};

use run_data::{Mat, Part, put_part};

/// All of a matrix.
pub fn all_of(m: &Mat) -> Part
    ensures { result ≡ whole_part m.now }
{
    Part {
        r0: 0,
        r1: m.rows(),
        c0: 0,
        c1: m.cols(),
    }
}

// The part of `m` rows and `n` columns from row `i` and column `j` on, which count from 1.
fn window(m: u32, n: u32, i: u32, j: u32) -> Part
    requires row { 0 < i }
    requires column { 0 < j }
    requires rows { i - 1 + m < 2 ^ 32 }
    requires columns { j - 1 + n < 2 ^ 32 }
    ensures { result ≡ window m n i j }
{
    Part {
        r0: i - 1,
        r1: i - 1 + m,
        c0: j - 1,
        c1: j - 1 + n,
    }
}

/// The first place of a window, its row and its column, counted from 1.
#[derive(Clone, Copy)]
pub struct Corner {
    pub row: u32,
    pub column: u32,
}

impl Corner {
    /// The corner at a row and a column.
    pub fn at(row: u32, column: u32) -> Corner
        ensures { result ≡ record { row = row; column = column } }
    {
        Corner { row, column }
    }
}

/// The window of `m` rows and `n` columns at a corner of B becomes that at a corner of A (PGEMR2D).
pub fn copy_window(m: u32, n: u32, a: &Mat, from: Corner, b: &mut Mat, to: Corner)
    requires from_row { 0 < from.row }
    requires from_column { 0 < from.column }
    requires to_row { 0 < to.row }
    requires to_column { 0 < to.column }
    requires in_a { IsWithin (window m n from.row from.column) a.now }
    requires in_b { IsWithin (window m n to.row to.column) b.old }
    ensures { b.new ≡ window_copied m n a.now from.row from.column b.old to.row to.column }
{
    let _a_rows = a.rows();
    let _a_columns = a.cols();
    let _b_rows = b.rows();
    let _b_columns = b.cols();
    let at = window(m, n, to.row, to.column);
    put_part(b, at, a, window(m, n, from.row, from.column));
}
