//! Columns of a matrix, cut out and put back.

ghost use Rattle.std.specs.Prelude.{◌≡◌, ◌-◌, ◌≤◌, IfOk};
ghost use Rattle.run_data.specs.Matrix.{Matrix, cols};
ghost use Rattle.elimination.specs.Whole.{cut_columns, with_columns};

use run_data::{Mat, Part, put_part};
use std::alloc::{AllocError, Global};

/// The columns from `c0` to below `c1`, as a matrix of their own.
pub fn columns_of(alloc: Global, a: &Mat, c0: u32, c1: u32) -> Result<Mat, AllocError>
    requires order { c0 ≤ c1 }
    requires columns { c1 ≤ cols a.now }
    ensures { IfOk result (λ m. m ≡ cut_columns a.now c0 c1) }
{
    let at = Part {
        r0: 0,
        r1: a.rows(),
        c0,
        c1,
    };
    a.part(alloc, at)
}

/// The columns of `piece` take the place of those of `a` from `c0` to below `c1`.
pub fn put_columns(a: &mut Mat, c0: u32, c1: u32, piece: &Mat)
    requires order { c0 ≤ c1 }
    requires columns { c1 ≤ cols a.old }
    requires piece_rows { piece.now.rows ≡ a.old.rows }
    requires piece_columns { cols piece.now ≡ c1 - c0 }
    ensures { a.new ≡ with_columns a.old c0 c1 piece.now }
{
    let at = Part {
        r0: 0,
        r1: a.rows(),
        c0,
        c1,
    };
    let all = Part {
        r0: 0,
        r1: piece.rows(),
        c0: 0,
        c1: piece.cols(),
    };
    put_part(a, at, piece, all);
}
