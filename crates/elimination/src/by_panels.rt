//! The elimination of one whole matrix by panels of columns: what a factorization does, with one
//! rank and without code columns.

ghost use Rattle.std.specs.Prelude.{◌≡◌, ℕ, ◌-◌, ◌<◌, ◌≤◌, length, min, IfOk};
ghost use Rattle.field_core.specs.Residue.{inverse};
ghost use Rattle.run_data.specs.Matrix.{Matrix, cols, entry, tabulate};
ghost use Rattle.local_blas.specs.Kernels.{AreWords};
ghost use Rattle.serial_model.specs.Elimination.{eliminate_columns, elimination_of, eliminated_matrix, least_zero, diagonal};
ghost use Rattle.elimination.specs.Whole.{whole_state, panel_count};

use crate::whole::{carry, eliminate_strip, exchange_rows};
use field_core::Field;
use run_data::{Mat, Part, put_part};
use std::alloc::{AllocError, Global};

/// What an elimination finds beside the words that it leaves: the rows of the pivots, which count
/// from 1, and INFO, the number of the first column without a pivot, or 0.
#[derive(Drop)]
pub struct Found {
    pub pivots: Vec<u32>,
    pub info: u32,
}

/// All rows of the columns from `c0` to below `c1`.
fn columns(a: &Mat, c0: u32, c1: u32) -> Part
    ensures { result ≡ record { r0 = 0; r1 = a.now.rows; c0 = c0; c1 = c1 } }
{
    Part {
        r0: 0,
        r1: a.rows(),
        c0,
        c1,
    }
}

/// The number, from 1, of the first zero among the first `n` words of the diagonal, or 0 where
/// there is none.
pub fn first_zero(a: &Mat, n: u32) -> u32
    requires rows { n ≤ a.now.rows }
    requires columns { n ≤ cols a.now }
    ensures { result ≡ least_zero (diagonal (entry a.now)) n }
{
    for i in 0..n {
        if a.get(i, i) == 0 {
            return i + 1;
        }
    }
    0
}

/// The panel of at most `nb` columns that begins at column `first` is eliminated by itself, the
/// columns left of it have their rows exchanged, and it is carried to the columns right of it.
/// Its pivots' rows are added to the list.
pub fn eliminate_panel<K: Field>(
    alloc: Global,
    a: &mut Mat,
    pivots: &mut Vec<u32>,
    first: u32,
    nb: u32,
) -> Result<(), AllocError>
    requires rows { first < a.old.rows }
    requires columns { first < cols a.old }
    requires count { length pivots.old.items ≡ first }
    requires words { AreWords K.MODULUS a.old }
    ensures matrix { IfOk result (λ _. a.new ≡ tabulate a.old.rows (cols a.old) (eliminate_columns K.MODULUS (inverse K.MODULUS) a.old.rows first (panel_count a.old first nb) (whole_state a.old pivots.old.items)).words) }
    ensures list { IfOk result (λ _. pivots.new.items ≡ (eliminate_columns K.MODULUS (inverse K.MODULUS) a.old.rows first (panel_count a.old first nb) (whole_state a.old pivots.old.items)).pivots) }
{
    let rows = a.rows();
    let cols = a.cols();
    let end = first + nb.min(cols - first);
    let n = end.min(rows) - first;
    let own = columns(a, first, end);
    let before = columns(a, 0, first);
    let after = columns(a, end, cols);
    let mut panel = a.part(alloc, own)?;
    let mut left = a.part(alloc, before)?;
    let mut right = a.part(alloc, after)?;
    eliminate_strip::<K>(alloc, &mut panel, pivots, first, n)?;
    exchange_rows(&mut left, pivots, first, n);
    carry::<K>(alloc, &mut right, &panel, pivots, first, n)?;
    let all_of_panel = columns(&panel, 0, end - first);
    put_part(a, own, &panel, all_of_panel);
    let all_of_left = columns(&left, 0, first);
    put_part(a, before, &left, all_of_left);
    let all_of_right = columns(&right, 0, cols - end);
    put_part(a, after, &right, all_of_right);
    Ok(())
}

/// The elimination of a matrix by panels of `nb` columns: it leaves the words, and finds the
/// pivots and INFO, of the elimination by columns.
pub fn eliminate_by_panels<K: Field>(
    alloc: Global,
    a: &mut Mat,
    nb: u32,
) -> Result<Found, AllocError>
    requires some_columns { 0 < nb }
    requires words { AreWords K.MODULUS a.old }
    ensures matrix { IfOk result (λ _. a.new ≡ eliminated_matrix K.MODULUS (inverse K.MODULUS) a.old) }
    ensures pivots { IfOk result (λ found. found.pivots.items ≡ (elimination_of K.MODULUS (inverse K.MODULUS) a.old).pivots) }
    ensures info { IfOk result (λ found. found.info ≡ (elimination_of K.MODULUS (inverse K.MODULUS) a.old).info) }
{
    let last = a.rows().min(a.cols());
    let mut pivots = Vec::new(alloc);
    let mut first = 0;
    while first < last {
        eliminate_panel::<K>(alloc, a, &mut pivots, first, nb)?;
        first += nb.min(last - first);
    }
    let info = first_zero(a, last);
    Ok(Found { pivots, info })
}
