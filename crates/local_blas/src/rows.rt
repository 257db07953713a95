//! What Gaussian elimination does to rows: the search for a pivot, exchange and elimination.

ghost use Rattle.std.specs.Prelude.{◌≡◌, ℕ, ◌+◌, ◌*◌, ◌%◌, ◌<◌, ◌≤◌, ◌≢◌, ◌↔◌, nat_le, IsNone, IfSome};
ghost use Rattle.field_core.specs.Residue.{inverse};
ghost use Rattle.run_data.specs.Matrix.{Matrix, cols, entry};
ghost use Rattle.run_data.specs.Parts.{IsWithin, whole_part, with_part};
ghost use Rattle.local_blas.specs.Kernels.{AreWords, with_eliminated, with_rows_swapped};

use crate::scaling::scale_column;
use blas_lanes::axpy;
use field_core::Field;
use run_data::{Mat, Part, column_of};

/// The first row from `from` on whose word in column `j` is not 0, or `None` where there is none.
///
/// It stands where LAPACK's xGETF2 calls IxAMAX; over a prime field no word is larger than
/// another.
pub fn first_nonzero(m: &Mat, j: u32, from: u32) -> Option<u32>
    requires column { j < cols m.now }
    requires from { from ≤ m.now.rows }
    ensures none { IsNone result ↔ ((i : ℕ) → from ≤ i → i < m.now.rows → entry m.now i j ≡ 0) }
    ensures range { IfSome result (λ r. (from ≤ r) × (r < m.now.rows)) }
    ensures nonzero { IfSome result (λ r. entry m.now r j ≢ 0) }
    ensures first { IfSome result (λ r. (i : ℕ) → from ≤ i → i < r → entry m.now i j ≡ 0) }
{
    for i in from..m.rows() {
        if m.get(i, j) != 0 {
            return Some(i);
        }
    }
    None
}

/// Rows `i` and `j` change places in all columns (as LAPACK's xLASWP for one pivot). Where `i` is
/// `j` nothing changes.
#[tactic(auto, using(crate::proofs::Swaps::swap_shapes))]
pub fn swap_rows(dst: &mut Mat, i: u32, j: u32)
    requires first { i < dst.old.rows }
    requires second { j < dst.old.rows }
    ensures { dst.new ≡ with_rows_swapped dst.old i j }
{
    let _shaped = dst.rows();
    for k in 0..dst.cols() {
        let x = dst.get(i, k);
        let y = dst.get(j, k);
        dst.set(i, k, y);
        dst.set(j, k, x);
    }
}

/// Adds `negative` times column `j` to the part `at` of a later column, in the rows of that part (as
/// BLAS's xAXPY).
fn eliminate_column<K: Field>(dst: &mut Mat, at: Part, j: u32, negative: u32)
    requires part { IsWithin at dst.old }
    requires column { at.c1 ≡ at.c0 + 1 }
    requires later { j < at.c0 }
    requires factor { negative < K.MODULUS }
    requires words { AreWords K.MODULUS dst.old }
    ensures { dst.new ≡ with_part dst.old at (λ r c. (entry dst.old r c + entry dst.old r j * negative) % K.MODULUS) }
{
    let rows = dst.rows() as usize;
    let first = j as usize * rows;
    let (before, after) = dst
        .words_mut()
        .split_at_mut(at.c0 as usize * rows + at.r0 as usize);
    let x = &before[first + at.r0 as usize..first + at.r1 as usize];
    let y = &mut after[..(at.r1 - at.r0) as usize];
    axpy(y, negative, x, K::MODULUS);
}

/// Eliminates column `j` in the rows of `dst` from `from` on by a pivot row, a matrix of one row
/// and as many columns, whose word in column `j` is not 0.
///
/// In these rows column `j` becomes the multipliers, its words divided by the pivot; each word
/// right of it loses the multiplier times the word of the pivot row above it (one step of LAPACK's
/// xGETF2: xSCAL and xGER).
#[tactic(auto, using(run_data::proofs::Fills::fills))]
pub fn eliminate<K: Field>(dst: &mut Mat, from: u32, j: u32, row: &Mat)
    requires from { from ≤ dst.old.rows }
    requires column { j < cols dst.old }
    requires row_rows { row.now.rows ≡ 1 }
    requires row_columns { cols row.now ≡ cols dst.old }
    requires dst_words { AreWords K.MODULUS dst.old }
    requires row_words { AreWords K.MODULUS row.now }
    requires pivot { entry row.now 0 j ≢ 0 }
    ensures { dst.new ≡ with_eliminated K.MODULUS (inverse K.MODULUS) dst.old (nat_le from) j row.now (whole_part row.now) }
{
    let below = Part {
        r0: from,
        r1: dst.rows(),
        c0: j,
        c1: dst.cols(),
    };
    let inverse = K::inv(row.get(0, j));
    scale_column::<K>(dst, column_of(below, j), inverse);
    for k in j + 1..below.c1 {
        let negative = K::neg(row.get(0, k));
        eliminate_column::<K>(dst, column_of(below, k), j, negative);
    }
}
