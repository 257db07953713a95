//! Triangular solves by halves: one half of the rows is solved, taken off the other, and then the other is solved.

ghost use Rattle.std.specs.Prelude.{◌≡◌, ℕ, ◌+◌, ◌-◌, ◌<◌, ◌≤◌, ◌≢◌, false};
ghost use Rattle.field_core.specs.Residue.{inverse};
ghost use Rattle.run_data.specs.Matrix.{Matrix};
ghost use Rattle.run_data.specs.Parts.{IsWithin, part_entry};
ghost use Rattle.local_blas.specs.Kernels.{AreWords, ShapesSolve, ShapesMultiply, divided, with_words_of, with_product, with_solved_lower, with_solved_upper};

use crate::cuts::{bottom_rows, first_columns, half_of, last_columns, top_rows};
use crate::scaling::scale;
use blas_lanes::add_products;
use field_core::Field;
use run_data::{Mat, Part, column_of};

/// Divides a part of at most one row by the first word of the part `bp` of `block`, or leaves it where
/// the diagonal counts as 1.
fn divide_row<K: Field>(dst: &mut Mat, at: Part, block: &Mat, bp: Part, unit: bool)
    requires dst_part { IsWithin at dst.old }
    requires block_part { IsWithin bp block.now }
    requires shape { ShapesSolve at bp }
    requires row { at.r1 - at.r0 ≤ 1 }
    requires dst_words { AreWords K.MODULUS dst.old }
    requires block_words { AreWords K.MODULUS block.now }
    requires nonzero { unit ≡ false → (i : ℕ) → i < bp.r1 - bp.r0 → part_entry block.now bp i i ≢ 0 }
    ensures { dst.new ≡ with_words_of dst.old at (λ x i j. divided K.MODULUS (inverse K.MODULUS) unit (part_entry block.now bp 0 0) x) }
{
    let _shaped = dst.rows();
    if unit || at.r0 == at.r1 {
        return;
    }
    scale::<K>(dst, at, K::inv(block.get(bp.r0, bp.c0)));
}

/// Takes the product of the part `lp` of `block` and the part `above` off a part of one column, which
/// stands below `above` in the same column (as BLAS's xGEMV with alpha -1 and beta 1).
fn subtract_above_column<K: Field>(dst: &mut Mat, at: Part, block: &Mat, lp: Part, above: Part)
    requires dst_part { IsWithin at dst.old }
    requires block_part { IsWithin lp block.now }
    requires above_part { IsWithin above dst.old }
    requires shapes { ShapesMultiply at lp above }
    requires column { at.c1 ≡ at.c0 + 1 }
    requires same { above.c0 ≡ at.c0 }
    requires above { above.r1 ≤ at.r0 }
    requires dst_words { AreWords K.MODULUS dst.old }
    requires block_words { AreWords K.MODULUS block.now }
    ensures { dst.new ≡ with_product K.MODULUS dst.old at (K.MODULUS - 1) block.now lp dst.old above }
{
    let block_rows = block.rows() as usize;
    let from = lp.c0 as usize * block_rows + lp.r0 as usize;
    let start = at.c0 as usize * dst.rows() as usize;
    let (before, after) = dst.words_mut().split_at_mut(start + at.r0 as usize);
    let factors = &before[start + above.r0 as usize..start + above.r1 as usize];
    let y = &mut after[..(at.r1 - at.r0) as usize];
    add_products(
        y,
        K::MODULUS - 1,
        block.words(),
        from,
        block_rows,
        factors,
        K::MODULUS,
    );
}

/// Takes the product of the part `lp` of `block` and the part `above` off the part `at`, which stands
/// below `above` in the same columns.
#[tactic(auto, using(run_data::proofs::Fills::fills))]
fn subtract_above<K: Field>(dst: &mut Mat, at: Part, block: &Mat, lp: Part, above: Part)
    requires dst_part { IsWithin at dst.old }
    requires block_part { IsWithin lp block.now }
    requires above_part { IsWithin above dst.old }
    requires shapes { ShapesMultiply at lp above }
    requires same { above.c0 ≡ at.c0 }
    requires above { above.r1 ≤ at.r0 }
    requires dst_words { AreWords K.MODULUS dst.old }
    requires block_words { AreWords K.MODULUS block.now }
    ensures { dst.new ≡ with_product K.MODULUS dst.old at (K.MODULUS - 1) block.now lp dst.old above }
{
    let _shaped = dst.rows();
    for j in at.c0..at.c1 {
        let column = column_of(above, j);
        subtract_above_column::<K>(dst, column_of(at, j), block, lp, column);
    }
}

/// Solves `L * X = B` in place, where `B` is the part `at` of `dst` and `L` the lower triangle of
/// the part `bp` of `block`, a square with as many rows (as BLAS's xTRSM with SIDE L, UPLO L,
/// TRANS N and alpha 1).
///
/// With `unit` the diagonal counts as 1 and is not read (DIAG U); else it has no 0. What stands
/// above the diagonal is not used.
pub fn solve_lower<K: Field>(dst: &mut Mat, at: Part, block: &Mat, bp: Part, unit: bool)
    requires dst_part { IsWithin at dst.old }
    requires block_part { IsWithin bp block.now }
    requires shape { ShapesSolve at bp }
    requires dst_words { AreWords K.MODULUS dst.old }
    requires block_words { AreWords K.MODULUS block.now }
    requires nonzero { unit ≡ false → (i : ℕ) → i < bp.r1 - bp.r0 → part_entry block.now bp i i ≢ 0 }
    ensures { dst.new ≡ with_solved_lower K.MODULUS (inverse K.MODULUS) dst.old at block.now bp unit }
{
    let _shaped = dst.rows();
    let rows = at.r1 - at.r0;
    if rows <= 1 {
        return divide_row::<K>(dst, at, block, bp, unit);
    }
    let half = half_of(rows);
    let top = top_rows(at, half);
    let bottom = bottom_rows(at, half);
    let first = first_columns(top_rows(bp, half), half);
    let below = first_columns(bottom_rows(bp, half), half);
    let last = last_columns(bottom_rows(bp, half), half);
    solve_lower::<K>(dst, top, block, first, unit);
    subtract_above::<K>(dst, bottom, block, below, top);
    solve_lower::<K>(dst, bottom, block, last, unit);
}

/// Takes the product of the part `lp` of `block` and the part `below` off a part of one column, which
/// stands above `below` in the same column (as BLAS's xGEMV with alpha -1 and beta 1).
fn subtract_below_column<K: Field>(dst: &mut Mat, at: Part, block: &Mat, lp: Part, below: Part)
    requires dst_part { IsWithin at dst.old }
    requires block_part { IsWithin lp block.now }
    requires below_part { IsWithin below dst.old }
    requires shapes { ShapesMultiply at lp below }
    requires column { at.c1 ≡ at.c0 + 1 }
    requires same { below.c0 ≡ at.c0 }
    requires below { at.r1 ≤ below.r0 }
    requires dst_words { AreWords K.MODULUS dst.old }
    requires block_words { AreWords K.MODULUS block.now }
    ensures { dst.new ≡ with_product K.MODULUS dst.old at (K.MODULUS - 1) block.now lp dst.old below }
{
    let block_rows = block.rows() as usize;
    let from = lp.c0 as usize * block_rows + lp.r0 as usize;
    let start = at.c0 as usize * dst.rows() as usize;
    let (before, after) = dst.words_mut().split_at_mut(start + below.r0 as usize);
    let factors = &after[..(below.r1 - below.r0) as usize];
    let y = &mut before[start + at.r0 as usize..start + at.r1 as usize];
    add_products(
        y,
        K::MODULUS - 1,
        block.words(),
        from,
        block_rows,
        factors,
        K::MODULUS,
    );
}

/// Takes the product of the part `lp` of `block` and the part `below` off the part `at`, which stands
/// above `below` in the same columns.
#[tactic(auto, using(run_data::proofs::Fills::fills))]
fn subtract_below<K: Field>(dst: &mut Mat, at: Part, block: &Mat, lp: Part, below: Part)
    requires dst_part { IsWithin at dst.old }
    requires block_part { IsWithin lp block.now }
    requires below_part { IsWithin below dst.old }
    requires shapes { ShapesMultiply at lp below }
    requires same { below.c0 ≡ at.c0 }
    requires below { at.r1 ≤ below.r0 }
    requires dst_words { AreWords K.MODULUS dst.old }
    requires block_words { AreWords K.MODULUS block.now }
    ensures { dst.new ≡ with_product K.MODULUS dst.old at (K.MODULUS - 1) block.now lp dst.old below }
{
    let _shaped = dst.rows();
    for j in at.c0..at.c1 {
        let column = column_of(below, j);
        subtract_below_column::<K>(dst, column_of(at, j), block, lp, column);
    }
}

/// Solves `U * X = B` in place, where `B` is the part `at` of `dst` and `U` the upper triangle of
/// the part `bp` of `block`, a square with as many rows (as BLAS's xTRSM with SIDE L, UPLO U,
/// TRANS N and alpha 1).
///
/// With `unit` the diagonal counts as 1 and is not read (DIAG U); else it has no 0. What stands
/// below the diagonal is not used.
pub fn solve_upper<K: Field>(dst: &mut Mat, at: Part, block: &Mat, bp: Part, unit: bool)
    requires dst_part { IsWithin at dst.old }
    requires block_part { IsWithin bp block.now }
    requires shape { ShapesSolve at bp }
    requires dst_words { AreWords K.MODULUS dst.old }
    requires block_words { AreWords K.MODULUS block.now }
    requires nonzero { unit ≡ false → (i : ℕ) → i < bp.r1 - bp.r0 → part_entry block.now bp i i ≢ 0 }
    ensures { dst.new ≡ with_solved_upper K.MODULUS (inverse K.MODULUS) dst.old at block.now bp unit }
{
    let _shaped = dst.rows();
    let rows = at.r1 - at.r0;
    if rows <= 1 {
        return divide_row::<K>(dst, at, block, bp, unit);
    }
    let half = half_of(rows);
    let top = top_rows(at, half);
    let bottom = bottom_rows(at, half);
    let first = first_columns(top_rows(bp, half), half);
    let above = last_columns(top_rows(bp, half), half);
    let last = last_columns(bottom_rows(bp, half), half);
    solve_upper::<K>(dst, bottom, block, last, unit);
    subtract_below::<K>(dst, top, block, above, bottom);
    solve_upper::<K>(dst, top, block, first, unit);
}
