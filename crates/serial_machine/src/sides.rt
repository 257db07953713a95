//! Transposes, and solves with a triangle or its transpose, from either side.
ghost use Rattle.std.specs.Prelude.{◌≡◌, ◌<◌, if◌then◌else◌, IfOk};
ghost use Rattle.field_core.specs.Residue.{inverse};
ghost use Rattle.run_data.specs.Matrix.{Matrix, cols};
ghost use Rattle.local_blas.specs.Kernels.{AreWords};
ghost use Rattle.serial_model.specs.Transposes.{transposed, transpose_added, left_solved, side_solved};

use crate::solves::{Triangle, solve_triangle};
use crate::windows::all_of;
use field_core::Field;
use run_data::Mat;
use std::alloc::{AllocError, Global};

/// The matrix whose rows are the columns of another one.
pub fn transpose_of(alloc: Global, a: &Mat) -> Result<Mat, AllocError>
    ensures { IfOk result (λ m. m ≡ transposed a.now) }
{
    let rows = a.cols();
    let cols = a.rows();
    let mut turned = Mat::zeros(alloc, rows, cols)?;
    for j in 0..cols {
        for i in 0..rows {
            let word = a.get(j, i);
            turned.set(i, j, word);
        }
    }
    Ok(turned)
}

/// C becomes `alpha` times the transpose of A, plus `beta` C (PTRAN).
#[tactic(auto, using(run_data::proofs::Fills::fills))]
pub fn add_transpose<K: Field>(alpha: u32, a: &Mat, beta: u32, c: &mut Mat)
    requires rows { a.now.rows ≡ cols c.old }
    requires columns { cols a.now ≡ c.old.rows }
    requires alpha { alpha < K.MODULUS }
    requires beta { beta < K.MODULUS }
    requires a_words { AreWords K.MODULUS a.now }
    requires c_words { AreWords K.MODULUS c.old }
    ensures { c.new ≡ transpose_added K.MODULUS alpha a.now beta c.old }
{
    let _shaped = c.rows();
    let all = all_of(c);
    for j in all.c0..all.c1 {
        for i in all.r0..all.r1 {
            let word = c.get(i, j);
            let other = a.get(j, i);
            c.set(i, j, K::add(K::mul(alpha, other), K::mul(beta, word)));
        }
    }
}

/// B becomes the X with op(A) X = `alpha` B for a triangle of the square A, where op(A) is A or its transpose (PTRSM with SIDE L).
/// INFO is that of the diagonal; where it is not 0, B stays.
pub fn solve_from_left<K: Field>(
    alloc: Global,
    is_transposed: bool,
    triangle: Triangle,
    alpha: u32,
    a: &Mat,
    b: &mut Mat,
) -> Result<u32, AllocError>
    requires square { cols a.now ≡ a.now.rows }
    requires rows { b.old.rows ≡ a.now.rows }
    requires alpha { alpha < K.MODULUS }
    requires a_words { AreWords K.MODULUS a.now }
    requires b_words { AreWords K.MODULUS b.old }
    ensures matrix { IfOk result (λ _. b.new ≡ (left_solved K.MODULUS (inverse K.MODULUS) is_transposed triangle.is_lower triangle.is_unit alpha a.now b.old).matrix) }
    ensures info { IfOk result (λ i. i ≡ (left_solved K.MODULUS (inverse K.MODULUS) is_transposed triangle.is_lower triangle.is_unit alpha a.now b.old).info) }
{
    if is_transposed {
        let turned = transpose_of(alloc, a)?;
        let other = Triangle {
            is_lower: !triangle.is_lower,
            is_unit: triangle.is_unit,
        };
        Ok(solve_triangle::<K>(other, alpha, &turned, b))
    } else {
        Ok(solve_triangle::<K>(triangle, alpha, a, b))
    }
}

/// B becomes the X with op(A) X = `alpha` B, or from the right the X with X op(A) = `alpha` B (PTRSM with any SIDE and TRANSA).
pub fn solve_from_side<K: Field>(
    alloc: Global,
    is_left: bool,
    is_transposed: bool,
    triangle: Triangle,
    alpha: u32,
    a: &Mat,
    b: &mut Mat,
) -> Result<u32, AllocError>
    requires square { cols a.now ≡ a.now.rows }
    requires size { (if is_left then b.old.rows else cols b.old) ≡ a.now.rows }
    requires alpha { alpha < K.MODULUS }
    requires a_words { AreWords K.MODULUS a.now }
    requires b_words { AreWords K.MODULUS b.old }
    ensures matrix { IfOk result (λ _. b.new ≡ (side_solved K.MODULUS (inverse K.MODULUS) is_left is_transposed triangle.is_lower triangle.is_unit alpha a.now b.old).matrix) }
    ensures info { IfOk result (λ i. i ≡ (side_solved K.MODULUS (inverse K.MODULUS) is_left is_transposed triangle.is_lower triangle.is_unit alpha a.now b.old).info) }
{
    if is_left {
        solve_from_left::<K>(alloc, is_transposed, triangle, alpha, a, b)
    } else {
        let mut turned = transpose_of(alloc, b)?;
        let info = solve_from_left::<K>(alloc, !is_transposed, triangle, alpha, a, &mut turned)?;
        *b = transpose_of(alloc, &turned)?;
        Ok(info)
    }
}
