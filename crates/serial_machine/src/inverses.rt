//! The inverse of a whole matrix.
ghost use Rattle.std.specs.Prelude.{◌≡◌, ◌≢◌, ◌≤◌, length, IfOk, IfSome, IfNone};
ghost use Rattle.field_core.specs.Residue.{inverse};
ghost use Rattle.run_data.specs.Matrix.{Matrix, cols, zero_matrix};
ghost use Rattle.local_blas.specs.Kernels.{AreWords};
ghost use Rattle.elimination.specs.Whole.{AreRows};
ghost use Rattle.serial_model.specs.Elimination.{elimination_of, eliminated_matrix};
ghost use Rattle.serial_model.specs.Solves.{product_of};
ghost use Rattle.serial_model.specs.Transposes.{identity_matrix, inverted};

use crate::factors::factor;
use crate::solves::solve_with_factors;
use field_core::Field;
use run_data::Mat;
use std::alloc::{AllocError, Global};

// The matrix of `n` rows with ones on the diagonal and zeros elsewhere.
fn identity(alloc: Global, n: u32) -> Result<Mat, AllocError>
    ensures { IfOk result (λ m. m ≡ identity_matrix n) }
{
    let mut ones = Mat::zeros(alloc, n, n)?;
    for i in 0..n {
        ones.set(i, i, 1);
    }
    Ok(ones)
}

/// B becomes the inverse of a square matrix, from its factors and its pivots' rows (PGETRI). INFO is the number, from 1, of the first
/// 0 on the diagonal, or 0 where there is none; where it is not 0, B stays.
pub fn invert_with_factors<K: Field>(
    alloc: Global,
    a: &Mat,
    rows: &[u32],
    b: &mut Mat,
) -> Result<u32, AllocError>
    requires square { cols a.now ≡ a.now.rows }
    requires list { a.now.rows ≤ length rows.now }
    requires pivots { AreRows rows.now 0 a.now.rows a.now.rows }
    requires a_words { AreWords K.MODULUS a.now }
    ensures matrix { IfOk result (λ _. b.new ≡ (inverted K.MODULUS (inverse K.MODULUS) a.now rows.now b.old).matrix) }
    ensures info { IfOk result (λ i. i ≡ (inverted K.MODULUS (inverse K.MODULUS) a.now rows.now b.old).info) }
{
    let mut ones = identity(alloc, a.rows())?;
    let info = solve_with_factors::<K>(a, rows, &mut ones);
    if info == 0 {
        *b = ones;
    }
    Ok(info)
}

/// The inverse of a square matrix, from its factors, or None where it has none: exactly where the INFO of its elimination is not 0.
/// The product of the matrix and its inverse has ones on the diagonal and zeros elsewhere.
pub fn inverse<K: Field>(alloc: Global, a: &Mat) -> Result<Option<Mat>, AllocError>
    requires square { cols a.now ≡ a.now.rows }
    requires words { AreWords K.MODULUS a.now }
    ensures none { IfOk result (λ r. IfNone r ((elimination_of K.MODULUS (inverse K.MODULUS) a.now).info ≢ 0)) }
    ensures some { IfOk result (λ r. IfSome r (λ x. (elimination_of K.MODULUS (inverse K.MODULUS) a.now).info ≡ 0)) }
    ensures factors { IfOk result (λ r. IfSome r (λ x. x ≡ (inverted K.MODULUS (inverse K.MODULUS) (eliminated_matrix K.MODULUS (inverse K.MODULUS) a.now) (elimination_of K.MODULUS (inverse K.MODULUS) a.now).pivots (zero_matrix a.now.rows a.now.rows)).matrix)) }
    ensures product { IfOk result (λ r. IfSome r (λ x. product_of K.MODULUS 1 a.now x 0 (zero_matrix a.now.rows a.now.rows) ≡ identity_matrix a.now.rows)) }
{
    let n = a.rows();
    let mut factors = a.copy(alloc)?;
    let found = factor::<K>(alloc, &mut factors)?;
    if found.info != 0 {
        return Ok(None);
    }
    let mut inverted = Mat::zeros(alloc, n, n)?;
    let _info = invert_with_factors::<K>(alloc, &factors, &found.pivots, &mut inverted)?;
    Ok(Some(inverted))
}
