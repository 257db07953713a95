//! The factorization of a whole matrix.
ghost use Rattle.std.specs.Prelude.{◌≡◌, IfOk};
ghost use Rattle.field_core.specs.Residue.{inverse};
ghost use Rattle.local_blas.specs.Kernels.{AreWords};
ghost use Rattle.serial_model.specs.Elimination.{elimination_of, eliminated_matrix};

use elimination::by_panels::{Found, eliminate_by_panels};
use field_core::Field;
use run_data::Mat;
use std::alloc::{AllocError, Global};

/// Eliminates all columns of a matrix in place, by panels (LAPACK's xGETRF, but the pivot is the first word that is not 0).
///
/// INFO is the number of the first column without a pivot, which is that of the first 0 on the diagonal that is left.
pub fn factor<K: Field>(alloc: Global, a: &mut Mat) -> Result<Found, AllocError>
    requires { AreWords K.MODULUS a.old }
    ensures matrix { IfOk result (λ _. a.new ≡ eliminated_matrix K.MODULUS (inverse K.MODULUS) a.old) }
    ensures rows { IfOk result (λ f. f.pivots.items ≡ (elimination_of K.MODULUS (inverse K.MODULUS) a.old).pivots) }
    ensures info { IfOk result (λ f. f.info ≡ (elimination_of K.MODULUS (inverse K.MODULUS) a.old).info) }
{
    eliminate_by_panels::<K>(alloc, a, 256)
}
