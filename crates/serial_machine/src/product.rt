//! The product of whole matrices.
ghost use Rattle.std.specs.Prelude.{◌≡◌, ◌<◌};
ghost use Rattle.run_data.specs.Matrix.{Matrix, cols};
ghost use Rattle.local_blas.specs.Kernels.{AreWords};
ghost use Rattle.serial_model.specs.Solves.{product_of};

use crate::windows::all_of;
use field_core::Field;
use local_blas::{mul_add, scale};
use run_data::Mat;

/// C becomes `alpha` A B + `beta` C (PGEMM with neither operand transposed).
pub fn multiply<K: Field>(alpha: u32, a: &Mat, b: &Mat, beta: u32, c: &mut Mat)
    requires rows { a.now.rows ≡ c.old.rows }
    requires columns { cols b.now ≡ cols c.old }
    requires inner { cols a.now ≡ b.now.rows }
    requires alpha { alpha < K.MODULUS }
    requires beta { beta < K.MODULUS }
    requires a_words { AreWords K.MODULUS a.now }
    requires b_words { AreWords K.MODULUS b.now }
    requires c_words { AreWords K.MODULUS c.old }
    ensures { c.new ≡ product_of K.MODULUS alpha a.now b.now beta c.old }
{
    let all = all_of(c);
    scale::<K>(c, all, beta);
    let left = all_of(a);
    let right = all_of(b);
    mul_add::<K>(c, all, alpha, a, left, b, right);
}
