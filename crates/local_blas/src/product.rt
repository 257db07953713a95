//! The product of two parts.

ghost use Rattle.std.specs.Prelude.{◌≡◌, ◌+◌, ◌<◌};
ghost use Rattle.run_data.specs.Matrix.{Matrix};
ghost use Rattle.run_data.specs.Parts.{IsWithin};
ghost use Rattle.local_blas.specs.Kernels.{AreWords, ShapesMultiply, with_product};

use crate::words::column_words;
use blas_lanes::add_products;
use field_core::Field;
use run_data::{Mat, Part, column_of};

/// Adds `a` times the product of the part `lp` of `left` and a part of one column to a part of one
/// column (as BLAS's xGEMV with beta 1).
fn mul_add_column<K: Field>(
    dst: &mut Mat,
    at: Part,
    a: u32,
    left: &Mat,
    lp: Part,
    right: &Mat,
    rp: Part,
)
    requires dst_part { IsWithin at dst.old }
    requires left_part { IsWithin lp left.now }
    requires right_part { IsWithin rp right.now }
    requires shapes { ShapesMultiply at lp rp }
    requires column { at.c1 ≡ at.c0 + 1 }
    requires factor { a < K.MODULUS }
    requires dst_words { AreWords K.MODULUS dst.old }
    requires left_words { AreWords K.MODULUS left.now }
    requires right_words { AreWords K.MODULUS right.now }
    ensures { dst.new ≡ with_product K.MODULUS dst.old at a left.now lp right.now rp }
{
    let left_rows = left.rows() as usize;
    let from = lp.c0 as usize * left_rows + lp.r0 as usize;
    let factors = column_words(right, rp);
    let start = at.c0 as usize * dst.rows() as usize;
    let words = dst.words_mut();
    let y = &mut words[start + at.r0 as usize..start + at.r1 as usize];
    add_products(y, a, left.words(), from, left_rows, factors, K::MODULUS);
}

/// Adds `a` times the product of the part `lp` of `left` and the part `rp` of `right` to the part
/// `at` of `dst` (as BLAS's xGEMM with beta 1, neither operand transposed).
#[tactic(auto, using(run_data::proofs::Fills::fills))]
pub fn mul_add<K: Field>(
    dst: &mut Mat,
    at: Part,
    a: u32,
    left: &Mat,
    lp: Part,
    right: &Mat,
    rp: Part,
)
    requires dst_part { IsWithin at dst.old }
    requires left_part { IsWithin lp left.now }
    requires right_part { IsWithin rp right.now }
    requires shapes { ShapesMultiply at lp rp }
    requires factor { a < K.MODULUS }
    requires dst_words { AreWords K.MODULUS dst.old }
    requires left_words { AreWords K.MODULUS left.now }
    requires right_words { AreWords K.MODULUS right.now }
    ensures { dst.new ≡ with_product K.MODULUS dst.old at a left.now lp right.now rp }
{
    let _shaped = dst.rows();
    for j in at.c0..at.c1 {
        let column = column_of(rp, rp.c0 + (j - at.c0));
        mul_add_column::<K>(dst, column_of(at, j), a, left, lp, right, column);
    }
}
