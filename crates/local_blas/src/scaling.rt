//! A part times a number, and a part that gains a multiple of another.

ghost use Rattle.std.specs.Prelude.{◌≡◌, ◌+◌, ◌<◌};
ghost use Rattle.run_data.specs.Matrix.{Matrix};
ghost use Rattle.run_data.specs.Parts.{IsWithin, SameShape};
ghost use Rattle.local_blas.specs.Kernels.{AreWords, with_scaled, with_added, everywhere};

use crate::words::column_words;
use field_core::Field;
use run_data::{Mat, Part, column_of};

/// Multiplies each word of a part of one column by `a` (as BLAS's xSCAL).
pub(crate) fn scale_column<K: Field>(dst: &mut Mat, at: Part, a: u32)
    requires dst_part { IsWithin at dst.old }
    requires column { at.c1 ≡ at.c0 + 1 }
    requires factor { a < K.MODULUS }
    requires dst_words { AreWords K.MODULUS dst.old }
    ensures { dst.new ≡ with_scaled K.MODULUS dst.old at a }
{
    let start = at.c0 as usize * dst.rows() as usize;
    let words = dst.words_mut();
    let x = &mut words[start + at.r0 as usize..start + at.r1 as usize];
    blas_lanes::scale(x, a, K::MODULUS);
}

/// Multiplies each word of the part `at` of `dst` by `a`, column by column.
#[tactic(auto, using(run_data::proofs::Fills::fills))]
pub fn scale<K: Field>(dst: &mut Mat, at: Part, a: u32)
    requires dst_part { IsWithin at dst.old }
    requires factor { a < K.MODULUS }
    requires dst_words { AreWords K.MODULUS dst.old }
    ensures { dst.new ≡ with_scaled K.MODULUS dst.old at a }
{
    let _shaped = dst.rows();
    for j in at.c0..at.c1 {
        scale_column::<K>(dst, column_of(at, j), a);
    }
}

/// Adds `a` times a part of one column to another of as many rows (as BLAS's xAXPY).
fn add_scaled_column<K: Field>(dst: &mut Mat, at: Part, a: u32, src: &Mat, sp: Part)
    requires dst_part { IsWithin at dst.old }
    requires src_part { IsWithin sp src.now }
    requires shape { SameShape at sp }
    requires column { at.c1 ≡ at.c0 + 1 }
    requires factor { a < K.MODULUS }
    requires dst_words { AreWords K.MODULUS dst.old }
    requires src_words { AreWords K.MODULUS src.now }
    ensures { dst.new ≡ with_added K.MODULUS dst.old at a src.now sp everywhere }
{
    let x = column_words(src, sp);
    let start = at.c0 as usize * dst.rows() as usize;
    let words = dst.words_mut();
    let y = &mut words[start + at.r0 as usize..start + at.r1 as usize];
    blas_lanes::axpy(y, a, x, K::MODULUS);
}

/// Adds `a` times each word of the part `sp` of `src` to the word of `dst` at the same place of
/// the part `at`, which has the same shape (as BLAS's xAXPY for each column).
#[tactic(auto, using(run_data::proofs::Fills::fills))]
pub fn add_scaled<K: Field>(dst: &mut Mat, at: Part, a: u32, src: &Mat, sp: Part)
    requires dst_part { IsWithin at dst.old }
    requires src_part { IsWithin sp src.now }
    requires shape { SameShape at sp }
    requires factor { a < K.MODULUS }
    requires dst_words { AreWords K.MODULUS dst.old }
    requires src_words { AreWords K.MODULUS src.now }
    ensures { dst.new ≡ with_added K.MODULUS dst.old at a src.now sp everywhere }
{
    let _shaped = dst.rows();
    for j in at.c0..at.c1 {
        let column = column_of(sp, sp.c0 + (j - at.c0));
        add_scaled_column::<K>(dst, column_of(at, j), a, src, column);
    }
}
