//! Solves with a triangle, and with the factors of a matrix.
ghost use Rattle.std.specs.Prelude.{◌≡◌, ◌≢◌, ℕ, ◌<◌, ◌≤◌, if◌then◌else◌, false, length};
ghost use Rattle.field_core.specs.Residue.{inverse};
ghost use Rattle.run_data.specs.Matrix.{Matrix, cols, entry};
ghost use Rattle.local_blas.specs.Kernels.{AreWords};
ghost use Rattle.elimination.specs.Whole.{AreRows};
ghost use Rattle.serial_model.specs.Solves.{first_zero, triangle_solved, factors_solved};
ghost use Rattle.serial_machine.specs.Solved.{with_columns_solved};

use crate::windows::all_of;
use elimination::by_panels::first_zero;
use elimination::whole::exchange_rows;
use field_core::Field;
use local_blas::{scale, solve_lower, solve_upper};
use run_data::Mat;

/// Which triangle of a matrix is meant, and whether its diagonal counts as ones.
#[derive(Clone, Copy)]
pub struct Triangle {
    pub is_lower: bool,
    pub is_unit: bool,
}

// INFO of a solve with a triangle: a diagonal that counts as ones is not tested.
fn triangle_info(triangle: Triangle, a: &Mat) -> u32
    requires { cols a.now ≡ a.now.rows }
    ensures { result ≡ (if triangle.is_unit then 0 else first_zero a.now) }
{
    if triangle.is_unit {
        0
    } else {
        first_zero(a, a.rows())
    }
}

// Each column of B is solved by a triangle of A, whose diagonal has no 0 where it counts.
pub fn substitute<K: Field>(triangle: Triangle, a: &Mat, b: &mut Mat)
    requires square { cols a.now ≡ a.now.rows }
    requires rows { b.old.rows ≡ a.now.rows }
    requires nonzero { triangle.is_unit ≡ false → (i : ℕ) → i < a.now.rows → entry a.now i i ≢ 0 }
    requires a_words { AreWords K.MODULUS a.now }
    requires b_words { AreWords K.MODULUS b.old }
    ensures { b.new ≡ with_columns_solved K.MODULUS (inverse K.MODULUS) triangle.is_lower triangle.is_unit a.now b.old }
{
    let all = all_of(b);
    let block = all_of(a);
    if triangle.is_lower {
        solve_lower::<K>(b, all, a, block, triangle.is_unit);
    } else {
        solve_upper::<K>(b, all, a, block, triangle.is_unit);
    }
}

/// B becomes the X with A X = `alpha` B for a triangle of the square A (PTRSM with SIDE L and TRANSA N). INFO is the number, from 1,
/// of the first 0 on the diagonal, or 0 where there is none or the diagonal counts as ones; where it is not 0, B stays.
pub fn solve_triangle<K: Field>(triangle: Triangle, alpha: u32, a: &Mat, b: &mut Mat) -> u32
    requires square { cols a.now ≡ a.now.rows }
    requires rows { b.old.rows ≡ a.now.rows }
    requires alpha { alpha < K.MODULUS }
    requires a_words { AreWords K.MODULUS a.now }
    requires b_words { AreWords K.MODULUS b.old }
    ensures matrix { b.new ≡ (triangle_solved K.MODULUS (inverse K.MODULUS) triangle.is_lower triangle.is_unit alpha a.now b.old).matrix }
    ensures info { result ≡ (triangle_solved K.MODULUS (inverse K.MODULUS) triangle.is_lower triangle.is_unit alpha a.now b.old).info }
{
    let info = triangle_info(triangle, a);
    if info == 0 {
        let all = all_of(b);
        scale::<K>(b, all, alpha);
        substitute::<K>(triangle, a, b);
    }
    info
}

/// B becomes the X with A X = B, from the factors and the pivots' rows of the square A (PGETRS with TRANS N). INFO is the number,
/// from 1, of the first 0 on the diagonal, or 0 where there is none; where it is not 0, B stays.
pub fn solve_with_factors<K: Field>(a: &Mat, rows: &[u32], b: &mut Mat) -> u32
    requires square { cols a.now ≡ a.now.rows }
    requires same_rows { b.old.rows ≡ a.now.rows }
    requires list { a.now.rows ≤ length rows.now }
    requires pivots { AreRows rows.now 0 a.now.rows a.now.rows }
    requires a_words { AreWords K.MODULUS a.now }
    requires b_words { AreWords K.MODULUS b.old }
    ensures matrix { b.new ≡ (factors_solved K.MODULUS (inverse K.MODULUS) a.now rows.now b.old).matrix }
    ensures info { result ≡ (factors_solved K.MODULUS (inverse K.MODULUS) a.now rows.now b.old).info }
{
    let count = a.rows();
    let info = first_zero(a, count);
    if info == 0 {
        exchange_rows(b, rows, 0, count);
        let lower = Triangle {
            is_lower: true,
            is_unit: true,
        };
        substitute::<K>(lower, a, b);
        let upper = Triangle {
            is_lower: false,
            is_unit: false,
        };
        substitute::<K>(upper, a, b);
    }
    info
}
