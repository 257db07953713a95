//! The solve with the transpose of a matrix, from its factors.
ghost use Rattle.std.specs.Prelude.{◌≡◌, ◌<◌, ◌≤◌, true, length, IfOk};
ghost use Rattle.field_core.specs.Residue.{inverse};
ghost use Rattle.run_data.specs.Matrix.{Matrix, cols};
ghost use Rattle.local_blas.specs.Kernels.{AreWords};
ghost use Rattle.elimination.specs.Whole.{AreRows};
ghost use Rattle.serial_model.specs.Transposes.{trans_solved};
ghost use Rattle.serial_machine.specs.Solved.{with_rows_back};

use crate::sides::transpose_of;
use crate::solves::{Triangle, substitute};
use elimination::by_panels::first_zero;
use field_core::Field;
use local_blas::swap_rows;
use run_data::Mat;
use std::alloc::{AllocError, Global};

/// Rows n, .., 1 change places with the rows that the list gives, in falling order.
fn exchange_rows_back(x: &mut Mat, pivots: &[u32], n: u32)
    requires inside { n ≤ x.old.rows }
    requires list { n ≤ length pivots.now }
    requires rows { AreRows pivots.now 0 n x.old.rows }
    ensures { x.new ≡ with_rows_back x.old pivots.now 0 n }
{
    let _shaped = x.rows();
    for k in 0..n {
        let j = n - 1 - k;
        let row = pivots[j as usize] - 1;
        swap_rows(x, j, row);
    }
}

/// B becomes the X with A^T X = B, from the factors and the pivots' rows of the square A (PGETRS with TRANS T). INFO is the number,
/// from 1, of the first 0 on the diagonal, or 0 where there is none; where it is not 0, B stays.
pub fn solve_with_transpose<K: Field>(
    alloc: Global,
    a: &Mat,
    rows: &[u32],
    b: &mut Mat,
) -> Result<u32, AllocError>
    requires square { cols a.now ≡ a.now.rows }
    requires same_rows { b.old.rows ≡ a.now.rows }
    requires list { a.now.rows ≤ length rows.now }
    requires pivots { AreRows rows.now 0 a.now.rows a.now.rows }
    requires a_words { AreWords K.MODULUS a.now }
    requires b_words { AreWords K.MODULUS b.old }
    ensures matrix { IfOk result (λ _. b.new ≡ (trans_solved K.MODULUS (inverse K.MODULUS) true a.now rows.now b.old).matrix) }
    ensures info { IfOk result (λ i. i ≡ (trans_solved K.MODULUS (inverse K.MODULUS) true a.now rows.now b.old).info) }
{
    let count = a.rows();
    let info = first_zero(a, count);
    if info == 0 {
        let turned = transpose_of(alloc, a)?;
        let lower = Triangle {
            is_lower: true,
            is_unit: false,
        };
        substitute::<K>(lower, &turned, b);
        let upper = Triangle {
            is_lower: false,
            is_unit: true,
        };
        substitute::<K>(upper, &turned, b);
        exchange_rows_back(b, rows, count);
    }
    Ok(info)
}
