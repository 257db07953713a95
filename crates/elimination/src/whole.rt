//! Panels on one matrix, by the kernels: what the ranks of a grid do, with one rank.

ghost use Rattle.std.specs.Prelude.{◌≡◌, ℕ, ◌+◌, ◌-◌, ◌<◌, ◌≤◌, length, slice_index, IfOk, List};
ghost use Rattle.field_core.specs.Residue.{inverse};
ghost use Rattle.run_data.specs.Matrix.{Matrix, cols, entry};
ghost use Rattle.local_blas.specs.Kernels.{AreWords};
ghost use Rattle.serial_model.specs.Elimination.{eliminate_column, eliminate_columns};
ghost use Rattle.elimination.specs.Whole.{AreRows, with_rows_exchanged, with_carried, strip_of_words, strip_state};

use crate::columns::{columns_of, put_columns};
use field_core::Field;
use local_blas::{eliminate, first_nonzero, mul_add, solve_lower, swap_rows};
use run_data::{Mat, Part};
use std::alloc::{AllocError, Global};

/// A strip of which at most so many columns are eliminated is not cut in two.
const NARROW: u32 = 8;

/// The rows `first`, .., `first + n - 1` change places with those of the pivots, in order.
pub fn exchange_rows(x: &mut Mat, pivots: &[u32], first: u32, n: u32)
    requires inside { first + n ≤ x.old.rows }
    requires list { first + n ≤ length pivots.now }
    requires rows { AreRows pivots.now first n x.old.rows }
    ensures { x.new ≡ with_rows_exchanged x.old pivots.now first n }
{
    let _shaped = x.rows();
    for j in 0..n {
        let row = pivots[(first + j) as usize] - 1;
        swap_rows(x, first + j, row);
    }
}

/// A panel of `n` columns from `first` on, whose words stand in `panel`, goes over the columns of `x`.
pub fn carry<K: Field>(
    alloc: Global,
    x: &mut Mat,
    panel: &Mat,
    pivots: &[u32],
    first: u32,
    n: u32,
) -> Result<(), AllocError>
    requires inside { first + n ≤ x.old.rows }
    requires panel_rows { panel.now.rows ≡ x.old.rows }
    requires panel_columns { n ≤ cols panel.now }
    requires list { first + n ≤ length pivots.now }
    requires rows { AreRows pivots.now first n x.old.rows }
    requires words { AreWords K.MODULUS x.old }
    requires panel_words { AreWords K.MODULUS panel.now }
    ensures { IfOk result (λ _. x.new ≡ with_carried K.MODULUS (inverse K.MODULUS) x.old panel.now pivots.now first n) }
{
    let rows = x.rows();
    let cols = x.cols();
    exchange_rows(x, pivots, first, n);
    let among = Part {
        r0: first,
        r1: first + n,
        c0: 0,
        c1: cols,
    };
    let triangle = Part {
        r0: first,
        r1: first + n,
        c0: 0,
        c1: n,
    };
    solve_lower::<K>(x, among, panel, triangle, true);
    let solved = x.part(alloc, among)?;
    let below = Part {
        r0: first + n,
        r1: rows,
        c0: 0,
        c1: cols,
    };
    let multipliers = Part {
        r0: first + n,
        r1: rows,
        c0: 0,
        c1: n,
    };
    let all = Part {
        r0: 0,
        r1: n,
        c0: 0,
        c1: cols,
    };
    let minus_one = K::MODULUS - 1;
    mul_add::<K>(x, below, minus_one, panel, multipliers, &solved, all);
    Ok(())
}

/// Column `j` of the strip `a`, which begins at column `first` of the whole, is eliminated, and
/// its pivot's row is added to the list.
pub fn eliminate_strip_column<K: Field>(
    alloc: Global,
    a: &mut Mat,
    pivots: &mut Vec<u32>,
    first: u32,
    j: u32,
) -> Result<(), AllocError>
    requires inside { first + j < a.old.rows }
    requires column { j < cols a.old }
    requires words { AreWords K.MODULUS a.old }
    ensures matrix { IfOk result (λ _. a.new ≡ strip_of_words a.old.rows (cols a.old) first (eliminate_column K.MODULUS (inverse K.MODULUS) a.old.rows (first + j) (strip_state first a.old pivots.old.items)).words) }
    ensures list { IfOk result (λ _. pivots.new.items ≡ (eliminate_column K.MODULUS (inverse K.MODULUS) a.old.rows (first + j) (strip_state first a.old pivots.old.items)).pivots) }
{
    let _shaped = a.rows();
    let cols = a.cols();
    match first_nonzero(a, j, first + j) {
        None => {
            pivots.push(first + j + 1)?;
            Ok(())
        }
        Some(r) => {
            swap_rows(a, first + j, r);
            let row = a.part(
                alloc,
                Part {
                    r0: first + j,
                    r1: first + j + 1,
                    c0: 0,
                    c1: cols,
                },
            )?;
            eliminate::<K>(a, first + j + 1, j, &row);
            pivots.push(r + 1)?;
            Ok(())
        }
    }
}

/// The first `n` columns of the strip `a`, which begins at column `first` of the whole, are
/// eliminated one after another, and their pivots' rows are added to the list.
fn eliminate_narrow_strip<K: Field>(
    alloc: Global,
    a: &mut Mat,
    pivots: &mut Vec<u32>,
    first: u32,
    n: u32,
) -> Result<(), AllocError>
    requires inside { first + n ≤ a.old.rows }
    requires columns { n ≤ cols a.old }
    requires count { length pivots.old.items ≡ first }
    requires words { AreWords K.MODULUS a.old }
    ensures matrix { IfOk result (λ _. a.new ≡ strip_of_words a.old.rows (cols a.old) first (eliminate_columns K.MODULUS (inverse K.MODULUS) a.old.rows first n (strip_state first a.old pivots.old.items)).words) }
    ensures list { IfOk result (λ _. pivots.new.items ≡ (eliminate_columns K.MODULUS (inverse K.MODULUS) a.old.rows first n (strip_state first a.old pivots.old.items)).pivots) }
{
    let _shaped = a.rows();
    for j in 0..n {
        eliminate_strip_column::<K>(alloc, a, pivots, first, j)?;
    }
    Ok(())
}

/// The first `n` columns of the strip `a`, which begins at column `first` of the whole, are
/// eliminated, and their pivots' rows are added to the list: first one half of them, which is
/// carried to all columns right of it, and then the other.
pub fn eliminate_strip<K: Field>(
    alloc: Global,
    a: &mut Mat,
    pivots: &mut Vec<u32>,
    first: u32,
    n: u32,
) -> Result<(), AllocError>
    requires inside { first + n ≤ a.old.rows }
    requires columns { n ≤ cols a.old }
    requires count { length pivots.old.items ≡ first }
    requires words { AreWords K.MODULUS a.old }
    ensures matrix { IfOk result (λ _. a.new ≡ strip_of_words a.old.rows (cols a.old) first (eliminate_columns K.MODULUS (inverse K.MODULUS) a.old.rows first n (strip_state first a.old pivots.old.items)).words) }
    ensures list { IfOk result (λ _. pivots.new.items ≡ (eliminate_columns K.MODULUS (inverse K.MODULUS) a.old.rows first n (strip_state first a.old pivots.old.items)).pivots) }
{
    let _shaped = a.rows();
    if n <= NARROW {
        return eliminate_narrow_strip::<K>(alloc, a, pivots, first, n);
    }
    let half = n / 2;
    let end = a.cols();
    let mut left = columns_of(alloc, a, 0, half)?;
    let mut right = columns_of(alloc, a, half, end)?;
    eliminate_strip::<K>(alloc, &mut left, pivots, first, half)?;
    carry::<K>(alloc, &mut right, &left, pivots, first, half)?;
    eliminate_strip::<K>(alloc, &mut right, pivots, first + half, n - half)?;
    exchange_rows(&mut left, pivots, first + half, n - half);
    put_columns(a, 0, half, &left);
    put_columns(a, half, end, &right);
    Ok(())
}
