//! Sums with a transpose, solves with a triangle from either side and solves with the factors of a transpose. Expected values are a Python
//! computation's, by Gauss and Jordan over whole numbers modulo the prime.
ghost use Rattle.std.specs.Prelude.{◌≡◌, if◌then◌else◌};
ghost use Rattle.run_data.specs.Matrix.{cols};

use crate::checks::{check_number, check_numbers, check_rows, check_square, check_words, matrix};
use field_core::F65537;
use run_data::Mat;
use serial_machine::{Triangle, add_transpose, solve_from_side, solve_with_transpose};
use std::alloc::Global;
use std::process::Abort;

/// Stops where a matrix has not the shape of another one's transpose.
fn check_turned(rt: &impl Abort, m: &Mat, other: &Mat)
    ensures rows { m.now.rows ≡ cols other.now }
    ensures columns { cols m.now ≡ other.now.rows }
{
    assert!(rt; m.rows() == other.cols() && m.cols() == other.rows());
}

#[test]
fn a_transpose_is_added(rt: HostRuntime) {
    let a = matrix(&rt, rt.alloc(), 2, 3, &[1, 2, 3, 4, 5, 65536]);
    let mut c = matrix(&rt, rt.alloc(), 3, 2, &[1, 0, 65536, 7, 8, 9]);
    check_turned(&rt, &a, &c);
    check_words::<F65537>(&rt, &a);
    check_words::<F65537>(&rt, &c);
    add_transpose::<F65537>(2, &a, 3, &mut c);
    check_numbers(&rt, 0, c.words(), &[5, 6, 7, 25, 32, 25]);
}

/// Stops where a matrix has not `n` rows, or from the right side not `n` columns.
fn check_side(rt: &impl Abort, is_left: bool, b: &Mat, n: u32)
    ensures { (if is_left then b.now.rows else cols b.now) ≡ n }
{
    if is_left {
        assert!(rt; b.rows() == n);
    } else {
        assert!(rt; b.cols() == n);
    }
}

// Whether the solve is from the left, with the transpose, with the lower triangle and with a diagonal of ones, and the words of its solution.
type Row<'a> = (bool, bool, bool, bool, &'a [u32]);

/// Stops where twice a matrix is solved to something else, by a triangle of a matrix of 3 rows.
fn check_sides(rt: &impl Abort, alloc: Global, table: &[Row<'_>]) {
    let a = matrix(rt, alloc, 3, 3, &[2, 4, 6, 3, 5, 8, 7, 9, 1]);
    check_square(rt, &a);
    check_words::<F65537>(rt, &a);
    for (row, (is_left, is_transposed, is_lower, is_unit, want)) in table.iter().enumerate() {
        let triangle = Triangle {
            is_lower: *is_lower,
            is_unit: *is_unit,
        };
        let rows = if *is_left { 3 } else { 2 };
        let mut b = matrix(rt, alloc, rows, 5 - rows, &[1, 2, 3, 4, 5, 6]);
        check_side(rt, *is_left, &b, a.rows());
        check_words::<F65537>(rt, &b);
        let info = solve_from_side::<F65537>(
            alloc,
            *is_left,
            *is_transposed,
            triangle,
            2,
            &a,
            &mut b,
        ).expect(rt, "memory for a solve");
        check_number(rt, row, info, 0);
        check_numbers(rt, row, b.words(), want);
    }
}

#[test]
fn sides_are_solved(rt: HostRuntime) {
    check_sides(
        &rt,
        rt.alloc(),
        &[
            (true, false, true, false, &[1, 0, 0, 4, 39321, 13105]),
            (true, false, false, true, &[110, 65487, 6, 218, 65439, 12]),
            (true, true, true, true, &[142, 65493, 6, 280, 65451, 12]),
            (
                true,
                true,
                false,
                false,
                &[1, 26215, 26212, 4, 13107, 13095],
            ),
            (false, false, true, true, &[238, 284, 65463, 65449, 10, 12]),
            (
                false,
                false,
                false,
                false,
                &[1, 2, 13108, 52430, 13105, 52424],
            ),
            (false, true, true, false, &[1, 2, 52430, 0, 39323, 0]),
            (false, true, false, true, &[184, 220, 65453, 65437, 10, 12]),
        ],
    );
}

/// Stops where a solve with the transpose of factors gives other words or another INFO, by the row of a table.
fn check_transpose(
    rt: &impl Abort,
    alloc: Global,
    row: usize,
    factors: &Mat,
    b: &mut Mat,
    info: u32,
    want: &[u32],
) {
    let pivots = [2, 2, 3];
    check_square(rt, factors);
    check_words::<F65537>(rt, factors);
    check_rows(rt, &pivots, factors.rows());
    check_side(rt, true, b, factors.rows());
    check_words::<F65537>(rt, b);
    let found = solve_with_transpose::<F65537>(alloc, factors, &pivots, b).expect(
        rt,
        "memory for a solve",
    );
    check_number(rt, row, found, info);
    check_numbers(rt, row, b.words(), want);
}

/// Factors whose rows changed places; where a 0 stands on the diagonal the other matrix stays.
#[test]
fn transposes_of_factors_are_solved(rt: HostRuntime) {
    let alloc = rt.alloc();
    let factors = matrix(&rt, alloc, 3, 3, &[2, 0, 2, 3, 1, 65536, 1, 7, 7]);
    let solved = [14044, 4682, 46812, 9363, 46811, 9364];
    let mut b = matrix(&rt, alloc, 3, 2, &[1, 2, 3, 4, 5, 6]);
    check_transpose(&rt, alloc, 0, &factors, &mut b, 0, &solved);
    let singular = matrix(&rt, alloc, 3, 3, &[2, 0, 2, 3, 1, 65536, 1, 7, 0]);
    check_transpose(&rt, alloc, 1, &singular, &mut b, 3, &solved);
}
