//! The elimination of one matrix by panels. Expected values are those of worked examples of the factorization, done by hand, and not this
//! program's own output.
ghost use Rattle.std.specs.Prelude.{◌≡◌, ◌≤◌, length};
ghost use Rattle.run_data.specs.Matrix.{cols};
ghost use Rattle.local_blas.specs.Kernels.{AreWords};
ghost use Rattle.elimination.specs.Whole.{AreRows};

use elimination::by_panels::eliminate_by_panels;
use elimination::whole::{carry, eliminate_strip, eliminate_strip_column, exchange_rows};
use field_core::{F65537, Field};
use run_data::Mat;
use std::alloc::Global;
use std::panic::Expect;
use std::process::Abort;

/// What an elimination leaves of a matrix, the rows of its pivots, and INFO.
#[derive(Drop)]
struct Left {
    matrix: Mat,
    pivots: Vec<u32>,
    info: u32,
}

/// The matrix with these words, column by column.
fn matrix(rt: &impl Abort, alloc: Global, rows: u32, cols: u32, words: &[u32]) -> Mat {
    let mut m = Mat::zeros(alloc, rows, cols).expect(rt, "memory for a matrix");
    let place = m.words_mut();
    assert!(rt; place.len() == words.len());
    place.copy_from_slice(words);
    m
}

/// Stops where a word is not below the modulus.
fn check_words<K: Field>(rt: &impl Abort, m: &Mat)
    ensures { AreWords K.MODULUS m.now }
{
    assert!(rt; m.has_words_below(K::MODULUS));
}

/// Stops where a matrix has fewer rows or columns than these.
fn check_room(rt: &impl Abort, m: &Mat, rows: u32, columns: u32)
    ensures rows { rows ≤ m.now.rows }
    ensures columns { columns ≤ cols m.now }
{
    assert!(rt; rows <= m.rows() && columns <= m.cols());
}

/// Stops where one of the first `n` numbers is no row of a matrix of `rows` rows.
fn check_rows(rt: &impl Abort, pivots: &[u32], n: u32, rows: u32)
    ensures rows { AreRows pivots.now 0 n rows }
    ensures count { n ≤ length pivots.now }
{
    assert!(rt; n as usize <= pivots.len());
    for k in 0..n {
        assert!(rt; pivots[k as usize] > 0 && pivots[k as usize] <= rows);
    }
}

/// Stops where numbers are others, by the row of a table.
fn check_numbers(rt: &impl Abort, row: usize, numbers: &[u32], want: &[u32]) {
    assert_eq!(rt; numbers, want, "row {row}");
}

/// Stops where a matrix has other words, column by column, the pivots are others, or INFO is another.
fn check_left(rt: &impl Abort, row: usize, left: &Left, words: &[u32], pivots: &[u32], info: u32) {
    check_numbers(rt, row, left.matrix.words(), words);
    check_numbers(rt, row, &left.pivots, pivots);
    check_numbers(rt, row, &[left.info], &[info]);
}

/// The rows of the first pivots change places with those of the pivots.
fn exchanged(rt: &impl Abort, mut m: Mat, pivots: &[u32], n: u32) -> Mat {
    let rows = m.rows();
    check_room(rt, &m, n, 0);
    check_rows(rt, pivots, n, rows);
    exchange_rows(&mut m, pivots, 0, n);
    m
}

#[test]
fn rows_are_exchanged_in_order(rt: HostRuntime) {
    let m = matrix(&rt, rt.alloc(), 3, 1, &[1, 2, 3]);
    let left = exchanged(&rt, m, &[3, 3], 2);
    check_numbers(&rt, 0, left.words(), &[3, 1, 2]);
}

/// The first column of a matrix is eliminated.
fn column_eliminated(rt: &impl Abort, alloc: Global, mut matrix: Mat) -> Left {
    let mut pivots = Vec::new(alloc);
    check_room(rt, &matrix, 1, 1);
    check_words::<F65537>(rt, &matrix);
    eliminate_strip_column::<F65537>(alloc, &mut matrix, &mut pivots, 0, 0).expect(
        rt,
        "memory for a column",
    );
    Left {
        matrix,
        pivots,
        info: 0,
    }
}

#[test]
fn a_column_is_eliminated(rt: HostRuntime) {
    let m = matrix(&rt, rt.alloc(), 2, 2, &[0, 2, 1, 3]);
    let left = column_eliminated(&rt, rt.alloc(), m);
    check_left(&rt, 0, &left, &[2, 0, 3, 1], &[2], 0);
}

/// The first `n` columns of a matrix are eliminated.
fn strip_eliminated(rt: &impl Abort, alloc: Global, mut matrix: Mat, n: u32) -> Left {
    let mut pivots = Vec::new(alloc);
    check_room(rt, &matrix, n, n);
    check_words::<F65537>(rt, &matrix);
    eliminate_strip::<F65537>(alloc, &mut matrix, &mut pivots, 0, n).expect(
        rt,
        "memory for a strip",
    );
    Left {
        matrix,
        pivots,
        info: 0,
    }
}

/// The first `n` columns of a matrix are eliminated one after another.
fn columns_eliminated(rt: &impl Abort, alloc: Global, mut matrix: Mat, n: u32) -> Left {
    let mut pivots = Vec::new(alloc);
    for j in 0..n {
        check_room(rt, &matrix, j + 1, j + 1);
        check_words::<F65537>(rt, &matrix);
        eliminate_strip_column::<F65537>(alloc, &mut matrix, &mut pivots, 0, j).expect(
            rt,
            "memory for a column",
        );
    }
    Left {
        matrix,
        pivots,
        info: 0,
    }
}

/// A matrix of mixed words, of which the words of the columns 5 and 20 are zeros, and those at the
/// head of the first.
fn mixed(rt: &impl Abort, alloc: Global, rows: u32, cols: u32) -> Mat {
    let mut m = Mat::zeros(alloc, rows, cols).expect(rt, "memory for a matrix");
    let place = m.words_mut();
    let mut word: u32 = 1;
    for (k, x) in place.iter_mut().enumerate() {
        word = word.wrapping_mul(25173).wrapping_add(13849) % 65536;
        let column = k / (rows as usize).max(1);
        if k > 2 && column != 5 && column != 20 {
            *x = word;
        }
    }
    m
}

/// Stops where a strip that is eliminated by halves is another than one by columns.
fn check_halves(rt: &impl Abort, alloc: Global, row: usize, rows: u32, cols: u32, n: u32) {
    let strip = mixed(rt, alloc, rows, cols);
    let again = mixed(rt, alloc, rows, cols);
    let left = strip_eliminated(rt, alloc, strip, n);
    let want = columns_eliminated(rt, alloc, again, n);
    check_left(rt, row, &left, want.matrix.words(), &want.pivots, 0);
}

/// Strips of more columns than are eliminated one after another, with as many rows, with more and
/// with fewer, and with columns right of those that are eliminated.
#[test]
fn halves_are_columns(rt: HostRuntime) {
    let alloc = rt.alloc();
    check_halves(&rt, alloc, 0, 40, 40, 40);
    check_halves(&rt, alloc, 1, 53, 41, 41);
    check_halves(&rt, alloc, 2, 37, 49, 37);
    check_halves(&rt, alloc, 3, 45, 45, 17);
}

/// Stops where two matrices have not as many rows.
fn check_height(rt: &impl Abort, m: &Mat, other: &Mat)
    ensures { m.now.rows ≡ other.now.rows }
{
    assert!(rt; m.rows() == other.rows());
}

/// The panel of the first `n` columns goes over a matrix.
fn carried(rt: &impl Abort, alloc: Global, panel: &Left, mut right: Mat, n: u32) -> Mat {
    let rows = right.rows();
    check_height(rt, &panel.matrix, &right);
    check_room(rt, &right, n, 0);
    check_room(rt, &panel.matrix, n, n);
    check_words::<F65537>(rt, &panel.matrix);
    check_words::<F65537>(rt, &right);
    check_rows(rt, &panel.pivots, n, rows);
    carry::<F65537>(alloc, &mut right, &panel.matrix, &panel.pivots, 0, n).expect(
        rt,
        "memory for a panel",
    );
    right
}

/// The first three columns of three by five, a panel of two and a narrow one: what the panel is,
/// and what it carries the other columns to.
#[test]
fn a_panel_is_carried(rt: HostRuntime) {
    let alloc = rt.alloc();
    let panel = matrix(&rt, alloc, 3, 2, &[1, 2, 1, 2, 4, 3]);
    let right = matrix(&rt, alloc, 3, 3, &[3, 7, 3, 4, 8, 5, 5, 9, 6]);
    let left = strip_eliminated(&rt, alloc, panel, 2);
    let right = carried(&rt, alloc, &left, right, 2);
    check_left(&rt, 0, &left, &[1, 1, 2, 2, 1, 0], &[1, 3], 0);
    check_numbers(&rt, 0, right.words(), &[3, 0, 1, 4, 1, 0, 5, 1, 65536]);
}

/// Columns without a pivot: their numbers are their own.
#[test]
fn zeros_are_left(rt: HostRuntime) {
    let zeros = matrix(&rt, rt.alloc(), 3, 3, &[0; 9]);
    let left = strip_eliminated(&rt, rt.alloc(), zeros, 3);
    check_left(&rt, 0, &left, &[0; 9], &[1, 2, 3], 0);
}

/// A matrix of these words, column by column, is eliminated by panels of `nb` columns.
fn eliminated(rt: &impl Abort, alloc: Global, rows: u32, nb: u32, words: &[u32]) -> Left {
    assert!(rt; rows > 0 && nb > 0 && words.len() < 100);
    let cols = words.len() as u32 / rows;
    let mut matrix = matrix(rt, alloc, rows, cols, words);
    check_words::<F65537>(rt, &matrix);
    let found = eliminate_by_panels::<F65537>(alloc, &mut matrix, nb).expect(
        rt,
        "memory for a panel",
    );
    Left {
        matrix,
        pivots: found.pivots,
        info: found.info,
    }
}

// Rows, the columns of a panel, the words of a matrix, and the words, the pivots and INFO that its elimination leaves.
type Row<'a> = (u32, u32, &'a [u32], &'a [u32], &'a [u32], u32);

/// Stops where an elimination by panels leaves or finds something else.
fn check_eliminations(rt: &impl Abort, alloc: Global, table: &[Row<'_>]) {
    for (row, (rows, nb, words, left, pivots, info)) in table.iter().enumerate() {
        let found = eliminated(rt, alloc, *rows, *nb, words);
        check_left(rt, row, &found, left, pivots, *info);
    }
}

/// A quotient that is no small number.
#[test]
fn quotients_wrap(rt: HostRuntime) {
    check_eliminations(
        &rt,
        rt.alloc(),
        &[(2, 1, &[2, 1, 1, 1], &[2, 32769, 1, 32769], &[1, 2], 0)],
    );
}

/// A zero at the head of the first column, and a zero left on the diagonal.
#[test]
fn rows_change_places_or_none_is_left(rt: HostRuntime) {
    check_eliminations(
        &rt,
        rt.alloc(),
        &[
            (2, 1, &[0, 2, 1, 3], &[2, 0, 3, 1], &[2, 2], 0),
            (2, 1, &[1, 2, 2, 4], &[1, 2, 2, 0], &[1, 2], 2),
        ],
    );
}

/// Panels without any pivot.
#[test]
fn zeros_have_no_pivots(rt: HostRuntime) {
    check_eliminations(&rt, rt.alloc(), &[(3, 2, &[0; 9], &[0; 9], &[1, 2, 3], 1)]);
}

/// Fewer rows than columns, and fewer columns than rows, by a panel of two columns and a narrow
/// one.
#[test]
fn the_last_panel_is_narrow(rt: HostRuntime) {
    check_eliminations(
        &rt,
        rt.alloc(),
        &[
            (
                3,
                2,
                &[1, 2, 1, 2, 4, 3, 3, 7, 3, 4, 8, 5, 5, 9, 6],
                &[1, 1, 2, 2, 1, 0, 3, 0, 1, 4, 1, 0, 5, 1, 65536],
                &[1, 3, 3],
                0,
            ),
            (
                5,
                2,
                &[1, 2, 3, 4, 5, 2, 4, 7, 8, 9, 1, 3, 3, 5, 6],
                &[1, 3, 2, 4, 5, 2, 1, 0, 0, 65536, 1, 0, 1, 1, 1],
                &[1, 3, 3],
                0,
            ),
        ],
    );
}

/// A column without a pivot between two that have one, by panels of one, two and five columns.
#[test]
fn a_column_without_a_pivot_ends_nothing(rt: HostRuntime) {
    let words = [1, 1, 2, 2, 2, 4, 3, 4, 9];
    let left = [1, 1, 2, 2, 0, 0, 3, 1, 3];
    check_eliminations(
        &rt,
        rt.alloc(),
        &[
            (3, 1, &words, &left, &[1, 2, 3], 2),
            (3, 2, &words, &left, &[1, 2, 3], 2),
            (3, 5, &words, &left, &[1, 2, 3], 2),
        ],
    );
}
