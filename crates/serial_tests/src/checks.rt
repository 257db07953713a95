//! Matrices for tests, what calls ask of them, and one comparison for each type.
ghost use Rattle.std.specs.Prelude.{◌≡◌, ◌≤◌, length};
ghost use Rattle.run_data.specs.Matrix.{cols};
ghost use Rattle.local_blas.specs.Kernels.{AreWords};
ghost use Rattle.elimination.specs.Whole.{AreRows};

use field_core::Field;
use run_data::Mat;
use std::alloc::Global;
use std::process::Abort;

/// The matrix with these words, column by column.
pub(crate) fn matrix(rt: &impl Abort, alloc: Global, rows: u32, cols: u32, words: &[u32]) -> Mat {
    let mut m = Mat::zeros(alloc, rows, cols).expect(rt, "memory for a matrix");
    let place = m.words_mut();
    assert!(rt; place.len() == words.len());
    place.copy_from_slice(words);
    m
}

/// Stops where a word is not below the modulus.
pub(crate) fn check_words<K: Field>(rt: &impl Abort, m: &Mat)
    ensures { AreWords K.MODULUS m.now }
{
    assert!(rt; m.has_words_below(K::MODULUS));
}

/// Stops where a matrix is not square.
pub(crate) fn check_square(rt: &impl Abort, m: &Mat)
    ensures { cols m.now ≡ m.now.rows }
{
    assert!(rt; m.cols() == m.rows());
}

/// Stops where a number is another, by the row of a table.
pub(crate) fn check_number(rt: &impl Abort, row: usize, number: u32, want: u32)
    ensures { number ≡ want }
{
    assert_eq!(rt; number, want, "row {row}");
}

/// Stops where numbers are others, by the row of a table.
pub(crate) fn check_numbers(rt: &impl Abort, row: usize, numbers: &[u32], want: &[u32]) {
    assert_eq!(rt; numbers, want, "row {row}");
}

/// Stops where one of the first `n` numbers is no row of a matrix of `n` rows.
pub(crate) fn check_rows(rt: &impl Abort, pivots: &[u32], n: u32)
    ensures rows { AreRows pivots.now 0 n n }
    ensures count { n ≤ length pivots.now }
{
    assert!(rt; n as usize <= pivots.len());
    for k in 0..n {
        assert!(rt; pivots[k as usize] > 0 && pivots[k as usize] <= n);
    }
}
