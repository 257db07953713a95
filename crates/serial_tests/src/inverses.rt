//! Inverses. Expected values are done by hand, and that of a larger matrix is tested by the product.
ghost use Rattle.run_data.specs.Parts.{IsWithin};

use crate::checks::{check_number, check_numbers, check_rows, check_square, check_words, matrix};
use field_core::F65537;
use local_blas::mul_add;
use run_data::{Mat, Part};
use serial_machine::{inverse, invert_with_factors};
use std::alloc::Global;
use std::process::Abort;

/// The words of the inverse of a square matrix, or none.
fn inverse_of(rt: &impl Abort, alloc: Global, m: &Mat) -> Option<Mat> {
    check_words::<F65537>(rt, m);
    check_square(rt, m);
    inverse::<F65537>(alloc, m).expect(rt, "memory for an inverse")
}

// The rows of a square matrix, its words, and those of its inverse, none where it has no inverse.
type Row<'a> = (u32, &'a [u32], &'a [u32]);

/// Stops where a matrix has another inverse.
fn check_inverses(rt: &impl Abort, alloc: Global, table: &[Row<'_>]) {
    for (row, (n, words, want)) in table.iter().enumerate() {
        let m = matrix(rt, alloc, *n, *n, words);
        match inverse_of(rt, alloc, &m) {
            Some(x) => check_numbers(rt, row, x.words(), want),
            None => check_numbers(rt, row, &[], want),
        }
    }
}

/// One word, a matrix whose first pivot is in its first row, one whose rows change places, and two that are singular.
#[test]
fn matrices_have_inverses(rt: HostRuntime) {
    check_inverses(
        &rt,
        rt.alloc(),
        &[
            (1, &[3], &[21846]),
            (2, &[2, 1, 1, 1], &[1, 65536, 65536, 2]),
            (2, &[0, 2, 1, 3], &[32767, 1, 32769, 0]),
            (2, &[1, 2, 2, 4], &[]),
            (1, &[0], &[]),
        ],
    );
}

/// Many words, each from the square of the one before it and its place.
fn many_words(rt: &impl Abort, alloc: Global, count: u32) -> Vec<u32> {
    let mut words = Vec::new(alloc);
    let mut word = 1u32;
    for place in 0..count {
        word = word.wrapping_mul(word).wrapping_add(place) % 65537;
        words.push(word).expect(rt, "memory for words");
    }
    words
}

/// The words of the matrix of `n` rows with ones on the diagonal and zeros elsewhere.
fn ones(rt: &impl Abort, alloc: Global, n: usize) -> Vec<u32> {
    let mut words = Vec::new(alloc);
    for j in 0..n {
        for i in 0..n {
            words.push(u32::from(i == j)).expect(rt, "memory for words");
        }
    }
    words
}

/// All of a matrix.
fn all_of(m: &Mat) -> Part
    ensures { IsWithin result m.now }
{
    Part {
        r0: 0,
        r1: m.rows(),
        c0: 0,
        c1: m.cols(),
    }
}

/// The product of two square matrices.
fn product(rt: &impl Abort, alloc: Global, left: &Mat, right: &Mat) -> Mat {
    let mut sum = Mat::zeros(alloc, left.rows(), right.cols()).expect(rt, "memory for a product");
    let (at, of_left, of_right) = (all_of(&sum), all_of(left), all_of(right));
    assert!(rt; of_left.c1 - of_left.c0 == of_right.r1 - of_right.r0);
    assert!(rt;
        at.r1 - at.r0 == of_left.r1 - of_left.r0 && at.c1 - at.c0 == of_right.c1 - of_right.c0
    );
    check_words::<F65537>(rt, &sum);
    check_words::<F65537>(rt, left);
    check_words::<F65537>(rt, right);
    mul_add::<F65537>(&mut sum, at, 1, left, of_left, right, of_right);
    sum
}

/// The product of a matrix of 40 rows and its inverse has ones on the diagonal, and zeros elsewhere.
#[test]
fn an_inverse_multiplies_to_ones(rt: HostRuntime) {
    let alloc = rt.alloc();
    let words = many_words(&rt, alloc, 1600);
    let m = matrix(&rt, alloc, 40, 40, &words);
    let x = inverse_of(&rt, alloc, &m).expect(&rt, "an inverse");
    check_numbers(
        &rt,
        0,
        product(&rt, alloc, &m, &x).words(),
        &ones(&rt, alloc, 40),
    );
}

/// A matrix after `invert_with_factors`, and INFO.
fn inverted(rt: &impl Abort, alloc: Global, factors: &Mat, pivots: &[u32], b: &mut Mat) -> u32 {
    check_square(rt, factors);
    check_words::<F65537>(rt, factors);
    check_rows(rt, pivots, factors.rows());
    invert_with_factors::<F65537>(alloc, factors, pivots, b).expect(rt, "memory for an inverse")
}

/// From the factors of a matrix whose rows change places; where INFO is not 0 the other matrix stays.
#[test]
fn factors_are_inverted(rt: HostRuntime) {
    let alloc = rt.alloc();
    let factors = matrix(&rt, alloc, 2, 2, &[2, 0, 3, 1]);
    let mut b = matrix(&rt, alloc, 2, 2, &[7, 8, 9, 10]);
    check_number(&rt, 0, inverted(&rt, alloc, &factors, &[2, 2], &mut b), 0);
    check_numbers(&rt, 0, b.words(), &[32767, 1, 32769, 0]);
    let singular = matrix(&rt, alloc, 2, 2, &[1, 2, 2, 0]);
    check_number(&rt, 1, inverted(&rt, alloc, &singular, &[1, 2], &mut b), 2);
    check_numbers(&rt, 1, b.words(), &[32767, 1, 32769, 0]);
}
