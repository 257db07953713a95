//! Kernels on parts. Expected values are a Python computation's, over whole numbers modulo the prime.
ghost use Rattle.std.specs.Prelude.{◌≡◌, ◌≢◌, ℕ, ◌-◌, ◌<◌, false};
ghost use Rattle.run_data.specs.Parts.{IsWithin, part_entry};
ghost use Rattle.local_blas.specs.Kernels.{AreWords};

use crate::checks::{check_is, check_number, check_shape, check_within, matrix, put, zeros};
use field_core::{F65521, F65537, Field};
use local_blas::{
    Mat, Part, add_scaled, eliminate, first_nonzero, mul_add, scale, solve_lower, solve_upper,
    swap_rows,
};
use std::alloc::Global;
use std::process::Abort;

/// All of a matrix.
fn whole(m: &Mat) -> Part
    ensures { IsWithin result m.now }
{
    Part {
        r0: 0,
        r1: m.rows(),
        c0: 0,
        c1: m.cols(),
    }
}

/// Stops where a word is not below the modulus.
fn check_words<K: Field>(rt: &impl Abort, m: &Mat)
    ensures { AreWords K.MODULUS m.now }
{
    assert!(rt; m.has_words_below(K::MODULUS));
}

/// Stops where the diagonal of a square part has a 0 and does not count as 1.
fn check_diagonal(rt: &impl Abort, block: &Mat, bp: Part, unit: bool)
    requires within { IsWithin bp block.now }
    requires square { bp.r1 - bp.r0 ≡ bp.c1 - bp.c0 }
    ensures { unit ≡ false → (i : ℕ) → i < bp.r1 - bp.r0 → part_entry block.now bp i i ≢ 0 }
{
    if unit {
        return;
    }
    for i in 0..bp.r1 - bp.r0 {
        assert!(rt; block.get(bp.r0 + i, bp.c0 + i) != 0);
    }
}

/// Solves for all of `dst` by the lower triangle of all of `block`.
fn solve_below<K: Field>(rt: &impl Abort, dst: &mut Mat, block: &Mat, unit: bool) {
    let at = whole(dst);
    let bp = whole(block);
    assert!(rt; bp.r1 - bp.r0 == bp.c1 - bp.c0 && at.r1 - at.r0 == bp.r1 - bp.r0);
    check_words::<K>(rt, dst);
    check_words::<K>(rt, block);
    check_diagonal(rt, block, bp, unit);
    solve_lower::<K>(dst, at, block, bp, unit);
}

/// Solves for all of `dst` by the upper triangle of all of `block`.
fn solve_above<K: Field>(rt: &impl Abort, dst: &mut Mat, block: &Mat, unit: bool) {
    let at = whole(dst);
    let bp = whole(block);
    assert!(rt; bp.r1 - bp.r0 == bp.c1 - bp.c0 && at.r1 - at.r0 == bp.r1 - bp.r0);
    check_words::<K>(rt, dst);
    check_words::<K>(rt, block);
    check_diagonal(rt, block, bp, unit);
    solve_upper::<K>(dst, at, block, bp, unit);
}

/// Scales a part.
fn scale_part<K: Field>(rt: &impl Abort, dst: &mut Mat, at: Part, b: u32) {
    assert!(rt; b < K::MODULUS);
    check_within(rt, at, dst);
    check_words::<K>(rt, dst);
    scale::<K>(dst, at, b);
}

/// Adds `a` times a product.
fn add_product<K: Field>(rt: &impl Abort, dst: &mut Mat, a: u32, left: &Mat, right: &Mat) {
    let at = whole(dst);
    let lp = whole(left);
    let rp = whole(right);
    assert!(rt; a < K::MODULUS && lp.c1 - lp.c0 == rp.r1 - rp.r0);
    assert!(rt; at.r1 - at.r0 == lp.r1 - lp.r0 && at.c1 - at.c0 == rp.c1 - rp.c0);
    check_words::<K>(rt, dst);
    check_words::<K>(rt, left);
    check_words::<K>(rt, right);
    mul_add::<K>(dst, at, a, left, lp, right, rp);
}

/// Scales all of `dst` by `b`, and adds `a` times the product.
fn multiply<K: Field>(rt: &impl Abort, b: u32, dst: &mut Mat, a: u32, left: &Mat, right: &Mat) {
    let at = whole(dst);
    scale_part::<K>(rt, dst, at, b);
    add_product::<K>(rt, dst, a, left, right);
}

/// Adds `a` times a part to another of the same shape.
fn add_part<K: Field>(rt: &impl Abort, dst: &mut Mat, at: Part, a: u32, src: &Mat, sp: Part) {
    assert!(rt; a < K::MODULUS);
    check_within(rt, at, dst);
    check_within(rt, sp, src);
    check_words::<K>(rt, dst);
    check_words::<K>(rt, src);
    assert!(rt; at.r1 - at.r0 == sp.r1 - sp.r0 && at.c1 - at.c0 == sp.c1 - sp.c0);
    add_scaled::<K>(dst, at, a, src, sp);
}

/// Exchanges two rows.
fn swap(rt: &impl Abort, m: &mut Mat, i: u32, j: u32) {
    assert!(rt; i < m.rows() && j < m.rows());
    swap_rows(m, i, j);
}

/// The first row from `from` on whose word in column `j` is not 0.
fn first(rt: &impl Abort, m: &Mat, j: u32, from: u32) -> Option<u32> {
    assert!(rt; j < m.cols() && from <= m.rows());
    first_nonzero(m, j, from)
}

/// Eliminates column `j` below row `from` by a row.
fn eliminate_below<K: Field>(rt: &impl Abort, dst: &mut Mat, from: u32, j: u32, row: &Mat) {
    assert!(rt; from <= dst.rows() && j < dst.cols());
    assert!(rt; row.rows() == 1 && row.cols() == dst.cols());
    assert!(rt; row.get(0, j) != 0);
    check_words::<K>(rt, dst);
    check_words::<K>(rt, row);
    eliminate::<K>(dst, from, j, row);
}

#[test]
fn products(rt: HostRuntime) {
    let alloc = rt.alloc();
    let left = matrix(&rt, alloc, 2, 2, &[1, 3, 2, 4]);
    let right = matrix(&rt, alloc, 2, 2, &[5, 7, 6, 8]);
    let mut dst = matrix(&rt, alloc, 2, 2, &[3, 1, 9, 1]);
    multiply::<F65537>(&rt, 0, &mut dst, 1, &left, &right);
    check_is(&rt, &dst, &[19, 43, 22, 50]);
    multiply::<F65537>(&rt, 65536, &mut dst, 2, &left, &right);
    check_is(&rt, &dst, &[19, 43, 22, 50]);
    let largest = matrix(&rt, alloc, 1, 1, &[65536]);
    let mut one = matrix(&rt, alloc, 1, 1, &[1]);
    multiply::<F65537>(&rt, 65536, &mut one, 65536, &largest, &largest);
    check_is(&rt, &one, &[65535]);
    let last = matrix(&rt, alloc, 1, 1, &[65520]);
    let mut other = matrix(&rt, alloc, 1, 1, &[1]);
    multiply::<F65521>(&rt, 2, &mut other, 65520, &last, &last);
    check_is(&rt, &other, &[1]);
    let mut strip = zeros(&rt, alloc, 0, 2);
    let none = zeros(&rt, alloc, 0, 2);
    multiply::<F65537>(&rt, 5, &mut strip, 7, &none, &right);
    check_is(&rt, &strip, &[]);
}

#[test]
fn solves(rt: HostRuntime) {
    let alloc = rt.alloc();
    let lower = matrix(&rt, alloc, 2, 2, &[2, 1, 0, 1]);
    let mut x = matrix(&rt, alloc, 2, 1, &[3, 5]);
    solve_below::<F65537>(&rt, &mut x, &lower, false);
    check_is(&rt, &x, &[32770, 32772]);
    let mut x = matrix(&rt, alloc, 2, 1, &[3, 5]);
    solve_below::<F65537>(&rt, &mut x, &lower, true);
    check_is(&rt, &x, &[3, 2]);
    let factors = matrix(&rt, alloc, 2, 2, &[2, 32769, 1, 32769]);
    let mut x = matrix(&rt, alloc, 2, 1, &[5, 3]);
    solve_below::<F65537>(&rt, &mut x, &factors, true);
    solve_above::<F65537>(&rt, &mut x, &factors, false);
    check_is(&rt, &x, &[2, 1]);
    let upper = matrix(&rt, alloc, 3, 3, &[2, 0, 0, 7, 5, 0, 11, 13, 9]);
    let mut x = matrix(&rt, alloc, 3, 2, &[1, 2, 3, 100, 200, 65536]);
    solve_above::<F65537>(&rt, &mut x, &upper, false);
    check_is(&rt, &x, &[6554, 48060, 21846, 13017, 45188, 58255]);
    let mut x = matrix(&rt, alloc, 3, 1, &[1, 2, 3]);
    solve_above::<F65537>(&rt, &mut x, &upper, true);
    check_is(&rt, &x, &[227, 65500, 3]);
}

/// A matrix of mixed words, none of them 0.
fn mixed(rt: &impl Abort, alloc: Global, rows: u32, cols: u32) -> Mat {
    let mut m = zeros(rt, alloc, rows, cols);
    let mut word: u32 = 1;
    for x in m.words_mut().iter_mut() {
        word = word.wrapping_mul(25173).wrapping_add(13849) % 65536;
        *x = word.max(1);
    }
    m
}

/// The word at a place; the test ends where there is none.
fn word(rt: &impl Abort, m: &Mat, i: u32, j: u32) -> u64 {
    assert!(rt; i < m.rows() && j < m.cols());
    u64::from(m.get(i, j))
}

/// A row of a triangle times a column, by a plain loop over whole numbers.
fn row_times(rt: &impl Abort, triangle: &Mat, lower: bool, row: u32, x: &Mat, column: u32) -> u64 {
    let mut sum: u64 = 0;
    for k in 0..triangle.cols() {
        if k == row || (k < row) == lower {
            let product = word(rt, triangle, row, k).wrapping_mul(word(rt, x, k, column));
            sum = sum.wrapping_add(product);
        }
    }
    sum
}

/// Stops where a triangle times a column of what was solved isn't what was given.
fn check_column(rt: &impl Abort, triangle: &Mat, lower: bool, x: &Mat, given: &Mat, column: u32) {
    for row in 0..given.rows() {
        let sum = row_times(rt, triangle, lower, row, x, column);
        assert!(rt; sum % 65537 == word(rt, given, row, column));
    }
}

/// Stops where solves of so many rows don't give what a plain product takes back.
fn check_solves(rt: &impl Abort, alloc: Global, rows: u32) {
    let triangle = mixed(rt, alloc, rows, rows);
    let given = mixed(rt, alloc, rows, 2);
    let mut below = mixed(rt, alloc, rows, 2);
    let mut above = mixed(rt, alloc, rows, 2);
    solve_below::<F65537>(rt, &mut below, &triangle, false);
    solve_above::<F65537>(rt, &mut above, &triangle, false);
    for column in 0..2 {
        check_column(rt, &triangle, true, &below, &given, column);
        check_column(rt, &triangle, false, &above, &given, column);
    }
}

/// A word of a product, by a plain loop over whole numbers.
fn product_at(rt: &impl Abort, left: &Mat, right: &Mat, row: u32, column: u32) -> u64 {
    let mut sum: u64 = 0;
    for k in 0..left.cols() {
        let product = word(rt, left, row, k).wrapping_mul(word(rt, right, k, column));
        sum = sum.wrapping_add(product);
    }
    sum
}

/// Stops where a column isn't what it was and three times the product's column.
fn check_gained(rt: &impl Abort, left: &Mat, right: &Mat, old: &Mat, new: &Mat, column: u32) {
    for row in 0..new.rows() {
        let gain = product_at(rt, left, right, row, column).wrapping_mul(3);
        let want = word(rt, old, row, column).wrapping_add(gain) % 65537;
        assert!(rt; word(rt, new, row, column) == want);
    }
}

/// Stops where a product of these sizes isn't the plain one.
fn check_product(rt: &impl Abort, alloc: Global, rows: u32, inner: u32, cols: u32) {
    let left = mixed(rt, alloc, rows, inner);
    let right = mixed(rt, alloc, inner, cols);
    let old = mixed(rt, alloc, rows, cols);
    let mut new = mixed(rt, alloc, rows, cols);
    multiply::<F65537>(rt, 1, &mut new, 3, &left, &right);
    for column in 0..cols {
        check_gained(rt, &left, &right, &old, &new, column);
    }
}

/// Fewer and more rows than there are lanes, and more than 1,024 rows and terms.
#[test]
fn products_beside_plain_ones(rt: HostRuntime) {
    let alloc = rt.alloc();
    for rows in 0..41 {
        check_product(&rt, alloc, rows, 5, 2);
    }
    check_product(&rt, alloc, 17, 1045, 1);
    check_product(&rt, alloc, 1045, 3, 1);
}

/// Triangles of fewer and of more rows than there are lanes, cut at sixteen rows and elsewhere.
#[test]
fn solves_by_halves(rt: HostRuntime) {
    for rows in 1..41 {
        check_solves(&rt, rt.alloc(), rows);
    }
    check_solves(&rt, rt.alloc(), 97);
}

#[test]
fn rows(rt: HostRuntime) {
    let alloc = rt.alloc();
    let mut m = matrix(&rt, alloc, 3, 3, &[0, 7, 2, 1, 11, 3, 4, 13, 5]);
    let found = first(&rt, &m, 0, 0);
    let none = first(&rt, &m, 0, 3);
    swap(&rt, &mut m, 0, 2);
    check_is(&rt, &m, &[2, 7, 0, 3, 11, 1, 5, 13, 4]);
    let row = matrix(&rt, alloc, 1, 3, &[2, 3, 5]);
    eliminate_below::<F65537>(&rt, &mut m, 1, 0, &row);
    let mut square = matrix(&rt, alloc, 2, 2, &[2, 1, 1, 1]);
    let pivot = matrix(&rt, alloc, 1, 2, &[2, 1]);
    eliminate_below::<F65537>(&rt, &mut square, 1, 0, &pivot);
    check_number(&rt, found, Some(1));
    check_number(&rt, none, None);
    check_is(&rt, &m, &[2, 32772, 0, 3, 32769, 1, 5, 32764, 4]);
    check_is(&rt, &square, &[2, 32769, 1, 32769]);
}

#[test]
fn parts(rt: HostRuntime) {
    let alloc = rt.alloc();
    let src = matrix(&rt, alloc, 2, 2, &[1, 3, 2, 65536]);
    let mut dst = matrix(&rt, alloc, 3, 3, &[1, 2, 3, 4, 5, 6, 7, 8, 9]);
    let at = Part {
        r0: 1,
        r1: 3,
        c0: 0,
        c1: 1,
    };
    let sp = Part {
        r0: 0,
        r1: 2,
        c0: 1,
        c1: 2,
    };
    add_part::<F65537>(&rt, &mut dst, at, 10, &src, sp);
    check_is(&rt, &dst, &[1, 22, 65530, 4, 5, 6, 7, 8, 9]);
    put(&rt, &mut dst, at, &src, sp);
    check_is(&rt, &dst, &[1, 2, 65536, 4, 5, 6, 7, 8, 9]);
}

#[test]
fn matrices_of_no_words(rt: HostRuntime) {
    let alloc = rt.alloc();
    let square = matrix(&rt, alloc, 2, 2, &[2, 1, 0, 1]);
    let none = zeros(&rt, alloc, 2, 0);
    let mut no_columns = zeros(&rt, alloc, 2, 0);
    swap(&rt, &mut no_columns, 0, 1);
    multiply::<F65537>(&rt, 5, &mut no_columns, 7, &square, &none);
    solve_below::<F65537>(&rt, &mut no_columns, &square, false);
    solve_above::<F65537>(&rt, &mut no_columns, &square, true);
    check_shape(&rt, &no_columns, 2, 0);
    check_is(&rt, &no_columns, &[]);
    let empty = zeros(&rt, alloc, 0, 0);
    let mut no_rows = zeros(&rt, alloc, 0, 3);
    let found = first(&rt, &no_rows, 2, 0);
    solve_below::<F65537>(&rt, &mut no_rows, &empty, false);
    solve_above::<F65537>(&rt, &mut no_rows, &empty, false);
    check_number(&rt, found, None);
    check_shape(&rt, &no_rows, 0, 3);
    check_is(&rt, &no_rows, &[]);
}

#[test]
fn parts_of_no_width(rt: HostRuntime) {
    let alloc = rt.alloc();
    let words: [u32; 6] = [1, 2, 3, 4, 5, 6];
    let src = matrix(&rt, alloc, 2, 3, &words);
    let mut dst = matrix(&rt, alloc, 2, 3, &words);
    let at = Part {
        r0: 0,
        r1: 2,
        c0: 1,
        c1: 1,
    };
    add_part::<F65537>(&rt, &mut dst, at, 10, &src, at);
    put(&rt, &mut dst, at, &src, at);
    scale_part::<F65537>(&rt, &mut dst, at, 0);
    let left = zeros(&rt, alloc, 2, 0);
    let right = zeros(&rt, alloc, 0, 3);
    multiply::<F65537>(&rt, 1, &mut dst, 7, &left, &right);
    let row = matrix(&rt, alloc, 1, 3, &[2, 3, 5]);
    eliminate_below::<F65537>(&rt, &mut dst, 2, 0, &row);
    check_is(&rt, &dst, &words);
}
