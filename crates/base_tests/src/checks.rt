//! Values that end a test where memory runs out, one comparison for each type, and parts that lie in their matrix.
ghost use Rattle.run_data.specs.Parts.{IsWithin};

use run_data::{Mat, Part, put_part};
use std::alloc::Global;
use std::process::Abort;

/// The matrix with these words, column by column.
pub(crate) fn matrix(rt: &impl Abort, alloc: Global, rows: u32, cols: u32, words: &[u32]) -> Mat {
    let mut m = zeros(rt, alloc, rows, cols);
    let place = m.words_mut();
    assert!(rt; place.len() == words.len());
    place.copy_from_slice(words);
    m
}

/// The matrix of this shape whose words are all 0.
pub(crate) fn zeros(rt: &impl Abort, alloc: Global, rows: u32, cols: u32) -> Mat {
    Mat::zeros(alloc, rows, cols).expect(rt, "memory for a matrix")
}

/// Stops where a matrix has other words than these.
pub(crate) fn check_is(rt: &impl Abort, m: &Mat, want: &[u32]) {
    assert_eq!(rt; m.words(), want);
}

/// Stops where a matrix has another shape.
pub(crate) fn check_shape(rt: &impl Abort, m: &Mat, height: u32, width: u32) {
    assert!(rt; m.rows() == height && m.cols() == width);
}

/// Stops where these numbers are others.
pub(crate) fn check_numbers(rt: &impl Abort, found: &[u32], want: &[u32]) {
    assert_eq!(rt; found, want);
}

/// Stops where a number is another, or is there where none should be.
pub(crate) fn check_number(rt: &impl Abort, found: Option<u32>, want: Option<u32>) {
    assert_eq!(rt; found, want);
}

/// Stops where bytes are others.
pub(crate) fn check_bytes(rt: &impl Abort, found: &[u8], want: &[u8]) {
    assert_eq!(rt; found, want);
}

/// Stops where the part does not lie in the matrix.
pub(crate) fn check_within(rt: &impl Abort, at: Part, m: &Mat)
    ensures { IsWithin at m.now }
{
    assert!(rt; at.r0 <= at.r1 && at.r1 <= m.rows());
    assert!(rt; at.c0 <= at.c1 && at.c1 <= m.cols());
}

/// Copies a part of a matrix over one of another, of the same shape.
pub(crate) fn put(rt: &impl Abort, dst: &mut Mat, at: Part, src: &Mat, sp: Part) {
    check_within(rt, at, dst);
    check_within(rt, sp, src);
    assert!(rt; at.r1 - at.r0 == sp.r1 - sp.r0 && at.c1 - at.c0 == sp.c1 - sp.c0);
    put_part(dst, at, src, sp);
}
