//! Kernels over lanes, beside plain loops: every length to 40, so that blocks of sixteen words and what is left of them both occur.
ghost use Rattle.std.specs.Prelude.{◌≡◌, ℕ, ◌<◌, ◌≤◌, length, slice_index};

use blas_lanes::{axpy, dot, scale};
use std::alloc::Global;
use std::process::Abort;

/// Words below the modulus: all the greatest one where `step` is 0, else each `step` past the one before it.
fn words(rt: &impl Abort, alloc: Global, count: usize, step: u32, modulus: u32) -> Vec<u32>
    requires { 0 < modulus }
{
    let mut words = Vec::new(alloc);
    let mut word = modulus - 1;
    for _ in 0..count {
        words.push(word).expect(rt, "memory for words");
        word = word.wrapping_add(step) % modulus;
    }
    words
}

/// Stops where a word is greater than 65,536.
fn check_small(rt: &impl Abort, words: &[u32])
    ensures { (i : ℕ) → slice_index words.now i ≤ 65536 }
{
    assert!(rt; words.iter().all(|word| *word <= 65536));
}

/// Stops where these numbers are others.
fn check_numbers(rt: &impl Abort, found: &[u32], want: &[u32]) {
    assert_eq!(rt; found, want);
}

/// Stops where a number is another.
fn check_number(rt: &impl Abort, found: u32, want: u32) {
    assert_eq!(rt; found, want);
}

/// The word `y` plus the product of `a` and `x`.
fn added(y: u32, a: u32, x: u32, modulus: u32) -> u32
    requires { 0 < modulus }
{
    ((u64::from(y) + u64::from(a) * u64::from(x)) % u64::from(modulus)) as u32
}

/// What `axpy` gives, word by word.
fn added_words(rt: &impl Abort, alloc: Global, y: &[u32], a: u32, x: &[u32], m: u32) -> Vec<u32>
    requires { 0 < m }
{
    let mut sums = Vec::new(alloc);
    for (y, x) in y.iter().zip(x) {
        sums.push(added(*y, a, *x, m)).expect(rt, "memory for sums");
    }
    sums
}

/// What `dot` gives, reduced after each product.
fn product_sum(x: &[u32], y: &[u32], modulus: u32) -> u32
    requires { 0 < modulus }
{
    let mut sum = 0;
    for (x, y) in x.iter().zip(y) {
        sum = added(sum, *x, *y, modulus);
    }
    sum
}

/// Compares the three calls with the loops at one length.
fn compare(rt: &impl Abort, alloc: Global, count: usize, step: u32, modulus: u32) {
    assert!(rt; 0 < modulus && modulus <= 65537);
    let a = modulus - 1;
    let x = words(rt, alloc, count, step, modulus);
    let mut y = words(rt, alloc, count, step / 2, modulus);
    let mut z = words(rt, alloc, count, step, modulus);
    let zeros = words(rt, alloc, count, 0, 1);
    check_small(rt, &x);
    check_small(rt, &y);
    check_small(rt, &z);
    assert!(rt; x.len() == y.len() && x.len() < 4096);
    let sum = product_sum(&x, &y, modulus);
    let sums = added_words(rt, alloc, &y, a, &x, modulus);
    let multiples = added_words(rt, alloc, &zeros, a, &x, modulus);
    check_number(rt, dot(&x, &y, modulus), sum);
    axpy(&mut y, a, &x, modulus);
    check_numbers(rt, &y, &sums);
    scale(&mut z, a, modulus);
    check_numbers(rt, &z, &multiples);
}

/// Compares at every length to 40 and at one past 1,024.
fn compare_lengths(rt: &impl Abort, alloc: Global, modulus: u32) {
    for count in 0..41 {
        compare(rt, alloc, count, 0, modulus);
        compare(rt, alloc, count, 40503, modulus);
    }
    compare(rt, alloc, 1045, 0, modulus);
}

#[test]
fn lanes_equal_loops(rt: HostRuntime) {
    let alloc = rt.alloc();
    for modulus in [65537, 65521, 1, 2, 32] {
        compare_lengths(&rt, alloc, modulus);
    }
}

#[test]
fn greatest_words(rt: HostRuntime) {
    let alloc = rt.alloc();
    let x = words(&rt, alloc, 1024, 0, 65537);
    check_small(&rt, &x);
    assert!(rt; x.len() == 1024);
    check_number(&rt, dot(&x, &x, 65537), 1024);
    let mut pair: [u32; 2] = [65536, 2];
    scale(&mut pair, 65536, 65537);
    check_numbers(&rt, &pair, &[1, 65535]);
}
