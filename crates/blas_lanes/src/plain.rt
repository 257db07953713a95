//! Words side by side: a multiple added, the sum of products, and a multiple.

ghost use Rattle.std.specs.Prelude.{◌≡◌, ℕ, ◌+◌, ◌*◌, ◌%◌, ◌^◌, ◌<◌, ◌≤◌, ◌/◌, length, slice_index};
ghost use Rattle.std.specs.Simd.Lanes.{sum_l};
ghost use Rattle.field_core.specs.Sums.{sum_to};

use crate::lanes::{gain, store_reduced};
use std::simd::prelude::*;

/// Sixteen words from place `at` on, as sums.
fn load(words: &[u32], at: usize) -> u64x16
    requires { at + 16 ≤ length words.now }
    ensures { (length result ≡ 16) × ((i : ℕ) → i < 16 → slice_index result i ≡ slice_index words.now (at + i)) }
{
    u32x16::from_slice(&words[at..]).cast::<u64>()
}

/// What `axpy` does from place `from` on, word by word.
fn axpy_rest(y: &mut [u32], from: usize, a: u32, x: &[u32], modulus: u32)
    requires lengths { length y.old ≡ length x.now }
    requires y_words { (i : ℕ) → slice_index y.old i ≤ 65536 }
    requires x_words { (i : ℕ) → slice_index x.now i ≤ 65536 }
    requires factor { a ≤ 65536 }
    requires modulus { (0 < modulus) × (modulus ≤ 65537) }
    requires from { from ≤ length y.old }
    ensures length { length y.new ≡ length y.old }
    ensures before { (i : ℕ) → i < from → slice_index y.new i ≡ slice_index y.old i }
    ensures value { (i : ℕ) → from ≤ i → i < length y.old → slice_index y.new i ≡ (slice_index y.old i + slice_index x.now i * a) % modulus }
{
    for place in from..y.len() {
        let sum = u64::from(y[place]) + u64::from(x[place]) * u64::from(a);
        y[place] = (sum % u64::from(modulus)) as u32;
    }
}

/// Each word of `y` gains `a` times the word of `x` at the same place (BLAS's xAXPY).
pub fn axpy(y: &mut [u32], a: u32, x: &[u32], modulus: u32)
    requires lengths { length y.old ≡ length x.now }
    requires y_words { (i : ℕ) → slice_index y.old i ≤ 65536 }
    requires x_words { (i : ℕ) → slice_index x.now i ≤ 65536 }
    requires factor { a ≤ 65536 }
    requires modulus { (0 < modulus) × (modulus ≤ 65537) }
    ensures length { length y.new ≡ length y.old }
    ensures value { (i : ℕ) → i < length y.old → slice_index y.new i ≡ (slice_index y.old i + slice_index x.now i * a) % modulus }
{
    let blocks = y.len() / 16;
    for block in 0..blocks {
        let at = block * 16;
        let sums = gain(load(y, at), u32x16::from_slice(&x[at..]), u64::from(a));
        store_reduced(y, at, sums, modulus);
    }
    axpy_rest(y, blocks * 16, a, x, modulus);
}

/// What `scale` does from place `from` on, word by word.
fn scale_rest(x: &mut [u32], from: usize, a: u32, modulus: u32)
    requires words { (i : ℕ) → slice_index x.old i ≤ 65536 }
    requires factor { a ≤ 65536 }
    requires modulus { (0 < modulus) × (modulus ≤ 65537) }
    requires from { from ≤ length x.old }
    ensures length { length x.new ≡ length x.old }
    ensures before { (i : ℕ) → i < from → slice_index x.new i ≡ slice_index x.old i }
    ensures value { (i : ℕ) → from ≤ i → i < length x.old → slice_index x.new i ≡ (slice_index x.old i * a) % modulus }
{
    for place in from..x.len() {
        x[place] = (u64::from(x[place]) * u64::from(a) % u64::from(modulus)) as u32;
    }
}

/// Each word of `x` is multiplied by `a` (BLAS's xSCAL).
pub fn scale(x: &mut [u32], a: u32, modulus: u32)
    requires words { (i : ℕ) → slice_index x.old i ≤ 65536 }
    requires factor { a ≤ 65536 }
    requires modulus { (0 < modulus) × (modulus ≤ 65537) }
    ensures length { length x.new ≡ length x.old }
    ensures value { (i : ℕ) → i < length x.old → slice_index x.new i ≡ (slice_index x.old i * a) % modulus }
{
    let blocks = x.len() / 16;
    for block in 0..blocks {
        let at = block * 16;
        let sums = gain(u64x16::splat(0), u32x16::from_slice(&x[at..]), u64::from(a));
        store_reduced(x, at, sums, modulus);
    }
    scale_rest(x, blocks * 16, a, modulus);
}

/// The sum of products up to the last sixteen words, as sixteen sums in lanes.
fn lane_sums(x: &[u32], y: &[u32]) -> u64x16
    requires lengths { length x.now ≡ length y.now }
    requires x_words { (i : ℕ) → slice_index x.now i ≤ 65536 }
    requires y_words { (i : ℕ) → slice_index y.now i ≤ 65536 }
    requires few { length x.now < 2 ^ 31 }
    ensures { (length result ≡ 16) × (sum_l result ≡ sum_to (length x.now / 16 * 16) (λ k. slice_index x.now k * slice_index y.now k)) }
{
    let mut sums = u64x16::splat(0);
    for block in 0..x.len() / 16 {
        let at = block * 16;
        sums = sums.strict_add(load(x, at).strict_mul(load(y, at)));
    }
    sums
}

/// The sum of the products of words at the same places (BLAS's xDOT).
pub fn dot(x: &[u32], y: &[u32], modulus: u32) -> u32
    requires lengths { length x.now ≡ length y.now }
    requires x_words { (i : ℕ) → slice_index x.now i ≤ 65536 }
    requires y_words { (i : ℕ) → slice_index y.now i ≤ 65536 }
    requires few { length x.now < 2 ^ 31 }
    requires modulus { (0 < modulus) × (modulus ≤ 65537) }
    ensures { result ≡ sum_to (length x.now) (λ k. slice_index x.now k * slice_index y.now k) % modulus }
{
    let mut sum = lane_sums(x, y).strict_reduce_sum();
    for place in x.len() / 16 * 16..x.len() {
        sum += u64::from(x[place]) * u64::from(y[place]);
    }
    (sum % u64::from(modulus)) as u32
}
