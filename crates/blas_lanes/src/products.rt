//! Words that gain sums of products of strided columns.

ghost use Rattle.std.specs.Prelude.{◌≡◌, ℕ, ◌+◌, ◌*◌, ◌%◌, ◌^◌, ◌<◌, ◌≤◌, length, slice_index};
ghost use Rattle.field_core.specs.Sums.{sum_to};

use crate::lanes::{gain, store_reduced};
use std::simd::prelude::*;

/// Each of sixteen sums gains a whole column of products: the words that stand `stride` apart, times the factors.
fn gain_all(start: u64x16, words: &[u32], from: usize, stride: usize, factors: &[u32]) -> u64x16
    requires start { (length start ≡ 16) × ((i : ℕ) → i < 16 → slice_index start i ≡ 0) }
    requires words { (i : ℕ) → slice_index words.now i ≤ 65536 }
    requires factors { (i : ℕ) → slice_index factors.now i ≤ 65536 }
    requires few { length factors.now < 2 ^ 32 }
    requires inside { (k : ℕ) → k < length factors.now → from + k * stride + 16 ≤ length words.now }
    ensures { (length result ≡ 16) × ((i : ℕ) → i < 16 → slice_index result i ≡ sum_to (length factors.now) (λ k. slice_index words.now (from + k * stride + i) * slice_index factors.now k)) }
{
    let mut sums = start;
    for k in 0..factors.len() {
        let at = from + k * stride;
        let lanes = u32x16::from_slice(&words[at..]);
        sums = gain(sums, lanes, u64::from(factors[k]));
    }
    sums
}

/// Sixteen words from place `at` on gain `a` times a sum each, reduced.
fn add_reduced(y: &mut [u32], at: usize, a: u32, sums: u64x16, modulus: u32)
    requires inside { at + 16 ≤ length y.old }
    requires words { (i : ℕ) → slice_index y.old i ≤ 65536 }
    requires factor { a ≤ 65536 }
    requires sums { length sums ≡ 16 }
    requires modulus { (0 < modulus) × (modulus ≤ 65537) }
    ensures length { length y.new ≡ length y.old }
    ensures here { (i : ℕ) → i < 16 → slice_index y.new (at + i) ≡ (slice_index y.old (at + i) + a * slice_index sums i) % modulus }
    ensures before { (k : ℕ) → k < at → slice_index y.new k ≡ slice_index y.old k }
    ensures after { (k : ℕ) → at + 16 ≤ k → slice_index y.new k ≡ slice_index y.old k }
{
    let rest = (sums % u64x16::splat(u64::from(modulus))).cast::<u32>();
    let words = u32x16::from_slice(&y[at..]).cast::<u64>();
    let gained = gain(words, rest, u64::from(a));
    store_reduced(y, at, gained, modulus);
}

/// The products of one row, summed: the words that stand `stride` apart from place `at` on, times the factors.
fn row_sum(words: &[u32], at: usize, stride: usize, factors: &[u32]) -> u64
    requires words { (i : ℕ) → slice_index words.now i ≤ 65536 }
    requires factors { (i : ℕ) → slice_index factors.now i ≤ 65536 }
    requires few { length factors.now < 2 ^ 32 }
    requires inside { (k : ℕ) → k < length factors.now → at + k * stride < length words.now }
    ensures { result ≡ sum_to (length factors.now) (λ k. slice_index words.now (at + k * stride) * slice_index factors.now k) }
{
    let mut sum = 0;
    for k in 0..factors.len() {
        sum += u64::from(words[at + k * stride]) * u64::from(factors[k]);
    }
    sum
}

/// What `add_products` does from place `start` on, word by word.
fn add_products_rest(
    y: &mut [u32],
    start: usize,
    a: u32,
    words: &[u32],
    from: usize,
    stride: usize,
    factors: &[u32],
    modulus: u32,
)
    requires y_words { (i : ℕ) → slice_index y.old i ≤ 65536 }
    requires factor { a ≤ 65536 }
    requires words { (i : ℕ) → slice_index words.now i ≤ 65536 }
    requires factors { (i : ℕ) → slice_index factors.now i ≤ 65536 }
    requires few { length factors.now < 2 ^ 32 }
    requires from { from < 2 ^ 62 }
    requires inside { (k : ℕ) → k < length factors.now → from + k * stride + length y.old ≤ length words.now }
    requires modulus { (0 < modulus) × (modulus ≤ 65537) }
    requires start { start ≤ length y.old }
    ensures length { length y.new ≡ length y.old }
    ensures before { (i : ℕ) → i < start → slice_index y.new i ≡ slice_index y.old i }
    ensures value { (i : ℕ) → start ≤ i → i < length y.old → slice_index y.new i ≡ (slice_index y.old i + a * sum_to (length factors.now) (λ k. slice_index words.now (from + k * stride + i) * slice_index factors.now k)) % modulus }
{
    for place in start..y.len() {
        let sum = row_sum(words, from + place, stride, factors);
        let gain = u64::from(a) * (sum % u64::from(modulus));
        y[place] = ((u64::from(y[place]) + gain) % u64::from(modulus)) as u32;
    }
}

/// Each word of `y` gains `a` times its row's products, reduced once: the words of `words` that stand `stride` apart from place
/// `from` on, one for each word of `y`, times the factors.
pub fn add_products(
    y: &mut [u32],
    a: u32,
    words: &[u32],
    from: usize,
    stride: usize,
    factors: &[u32],
    modulus: u32,
)
    requires y_words { (i : ℕ) → slice_index y.old i ≤ 65536 }
    requires factor { a ≤ 65536 }
    requires words { (i : ℕ) → slice_index words.now i ≤ 65536 }
    requires factors { (i : ℕ) → slice_index factors.now i ≤ 65536 }
    requires few { length factors.now < 2 ^ 32 }
    requires start { from < 2 ^ 62 }
    requires inside { (k : ℕ) → k < length factors.now → from + k * stride + length y.old ≤ length words.now }
    requires modulus { (0 < modulus) × (modulus ≤ 65537) }
    ensures length { length y.new ≡ length y.old }
    ensures value { (i : ℕ) → i < length y.old → slice_index y.new i ≡ (slice_index y.old i + a * sum_to (length factors.now) (λ k. slice_index words.now (from + k * stride + i) * slice_index factors.now k)) % modulus }
{
    let blocks = y.len() / 16;
    for block in 0..blocks {
        let at = block * 16;
        let sums = gain_all(u64x16::splat(0), words, from + at, stride, factors);
        add_reduced(y, at, a, sums, modulus);
    }
    add_products_rest(y, blocks * 16, a, words, from, stride, factors, modulus);
}
