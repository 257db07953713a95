//! Sixteen sums in lanes: what they gain, and how they are stored.

ghost use Rattle.std.specs.Prelude.{◌≡◌, ℕ, ◌+◌, ◌*◌, ◌%◌, ◌^◌, ◌<◌, ◌≤◌, length, slice_index};

use std::simd::prelude::*;

/// Each of sixteen sums gains a word times a factor.
pub(crate) fn gain(sums: u64x16, words: u32x16, factor: u64) -> u64x16
    requires sums { (length sums ≡ 16) × ((i : ℕ) → i < 16 → slice_index sums i + 2 ^ 32 < 2 ^ 64) }
    requires words { (length words ≡ 16) × ((i : ℕ) → i < 16 → slice_index words i ≤ 65536) }
    requires factor { factor ≤ 65536 }
    ensures { (length result ≡ 16) × ((i : ℕ) → i < 16 → slice_index result i ≡ slice_index sums i + slice_index words i * factor) }
{
    sums.strict_add(words.cast::<u64>().strict_mul(u64x16::splat(factor)))
}

/// Writes sixteen sums, reduced, from place `at` on.
pub(crate) fn store_reduced(y: &mut [u32], at: usize, sums: u64x16, modulus: u32)
    requires inside { at + 16 ≤ length y.old }
    requires sums { length sums ≡ 16 }
    requires modulus { (0 < modulus) × (modulus ≤ 65537) }
    ensures length { length y.new ≡ length y.old }
    ensures here { (i : ℕ) → i < 16 → slice_index y.new (at + i) ≡ slice_index sums i % modulus }
    ensures before { (k : ℕ) → k < at → slice_index y.new k ≡ slice_index y.old k }
    ensures after { (k : ℕ) → at + 16 ≤ k → slice_index y.new k ≡ slice_index y.old k }
{
    let rest = sums % u64x16::splat(u64::from(modulus));
    rest.cast::<u32>().copy_to_slice(&mut y[at..]);
}
