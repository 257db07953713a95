//! The erasure code, against weighted sums whose weights are found by trying each residue.
ghost use Rattle.std.specs.Prelude.{◌≡◌, ◌+◌, ◌<◌, ◌≤◌, true, false, IfOk, count_by, length, slice_index_or, vec_len};

use crate::checks::check_numbers;
use cauchy_code::{Coefs, decode_row, weight};
use field_core::{F65521, F65537, Field};
use std::alloc::{AllocError as NoMemory, Global};
use std::process::Abort;
use std::test::Fail;

/// The number that times `a` is 1.
fn inverse_of(a: u64, modulus: u64) -> u64
    requires { 0 < modulus }
{
    for b in 1..modulus {
        if a.wrapping_mul(b) % modulus == 1 {
            return b;
        }
    }
    0
}

/// The symbol of code column `c`.
fn code_symbol(data: &[u64], modulus: u64, q: u32, c: u32) -> u64
    requires modulus { 0 < modulus }
    requires columns { q ≤ 16 }
    requires code_column { c < 4 }
{
    let mut total: u64 = 0;
    for col in 0..q {
        let weight = inverse_of(u64::from(q + c - col), modulus);
        let symbol = data.get(col as usize).copied().unwrap_or(0);
        total = total.wrapping_add(weight.wrapping_mul(symbol));
    }
    total % modulus
}

/// The symbols of a place: some data symbols, and the code symbols that go with them.
fn symbols_of(alloc: Global, modulus: u64, q: u32, f: u32) -> Result<Vec<u64>, NoMemory>
    requires modulus { 0 < modulus }
    requires columns { q ≤ 16 }
    requires code_columns { f ≤ 4 }
{
    let data = [
        40000, 7, 65520, 0, 1, 31337, 2, 65519, 512, 9973, 3, 27183, 14142, 5, 60221, 8,
    ];
    let mut symbols = Vec::new(alloc);
    for symbol in data.iter().take(q as usize) {
        symbols.push(*symbol)?;
    }
    for c in 0..f {
        symbols.push(code_symbol(&data, modulus, q, c))?;
    }
    Ok(symbols)
}

/// The sum of coefficient times symbol.
fn decoded(coefs: &Coefs, symbols: &[u64], modulus: u64, n: u32) -> u64
    requires modulus { 0 < modulus }
    requires symbols { n ≤ length coefs.now }
{
    let mut total: u64 = 0;
    for i in 0..n {
        let symbol = symbols.get(i as usize).copied().unwrap_or(0);
        total = total.wrapping_add(u64::from(coefs.get(i)).wrapping_mul(symbol));
    }
    total % modulus
}

/// Whether the coefficients are 0 on lost symbols, and on all code symbols after `needed` live ones.
fn is_zero_elsewhere(coefs: &Coefs, lost: &[bool], q: u32, n: u32, needed: u32) -> bool
    requires symbols { n ≤ length coefs.now }
    requires lost { n ≤ length lost.now }
{
    let mut needed = needed;
    for i in 0..n {
        let helps = !lost[i as usize] && (i < q || needed > 0);
        if helps && i >= q && needed > 0 {
            needed -= 1;
        }
        if !helps && coefs.get(i) != 0 {
            return false;
        }
    }
    true
}

/// Whether a bit of a pattern is 1.
fn has_bit(pattern: u32, bit: u32) -> bool
    requires { bit < 32 }
{
    pattern >> bit & 1 == 1
}

/// Which symbols a pattern loses: those whose bits are 1.
fn lost_of(alloc: Global, n: u32, pattern: u32) -> Result<Vec<bool>, NoMemory>
    requires { n ≤ 20 }
    ensures { IfOk result (λ lost. vec_len lost ≡ n) }
{
    let mut lost = Vec::new(alloc);
    for i in 0..n {
        lost.push(has_bit(pattern, i))?;
    }
    Ok(lost)
}

/// How many symbols are lost.
fn lost_count(lost: &[bool]) -> usize
    ensures { result ≡ count_by (λ b. b) lost.now }
{
    lost.iter().filter(|is_lost| **is_lost).count()
}

/// Decodes each lost data symbol from the others, where at most `f` are lost.
fn check_pattern<K: Field>(
    rt: &impl Abort,
    alloc: Global,
    q: u32,
    f: u32,
    symbols: &[u64],
    pattern: u32,
) -> Result<(), NoMemory>
    requires columns { q ≤ 16 }
    requires code_columns { f ≤ 4 }
{
    let lost = lost_of(alloc, q + f, pattern)?;
    if lost_count(&lost) > f as usize {
        return Ok(());
    }
    let needed = lost_count(&lost[..q as usize]) as u32;
    for which in 0..q {
        if lost[which as usize] {
            let coefs = decode_row::<K>(alloc, q, f, &lost, which)?;
            let symbol = symbols.get(which as usize).copied();
            let found = decoded(&coefs, symbols, u64::from(K::MODULUS), q + f);
            assert_eq!(rt; Some(found), symbol, "{q} {f} {pattern} {which}");
            let is_zero = is_zero_elsewhere(&coefs, &lost, q, q + f, needed);
            assert!(rt; is_zero, "{q} {f} {pattern} {which}");
        }
    }
    Ok(())
}

/// Checks every pattern of a row.
fn check_row<K: Field>(rt: &impl Abort, alloc: Global, q: u32, f: u32) -> Result<(), NoMemory>
    requires columns { q ≤ 16 }
    requires code_columns { f ≤ 4 }
{
    let symbols = symbols_of(alloc, u64::from(K::MODULUS), q, f)?;
    for pattern in 0..1 << (q + f) {
        check_pattern::<K>(rt, alloc, q, f, &symbols, pattern)?;
    }
    Ok(())
}

/// Checks the patterns of a whole row of 16 data columns: the first four lost, the last four, all
/// code columns, and all code columns but the last with one data column.
fn check_long_row<K: Field>(rt: &impl Abort, alloc: Global) -> Result<(), NoMemory> {
    let symbols = symbols_of(alloc, u64::from(K::MODULUS), 16, 4)?;
    for pattern in [15, 15 << 12, 15 << 16, 7 << 16 | 1 << 9] {
        check_pattern::<K>(rt, alloc, 16, 4, &symbols, pattern)?;
    }
    Ok(())
}

#[test]
fn weights_of_two_columns(rt: HostRuntime) {
    let found = [
        weight::<F65537>(2, 0, 0),
        weight::<F65537>(2, 0, 1),
        weight::<F65537>(2, 1, 0),
        weight::<F65537>(2, 1, 1),
        weight::<F65521>(2, 0, 0),
        weight::<F65521>(2, 1, 0),
    ];
    check_numbers(&rt, &found, &[32769, 1, 21846, 32769, 32761, 43681]);
}

/// The coefficients of data column 0 of 2, where some symbols are lost.
fn row<K: Field>(rt: &impl Abort, alloc: Global, f: u32, lost: &[bool]) -> Coefs
    requires code_columns { f ≤ 4 }
    requires symbols { length lost.now ≡ 2 + f }
    requires few_lost { count_by (λ b. b) lost.now ≤ f }
    requires which_lost { slice_index_or lost.now 0 false ≡ true }
    ensures { length result ≡ 2 + f }
{
    decode_row::<K>(alloc, 2, f, lost, 0).expect(rt, "memory for a row")
}

#[test]
fn decodes_by_hand(rt: HostRuntime) {
    let one = row::<F65537>(&rt, rt.alloc(), 1, &[true, false, false]);
    let two = row::<F65537>(&rt, rt.alloc(), 2, &[true, false, true, false]);
    let other = row::<F65521>(&rt, rt.alloc(), 1, &[true, false, false]);
    check_numbers(&rt, &[one.get(0), one.get(1), one.get(2)], &[0, 65535, 2]);
    check_numbers(&rt, &[two.get(0), two.get(1)], &[0, 32767]);
    check_numbers(&rt, &[two.get(2), two.get(3)], &[0, 3]);
    let found = [
        decoded(&one, &[0, 7, 32778], 65537, 3),
        decoded(&two, &[0, 7, 0, 10928], 65537, 4),
        decoded(&other, &[0, 7, 32770], 65521, 3),
    ];
    assert_eq!(rt; found, [5, 5, 5]);
}

#[test]
fn decodes_every_pattern(rt: HostRuntime) -> Result<(), Fail> {
    for q in 1..6 {
        for f in 0..5 {
            check_row::<F65537>(&rt, rt.alloc(), q, f)?;
            check_row::<F65521>(&rt, rt.alloc(), q, f)?;
        }
    }
    Ok(())
}

#[test]
fn decodes_a_long_row(rt: HostRuntime) -> Result<(), Fail> {
    check_long_row::<F65537>(&rt, rt.alloc())?;
    check_long_row::<F65521>(&rt, rt.alloc())?;
    Ok(())
}
