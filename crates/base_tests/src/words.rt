//! Words modulo a prime.
use crate::checks::check_numbers;
use field_core::{F65521, F65537, Field};
use std::process::Abort;

// Inverses as Python's pow(a, -1, 65537) gives them.
const INVERSES_65537: [(u32, u32); 23] = [
    (1, 1),
    (2, 32769),
    (65536, 65536),
    (3, 21846),
    (5, 26215),
    (7, 18725),
    (10, 45876),
    (16, 61441),
    (255, 32640),
    (256, 65281),
    (257, 32641),
    (1000, 34538),
    (4096, 65521),
    (12345, 31651),
    (21845, 32767),
    (32768, 65535),
    (32769, 2),
    (40503, 62995),
    (43690, 49152),
    (54321, 3465),
    (60000, 28975),
    (65280, 32896),
    (65535, 32768),
];

// The same modulo 65521.
const INVERSES_65521: [(u32, u32); 5] = [
    (1, 1),
    (2, 32761),
    (3, 43681),
    (256, 61170),
    (65520, 65520),
];

/// Compares an inverse.
fn check_inverse<K: Field>(rt: &impl Abort, a: u32, want: u32) {
    assert!(rt; a != 0 && a < K::MODULUS, "at {a}");
    assert_eq!(rt; K::inv(a), want, "at {a}");
}

#[test]
fn inverses(rt: HostRuntime) {
    for (a, want) in INVERSES_65537 {
        check_inverse::<F65537>(&rt, a, want);
    }
    for (a, want) in INVERSES_65521 {
        check_inverse::<F65521>(&rt, a, want);
    }
}

#[test]
fn sums_and_products(rt: HostRuntime) {
    let found = [
        F65537::add(65536, 65536),
        F65537::sub(3, 5),
        F65537::neg(0),
        F65537::mul(65536, 65536),
        F65537::reduce(-9223372036854775808),
        F65521::add(65520, 65520),
        F65521::sub(3, 5),
        F65521::neg(1),
        F65521::mul(256, 256),
        F65521::reduce(-1),
    ];
    let want = [65535, 65535, 0, 1, 32768, 65519, 65519, 65520, 15, 65520];
    check_numbers(&rt, &found, &want);
    let large = [F65537::is_residue(65536), F65521::is_residue(65520)];
    let too_large = [F65537::is_residue(65537), F65521::is_residue(65521)];
    assert!(rt; large == [true, true] && too_large == [false, false]);
}
