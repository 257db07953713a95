//! The bounds of scripts, of which some were worked out by hand, and the first lines that the ranks can't run.
use crate::checks::{MATRICES, check_number, repeated, script};
use script_text::{bound, first_unrunnable, phase_steps, recovery_steps};
use std::alloc::Global;
use std::process::Abort;

// Stops where a bound, the longest phase and the recovery are not these, by the row of a table.
fn check_bound(rt: &impl Abort, row: usize, found: (u64, u64, u64), want: (u64, u64, u64)) {
    assert_eq!(rt; found, want, "row {row}");
}

// Stops where the first line that the ranks can't run is not this one, by the row of a table; 0 stands for none.
fn check_line(rt: &impl Abort, row: usize, found: Option<u32>, want: u32) {
    assert_eq!(rt; found.unwrap_or(0), want, "row {row}");
}

// Lines after a head, the first line of the whole that the ranks can't run, and the bound, the longest phase and the recovery.
type Row<'a> = (&'a [u8], u32, (u64, u64, u64));

// Stops where a script of a head and some lines has other bounds than the table says, or another first line that the ranks can't run.
fn check_bounds(rt: &impl Abort, alloc: Global, head: &[u8], table: &[Row]) {
    for (row, (lines, unrunnable, want)) in table.iter().enumerate() {
        let text = repeated(rt, alloc, head, lines, 1);
        let script = script(rt, alloc, &text);
        let found = (
            bound(&script),
            phase_steps(&script),
            recovery_steps(&script),
        );
        check_line(rt, row, first_unrunnable(&script), *unrunnable);
        check_bound(rt, row, found, *want);
    }
}

#[test]
fn bounds_records(rt: HostRuntime) {
    let one = b"grid g 1 1 0\nmatrix A g 1 1 1 1 0 0 f\nprint A\ndrop A\n";
    let six = b"grid g 2 3 0\nmatrix A g 3 4 2 2 1 2 a\nprint A\n";
    let wide = b"grid g 16 1 0\nmatrix A g 1024 1024 1 1 0 0 a.txt\n";
    let scripts: [(&[u8], u32, u64); 3] = [(one, 0, 5), (six, 0, 14), (wide, 254, 4_178_175)];
    for (head, prints, want) in scripts {
        let text = repeated(&rt, rt.alloc(), head, b"print A\n", prints);
        let script = script(&rt, rt.alloc(), &text);
        check_number(&rt, bound(&script), want);
    }
}

#[test]
fn bounds_routines(rt: HostRuntime) {
    let lines: [Row; 6] = [
        (b"pgemm N N 4 4 4 1 A 1 1 B 1 1 1 C 1 1\n", 7, (91, 57, 72)),
        (b"ptrsm L L N N 4 4 1 A 1 1 B 1 1\n", 7, (109, 57, 72)),
        (b"pgetrf 4 4 A 1 1 V\n", 7, (446, 103, 72)),
        (
            b"pgetrf 4 4 A 1 1 V\npgetrs N 4 4 A 1 1 V B 1 1\npivots V\n",
            7,
            (626, 103, 72),
        ),
        (b"pgemr2d 4 4 A 1 1 D 1 1 all\n", 7, (105, 71, 72)),
        (b"lose 5 0\nlose 9 3\n", 0, (216, 19, 72)),
    ];
    check_bounds(&rt, rt.alloc(), MATRICES, &lines);
}

// A grid of P = 2, Q = 2, F = 1, so W = 3, d = 18 and 6 ranks; A has 2 groups and B has 1. A's line makes 2 * 2 * (2 + 7) + 1 = 37 records
// and B's 19; to bring back A takes 2 * 2 * (18 + 9 + 3) = 120 records, B 60, and a pivot list 4.
const HEAD: &[u8] = b"grid g 2 2 1\nmatrix A g 6 6 2 2 0 0 a\nmatrix B g 6 3 2 3 0 0 b\n";

// Lines after the head, with the bound, the longest phase and the recovery:
// - no line: 37 + 19; 37; 2 + 6 + 180;
// - a print of A: 2 * 2 * 2 + 1 = 9;
// - a drop: 1; a matrix that is dropped and made again counts once in the recovery, around each line;
// - pgemm: 6 * (2 + 6 * 3) + 1 = 121 for the one group of C, and C is 19 more, 60 more in the recovery;
// - ptrsm: 18 + 121;
// - pgetrf: 19 + 3 * (127 + 2 * 133) + 2 * 7 + 18 = 1230, the longest phase 133, the list 4 in the recovery;
// - pivots: 2; drop V: 1;
// - pgetrs: 18 + (2 + 6 + 5 * 6 * 3) + 2 * 121 = 358;
// - pgemr2d: 21 + 2 * (1 + 1 + 3) * (1 + 0 + 3) = 61, in one phase for the one group;
// - two losses: 2 * (37 + 188) more.
#[test]
fn bounds_by_hand(rt: HostRuntime) {
    let lines: [Row; 10] = [
        (
            b"topology t\nlinks 2\norder 5 0 4095\nspares 3\n",
            0,
            (56, 37, 188),
        ),
        (b"print A\n", 0, (65, 37, 188)),
        (b"drop A\nmatrix A g 6 6 2 2 0 0 a\n", 0, (94, 37, 188)),
        (
            b"matrix C g 6 3 2 3 0 0 c\npgemm N N 6 3 6 1 A 1 1 B 1 1 1 C 1 1\n",
            5,
            (196, 121, 248),
        ),
        (b"ptrsm L L N N 6 3 1 A 1 1 B 1 1\n", 4, (195, 121, 188)),
        (b"pgetrf 6 6 A 1 1 V\n", 4, (1286, 133, 192)),
        (
            b"pgetrf 6 6 A 1 1 V\npivots V\ndrop V\n",
            4,
            (1289, 133, 192),
        ),
        (
            b"pgetrf 6 6 A 1 1 V\npgetrs N 6 3 A 1 1 V B 1 1\n",
            4,
            (1644, 133, 192),
        ),
        (b"pgemr2d 4 3 A 1 1 B 2 1 all\n", 4, (117, 61, 188)),
        (b"lose 3 5\nlose 9 0\n", 0, (506, 37, 188)),
    ];
    check_bounds(&rt, rt.alloc(), HEAD, &lines);
}

// Lines after the head, as above:
// - ptran of B, of 6 by 3, to C of 3 by 6, in 2 groups of 25 at most, and 20 for the 5 parts that are moved; C is 37 more, 120 more in the recovery;
// - ptrsm with TRANSA T: 18 + (1 + 12 + 3 * 22 + 9 * 12), in one phase for the one group;
// - ptrsm with SIDE R: 18 + 2 * (1 + 12 + 14 + 24 * 5) for the 2 groups of C;
// - pgetrs with TRANS T: 18 + 98 + 2 * 187 after the factorization;
// - pgetri: 18 + 2 * (38 + 98 + 2 * 121) after the factorization and E, which is as large as A;
// - pverify of A: 2 * (1 + 4 + 4 * 9); a grid with two code columns, a matrix of 65 on it, and 4 more for each of its three flips.
#[test]
fn bounds_the_rest_by_hand(rt: HostRuntime) {
    let lines: [Row; 8] = [
        (
            b"matrix C g 3 6 3 2 0 0 c\nptran 3 6 1 B 1 1 1 C 1 1\n",
            5,
            (163, 45, 308),
        ),
        (b"ptrsm L L T N 6 3 1 A 1 1 B 1 1\n", 4, (261, 187, 188)),
        (
            b"matrix C g 3 6 3 2 0 0 c\nptrsm R L N N 3 6 1 A 1 1 C 1 1\n",
            5,
            (405, 147, 308),
        ),
        (
            b"pgetrf 6 6 A 1 1 V\npgetrs T 6 3 A 1 1 V B 1 1\n",
            4,
            (1776, 187, 192),
        ),
        (
            b"matrix E g 6 6 2 2 0 0 e\npgetrf 6 6 A 1 1 V\npgetri 6 A 1 1 V E 1 1\n",
            5,
            (2097, 133, 312),
        ),
        (b"pverify A\n", 4, (138, 41, 188)),
        (
            b"grid h 2 2 2\nmatrix H h 6 6 2 2 0 0 h\nflip H 1 1 3\nflip H 6 6 3\nflip H 6 6 0\npverify H\n",
            6,
            (215, 65, 508),
        ),
        (
            b"grid h 2 2 2\nmatrix H h 6 6 2 2 0 0 h\nflip H 1 1 3\npverify H\npverify H\n",
            6,
            (289, 65, 508),
        ),
    ];
    check_bounds(&rt, rt.alloc(), HEAD, &lines);
}

// A factorization of 256 rows, and three losses, each of which adds a phase and a recovery; the same is computed in
// `script_bounds/proofs/Examples.antt`.
#[test]
fn bounds_a_factorization(rt: HostRuntime) {
    let text =
        b"grid g 2 3 2\nmatrix A g 256 256 16 16 0 1 a.txt\nmatrix B g 256 4 16 16 0 0 b.txt\nlinks 1\norder 3 1 4 1 5 9 2 6\npgetrf 256 256 A 1 1 V\npgetrs N 256 4 A 1 1 V B 1 1\npivots V\nprint A\nprint B\nlose 1000 0\nlose 30000 7\nlose 60000 4\n";
    let script = script(&rt, rt.alloc(), text);
    check_number(&rt, bound(&script), 129_537);
}
