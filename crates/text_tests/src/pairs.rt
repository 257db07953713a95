//! Lines that break two rules: the first in order is answered.
use crate::checks::{check_refusal, refusal};
use std::alloc::Global;
use std::panic::Expect;
use std::process::Abort;

// Grids g and h, on g the matrices A, B and C of one layout and others that differ from it in one entry each, D on h; pivot lists V and Q;
// a loss, and a matrix S with code columns for pending flips, of which there is one. The next line is line 19.
const HEAD: &[u8] =
    b"grid g 2 2 0\ngrid h 2 2 1\nmatrix A g 4 4 2 2 0 0 f\nmatrix B g 4 4 2 2 0 0 f\nmatrix C g 4 4 2 2 0 0 f\nmatrix D h 4 4 2 2 0 0 f\nmatrix R g 3 4 2 2 0 0 f\nmatrix K g 4 3 2 2 0 0 f\nmatrix U g 4 4 1 2 0 0 f\nmatrix W g 4 4 2 1 0 0 f\nmatrix X g 4 4 2 2 1 0 f\nmatrix Y g 4 4 2 2 0 1 f\npgetrf 4 4 A 1 1 V\npgetrf 3 4 R 1 1 Q\nlose 1 1\ngrid s 1 2 2\nmatrix S s 4 4 2 2 0 0 f\nflip S 1 1 3\n";

// A word that breaks a rule, where it stands in its line, and the code of the rule.
#[derive(Clone, Copy)]
struct Wrong<'a> {
    place: usize,
    word: &'a [u8],
    code: i32,
}

// The head and a line with two of its words replaced; where both stand in one place, the first is taken.
fn text_with(
    rt: &impl Abort,
    alloc: Global,
    words: &[&[u8]],
    one: Wrong<'_>,
    other: Wrong<'_>,
) -> Vec<u8> {
    let mut text = HEAD.to_vec(alloc).expect(rt, "memory");
    for (place, word) in words.iter().enumerate() {
        let chosen = if place == one.place {
            one.word
        } else if place == other.place {
            other.word
        } else {
            *word
        };
        text.extend_from_slice(chosen).expect(rt, "memory");
        text.push(b' ').expect(rt, "memory");
    }
    text
}

// Stops where a line as it is, or with each wrong word, or with each two, is not answered by the first rule that it breaks; the wrong words
// are in the order of the rules that they break.
fn check_pairs(rt: &impl Abort, alloc: Global, words: &[&[u8]], wrong: &[(usize, &[u8], i32)]) {
    let none = Wrong {
        place: usize::MAX,
        word: b"",
        code: 0,
    };
    let text = text_with(rt, alloc, words, none, none);
    check_refusal(rt, 0, refusal(rt, alloc, &text), (0, 0));
    for (row, (place, word, code)) in wrong.iter().enumerate() {
        let one = Wrong {
            place: *place,
            word,
            code: *code,
        };
        for (place, word, code) in &wrong[row..] {
            let other = Wrong {
                place: *place,
                word,
                code: *code,
            };
            let text = text_with(rt, alloc, words, one, other);
            check_refusal(rt, row, refusal(rt, alloc, &text), (19, one.code));
        }
    }
}

#[test]
fn product(rt: HostRuntime) {
    let words: [&[u8]; 17] = [
        b"pgemm", b"N", b"n", b"4", b"4", b"4", b"65536", b"A", b"1", b"01", b"B", b"1", b"1",
        b"0", b"C", b"1", b"1",
    ];
    let wrong: [(usize, &[u8], i32); 28] = [
        (0, b"qr", 1),
        (3, b"x", 3),
        (7, b"Z", 6),
        (14, b"V", 6),
        (16, b"-1", 3),
        (1, b"T", -1),
        (2, b"C", -2),
        (3, b"5", -3),
        (4, b"5", -4),
        (5, b"5", -5),
        (6, b"65537", -6),
        (8, b"2", -8),
        (9, b"0", -9),
        (11, b"2", -12),
        (12, b"2", -13),
        (10, b"D", -1402),
        (10, b"R", -1403),
        (10, b"U", -1405),
        (13, b"65537", -15),
        (14, b"A", -16),
        (15, b"2", -17),
        (16, b"2", -18),
        (14, b"D", -1902),
        (14, b"R", -1903),
        (14, b"K", -1904),
        (14, b"U", -1905),
        (14, b"W", -1906),
        (14, b"X", -1907),
    ];
    check_pairs(&rt, rt.alloc(), &words, &wrong);
    let last: [(usize, &[u8], i32); 2] = [(14, b"B", -16), (14, b"Y", -1908)];
    check_pairs(&rt, rt.alloc(), &words, &last);
}

#[test]
fn triangle(rt: HostRuntime) {
    let words: [&[u8]; 14] = [
        b"ptrsm", b"l", b"U", b"N", b"u", b"4", b"4", b"1", b"A", b"1", b"1", b"B", b"1", b"1",
    ];
    let wrong: [(usize, &[u8], i32); 21] = [
        (5, b"x", 3),
        (8, b"g", 6),
        (11, b"Q", 6),
        (1, b"X", -1),
        (2, b"N", -2),
        (3, b"C", -3),
        (4, b"L", -4),
        (5, b"5", -5),
        (6, b"5", -6),
        (7, b"65537", -7),
        (9, b"2", -9),
        (10, b"2", -10),
        (8, b"K", -1104),
        (8, b"W", -1106),
        (11, b"A", -12),
        (12, b"2", -13),
        (13, b"2", -14),
        (11, b"D", -1502),
        (11, b"R", -1503),
        (11, b"U", -1505),
        (11, b"X", -1507),
    ];
    check_pairs(&rt, rt.alloc(), &words, &wrong);
}

// With SIDE R the triangle is as large as B is wide.
#[test]
fn triangle_on_the_right(rt: HostRuntime) {
    let words: [&[u8]; 14] = [
        b"ptrsm", b"R", b"l", b"t", b"N", b"4", b"4", b"65536", b"A", b"1", b"1", b"X", b"1", b"1",
    ];
    let wrong: [(usize, &[u8], i32); 22] = [
        (5, b"x", 3),
        (8, b"g", 6),
        (11, b"Q", 6),
        (1, b"S", -1),
        (2, b"N", -2),
        (3, b"C", -3),
        (4, b"L", -4),
        (5, b"5", -5),
        (11, b"R", -5),
        (6, b"5", -6),
        (8, b"R", -6),
        (7, b"65537", -7),
        (9, b"2", -9),
        (10, b"2", -10),
        (8, b"K", -1104),
        (8, b"W", -1106),
        (11, b"A", -12),
        (12, b"2", -13),
        (13, b"2", -14),
        (11, b"D", -1502),
        (11, b"K", -1504),
        (11, b"W", -1506),
    ];
    check_pairs(&rt, rt.alloc(), &words, &wrong);
}

#[test]
fn transpose(rt: HostRuntime) {
    let words: [&[u8]; 11] = [
        b"ptran", b"4", b"4", b"65536", b"A", b"1", b"1", b"0", b"U", b"1", b"1",
    ];
    let wrong: [(usize, &[u8], i32); 17] = [
        (3, b"x", 3),
        (4, b"V", 6),
        (8, b"g", 6),
        (10, b"x", 3),
        (1, b"5", -1),
        (2, b"5", -2),
        (3, b"65537", -3),
        (5, b"2", -5),
        (6, b"0", -6),
        (4, b"R", -703),
        (4, b"K", -704),
        (7, b"65537", -8),
        (8, b"A", -9),
        (9, b"2", -10),
        (10, b"2", -11),
        (8, b"D", -1202),
        (8, b"S", -1202),
    ];
    check_pairs(&rt, rt.alloc(), &words, &wrong);
    let shape: [(usize, &[u8], i32); 2] = [(8, b"R", -1), (8, b"K", -2)];
    check_pairs(&rt, rt.alloc(), &words, &shape);
}

#[test]
fn inverse(rt: HostRuntime) {
    let words: [&[u8]; 9] = [b"pgetri", b"4", b"A", b"1", b"1", b"V", b"Y", b"1", b"1"];
    let wrong: [(usize, &[u8], i32); 19] = [
        (1, b"x", 3),
        (2, b"g", 6),
        (5, b"A", 6),
        (6, b"V", 6),
        (8, b"x", 3),
        (1, b"5", -1),
        (3, b"2", -3),
        (4, b"2", -4),
        (2, b"K", -504),
        (2, b"W", -506),
        (5, b"Q", -6),
        (6, b"A", -7),
        (7, b"2", -8),
        (8, b"0", -9),
        (6, b"D", -1002),
        (6, b"R", -1003),
        (6, b"K", -1004),
        (6, b"U", -1005),
        (6, b"X", -1007),
    ];
    check_pairs(&rt, rt.alloc(), &words, &wrong);
}

#[test]
fn corruption(rt: HostRuntime) {
    let flip: [&[u8]; 5] = [b"flip", b"S", b"2", b"3", b"65536"];
    let wrong: [(usize, &[u8], i32); 14] = [
        (1, b"s", 6),
        (1, b"V", 6),
        (2, b"x", 3),
        (3, b"x", 3),
        (4, b"x", 3),
        (2, b"0", 8),
        (2, b"5", 8),
        (3, b"0", 8),
        (3, b"5", 8),
        (4, b"65537", 8),
        (1, b"A", 23),
        (1, b"D", 23),
        (2, b"1", 24),
        (2, b"01", 24),
    ];
    check_pairs(&rt, rt.alloc(), &flip, &wrong);
    let pverify: [&[u8]; 2] = [b"pverify", b"D"];
    let wrong: [(usize, &[u8], i32); 3] = [(0, b"PVERIFY", 1), (1, b"V", 6), (1, b"A", 22)];
    check_pairs(&rt, rt.alloc(), &pverify, &wrong);
}

#[test]
fn factors(rt: HostRuntime) {
    let words: [&[u8]; 7] = [b"pgetrf", b"4", b"4", b"B", b"1", b"1", b"v"];
    let wrong: [(usize, &[u8], i32); 9] = [
        (1, b"x", 3),
        (3, b"g", 6),
        (6, b"1v", 4),
        (6, b"V", 5),
        (1, b"5", -1),
        (2, b"5", -2),
        (4, b"2", -4),
        (5, b"2", -5),
        (3, b"W", -606),
    ];
    check_pairs(&rt, rt.alloc(), &words, &wrong);
}

#[test]
fn solution(rt: HostRuntime) {
    let words: [&[u8]; 11] = [
        b"pgetrs", b"n", b"4", b"4", b"A", b"1", b"1", b"V", b"B", b"1", b"1",
    ];
    let wrong: [(usize, &[u8], i32); 17] = [
        (2, b"x", 3),
        (7, b"A", 6),
        (1, b"C", -1),
        (2, b"5", -2),
        (3, b"5", -3),
        (5, b"2", -5),
        (6, b"2", -6),
        (4, b"K", -704),
        (4, b"W", -706),
        (7, b"Q", -8),
        (8, b"A", -9),
        (9, b"2", -10),
        (10, b"2", -11),
        (8, b"D", -1202),
        (8, b"R", -1203),
        (8, b"U", -1205),
        (8, b"X", -1207),
    ];
    check_pairs(&rt, rt.alloc(), &words, &wrong);
}

#[test]
fn window(rt: HostRuntime) {
    let words: [&[u8]; 10] = [
        b"pgemr2d", b"2", b"2", b"A", b"3", b"3", b"D", b"1", b"2", b"all",
    ];
    let wrong: [(usize, &[u8], i32); 12] = [
        (1, b"x", 3),
        (3, b"h", 6),
        (1, b"0", -1),
        (2, b"0", -2),
        (4, b"4", -4),
        (4, b"0", -4),
        (5, b"4", -5),
        (6, b"A", -7),
        (7, b"4", -8),
        (8, b"0", -9),
        (8, b"4294967295", -9),
        (9, b"ALL", -11),
    ];
    check_pairs(&rt, rt.alloc(), &words, &wrong);
}

#[test]
fn grid(rt: HostRuntime) {
    let words: [&[u8]; 5] = [b"grid", b"n", b"16", b"2", b"0"];
    let wrong: [(usize, &[u8], i32); 10] = [
        (1, b"n-", 4),
        (1, b"V", 5),
        (2, b"x", 3),
        (3, b"x", 3),
        (4, b"x", 3),
        (2, b"17", 8),
        (3, b"0", 8),
        (4, b"5", 8),
        (3, b"4", 9),
        (4, b"2", 9),
    ];
    check_pairs(&rt, rt.alloc(), &words, &wrong);
}

#[test]
fn matrix(rt: HostRuntime) {
    let words: [&[u8]; 10] = [
        b"matrix", b"n", b"g", b"4", b"4", b"2", b"2", b"1", b"1", b"f",
    ];
    let wrong: [(usize, &[u8], i32); 11] = [
        (1, b"abcdefghijklmnopq", 4),
        (1, b"g", 5),
        (2, b"A", 6),
        (3, b"x", 3),
        (9, b"\xff", 4),
        (3, b"0", -3),
        (4, b"1025", -4),
        (5, b"0", -5),
        (6, b"129", -6),
        (7, b"2", -7),
        (8, b"2", -8),
    ];
    check_pairs(&rt, rt.alloc(), &words, &wrong);
}

#[test]
fn settings(rt: HostRuntime) {
    let order: [&[u8]; 3] = [b"order", b"0", b"4095"];
    let wrong: [(usize, &[u8], i32); 4] = [
        (1, b"x", 3),
        (2, b"x", 3),
        (1, b"4096", 8),
        (2, b"4096", 8),
    ];
    check_pairs(&rt, rt.alloc(), &order, &wrong);
    let lose: [&[u8]; 3] = [b"lose", b"4294967295", b"13"];
    let wrong: [(usize, &[u8], i32); 3] = [(1, b"x", 3), (2, b"x", 3), (2, b"14", 8)];
    check_pairs(&rt, rt.alloc(), &lose, &wrong);
    let links: [&[u8]; 2] = [b"links", b"64"];
    let wrong: [(usize, &[u8], i32); 3] = [(1, b"x", 3), (1, b"0", 8), (1, b"65", 8)];
    check_pairs(&rt, rt.alloc(), &links, &wrong);
    let spares: [&[u8]; 2] = [b"spares", b"4096"];
    let wrong: [(usize, &[u8], i32); 2] = [(1, b"x", 3), (1, b"4097", 8)];
    check_pairs(&rt, rt.alloc(), &spares, &wrong);
    let topology: [&[u8]; 2] = [b"topology", b"d"];
    let wrong: [(usize, &[u8], i32); 2] = [(0, b"Topology", 1), (1, b"dt", 8)];
    check_pairs(&rt, rt.alloc(), &topology, &wrong);
}
