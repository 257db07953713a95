//! Scripts by example: what is read, and the first rule that is broken.
use crate::checks::{
    MATRICES, check_is, check_number, check_refusal, check_refusals, refusal, repeated, script,
};
use run_data::{Command, Script};
use std::alloc::Global;
use std::panic::Expect;
use std::process::Abort;

// Stops where the lines with commands are not those that the table says.
fn check_lines(rt: &impl Abort, script: &Script, table: &[(u32, bool)]) {
    for (line, is_there) in table {
        assert_eq!(rt; script.command(*line).is_some(), *is_there, "line {line}");
    }
}

// The name and the file of a `matrix` command; empty of another.
fn matrix_words(command: Option<&Command>) -> (&[u8], &[u8]) {
    match command {
        Some(Command::Matrix { name, file, .. }) => (name.bytes(), file.bytes()),
        _ => (&[], &[]),
    }
}

// Stops where scripts have other numbers of spares than these.
fn check_spares(rt: &impl Abort, found: &[Option<u32>], want: &[Option<u32>]) {
    assert_eq!(rt; found, want);
}

#[test]
fn reads_a_script(rt: HostRuntime) {
    let text =
        b"# one word\r\n\ngrid\tg 01 1 0 # a grid\r\n matrix  A_1 g 1 1 1 0000000001 0 0 a.txt\r\n\t\n\nprint A_1";
    let script = script(&rt, rt.alloc(), text);
    let (name, file) = matrix_words(script.command(4));
    check_number(&rt, u64::from(script.lines()), 7);
    check_lines(
        &rt,
        &script,
        &[
            (1, false),
            (2, false),
            (3, true),
            (4, true),
            (5, false),
            (6, false),
            (7, true),
        ],
    );
    check_is(&rt, name, b"A_1");
    check_is(&rt, file, b"a.txt");
}

#[test]
fn reads_scripts(rt: HostRuntime) {
    let read: [&[u8]; 8] = [
        b"",
        b"# nothing\r\n\n\t \n",
        b"grid g 1 1 0\nmatrix A g 1 1 1 1 0 0 f\nprint A\n",
        b"grid abcdefghij_12345 1 1 0\nmatrix A abcdefghij_12345 1 1 1 1 0 0 f\nprint A\r",
        b"grid G 1 1 0\nmatrix g G 1 1 1 1 0 0 \xc3\xa9\nprint g#\r\r",
        b"grid g 2 3 0\ngrid h 16 1 0\nmatrix A g 3 4 2 2 1 2 a\nmatrix B h 1024 1024 128 128 15 0 b\nprint B\ndrop A\nprint B\n",
        b"grid g 1 1 0\nmatrix A g 1 1 1 1 0 0 f\ndrop A\nmatrix A g 2 1 1 1 0 0 f\nprint A",
        b"grid g 16 4 0",
    ];
    for (row, text) in read.into_iter().enumerate() {
        check_refusal(&rt, row, refusal(&rt, rt.alloc(), text), (0, 0));
    }
}

#[test]
fn refuses_words(rt: HostRuntime) {
    let refused: [(&[u8], (u32, i32)); 26] = [
        (b"qr A", (1, 1)),
        (b"\n\nGRID g 1 1 0", (3, 1)),
        (b"grid g 1 1", (1, 2)),
        (b"grid g 1 1 0 0", (1, 2)),
        (b"order", (1, 2)),
        (b"order 1 2 3 x", (1, 3)),
        (b"order 4095 4096", (1, 8)),
        (b"topology x", (1, 8)),
        (b"links 65", (1, 8)),
        (b"links 1\nlinks 2", (2, 16)),
        (b"pgetrf 1 1 A 1 1", (1, 2)),
        (b"pgetrf x x x x x x", (1, 3)),
        (b"lose 1 1", (1, 8)),
        (b"grid g 1 x 0", (1, 3)),
        (b"grid g 00000000001 1 0", (1, 3)),
        (b"grid g 4294967296 1 0", (1, 3)),
        (b"grid 1g x 1 0", (1, 4)),
        (b"grid abcdefghij_123456 1 1 0", (1, 4)),
        (
            b"grid g 1 1 0\nmatrix A g 1 1 1 1 0 0 \xff\nprint A",
            (2, 4),
        ),
        (b"grid g 1 1 0\ngrid g x 1 0", (2, 5)),
        (b"grid g 1 1 0\nmatrix g x 1 1 1 1 0 0 f", (2, 5)),
        (b"print Z", (1, 6)),
        (b"grid g 1 1 0\nprint g", (2, 6)),
        (b"grid g 1 1 0\nmatrix A h 0 1 1 1 0 0 \xff", (2, 6)),
        (
            b"grid g 1 1 0\nmatrix A g 1 1 1 1 0 0 f\ndrop A\nprint A",
            (4, 6),
        ),
        (
            b"grid g 1 1 0\nmatrix A g 1 1 1 1 0 0 f\nprint A\r\r\n",
            (3, 6),
        ),
    ];
    check_refusals(&rt, rt.alloc(), b"", &refused);
}

#[test]
fn refuses_numbers(rt: HostRuntime) {
    let refused: [(&[u8], (u32, i32)); 16] = [
        (b"grid g 17 1 0", (1, 8)),
        (b"grid g 1 0 9", (1, 8)),
        (b"grid g 16 16 5", (1, 8)),
        (b"grid g 16 4 1", (1, 9)),
        (b"grid g 16 4 0\ngrid h 1 1 1", (2, 9)),
        (b"grid g 1 1 0\nmatrix A g 0 0 1 1 0 0 f", (2, -3)),
        (b"grid g 1 1 0\nmatrix A g 1025 1 0 1 0 0 f", (2, -3)),
        (b"grid g 1 1 0\nmatrix A g 1 1025 0 1 0 0 f", (2, -4)),
        (b"grid g 1 1 0\nmatrix A g 1 1 0 1 0 0 f", (2, -5)),
        (b"grid g 1 1 0\nmatrix A g 1 1 129 129 0 0 f", (2, -5)),
        (b"grid g 1 1 0\nmatrix A g 1 1 128 129 0 0 f", (2, -6)),
        (b"grid g 1 1 0\nmatrix A g 1 1 1 0 1 1 f", (2, -6)),
        (b"grid g 2 1 0\nmatrix A g 1 1 1 1 2 1 f", (2, -7)),
        (b"grid g 2 1 0\nmatrix A g 1 1 1 1 1 1 f", (2, -8)),
        (b"grid g 1 2 0\nmatrix A g 1 1 1 1 1 1 f", (2, -7)),
        (b"grid g 1 1 0\nmatrix A g 0 1 1 1 0 0 f\nqr", (2, -3)),
    ];
    check_refusals(&rt, rt.alloc(), b"", &refused);
}

#[test]
fn refuses_spares(rt: HostRuntime) {
    let scripts: [(&[u8], (u32, i32)); 12] = [
        (b"spares 0", (0, 0)),
        (b"spares 4096", (0, 0)),
        (b"spares 4097", (1, 8)),
        (b"spares 4294967295", (1, 8)),
        (b"spares x", (1, 3)),
        (b"spares -1", (1, 3)),
        (b"spares", (1, 2)),
        (b"spares 1 2", (1, 2)),
        (b"Spares 1", (1, 1)),
        (b"spares 1\nlinks 2\nspares 1", (3, 21)),
        (b"spares 1\nspares 4097", (2, 8)),
        (b"spares 1\nspares x", (2, 3)),
    ];
    check_refusals(&rt, rt.alloc(), b"", &scripts);
}

#[test]
fn reads_spares(rt: HostRuntime) {
    let with = script(
        &rt,
        rt.alloc(),
        b"links 2\nspares 4096\nlose 0 0\ngrid g 1 1 0\n",
    );
    let without = script(&rt, rt.alloc(), b"links 2\n");
    check_spares(&rt, &[with.spares(), without.spares()], &[Some(4096), None]);
}

#[test]
fn counts_lines_and_matrices(rt: HostRuntime) {
    let one = b"grid g 1 1 0\n";
    let again = b"matrix A g 1 1 1 1 0 0 f\ndrop A\n";
    let wide = b"grid g 16 1 0\nmatrix A g 1024 1024 128 128 0 0 a.txt\n";
    let more =
        b"grid g 16 1 0\nmatrix A g 1024 1024 128 128 0 0 a\nmatrix B g 1 1 1 1 0 0 b\nprint B\n";
    let long = b"grid g 16 1 0\nmatrix A g 1024 1024 1 1 0 0 a.txt\n";
    // The records of 255 lines of A, 16,385 each, and 16,129 of B's; a `drop` line has one more.
    let full = b"grid g 16 1 0\nmatrix A g 1 1024 1 1 0 0 a\nmatrix B g 1 1008 1 1 0 0 b\n";
    let over = b"grid g 16 1 0\nmatrix A g 1 1024 1 1 0 0 a\nmatrix B g 1 1008 1 1 0 0 b\ndrop B\n";
    let scripts: [(&[u8], &[u8], u32, (u32, i32)); 11] = [
        (b"", b"\n", 4096, (0, 0)),
        (b"", b"#\n", 4097, (4097, 11)),
        (b"\n\nqr\n", b"\n", 4097, (3, 1)),
        (one, again, 256, (0, 0)),
        (one, again, 257, (514, 10)),
        (wide, b"print A\n", 256, (0, 0)),
        (wide, b"print A\n", 257, (259, 10)),
        (more, b"print A\n", 256, (260, 10)),
        (long, b"print A\n", 255, (0, 7)),
        (full, b"print A\n", 254, (0, 0)),
        (over, b"print A\n", 254, (0, 7)),
    ];
    for (row, (head, text, times, want)) in scripts.into_iter().enumerate() {
        let text = repeated(&rt, rt.alloc(), head, text, times);
        check_refusal(&rt, row, refusal(&rt, rt.alloc(), &text), want);
    }
}

// A script of a head and 256 `order` lines of 256 numbers each.
fn ordered(rt: &impl Abort, alloc: Global, head: &[u8]) -> Vec<u8> {
    let mut line = repeated(rt, alloc, b"order", b" 7", 256);
    line.push(b'\n').expect(rt, "memory");
    repeated(rt, alloc, head, &line, 256)
}

#[test]
fn counts_order_numbers(rt: HostRuntime) {
    let scripts: [(&[u8], (u32, i32)); 3] = [
        (b"links 2\n", (0, 0)),
        (b"order 4095\n", (257, 8)),
        (b"order 1 2\n", (257, 8)),
    ];
    for (row, (head, want)) in scripts.into_iter().enumerate() {
        let text = ordered(&rt, rt.alloc(), head);
        check_refusal(&rt, row, refusal(&rt, rt.alloc(), &text), want);
    }
}

// A script of a head and so many lines, each with a name of its own: a letter and a digit.
fn named(
    rt: &impl Abort,
    alloc: Global,
    head: &[u8],
    first: &[u8],
    rest: &[u8],
    count: u8,
) -> Vec<u8> {
    let mut all = head.to_vec(alloc).expect(rt, "memory");
    for number in 0..count {
        all.extend_from_slice(first).expect(rt, "memory");
        all.push(b'a' + number / 10 % 10).expect(rt, "memory");
        all.push(b'0' + number % 10).expect(rt, "memory");
        all.extend_from_slice(rest).expect(rt, "memory");
    }
    all
}

#[test]
fn counts_live_matrices_and_ranks(rt: HostRuntime) {
    let head = b"grid G 1 1 0\n";
    let rest = b" G 1 1 1 1 0 0 f\n";
    let scripts: [(&[u8], &[u8], &[u8], u8, (u32, i32)); 4] = [
        (head, b"matrix ", rest, 16, (0, 0)),
        (head, b"matrix ", rest, 17, (18, 10)),
        (b"", b"grid ", b" 1 1 0\n", 64, (0, 0)),
        (b"", b"grid ", b" 1 1 0\n", 65, (65, 9)),
    ];
    for (row, (head, first, rest, count, want)) in scripts.into_iter().enumerate() {
        let text = named(&rt, rt.alloc(), head, first, rest, count);
        check_refusal(&rt, row, refusal(&rt, rt.alloc(), &text), want);
    }
}

#[test]
fn tests_arguments(rt: HostRuntime) {
    let lines: [(&[u8], (u32, i32)); 30] = [
        (b"pgemm n N 4 4 4 65536 A 1 1 A 1 1 0 C 1 1", (0, 0)),
        (b"pgemm T N 4 4 4 1 A 1 1 B 1 1 1 C 1 1", (8, -1)),
        (b"pgemm N N 4 4 4 1 A 1 1 B 1 1 1 A 1 1", (8, -16)),
        (b"pgemm N N 4 4 4 1 A 1 1 D 1 1 1 C 1 1", (8, -1402)),
        (b"pgemm N N 4 4 4 1 A 1 1 B 1 1 1 D 1 1", (8, -1902)),
        (b"pgemm N N 4 4 4 1 A 1 1 B 1 1 65537 A 0 1", (8, -15)),
        (b"ptrsm l u n u 4 4 1 A 1 1 B 1 1", (0, 0)),
        (b"ptrsm X U N U 4 4 1 A 1 1 B 1 1", (8, -1)),
        (b"ptrsm r l t n 4 4 1 A 1 1 B 1 1", (0, 0)),
        (b"ptrsm L U N U 4 4 1 A 1 1 A 2 1", (8, -12)),
        (b"ptrsm L U N U 4 4 1 A 1 1 D 1 1", (8, -1502)),
        (b"pgetrf 4 4 B 1 1 V", (8, 5)),
        (b"pgetrf 4 4 B 1 2 W", (8, -5)),
        (b"pgetrf 4 4 D 1 1 W", (0, 0)),
        (b"pgetrf 4 4 D 1 1 W\nlose 1 1", (0, 0)),
        (b"lose 1 8\npgetrf 4 4 D 1 1 W", (0, 0)),
        (b"lose 1 10", (8, 8)),
        (b"pgetrs N 4 4 A 1 1 V B 1 1", (0, 0)),
        (b"pgetrs t 4 4 A 1 1 V B 1 1", (0, 0)),
        (b"pgetrs N 4 4 D 1 1 V B 1 1", (8, -8)),
        (b"pgetrs N 4 4 A 1 1 V A 1 1", (8, -9)),
        (b"pgetrs N 4 3 A 1 1 V B 1 1", (8, -3)),
        (b"pgemr2d 2 2 A 3 1 D 1 3 all", (0, 0)),
        (b"pgemr2d 0 2 A 0 1 A 1 1 ALL", (8, -1)),
        (b"pgemr2d 2 2 A 4 1 D 1 1 all", (8, -4)),
        (b"pgemr2d 2 2 A 1 1 D 1 1 ALL", (8, -11)),
        (b"pgemr2d 2 2 A 1 1 A 3 3 all", (8, -7)),
        (b"pivots V", (0, 0)),
        (b"pivots A", (8, 6)),
        (b"drop V\npivots V", (9, 6)),
    ];
    let head = repeated(&rt, rt.alloc(), MATRICES, b"pgetrf 4 4 A 1 1 V\n", 1);
    check_refusals(&rt, rt.alloc(), &head, &lines);
}
