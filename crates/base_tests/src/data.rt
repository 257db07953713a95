//! Plain data: matrices and parts, words, lists of numbers, commands, scripts and files.
use crate::checks::{
    check_bytes, check_is, check_number, check_numbers, check_shape, check_within, matrix, put,
    zeros,
};
use run_data::{Command, Files, IndexList, Mat, Part, Script, Word};
use std::alloc::Global;
use std::process::Abort;

/// A part of a matrix.
fn part(rt: &impl Abort, alloc: Global, m: &Mat, at: Part) -> Mat {
    check_within(rt, at, m);
    m.part(alloc, at).expect(rt, "memory for a part")
}

/// A copy of a matrix with one word written.
fn copy_with(rt: &impl Abort, alloc: Global, m: &mut Mat, i: u32, j: u32, word: u32) -> Mat {
    assert!(rt; i < m.rows() && j < m.cols());
    m.set(i, j, word);
    m.copy(alloc).expect(rt, "memory for a copy")
}

/// The word in a row and a column.
fn word_at(rt: &impl Abort, m: &Mat, i: u32, j: u32) -> u32 {
    assert!(rt; i < m.rows() && j < m.cols());
    m.get(i, j)
}

#[test]
fn reads_and_writes(rt: HostRuntime) {
    let alloc = rt.alloc();
    let mut m = matrix(&rt, alloc, 2, 3, &[1, 2, 3, 4, 5, 6]);
    check_shape(&rt, &m, 2, 3);
    let last = word_at(&rt, &m, 1, 2);
    let below = [m.has_words_below(7), m.has_words_below(6)];
    let copy = copy_with(&rt, alloc, &mut m, 0, 1, 9);
    let strip = zeros(&rt, alloc, 0, 3);
    check_is(&rt, &copy, &[1, 2, 9, 4, 5, 6]);
    check_shape(&rt, &strip, 0, 3);
    check_is(&rt, &strip, &[]);
    check_number(&rt, Some(last), Some(6));
    assert!(rt; below == [true, false]);
}

#[test]
fn takes_and_puts_parts(rt: HostRuntime) {
    let alloc = rt.alloc();
    let m = matrix(&rt, alloc, 2, 3, &[1, 2, 3, 4, 5, 6]);
    let row = Part {
        r0: 1,
        r1: 2,
        c0: 1,
        c1: 3,
    };
    let empty = Part {
        r0: 0,
        r1: 2,
        c0: 3,
        c1: 3,
    };
    let at = Part {
        r0: 2,
        r1: 3,
        c0: 0,
        c1: 2,
    };
    let taken = part(&rt, alloc, &m, row);
    let none = part(&rt, alloc, &m, empty);
    let mut square = zeros(&rt, alloc, 3, 3);
    put(&rt, &mut square, at, &m, row);
    check_is(&rt, &taken, &[4, 6]);
    check_shape(&rt, &none, 2, 0);
    check_is(&rt, &square, &[0, 0, 4, 0, 0, 6, 0, 0, 0]);
}

/// The word of these bytes.
fn word(rt: &impl Abort, alloc: Global, bytes: &[u8]) -> Word {
    Word::new(alloc, bytes).expect(rt, "memory for a word")
}

#[test]
fn keeps_its_bytes(rt: HostRuntime) {
    let word = word(&rt, rt.alloc(), b"a_1");
    check_bytes(&rt, word.bytes(), b"a_1");
}

/// The list of these numbers, copied.
fn list(rt: &impl Abort, alloc: Global, numbers: &[u32]) -> IndexList {
    let mut list = IndexList::new(alloc);
    for number in numbers {
        list.push(*number).expect(rt, "memory for a number");
    }
    list.copy(alloc).expect(rt, "memory for a copy")
}

/// Number `i` of a list.
fn number(rt: &impl Abort, list: &IndexList, i: u32) -> u32 {
    assert!(rt; i < list.len());
    list.get(i)
}

#[test]
fn keeps_its_numbers(rt: HostRuntime) {
    let none = list(&rt, rt.alloc(), &[]);
    let two = list(&rt, rt.alloc(), &[3, 1]);
    let found = [
        none.len(),
        two.len(),
        number(&rt, &two, 0),
        number(&rt, &two, 1),
    ];
    check_numbers(&rt, &found, &[0, 2, 3, 1]);
}

/// Keeps a matrix of so many rows and two columns for a line.
fn add_file(rt: &impl Abort, alloc: Global, files: &mut Files, line: u32, rows: u32) {
    let m = zeros(rt, alloc, rows, 2);
    files.put(line, m).expect(rt, "memory for an entry");
}

/// Stops where the matrix of a line has another number of rows, or is there where none should be.
fn check_file(rt: &impl Abort, files: &Files, line: u32, rows: Option<u32>) {
    check_number(rt, files.get(line).map(|m| m.rows()), rows);
}

#[test]
fn keeps_the_last_matrix_of_a_line(rt: HostRuntime) {
    let mut files = Files::new(rt.alloc());
    for (line, rows) in [(3, 1), (5, 4), (3, 6)] {
        add_file(&rt, rt.alloc(), &mut files, line, rows);
    }
    for (line, rows) in [(3, Some(6)), (4, None), (5, Some(4))] {
        check_file(&rt, &files, line, rows);
    }
}

fn grid_line(rt: &impl Abort, alloc: Global, name: &[u8]) -> Command {
    let name = word(rt, alloc, name);
    Command::Grid {
        name,
        p: 1,
        q: 1,
        f: 0,
    }
}

fn matrix_on(rt: &impl Abort, alloc: Global, grid: &[u8]) -> Command {
    let name = word(rt, alloc, b"A");
    let grid = word(rt, alloc, grid);
    let file = word(rt, alloc, b"a.txt");
    Command::Matrix {
        name,
        grid,
        m: 1,
        n: 1,
        mb: 1,
        nb: 1,
        rsrc: 0,
        csrc: 0,
        file,
    }
}

fn drop_line(rt: &impl Abort, alloc: Global) -> Command {
    let name = word(rt, alloc, b"A");
    Command::Discard { name }
}

fn push(rt: &impl Abort, script: &mut Script, line: Option<Command>) {
    script.push(line).expect(rt, "memory for a line");
}

/// Two grids, and a matrix that is dropped and made again.
fn script(rt: &impl Abort, alloc: Global) -> Script {
    let mut script = Script::new(alloc);
    push(rt, &mut script, Some(grid_line(rt, alloc, b"g")));
    push(rt, &mut script, None);
    push(rt, &mut script, Some(matrix_on(rt, alloc, b"g")));
    push(rt, &mut script, Some(grid_line(rt, alloc, b"h")));
    push(rt, &mut script, Some(drop_line(rt, alloc)));
    push(rt, &mut script, Some(matrix_on(rt, alloc, b"h")));
    push(rt, &mut script, Some(drop_line(rt, alloc)));
    script
}

/// Stops where a word of a line means another line, or one where it should mean none.
fn check_operand(rt: &impl Abort, script: &Script, line: u32, word: u32, meant: Option<u32>) {
    let found = script.operand(line, word);
    assert!(rt; found == meant, "word {word} of line {line}");
}

/// Stops where a command is missing from a line, or there where none should be.
fn check_command(rt: &impl Abort, script: &Script, line: u32, is_there: bool) {
    assert!(rt; script.command(line).is_some() == is_there, "line {line}");
}

#[test]
fn resolves_names(rt: HostRuntime) {
    let script = script(&rt, rt.alloc());
    check_number(&rt, Some(script.lines()), Some(7));
    for (line, word, meant) in [
        (3, 2, Some(0)),
        (3, 1, None),
        (5, 1, Some(3)),
        (6, 1, None),
        (6, 2, Some(1)),
        (7, 1, Some(6)),
        (7, 0, None),
        (2, 1, None),
        (8, 1, None),
        (0, 1, None),
    ] {
        check_operand(&rt, &script, line, word, meant);
    }
    for (line, is_there) in [(0, false), (1, true), (2, false), (7, true), (8, false)] {
        check_command(&rt, &script, line, is_there);
    }
}

fn matrix_line(rt: &impl Abort, alloc: Global) -> Command {
    let name = word(rt, alloc, b"A");
    let grid = word(rt, alloc, b"A");
    let file = word(rt, alloc, b"A");
    Command::Matrix {
        name,
        grid,
        m: 1,
        n: 1,
        mb: 1,
        nb: 1,
        rsrc: 0,
        csrc: 0,
        file,
    }
}

fn pgemm(rt: &impl Abort, alloc: Global) -> Command {
    let transa = word(rt, alloc, b"A");
    let transb = word(rt, alloc, b"A");
    let a = word(rt, alloc, b"A");
    let b = word(rt, alloc, b"A");
    let c = word(rt, alloc, b"A");
    Command::Pgemm {
        transa,
        transb,
        m: 1,
        n: 1,
        k: 1,
        alpha: 1,
        a,
        ia: 1,
        ja: 1,
        b,
        ib: 1,
        jb: 1,
        beta: 1,
        c,
        ic: 1,
        jc: 1,
    }
}

fn ptrsm(rt: &impl Abort, alloc: Global) -> Command {
    let side = word(rt, alloc, b"A");
    let uplo = word(rt, alloc, b"A");
    let transa = word(rt, alloc, b"A");
    let diag = word(rt, alloc, b"A");
    let a = word(rt, alloc, b"A");
    let b = word(rt, alloc, b"A");
    Command::Ptrsm {
        side,
        uplo,
        transa,
        diag,
        m: 1,
        n: 1,
        alpha: 1,
        a,
        ia: 1,
        ja: 1,
        b,
        ib: 1,
        jb: 1,
    }
}

fn pgetrf(rt: &impl Abort, alloc: Global) -> Command {
    let a = word(rt, alloc, b"A");
    let v = word(rt, alloc, b"A");
    Command::Pgetrf {
        m: 1,
        n: 1,
        a,
        ia: 1,
        ja: 1,
        v,
    }
}

fn pgetrs(rt: &impl Abort, alloc: Global) -> Command {
    let trans = word(rt, alloc, b"A");
    let a = word(rt, alloc, b"A");
    let v = word(rt, alloc, b"A");
    let b = word(rt, alloc, b"A");
    Command::Pgetrs {
        trans,
        n: 1,
        nrhs: 1,
        a,
        ia: 1,
        ja: 1,
        v,
        b,
        ib: 1,
        jb: 1,
    }
}

fn pgemr2d(rt: &impl Abort, alloc: Global) -> Command {
    let a = word(rt, alloc, b"A");
    let b = word(rt, alloc, b"A");
    let ctxt = word(rt, alloc, b"A");
    Command::Pgemr2d {
        m: 1,
        n: 1,
        a,
        ia: 1,
        ja: 1,
        b,
        ib: 1,
        jb: 1,
        ctxt,
    }
}

/// Whether the command of a line makes records, if the line has one.
fn makes_records(script: &Script, line: u32) -> Option<bool> {
    match script.command(line) {
        Some(command) => Some(command.makes_records()),
        None => None,
    }
}

/// Stops where one of the first lines of a script makes records and should not, or the other way round.
fn check_records(rt: &impl Abort, script: &Script, lines: u32, makes: bool) {
    assert!(rt; script.lines() == lines);
    for i in 0..lines {
        assert!(rt; makes_records(script, i + 1) == Some(makes), "line {i}");
    }
}

#[test]
fn computing_lines_make_records(rt: HostRuntime) {
    let mut script = Script::new(rt.alloc());
    push(&rt, &mut script, Some(pgemm(&rt, rt.alloc())));
    push(&rt, &mut script, Some(ptrsm(&rt, rt.alloc())));
    push(&rt, &mut script, Some(pgetrf(&rt, rt.alloc())));
    push(&rt, &mut script, Some(pgetrs(&rt, rt.alloc())));
    push(&rt, &mut script, Some(pgemr2d(&rt, rt.alloc())));
    check_records(&rt, &script, 5, true);
}

fn print_line(rt: &impl Abort, alloc: Global) -> Command {
    let name = word(rt, alloc, b"A");
    Command::Print { name }
}

fn pivots_line(rt: &impl Abort, alloc: Global) -> Command {
    let name = word(rt, alloc, b"A");
    Command::Pivots { name }
}

#[test]
fn lines_on_one_name_make_records(rt: HostRuntime) {
    let mut script = Script::new(rt.alloc());
    push(&rt, &mut script, Some(matrix_line(&rt, rt.alloc())));
    push(&rt, &mut script, Some(print_line(&rt, rt.alloc())));
    push(&rt, &mut script, Some(pivots_line(&rt, rt.alloc())));
    push(&rt, &mut script, Some(drop_line(&rt, rt.alloc())));
    check_records(&rt, &script, 4, true);
}

fn topology_line(rt: &impl Abort, alloc: Global) -> Command {
    let kind = word(rt, alloc, b"A");
    Command::Topology { kind }
}

fn order_line(alloc: Global) -> Command {
    let numbers = IndexList::new(alloc);
    Command::Order { numbers }
}

#[test]
fn lines_that_make_no_records(rt: HostRuntime) {
    let mut script = Script::new(rt.alloc());
    push(&rt, &mut script, Some(grid_line(&rt, rt.alloc(), b"A")));
    push(&rt, &mut script, Some(topology_line(&rt, rt.alloc())));
    push(&rt, &mut script, Some(Command::Links { n: 1 }));
    push(&rt, &mut script, Some(order_line(rt.alloc())));
    push(&rt, &mut script, Some(Command::Lose { at: 0, rank: 0 }));
    push(&rt, &mut script, Some(Command::Spares { n: 0 }));
    check_records(&rt, &script, 6, false);
}

#[test]
fn the_spares_line_counts(rt: HostRuntime) {
    let mut script = Script::new(rt.alloc());
    let before = script.spares();
    push(&rt, &mut script, None);
    push(&rt, &mut script, Some(Command::Spares { n: 4096 }));
    push(&rt, &mut script, Some(Command::Links { n: 7 }));
    check_number(&rt, before, None);
    check_number(&rt, script.spares(), Some(4096));
}
