//! Scripts that are run on the ranks: what is printed, and the journal.
use crate::runs::{File, Wanted, check_ran, check_words, done, joined, run};
use itoa::Buffer;
use std::alloc::Global;
use std::panic::Expect;
use std::process::Abort;

// Stops where a run on the ranks prints something else; the journal is not compared.
fn check_prints(rt: &impl Abort, alloc: Global, row: usize, files: &[File<'_>], out: &[u8]) {
    let ran = run(rt, alloc, &["s.txt"], files);
    check_ran(rt, row, &ran, done(out, &ran.journal));
}

// Stops where a run of a script over one matrix file, by each row of a table, answers or writes something else.
fn check_answers(rt: &impl Abort, alloc: Global, table: &[(&[u8], &[u8], Wanted<'_>)]) {
    for (row, (script, matrix, want)) in table.iter().enumerate() {
        let files = [("s.txt", *script), ("a.txt", *matrix)];
        check_ran(rt, row, &run(rt, alloc, &["s.txt"], &files), *want);
    }
}

// A script of one matrix of one word.
const SMALLEST: &[u8] = b"grid g 1 1 0\nmatrix A g 1 1 1 1 0 0 a.txt\nprint A\n";

const WITH_JOURNAL: &[&str] = &["s.txt", "--journal", "j.txt"];

const JOURNAL: &[u8] =
    b"0 feed 0 d2.0\n1 commit 2 end 0 0 0 plain\n2 take 0 d2.0\n3 commit 3 end 0 0 0 plain\n";

#[test]
fn runs_the_smallest_script(rt: HostRuntime) {
    check_words(
        &rt,
        rt.alloc(),
        &[&["s.txt"], WITH_JOURNAL, &["--journal", "j.txt", "s.txt"]],
        &[("s.txt", SMALLEST), ("a.txt", b"7\n")],
        done(b"A 1 1\n7\n", JOURNAL),
    );
}

const AFTER_A_COMMENT: &[u8] = b"# x\ngrid g 1 1 0\nmatrix A g 1 1 1 1 0 0 a.txt\nprint A\n";

const JOURNAL_AFTER_A_COMMENT: &[u8] =
    b"0 feed 0 d3.0\n1 commit 3 end 0 0 0 plain\n2 take 0 d3.0\n3 commit 4 end 0 0 0 plain\n";

#[test]
fn counts_a_line_without_words(rt: HostRuntime) {
    check_words(
        &rt,
        rt.alloc(),
        &[WITH_JOURNAL],
        &[("s.txt", AFTER_A_COMMENT), ("a.txt", b"7\n")],
        done(b"A 1 1\n7\n", JOURNAL_AFTER_A_COMMENT),
    );
}

const WITH_COMMENTS: &[u8] =
    b"# x\r\ngrid g 1 1 0\r\n\r\nmatrix A g 1 1 1 1 0 0 a.txt # y\n\tprint A";

const JOURNAL_WITH_COMMENTS: &[u8] =
    b"0 feed 0 d4.0\n1 commit 4 end 0 0 0 plain\n2 take 0 d4.0\n3 commit 5 end 0 0 0 plain\n";

#[test]
fn runs_and_ends(rt: HostRuntime) {
    check_answers(
        &rt,
        rt.alloc(),
        &[
            (
                WITH_COMMENTS,
                b" 65536\r\n",
                done(b"A 1 1\n65536\n", JOURNAL_WITH_COMMENTS),
            ),
            (
                b"grid g 1 1 0\nmatrix A g 1 1 1 1 0 0 a.txt\n",
                b"7\n",
                done(b"", b"0 feed 0 d2.0\n1 commit 2 end 0 0 0 plain\n"),
            ),
            (b"", b"", done(b"", b"")),
        ],
    );
}

// A script that prints one matrix, the first line that it prints, and the rows and columns of the matrix.
type Shape = (&'static [u8], &'static [u8], u32, u32);

const SHAPES: [Shape; 9] = [
    (
        b"grid g 1 1 0\nmatrix A g 7 5 3 2 0 0 a.txt\nprint A\n",
        b"A 7 5\n",
        7,
        5,
    ),
    (
        b"grid g 2 3 0\nmatrix A g 3 4 2 2 1 2 a.txt\nprint A\n",
        b"A 3 4\n",
        3,
        4,
    ),
    (
        b"grid g 1 16 0\nmatrix A g 2 1024 1 1 0 15 a.txt\nprint A\n",
        b"A 2 1024\n",
        2,
        1024,
    ),
    (
        b"grid g 16 1 0\nmatrix A g 1024 2 1 128 7 0 a.txt\nprint A\n",
        b"A 1024 2\n",
        1024,
        2,
    ),
    (
        b"grid g 4 4 0\nmatrix A g 40 41 3 5 2 3 a.txt\nprint A\n",
        b"A 40 41\n",
        40,
        41,
    ),
    (
        b"grid g 4 4 0\nmatrix A g 1 1 128 128 3 1 a.txt\nprint A\n",
        b"A 1 1\n",
        1,
        1,
    ),
    (
        b"grid g 3 5 0\nmatrix A g 17 16 1 1 0 4 a.txt\nprint A\n",
        b"A 17 16\n",
        17,
        16,
    ),
    (
        b"grid g 8 8 0\nmatrix A g 9 130 2 128 5 6 a.txt\nprint A\n",
        b"A 9 130\n",
        9,
        130,
    ),
    (
        b"grid g 2 2 0\nmatrix A g 6 6 100 4 1 1 a.txt\nprint A\n",
        b"A 6 6\n",
        6,
        6,
    ),
];

// Adds a word and what ends it.
fn add_word(rt: &impl Abort, text: &mut Vec<u8>, word: u64, end: u8) {
    let mut buffer = Buffer::new();
    text.extend_from_slice(buffer.format(word).as_bytes())
        .expect(rt, "memory for a word");
    text.push(end).expect(rt, "memory for a word");
}

// Adds row `i` of a matrix of `n` columns: the words differ from place to place.
fn add_row(rt: &impl Abort, text: &mut Vec<u8>, i: u32, n: u32) {
    for j in 0..n {
        let word = (u64::from(i) * 1031 + u64::from(j) * 7 + 5) % 65537;
        add_word(rt, text, word, if j + 1 == n { b'\n' } else { b' ' });
    }
}

// A head, and below it the rows of a matrix.
fn rows_of(rt: &impl Abort, alloc: Global, head: &[u8], m: u32, n: u32) -> Vec<u8> {
    let mut text = joined(rt, alloc, &[head]);
    for i in 0..m {
        add_row(rt, &mut text, i, n);
    }
    text
}

// Stops where a script with one matrix file prints something else.
fn check_matrix(
    rt: &impl Abort,
    alloc: Global,
    row: usize,
    script: &[u8],
    matrix: &[u8],
    out: &[u8],
) {
    let files = [("s.txt", script), ("a.txt", matrix)];
    check_prints(rt, alloc, row, &files, out);
}

// Stops where a script that prints one matrix, by each row of a table, does not print the words of its file.
fn check_shapes(rt: &impl Abort, alloc: Global, table: &[Shape]) {
    for (row, (script, head, m, n)) in table.iter().enumerate() {
        let matrix = rows_of(rt, alloc, b"", *m, *n);
        let printed = rows_of(rt, alloc, head, *m, *n);
        check_matrix(rt, alloc, row, script, &matrix, &printed);
    }
}

#[test]
fn prints_on_every_grid(rt: HostRuntime) {
    check_shapes(&rt, rt.alloc(), &SHAPES);
}

const SIX_RANKS: &[u8] = b"grid g 2 3 0\nmatrix A g 3 4 2 2 1 2 a.txt\nprint A\n";

/// The words of a matrix of three rows and four columns.
pub const SIX_ROWS: &[u8] = b"11 12 13 14\n21 22 23 24\n31 32 33 34\n";

const SIX_JOURNAL: &[u8] =
    b"0 feed 0 d2.0\n1 feed 1 d2.0\n2 feed 2 d2.0\n3 feed 3 d2.0\n4 feed 4 d2.0\n5 feed 5 d2.0\n6 commit 2 end 0 0 0 plain\n7 take 0 d2.0\n8 take 1 d2.0\n9 take 2 d2.0\n10 take 3 d2.0\n11 take 4 d2.0\n12 take 5 d2.0\n13 commit 3 end 0 0 0 plain\n";

#[test]
fn writes_the_journal_of_six_ranks(rt: HostRuntime) {
    check_words(
        &rt,
        rt.alloc(),
        &[WITH_JOURNAL],
        &[("s.txt", SIX_RANKS), ("a.txt", SIX_ROWS)],
        done(
            b"A 3 4\n11 12 13 14\n21 22 23 24\n31 32 33 34\n",
            SIX_JOURNAL,
        ),
    );
}

const SEVERAL: &[u8] =
    b"grid g 2 2 0\ngrid h 3 1 0\nmatrix A g 3 4 2 2 1 1 a.txt\nmatrix B h 3 4 1 3 2 0 a.txt\nprint B\ndrop A\nmatrix A h 2 1 1 1 0 0 b.txt\nprint A\ndrop B\nprint A\n";

const SEVERAL_OUT: &[u8] =
    b"B 3 4\n11 12 13 14\n21 22 23 24\n31 32 33 34\nA 2 1\n8\n9\nA 2 1\n8\n9\n";

#[test]
fn prints_after_drops(rt: HostRuntime) {
    check_prints(
        &rt,
        rt.alloc(),
        0,
        &[
            ("s.txt", SEVERAL),
            ("a.txt", SIX_ROWS),
            ("b.txt", b"8\n9\n"),
        ],
        SEVERAL_OUT,
    );
}
