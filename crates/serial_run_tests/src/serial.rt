//! Scripts that are run serially: what is printed. The expected texts were worked out by hand.
use io_edge::{MemShelf, MemSink};
use scalapack_top::{Status, scalapack};
use std::alloc::Global;
use std::panic::Expect;
use std::process::Abort;

/// A script, its files a.txt, b.txt and c.txt, and what it prints.
pub type Row<'a> = (&'a [u8], [&'a [u8]; 3], &'a [u8]);

// The words that run a script serially.
fn words_of(rt: &impl Abort, alloc: Global) -> Vec<String> {
    let mut all = Vec::new(alloc);
    for word in ["s.txt", "--serial"] {
        let word = String::from_str(alloc, word).expect(rt, "memory for a word");
        all.push(word).expect(rt, "memory for a word");
    }
    all
}

// A shelf with the files of a row.
fn shelf_of(rt: &impl Abort, alloc: Global, script: &[u8], matrices: [&[u8]; 3]) -> MemShelf {
    let [a, b, c] = matrices;
    let mut shelf = MemShelf::new(alloc);
    for (name, bytes) in [("s.txt", script), ("a.txt", a), ("b.txt", b), ("c.txt", c)] {
        shelf.add(name, bytes).expect(rt, "memory for a file");
    }
    shelf
}

// A sink with room for all that a run writes.
fn sink_of(rt: &impl Abort, alloc: Global) -> MemSink {
    MemSink::new(alloc, 1000).expect(rt, "memory for a sink")
}

// Stops where a run did not end as Done, by the row of a table.
fn check_done(rt: &impl Abort, row: usize, status: Status) {
    assert_eq!(rt; status, Status::Done, "row {row}");
}

// Stops where bytes are others, by the row of a table.
fn check_bytes(rt: &impl Abort, row: usize, bytes: &[u8], want: &[u8]) {
    assert_eq!(rt; bytes, want, "row {row}");
}

// Stops where a script that is run serially prints something else, or writes on err or a journal.
fn check_row(rt: &impl Abort, alloc: Global, row: usize, given: Row<'_>) {
    let (script, matrices, want) = given;
    let words = words_of(rt, alloc);
    let mut shelf = shelf_of(rt, alloc, script, matrices);
    let mut out = sink_of(rt, alloc);
    let mut err = sink_of(rt, alloc);
    let mut journal = sink_of(rt, alloc);
    let status = scalapack(alloc, &words, &mut shelf, &mut out, &mut err, &mut journal);
    check_done(rt, row, status);
    check_bytes(rt, row, out.bytes(), want);
    check_bytes(rt, row, err.bytes(), b"");
    check_bytes(rt, row, journal.bytes(), b"");
}

/// The same for each row of a table.
pub fn check_table(rt: &impl Abort, alloc: Global, table: &[Row<'_>]) {
    for (row, given) in table.iter().enumerate() {
        check_row(rt, alloc, row, *given);
    }
}

const SOLVE: &[u8] =
    b"grid g 1 1 0\nmatrix A g 2 2 1 1 0 0 a.txt\nmatrix B g 2 1 1 1 0 0 b.txt\npgetrf 2 2 A 1 1 V\npivots V\nprint A\npgetrs N 2 1 A 1 1 V B 1 1\nprint B\n";

const SOLVE_ON_TWO_ROWS: &[u8] =
    b"grid g 2 1 0\nmatrix A g 2 2 1 1 0 0 a.txt\nmatrix B g 2 1 1 1 0 0 b.txt\npgetrf 2 2 A 1 1 V\npivots V\nprint A\npgetrs N 2 1 A 1 1 V B 1 1\nprint B\n";

const PIVOTS_LAST: &[u8] =
    b"grid g 1 1 0\nmatrix A g 2 2 1 1 0 0 a.txt\nmatrix B g 2 1 1 1 0 0 b.txt\npgetrf 2 2 A 1 1 V\npgetrs N 2 1 A 1 1 V B 1 1\nprint B\npivots V\n";

// The multiplier is the inverse of 2; rows that change places; a singular matrix, whose right side stays; and pivots that are printed after
// the solve.
#[test]
fn solves_with_factors(rt: HostRuntime) {
    check_table(
        &rt,
        rt.alloc(),
        &[
            (
                SOLVE,
                [b"2 1\n1 1\n", b"5\n3\n", b""],
                b"pgetrf A info 0\nV 2\n1 2\nA 2 2\n2 1\n32769 32769\npgetrs B info 0\nB 2 1\n2\n1\n",
            ),
            (
                SOLVE_ON_TWO_ROWS,
                [b"0 1\n2 3\n", b"4\n11\n", b""],
                b"pgetrf A info 0\nV 2\n2 2\nA 2 2\n2 3\n0 1\npgetrs B info 0\nB 2 1\n32768\n4\n",
            ),
            (
                SOLVE,
                [b"1 2\n2 4\n", b"3\n4\n", b""],
                b"pgetrf A info 2\nV 2\n1 2\nA 2 2\n1 2\n2 0\npgetrs B info 2\nB 2 1\n3\n4\n",
            ),
            (
                PIVOTS_LAST,
                [b"0 1\n2 3\n", b"4\n11\n", b""],
                b"pgetrf A info 0\npgetrs B info 0\nB 2 1\n32768\n4\nV 2\n2 2\n",
            ),
        ],
    );
}

const FACTOR_THREE: &[u8] =
    b"grid g 1 1 0\nmatrix A g 3 3 2 2 0 0 a.txt\npgetrf 3 3 A 1 1 V\npivots V\nprint A\n";

const FACTOR_WIDE: &[u8] =
    b"grid g 2 2 1\nmatrix A g 3 5 2 2 0 0 a.txt\npgetrf 3 5 A 1 1 V\npivots V\nprint A\n";

const FACTOR_TALL: &[u8] =
    b"grid g 2 2 1\nmatrix A g 5 3 2 2 0 0 a.txt\npgetrf 5 3 A 1 1 V\npivots V\nprint A\n";

// No pivot at all; columns after one without a pivot, which are eliminated too; fewer rows than columns; and fewer columns than rows.
#[test]
fn factors(rt: HostRuntime) {
    check_table(
        &rt,
        rt.alloc(),
        &[
            (
                FACTOR_THREE,
                [b"0 0 0\n0 0 0\n0 0 0\n", b"", b""],
                b"pgetrf A info 1\nV 3\n1 2 3\nA 3 3\n0 0 0\n0 0 0\n0 0 0\n",
            ),
            (
                FACTOR_THREE,
                [b"0 0 1\n0 0 3\n0 2 5\n", b"", b""],
                b"pgetrf A info 1\nV 3\n1 3 3\nA 3 3\n0 0 1\n0 2 5\n0 0 3\n",
            ),
            (
                FACTOR_WIDE,
                [b"1 2 3 4 5\n2 4 7 8 9\n1 3 3 5 6\n", b"", b""],
                b"pgetrf A info 0\nV 3\n1 3 3\nA 3 5\n1 2 3 4 5\n1 1 0 1 1\n2 0 1 0 65536\n",
            ),
            (
                FACTOR_TALL,
                [b"1 2 1\n2 4 3\n3 7 3\n4 8 5\n5 9 6\n", b"", b""],
                b"pgetrf A info 0\nV 3\n1 3 3\nA 5 3\n1 2 1\n3 1 0\n2 0 1\n4 0 1\n5 65536 1\n",
            ),
        ],
    );
}

// A product of one word that wraps, one of small words, one with words for alpha and beta, and a window that is copied between grids, and one
// of one column to a place of its own.
#[test]
fn multiplies_and_copies(rt: HostRuntime) {
    check_table(
        &rt,
        rt.alloc(),
        &[
            (
                b"grid g 1 1 0\nmatrix A g 1 1 1 1 0 0 a.txt\nmatrix B g 1 1 1 1 0 0 b.txt\nmatrix C g 1 1 1 1 0 0 c.txt\npgemm N N 1 1 1 65536 A 1 1 B 1 1 65536 C 1 1\nprint C\n",
                [b"65536\n", b"65536\n", b"1\n"],
                b"C 1 1\n65535\n",
            ),
            (
                b"grid g 1 1 0\nmatrix A g 2 2 1 1 0 0 a.txt\nmatrix B g 2 2 1 1 0 0 b.txt\nmatrix C g 2 2 1 1 0 0 c.txt\npgemm n N 2 2 2 1 A 1 1 B 1 1 0 C 1 1\nprint C\n",
                [b"1 2\n3 4\n", b"5 6\n7 8\n", b"9 9\n9 9\n"],
                b"C 2 2\n19 22\n43 50\n",
            ),
            (
                b"grid g 1 1 0\nmatrix A g 2 2 1 1 0 0 a.txt\nmatrix B g 2 2 1 1 0 0 b.txt\nmatrix C g 2 2 1 1 0 0 c.txt\npgemm N N 2 2 2 2 A 1 1 B 1 1 3 C 1 1\nprint C\n",
                [b"1 2\n3 4\n", b"5 6\n7 8\n", b"1 65536\n0 2\n"],
                b"C 2 2\n41 41\n86 106\n",
            ),
            (
                b"grid g 2 3 1\ngrid h 3 1 0\nmatrix A g 3 4 2 2 1 2 a.txt\nmatrix B h 3 4 5 5 0 0 b.txt\npgemr2d 3 3 A 1 2 B 1 1 all\nprint B\n",
                [
                    b"11 12 13 14\n21 22 23 24\n31 32 33 34\n",
                    b"0 0 0 0\n0 0 0 0\n0 0 0 0\n",
                    b"",
                ],
                b"B 3 4\n12 13 14 0\n22 23 24 0\n32 33 34 0\n",
            ),
            (
                b"grid g 1 1 0\nmatrix A g 2 3 1 1 0 0 a.txt\nmatrix B g 3 2 1 1 0 0 b.txt\npgemr2d 2 1 A 1 3 B 2 1 all\nprint B\n",
                [b"11 12 13\n21 22 23\n", b"0 0\n0 0\n0 0\n", b""],
                b"B 3 2\n0 0\n13 0\n23 0\n",
            ),
        ],
    );
}

const LOWER: &[u8] =
    b"grid g 1 1 0\nmatrix A g 2 2 1 1 0 0 a.txt\nmatrix B g 2 1 1 1 0 0 b.txt\nptrsm L L N N 2 1 1 A 1 1 B 1 1\nprint B\n";

const LOWER_WITH_ONES: &[u8] =
    b"grid g 1 1 0\nmatrix A g 2 2 1 1 0 0 a.txt\nmatrix B g 2 1 1 1 0 0 b.txt\nptrsm L L N U 2 1 1 A 1 1 B 1 1\nprint B\n";

const TWICE_LOWER: &[u8] =
    b"grid g 1 1 0\nmatrix A g 2 2 1 1 0 0 a.txt\nmatrix B g 2 1 1 1 0 0 b.txt\nptrsm L L N N 2 1 2 A 1 1 B 1 1\nprint B\n";

const TWICE_LOWER_WITH_ONES: &[u8] =
    b"grid g 1 1 0\nmatrix A g 2 2 1 1 0 0 a.txt\nmatrix B g 2 1 1 1 0 0 b.txt\nptrsm L L N U 2 1 2 A 1 1 B 1 1\nprint B\n";

const TWICE_UPPER: &[u8] =
    b"grid g 1 1 0\nmatrix A g 2 2 1 1 0 0 a.txt\nmatrix B g 2 1 1 1 0 0 b.txt\nptrsm L U N N 2 1 2 A 1 1 B 1 1\nprint B\n";

// Triangles with alpha 1 and with alpha 2.
#[test]
fn solves_triangles(rt: HostRuntime) {
    check_table(
        &rt,
        rt.alloc(),
        &[
            (
                LOWER,
                [b"2 0\n1 1\n", b"3\n5\n", b""],
                b"ptrsm B info 0\nB 2 1\n32770\n32772\n",
            ),
            (
                LOWER_WITH_ONES,
                [b"2 0\n1 1\n", b"3\n5\n", b""],
                b"ptrsm B info 0\nB 2 1\n3\n2\n",
            ),
            (
                TWICE_LOWER,
                [b"2 3\n1 1\n", b"3\n5\n", b""],
                b"ptrsm B info 0\nB 2 1\n3\n7\n",
            ),
            (
                TWICE_LOWER_WITH_ONES,
                [b"2 3\n1 1\n", b"3\n5\n", b""],
                b"ptrsm B info 0\nB 2 1\n6\n4\n",
            ),
            (
                TWICE_UPPER,
                [b"2 3\n1 1\n", b"16\n5\n", b""],
                b"ptrsm B info 0\nB 2 1\n1\n10\n",
            ),
        ],
    );
}

// A zero on the diagonal is found before the right side is changed; a diagonal of ones has none.
#[test]
fn finds_zeros_on_a_diagonal(rt: HostRuntime) {
    check_table(
        &rt,
        rt.alloc(),
        &[
            (
                LOWER,
                [b"1 0\n4 0\n", b"3\n5\n", b""],
                b"ptrsm B info 2\nB 2 1\n3\n5\n",
            ),
            (
                TWICE_LOWER,
                [b"1 0\n4 0\n", b"3\n5\n", b""],
                b"ptrsm B info 2\nB 2 1\n3\n5\n",
            ),
            (
                TWICE_LOWER_WITH_ONES,
                [b"1 0\n4 0\n", b"3\n15\n", b""],
                b"ptrsm B info 0\nB 2 1\n6\n6\n",
            ),
        ],
    );
}

// A name keeps its value while others get one and lose one, and gets another after it was dropped.
#[test]
fn names_have_values(rt: HostRuntime) {
    check_table(
        &rt,
        rt.alloc(),
        &[(
            b"grid g 1 1 0\nmatrix A g 1 1 1 1 0 0 a.txt\nmatrix B g 1 1 1 1 0 0 b.txt\npgetrf 1 1 B 1 1 V\nprint A\ndrop A\npivots V\nmatrix A g 1 1 1 1 0 0 b.txt\nprint A\npivots V\n",
            [b"7\n", b"9\n", b""],
            b"pgetrf B info 0\nA 1 1\n7\nV 1\n1\nA 1 1\n9\nV 1\n1\n",
        )],
    );
}

const TWELVE: &[u8] =
    b"1 0 0 0 0 0 0 0 0 0 0 0\n0 1 0 0 0 0 0 0 0 0 0 0\n0 0 1 0 0 0 0 0 0 0 0 0\n0 0 0 1 0 0 0 0 0 0 0 0\n0 0 0 0 1 0 0 0 0 0 0 0\n0 0 0 0 0 1 0 0 0 0 0 0\n0 0 0 0 0 0 1 0 0 0 0 0\n0 0 0 0 0 0 0 1 0 0 0 0\n0 0 0 0 0 0 0 0 1 0 0 0\n0 0 0 0 0 0 0 0 0 1 0 0\n0 0 0 0 0 0 0 0 0 0 1 0\n0 0 0 0 0 0 0 0 0 0 0 0\n";

// INFO of more than one digit, and the name of a matrix of more than one letter.
#[test]
fn info_is_printed(rt: HostRuntime) {
    check_table(
        &rt,
        rt.alloc(),
        &[(
            b"grid g 1 1 0\nmatrix A g 12 12 1 1 0 0 a.txt\nmatrix C g 1 1 1 1 0 0 b.txt\nmatrix B2 g 1 1 1 1 0 0 b.txt\npgetrf 12 12 A 1 1 V\npgetrf 1 1 C 1 1 W\npgetrs N 1 1 C 1 1 W B2 1 1\n",
            [TWELVE, b"9\n", b""],
            b"pgetrf A info 12\npgetrf C info 0\npgetrs B2 info 0\n",
        )],
    );
}
