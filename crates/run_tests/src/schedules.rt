//! Lines that say how many messages a link holds and in which order steps are taken.
use crate::ranks::SIX_ROWS;
use crate::runs::{Ran, check_ran, check_words, done, joined, run};
use std::alloc::Global;
use std::process::Abort;

const WORDS: &[&str] = &["s.txt", "--journal", "j.txt"];

const PRINTED: &[u8] = b"B 3 4\n11 12 13 14\n21 22 23 24\n31 32 33 34\nA 2 1\n8\n9\n";

// A script of prints and drops on two grids, whose second, fifth and last line are given.
fn script_of(rt: &impl Abort, alloc: Global, lines: [&[u8]; 3]) -> Vec<u8> {
    let [second, fifth, last] = lines;
    let parts: [&[u8]; 7] = [
        b"grid g 2 2 0\n",
        second,
        b"\ngrid h 3 1 0\nmatrix A g 3 4 2 2 1 1 a.txt\n",
        fifth,
        b"\nmatrix B h 3 4 1 3 2 0 a.txt\nprint B\ndrop A\nmatrix A h 2 1 1 1 0 0 b.txt\nprint A\n",
        last,
        b"\n",
    ];
    joined(rt, alloc, &parts)
}

// Runs a script with two matrix files.
fn run_script(
    rt: &impl Abort,
    alloc: Global,
    words: &'static [&'static str],
    script: &[u8],
    a: &[u8],
    b: &[u8],
) -> Ran {
    let files = [("s.txt", script), ("a.txt", a), ("b.txt", b)];
    run(rt, alloc, words, &files)
}

fn run_with(
    rt: &impl Abort,
    alloc: Global,
    lines: [&[u8]; 3],
    words: &'static [&'static str],
) -> Ran {
    let script = script_of(rt, alloc, lines);
    run_script(rt, alloc, words, &script, SIX_ROWS, b"8\n9\n")
}

// Stops where a script, with the lines of each row of a table, prints something else, or leaves another journal than without words in their places.
fn check_lines(rt: &impl Abort, alloc: Global, table: &[[&[u8]; 3]]) {
    let plain = run_with(rt, alloc, [b"", b"", b""], WORDS);
    for (row, lines) in table.iter().enumerate() {
        let ran = run_with(rt, alloc, *lines, WORDS);
        check_ran(rt, row, &ran, done(PRINTED, &plain.journal));
        let ran = run_with(rt, alloc, *lines, &["s.txt", "--serial"]);
        check_ran(rt, row, &ran, done(PRINTED, b""));
    }
}

// What is printed, and the journal, are those of the script with lines without words in their places.
#[test]
fn links_and_orders_change_nothing(rt: HostRuntime) {
    check_lines(
        &rt,
        rt.alloc(),
        &[
            [b"", b"", b""],
            [b"links 1", b"", b""],
            [b"", b"links 2", b""],
            [b"", b"", b"links 64"],
            [b"order 0", b"", b""],
            [b"", b"order 1 1 1 1", b""],
            [b"", b"", b"order 4095"],
            [b"order 3 1 4", b"links 5", b"order 9 2 6"],
            [b"links 7", b"order 8 2 8", b"order 1"],
        ],
    );
}

// Such lines alone print nothing and leave no journal.
#[test]
fn links_and_orders_alone_do_nothing(rt: HostRuntime) {
    check_words(
        &rt,
        rt.alloc(),
        &[WORDS],
        &[("s.txt", b"order 1 2\nlinks 64\norder 4095 0\n")],
        done(b"", b""),
    );
}
