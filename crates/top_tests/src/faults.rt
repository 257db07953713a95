//! Reads and writes that fail.
use crate::calls::{Call, SMALLEST, Wanted, check_bytes, check_calls, ended, words_of};
use scalapack_top::{Status, journal_name};
use std::alloc::Global;
use std::panic::Expect;
use std::process::Abort;

const FILES: &[(&str, &[u8])] = &[("s.txt", SMALLEST), ("a.txt", b"7\n")];

/// The failure of a put, after what out, err and the journal got.
pub fn not_written<'a>(out: &'a [u8], err: &'a [u8], journal: &'a [u8]) -> Wanted<'a> {
    Wanted {
        status: Status::WriteFault,
        out,
        err,
        journal,
    }
}

const SCRIPT_FAILS: Call<'static> = Call {
    words: &["s.txt"],
    files: FILES,
    failing_read: Some(0),
    room: 100,
    err_keeps: None,
    journal_keeps: None,
};

const MATRIX_FAILS: Call<'static> = Call {
    words: &["s.txt"],
    files: FILES,
    failing_read: Some(1),
    room: 100,
    err_keeps: None,
    journal_keeps: None,
};

const NO_ROOM: Call<'static> = Call {
    words: &["s.txt"],
    files: FILES,
    failing_read: None,
    room: 3,
    err_keeps: None,
    journal_keeps: None,
};

#[test]
fn tells_faults_of_the_outside(rt: HostRuntime) {
    check_calls(
        &rt,
        rt.alloc(),
        &[
            (
                SCRIPT_FAILS,
                ended(Status::ReadFault { file: 0 }, b"read fault file 0\n"),
            ),
            (
                MATRIX_FAILS,
                ended(Status::ReadFault { file: 2 }, b"read fault file 2\n"),
            ),
            (NO_ROOM, not_written(b"A 1", b"", b"")),
        ],
    );
}

// Stops where the journal's file has another name, or where it has one and no bytes are named.
fn check_name(rt: &impl Abort, alloc: Global, words: &[&str], want: &[u8]) {
    let words = words_of(rt, alloc, words);
    match journal_name(alloc, &words).expect(rt, "memory for a name") {
        Some(name) => check_bytes(rt, 0, name.as_bytes(), want),
        None => check_bytes(rt, 0, b"", want),
    }
}

// Stops where the program ends with another number.
fn check_number(rt: &impl Abort, number: u8, want: u8) {
    assert_eq!(rt; number, want);
}

const JOURNAL_FAILS: Call<'static> = Call {
    words: &["s.txt", "--journal", "j.txt"],
    files: FILES,
    failing_read: None,
    room: 100,
    err_keeps: None,
    journal_keeps: Some(7),
};

#[test]
fn fails_at_the_journal(rt: HostRuntime) {
    let want = not_written(b"A 1 1\n7\n", b"", b"0 feed ");
    check_calls(&rt, rt.alloc(), &[(JOURNAL_FAILS, want)]);
    check_number(&rt, Status::WriteFault.number(), 4);
    check_name(&rt, rt.alloc(), JOURNAL_FAILS.words, b"j.txt");
    check_name(&rt, rt.alloc(), NO_ROOM.words, b"");
}

const ERR_FAILS: Call<'static> = Call {
    words: &[],
    files: &[],
    failing_read: None,
    room: 100,
    err_keeps: Some(5),
    journal_keeps: None,
};

// A loss that the run does not survive, after the matrix line.
const BEYOND_AT_THE_PRINT: &[u8] =
    b"grid g 1 1 0\nmatrix A g 1 1 1 1 0 0 a.txt\nprint A\nlose 2 0\n";

const ERR_FAILS_AT_BEYOND: Call<'static> = Call {
    words: &["s.txt", "--journal", "j.txt"],
    files: &[("s.txt", BEYOND_AT_THE_PRINT), ("a.txt", b"7\n")],
    failing_read: None,
    room: 100,
    err_keeps: Some(4),
    journal_keeps: None,
};

#[test]
fn fails_at_err(rt: HostRuntime) {
    let usage = not_written(b"", b"usage", b"");
    let beyond = not_written(b"", b"beyo", b"");
    check_calls(
        &rt,
        rt.alloc(),
        &[(ERR_FAILS, usage), (ERR_FAILS_AT_BEYOND, beyond)],
    );
}
