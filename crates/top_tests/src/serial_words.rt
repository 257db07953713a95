//! The words that run a script serially: what is read, refused and written as for the ranks.
use crate::calls::{Call, SMALLEST, check_calls, check_words, done, ended};
use crate::faults::not_written;
use crate::refusals::refused;
use scalapack_top::Status;
use std::alloc::Global;
use std::process::Abort;

const WORDS: &[&str] = &["s.txt", "--serial"];

const FILES: &[(&str, &[u8])] = &[("s.txt", SMALLEST), ("a.txt", b"7\n")];

#[test]
fn runs_serially_in_both_forms(rt: HostRuntime) {
    check_words(
        &rt,
        rt.alloc(),
        &[WORDS, &["--serial", "s.txt"]],
        FILES,
        done(b"A 1 1\n7\n", b""),
    );
}

const TWO_WORDS: Call<'static> = Call {
    words: WORDS,
    files: &[("s.txt", SMALLEST), ("a.txt", b"7 8\n")],
    failing_read: None,
    room: 100,
    err_keeps: None,
    journal_keeps: None,
};

const NO_MATRIX: Call<'static> = Call {
    words: &["--serial", "s.txt"],
    files: &[("s.txt", b"print A\n"), ("a.txt", b"7\n")],
    failing_read: None,
    room: 100,
    err_keeps: None,
    journal_keeps: None,
};

const MATRIX_FAILS: Call<'static> = Call {
    words: WORDS,
    files: FILES,
    failing_read: Some(1),
    room: 100,
    err_keeps: None,
    journal_keeps: None,
};

const NO_ROOM: Call<'static> = Call {
    words: WORDS,
    files: FILES,
    failing_read: None,
    room: 3,
    err_keeps: None,
    journal_keeps: None,
};

#[test]
fn serial_words_read_the_same_input(rt: HostRuntime) {
    check_calls(
        &rt,
        rt.alloc(),
        &[
            (
                TWO_WORDS,
                ended(refused(2, 1, 14), b"refused file 2 line 1 code 14\n"),
            ),
            (
                NO_MATRIX,
                ended(refused(0, 1, 6), b"refused file 0 line 1 code 6\n"),
            ),
            (
                MATRIX_FAILS,
                ended(Status::ReadFault { file: 2 }, b"read fault file 2\n"),
            ),
            (NO_ROOM, not_written(b"A 1", b"", b"")),
        ],
    );
}
