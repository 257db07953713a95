//! Words, scripts and matrix files that are refused: the answer, and its line on err.
use crate::calls::{SMALLEST, Wanted, check_answers, check_words, ended, joined};
use scalapack_top::Status;
use std::alloc::Global;
use std::panic::Expect;
use std::process::Abort;

// What is written on err for words of no form.
const USAGE: &[u8] =
    b"usage: scalapack_cli SCRIPT [--journal FILE] or SCRIPT --serial or --generate N\n";

/// A refusal of a line of a file.
pub fn refused(file: u32, line: u32, code: i32) -> Status {
    Status::Refused { file, line, code }
}

const IN_ANOTHER_FIELD: &[u8] =
    b"field 65521\ngrid g 1 1 0\nmatrix A g 1 1 1 1 0 0 a.txt\nprint A\n";

#[test]
fn refuses_files(rt: HostRuntime) {
    check_answers(
        &rt,
        rt.alloc(),
        &[
            (
                SMALLEST,
                b"7 8\n",
                ended(refused(2, 1, 14), b"refused file 2 line 1 code 14\n"),
            ),
            (
                SMALLEST,
                b"65537\n",
                ended(refused(2, 1, 15), b"refused file 2 line 1 code 15\n"),
            ),
            (
                IN_ANOTHER_FIELD,
                b"65521\n",
                ended(refused(3, 1, 15), b"refused file 3 line 1 code 15\n"),
            ),
            (
                IN_ANOTHER_FIELD,
                b"65536\n",
                ended(refused(3, 1, 15), b"refused file 3 line 1 code 15\n"),
            ),
            (
                SMALLEST,
                b"\n# none\n",
                ended(refused(2, 0, 13), b"refused file 2 line 0 code 13\n"),
            ),
            (
                SMALLEST,
                b"7\n\n8\n",
                ended(refused(2, 3, 13), b"refused file 2 line 3 code 13\n"),
            ),
            (
                b"grid g 1 1 0\nmatrix A g 1 1 1 1 0 0 b.txt\nprint A\n",
                b"7\n",
                ended(Status::ReadFault { file: 2 }, b"read fault file 2\n"),
            ),
        ],
    );
}

#[test]
fn refuses_lines(rt: HostRuntime) {
    check_answers(
        &rt,
        rt.alloc(),
        &[
            (
                b"print Z\n",
                b"",
                ended(refused(0, 1, 6), b"refused file 0 line 1 code 6\n"),
            ),
            (
                b"grid g 1 1 0\nqr A\nprint Z\n",
                b"",
                ended(refused(0, 2, 1), b"refused file 0 line 2 code 1\n"),
            ),
            (
                b"grid g 16 4 1\n",
                b"",
                ended(refused(0, 1, 9), b"refused file 0 line 1 code 9\n"),
            ),
            (
                b"grid g 1 1 0\nmatrix A g 1 1 0 0 0 0 a.txt\n",
                b"",
                ended(refused(0, 2, -5), b"refused file 0 line 2 code -5\n"),
            ),
            (
                b"grid g 1 1 0\nmatrix A g 1 1 1 1 0 0 a.txt\ndrop A\nprint A\n",
                b"7\n",
                ended(refused(0, 4, 6), b"refused file 0 line 4 code 6\n"),
            ),
        ],
    );
}

// A line that the ranks can't run is refused after all rules of the script, and before its files are read.
#[test]
fn refuses_lines_that_are_not_run(rt: HostRuntime) {
    check_answers(
        &rt,
        rt.alloc(),
        &[
            (
                b"grid g 1 1 0\nmatrix A g 1 1 1 1 0 0 b.txt\nmatrix B g 1 1 1 1 0 0 b.txt\npgemm N N 1 1 1 1 A 1 1 A 1 1 1 B 1 1\npgetrf 1 1 A 1 1 V\n",
                b"",
                ended(refused(0, 4, 18), b"refused file 0 line 4 code 18\n"),
            ),
            (
                b"grid g 1 1 0\nmatrix A g 1 1 1 1 0 0 b.txt\npgetrf 1 1 A 1 1 V\nqr A\n",
                b"",
                ended(refused(0, 4, 1), b"refused file 0 line 4 code 1\n"),
            ),
            (
                b"grid g 1 1 1\nlose 0 0\nmatrix A g 1 1 1 1 0 0 b.txt\nmatrix B g 1 1 1 1 0 0 b.txt\npgemr2d 1 1 A 1 1 B 1 1 all\n",
                b"",
                ended(refused(0, 5, 18), b"refused file 0 line 5 code 18\n"),
            ),
            (
                b"grid g 1 1 0\nmatrix A g 1 1 1 1 0 0 b.txt\nmatrix B g 1 1 1 1 0 0 b.txt\nptran 1 1 1 A 1 1 0 B 1 1\n",
                b"",
                ended(refused(0, 4, 18), b"refused file 0 line 4 code 18\n"),
            ),
            (
                b"field 65521\ngrid g 1 2 2\nmatrix A g 1 2 1 1 0 0 b.txt\nflip A 1 1 3\npverify A\n",
                b"",
                ended(refused(0, 4, 18), b"refused file 0 line 4 code 18\n"),
            ),
            (
                b"grid g 1 1 0\nmatrix A g 1 1 1 1 0 0 a.txt\npgetrf 1 1 A 1 1 V\npivots V\n",
                b"65537\n",
                ended(refused(0, 3, 18), b"refused file 0 line 3 code 18\n"),
            ),
        ],
    );
}

#[test]
fn refuses_other_words(rt: HostRuntime) {
    check_words(
        &rt,
        rt.alloc(),
        &[
            &[],
            &["s.txt", "--journal"],
            &["--serial"],
            &["--serial", "-s.txt"],
            &["s.txt", "--serial", "--serial"],
            &["s.txt", "t.txt"],
            &["--serial", "s.txt", "--journal", "j.txt"],
            &["-s.txt"],
            &["s.txt", "--journal", ""],
            &["--journal", "j.txt", "s.txt", "t.txt"],
        ],
        &[("s.txt", SMALLEST), ("a.txt", b"7\n")],
        ended(Status::Usage, USAGE),
    );
}

// A 1,024 by 1,024 matrix in blocks of one word on sixteen ranks, and so many prints of it.
fn many_prints(rt: &impl Abort, alloc: Global, prints: u32) -> Vec<u8> {
    let head = b"grid g 16 1 0\nmatrix A g 1024 1024 1 1 0 0 b.txt\n";
    let mut script = joined(rt, alloc, &[head]);
    for _ in 0..prints {
        script
            .extend_from_slice(b"print A\n")
            .expect(rt, "memory for a script");
    }
    script
}

// Stops where a script of so many prints, whose matrix file is not there, is answered otherwise.
fn check_prints(rt: &impl Abort, alloc: Global, prints: u32, want: Wanted<'_>) {
    let script = many_prints(rt, alloc, prints);
    check_answers(rt, alloc, &[(script.as_slice(), b"", want)]);
}

#[test]
fn refuses_too_many_records(rt: HostRuntime) {
    let refused = ended(refused(0, 0, 7), b"refused file 0 line 0 code 7\n");
    let read = ended(Status::ReadFault { file: 2 }, b"read fault file 2\n");
    check_prints(&rt, rt.alloc(), 255, refused);
    check_prints(&rt, rt.alloc(), 254, read);
}
