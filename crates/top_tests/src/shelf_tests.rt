//! Which files the top call reads, in which order, and what it makes of a shelf whose files change between the reads.
ghost use Rattle.std.specs.Prelude.{Some, None};
ghost use Rattle.io_edge.specs.MemShelf.{state_of};

use io_edge::{MemShelf, MemSink, Shelf, ShelfFault};
use scalapack_top::{Status, scalapack};
use std::alloc::Global;
use std::panic::Expect;
use std::process::Abort;
use std::test::Fail;

/// The greatest number of bytes of a file.
const MAX_BYTES: usize = 16_777_216;

/// Two matrices, of which the second line names the file that is added first.
const TWO_FILES: &[u8] =
    b"grid g 1 1 0\nmatrix A g 1 1 1 1 0 0 b.txt\nmatrix B g 1 1 1 1 0 0 a.txt\nprint A\nprint B\n";

/// Two matrices from a file of one name.
const ONE_FILE_TWICE: &[u8] =
    b"grid g 1 1 0\nmatrix A g 1 1 1 1 0 0 a.txt\nmatrix B g 1 1 1 1 0 0 a.txt\nprint A\nprint B\n";

/// A matrix from the file that is the script's too.
const ITS_OWN_FILE: &[u8] = b"grid g 1 1 0\nmatrix A g 1 1 1 1 0 0 s.txt\nprint A\n";

// A shelf that tells its files, and writes down each name that it is asked for.
#[derive(Drop)]
struct NotingShelf {
    files: MemShelf,
    names: Vec<u8>,
}

impl Shelf for NotingShelf {
    ghost told = { λ s. Some (state_of s.files).held };

    ghost faults = { λ s. (state_of s.files).counts.faults };

    ghost longs = { λ s. (state_of s.files).counts.longs };

    fn read(&mut self, alloc: Global, name: &str) -> Result<Vec<u8>, ShelfFault> {
        let answer = self.files.read(alloc, name);
        match noted(&mut self.names, name) {
            true => answer,
            false => Err(ShelfFault::NoMemory),
        }
    }
}

// Adds a name and a space; false where memory lacks.
fn noted(names: &mut Vec<u8>, name: &str) -> bool {
    names.extend_from_slice(name.as_bytes()).is_ok() && names.push(b' ').is_ok()
}

// A shelf that doesn't tell its files, and gives one text after another, whatever the name.
#[derive(Drop)]
struct ChangingShelf {
    texts: [&'static [u8]; 3],
    reads: usize,
}

impl Shelf for ChangingShelf {
    ghost told = { λ _. None };

    ghost faults = { λ _. 0 };

    ghost longs = { λ _. 0 };

    fn read(&mut self, alloc: Global, _name: &str) -> Result<Vec<u8>, ShelfFault> {
        if self.reads >= 3 {
            return Err(ShelfFault::NoMemory);
        }
        let text = self.texts[self.reads];
        self.reads += 1;
        if text.len() > MAX_BYTES {
            return Err(ShelfFault::NoMemory);
        }
        text.to_vec(alloc).map_err(|_| ShelfFault::NoMemory)
    }
}

fn words_of(rt: &impl Abort, alloc: Global, words: &[&str]) -> Vec<String> {
    let mut all = Vec::new(alloc);
    for word in words {
        let word = String::from_str(alloc, word).expect(rt, "memory");
        all.push(word).expect(rt, "memory");
    }
    all
}

// What the top call answers over a shelf, and what it writes on out.
fn answer_over<F: Shelf>(
    rt: &impl Abort,
    alloc: Global,
    words: &[&str],
    shelf: &mut F,
) -> (Status, Vec<u8>) {
    let words = words_of(rt, alloc, words);
    let mut out = MemSink::new(alloc, 100).expect(rt, "memory");
    let mut err = MemSink::new(alloc, 100).expect(rt, "memory");
    let mut journal = MemSink::new(alloc, 1000).expect(rt, "memory");
    let status = scalapack(alloc, &words, shelf, &mut out, &mut err, &mut journal);
    (status, out.bytes().to_vec(alloc).expect(rt, "memory"))
}

// A shelf of a script and the files `a.txt` and `b.txt`, of which the read of a number is planned to fail.
fn noting_shelf(
    rt: &impl Abort,
    alloc: Global,
    script: &[u8],
    b: &[u8],
    fails: Option<u32>,
) -> NotingShelf {
    let mut files = MemShelf::new(alloc);
    files.add("s.txt", script).expect(rt, "memory");
    files.add("a.txt", b"7\n").expect(rt, "memory");
    files.add("b.txt", b).expect(rt, "memory");
    if let Some(call) = fails {
        files.fail_at(call).expect(rt, "memory");
    }
    NotingShelf {
        files,
        names: Vec::new(alloc),
    }
}

fn check_text(rt: &impl Abort, row: usize, text: &[u8], want: &[u8]) {
    assert_eq!(rt; text, want, "row {row}");
}

fn check_status(rt: &impl Abort, row: usize, status: Status, want: Status) {
    assert_eq!(rt; status, want, "row {row}");
}

// Words, a script, the file `b.txt`, the read that fails; and the answer and the names that are read.
#[derive(Drop)]
struct Case {
    words: &'static [&'static str],
    script: &'static [u8],
    b: &'static [u8],
    fails: Option<u32>,
    status: Status,
    names: &'static [u8],
}

fn whole_runs() -> [Case; 4] {
    [
        Case {
            words: &["s.txt"],
            script: TWO_FILES,
            b: b"8\n",
            fails: None,
            status: Status::Done,
            names: b"s.txt b.txt a.txt ",
        },
        Case {
            words: &["--serial", "s.txt"],
            script: TWO_FILES,
            b: b"8\n",
            fails: Some(3),
            status: Status::Done,
            names: b"s.txt b.txt a.txt ",
        },
        Case {
            words: &["s.txt", "--journal", "a.txt"],
            script: ONE_FILE_TWICE,
            b: b"8\n",
            fails: None,
            status: Status::Done,
            names: b"s.txt a.txt a.txt ",
        },
        Case {
            words: &["s.txt"],
            script: b"grid g 1 1 0\n",
            b: b"8\n",
            fails: Some(1),
            status: Status::Done,
            names: b"s.txt ",
        },
    ]
}

fn refused(file: u32, line: u32, code: i32) -> Status {
    Status::Refused { file, line, code }
}

fn ended_runs() -> [Case; 6] {
    [
        Case {
            words: &["s.txt", "--journal"],
            script: TWO_FILES,
            b: b"8\n",
            fails: Some(0),
            status: Status::Usage,
            names: b"",
        },
        Case {
            words: &["s.txt"],
            script: b"matrix A g 1 1 1 1 0 0 a.txt\n",
            b: b"8\n",
            fails: None,
            status: refused(0, 1, 6),
            names: b"s.txt ",
        },
        Case {
            words: &["s.txt"],
            script: TWO_FILES,
            b: b"x\n",
            fails: None,
            status: refused(2, 1, 15),
            names: b"s.txt b.txt ",
        },
        Case {
            words: &["s.txt"],
            script: TWO_FILES,
            b: b"8\n",
            fails: Some(0),
            status: Status::ReadFault { file: 0 },
            names: b"s.txt ",
        },
        Case {
            words: &["s.txt", "--serial"],
            script: TWO_FILES,
            b: b"8\n",
            fails: Some(2),
            status: Status::ReadFault { file: 3 },
            names: b"s.txt b.txt a.txt ",
        },
        Case {
            words: &["c.txt"],
            script: TWO_FILES,
            b: b"8\n",
            fails: None,
            status: Status::ReadFault { file: 0 },
            names: b"c.txt ",
        },
    ]
}

fn check_case(rt: &impl Abort, alloc: Global, row: usize, case: &Case) {
    let mut shelf = noting_shelf(rt, alloc, case.script, case.b, case.fails);
    let (status, _out) = answer_over(rt, alloc, case.words, &mut shelf);
    check_status(rt, row, status, case.status);
    check_text(rt, row, &shelf.names, case.names);
}

#[test]
fn each_file_is_read_once_in_line_order(rt: HostRuntime) -> Result<(), Fail> {
    for (row, case) in whole_runs().iter().enumerate() {
        check_case(&rt, rt.alloc(), row, case);
    }
    Ok(())
}

#[test]
fn nothing_is_read_after_what_ends_the_work(rt: HostRuntime) -> Result<(), Fail> {
    for (row, case) in ended_runs().iter().enumerate() {
        check_case(&rt, rt.alloc(), row, case);
    }
    Ok(())
}

#[test]
fn a_name_that_is_read_again_may_have_other_bytes(rt: HostRuntime) -> Result<(), Fail> {
    let alloc = rt.alloc();
    let mut twice = ChangingShelf {
        texts: [ONE_FILE_TWICE, b"7\n", b"8\n"],
        reads: 0,
    };
    let mut own = ChangingShelf {
        texts: [ITS_OWN_FILE, b"9\n", b"10\n"],
        reads: 0,
    };
    let first = answer_over(&rt, alloc, &["s.txt"], &mut twice);
    let second = answer_over(&rt, alloc, &["s.txt"], &mut own);
    check_status(&rt, 0, first.0, Status::Done);
    check_text(&rt, 0, &first.1, b"A 1 1\n7\nB 1 1\n8\n");
    check_status(&rt, 1, second.0, Status::Done);
    check_text(&rt, 1, &second.1, b"A 1 1\n9\n");
    Ok(())
}
