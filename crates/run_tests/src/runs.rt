//! What the tests of runs share: a run of a script over its matrix files, what it answers and writes, and one comparison of that.
//! Each ends the test where memory lacks.
use io_edge::{MemShelf, MemSink};
use scalapack_top::{Status, scalapack};
use std::alloc::Global;
use std::panic::Expect;
use std::process::Abort;

/// A name and the bytes of its file.
pub type File<'a> = (&'static str, &'a [u8]);

/// What a run answered and wrote.
#[derive(Drop)]
pub struct Ran {
    pub status: Status,
    pub out: Vec<u8>,
    pub err: Vec<u8>,
    pub journal: Vec<u8>,
}

/// What a run has to answer and write.
#[derive(Clone, Copy)]
pub struct Wanted<'a> {
    pub status: Status,
    pub out: &'a [u8],
    pub err: &'a [u8],
    pub journal: &'a [u8],
}

/// A run to its end.
pub fn done<'a>(out: &'a [u8], journal: &'a [u8]) -> Wanted<'a> {
    Wanted {
        status: Status::Done,
        out,
        err: b"",
        journal,
    }
}

/// Parts of a file one after another.
pub fn joined(rt: &impl Abort, alloc: Global, parts: &[&[u8]]) -> Vec<u8> {
    let mut all = Vec::new(alloc);
    for part in parts {
        all.extend_from_slice(part).expect(rt, "memory for a file");
    }
    all
}

// The words as a call takes them.
fn words_of(rt: &impl Abort, alloc: Global, words: &[&str]) -> Vec<String> {
    let mut all = Vec::new(alloc);
    for word in words {
        let word = String::from_str(alloc, word).expect(rt, "memory for a word");
        all.push(word).expect(rt, "memory for a word");
    }
    all
}

// A shelf of files.
fn shelf_of(rt: &impl Abort, alloc: Global, files: &[File<'_>]) -> MemShelf {
    let mut shelf = MemShelf::new(alloc);
    for (name, bytes) in files {
        shelf.add(name, bytes).expect(rt, "memory for a file");
    }
    shelf
}

// A sink with room for all that a run writes.
fn sink_of(rt: &impl Abort, alloc: Global) -> MemSink {
    MemSink::new(alloc, 100_000).expect(rt, "memory for a sink")
}

// The bytes of a sink.
fn bytes_of(rt: &impl Abort, alloc: Global, sink: &MemSink) -> Vec<u8> {
    sink.bytes().to_vec(alloc).expect(rt, "memory for bytes")
}

/// Calls `scalapack`.
pub fn run(rt: &impl Abort, alloc: Global, words: &[&str], files: &[File<'_>]) -> Ran {
    let words = words_of(rt, alloc, words);
    let mut shelf = shelf_of(rt, alloc, files);
    let mut out = sink_of(rt, alloc);
    let mut err = sink_of(rt, alloc);
    let mut journal = sink_of(rt, alloc);
    let status = scalapack(alloc, &words, &mut shelf, &mut out, &mut err, &mut journal);
    Ran {
        status,
        out: bytes_of(rt, alloc, &out),
        err: bytes_of(rt, alloc, &err),
        journal: bytes_of(rt, alloc, &journal),
    }
}

// Stops where an answer is another one, by the row of a table.
fn check_status(rt: &impl Abort, row: usize, status: Status, want: Status) {
    assert_eq!(rt; status, want, "row {row}");
}

// Stops where bytes are others, by the row of a table.
fn check_bytes(rt: &impl Abort, row: usize, bytes: &[u8], want: &[u8]) {
    assert_eq!(rt; bytes, want, "row {row}");
}

/// Stops where a run answered or wrote something else, by the row of a table.
pub fn check_ran(rt: &impl Abort, row: usize, ran: &Ran, want: Wanted<'_>) {
    check_status(rt, row, ran.status, want.status);
    check_bytes(rt, row, &ran.out, want.out);
    check_bytes(rt, row, &ran.err, want.err);
    check_bytes(rt, row, &ran.journal, want.journal);
}

/// Stops where a run on these files, with the words of each row of a table, answers or writes something else.
pub fn check_words(
    rt: &impl Abort,
    alloc: Global,
    table: &[&[&str]],
    files: &[File<'_>],
    want: Wanted<'_>,
) {
    for (row, words) in table.iter().enumerate() {
        check_ran(rt, row, &run(rt, alloc, words, files), want);
    }
}
