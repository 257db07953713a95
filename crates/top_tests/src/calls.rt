//! What the tests of the top call share: a call on words and files in memory, what it answers and writes, and one comparison of that.
//! Each ends the test where memory lacks.
use io_edge::{MemShelf, MemSink};
use scalapack_top::{Status, scalapack};
use std::alloc::Global;
use std::panic::Expect;
use std::process::Abort;

/// A name and the bytes of its file.
pub type File<'a> = (&'static str, &'a [u8]);

/// A script of one matrix of one word.
pub const SMALLEST: &[u8] = b"grid g 1 1 0\nmatrix A g 1 1 1 1 0 0 a.txt\nprint A\n";

/// What a call is given.
#[derive(Clone, Copy)]
pub struct Call<'a> {
    pub words: &'static [&'static str],
    pub files: &'a [File<'a>],
    /// The read that fails, counted from 0.
    pub failing_read: Option<u32>,
    /// How many bytes there is room for on out.
    pub room: usize,
    /// How many bytes err keeps of its first put, which fails then.
    pub err_keeps: Option<usize>,
    /// How many bytes the journal keeps of its first put, which fails then.
    pub journal_keeps: Option<usize>,
}

/// What a call answered and wrote.
#[derive(Drop)]
pub struct Ran {
    pub status: Status,
    pub out: Vec<u8>,
    pub err: Vec<u8>,
    pub journal: Vec<u8>,
}

/// What a call has to answer and write.
#[derive(Clone, Copy)]
pub struct Wanted<'a> {
    pub status: Status,
    pub out: &'a [u8],
    pub err: &'a [u8],
    pub journal: &'a [u8],
}

/// A call on words and files with which nothing fails.
pub fn call_on<'a>(words: &'static [&'static str], files: &'a [File<'a>]) -> Call<'a> {
    Call {
        words,
        files,
        failing_read: None,
        room: 100_000,
        err_keeps: None,
        journal_keeps: None,
    }
}

/// A run to its end.
pub fn done<'a>(out: &'a [u8], journal: &'a [u8]) -> Wanted<'a> {
    Wanted {
        status: Status::Done,
        out,
        err: b"",
        journal,
    }
}

/// An answer without a run.
pub fn ended(status: Status, err: &[u8]) -> Wanted<'_> {
    Wanted {
        status,
        out: b"",
        err,
        journal: b"",
    }
}

/// Parts of a file one after another.
pub fn joined(rt: &impl Abort, alloc: Global, parts: &[&[u8]]) -> Vec<u8> {
    let mut all = Vec::new(alloc);
    for part in parts {
        all.extend_from_slice(part).expect(rt, "memory for a file");
    }
    all
}

/// The words as a call takes them.
pub fn words_of(rt: &impl Abort, alloc: Global, words: &[&str]) -> Vec<String> {
    let mut all = Vec::new(alloc);
    for word in words {
        let word = String::from_str(alloc, word).expect(rt, "memory for a word");
        all.push(word).expect(rt, "memory for a word");
    }
    all
}

// A shelf of files, of which a read fails.
fn shelf_of(
    rt: &impl Abort,
    alloc: Global,
    files: &[File<'_>],
    failing_read: Option<u32>,
) -> MemShelf {
    let mut shelf = MemShelf::new(alloc);
    for (name, bytes) in files {
        shelf.add(name, bytes).expect(rt, "memory for a file");
    }
    if let Some(read) = failing_read {
        shelf.fail_at(read).expect(rt, "memory for a plan");
    }
    shelf
}

// A sink with room for some bytes, which keeps so many of a first put that fails.
fn sink_of(rt: &impl Abort, alloc: Global, room: usize, keeps: Option<usize>) -> MemSink {
    let mut sink = MemSink::new(alloc, room).expect(rt, "memory for a sink");
    if let Some(keep) = keeps {
        sink.fail_at(0, keep).expect(rt, "memory for a plan");
    }
    sink
}

// The bytes of a sink.
fn bytes_of(rt: &impl Abort, alloc: Global, sink: &MemSink) -> Vec<u8> {
    sink.bytes().to_vec(alloc).expect(rt, "memory for bytes")
}

/// Calls `scalapack`.
pub fn run(rt: &impl Abort, alloc: Global, call: Call<'_>) -> Ran {
    let words = words_of(rt, alloc, call.words);
    let mut shelf = shelf_of(rt, alloc, call.files, call.failing_read);
    let mut out = sink_of(rt, alloc, call.room, None);
    let mut err = sink_of(rt, alloc, 1000, call.err_keeps);
    let mut journal = sink_of(rt, alloc, 100_000, call.journal_keeps);
    let status = scalapack(alloc, &words, &mut shelf, &mut out, &mut err, &mut journal);
    Ran {
        status,
        out: bytes_of(rt, alloc, &out),
        err: bytes_of(rt, alloc, &err),
        journal: bytes_of(rt, alloc, &journal),
    }
}

/// Stops where an answer is another one, by the row of a table.
pub fn check_status(rt: &impl Abort, row: usize, status: Status, want: Status) {
    assert_eq!(rt; status, want, "row {row}");
}

/// Stops where bytes are others, by the row of a table.
pub fn check_bytes(rt: &impl Abort, row: usize, bytes: &[u8], want: &[u8]) {
    assert_eq!(rt; bytes, want, "row {row}");
}

/// Stops where a call answered or wrote something else, by the row of a table.
pub fn check_ran(rt: &impl Abort, row: usize, ran: &Ran, want: Wanted<'_>) {
    check_status(rt, row, ran.status, want.status);
    check_bytes(rt, row, &ran.out, want.out);
    check_bytes(rt, row, &ran.err, want.err);
    check_bytes(rt, row, &ran.journal, want.journal);
}

/// Stops where a call answers or writes something else, by the row of a table.
pub fn check_call(rt: &impl Abort, alloc: Global, row: usize, given: Call<'_>, want: Wanted<'_>) {
    let ran = run(rt, alloc, given);
    check_ran(rt, row, &ran, want);
}

/// Stops where a call, by each row of a table, answers or writes something else.
pub fn check_calls(rt: &impl Abort, alloc: Global, table: &[(Call<'_>, Wanted<'_>)]) {
    for (row, (given, want)) in table.iter().enumerate() {
        check_call(rt, alloc, row, *given, *want);
    }
}

/// Stops where a call on these files, with the words of each row of a table, answers or writes something else.
pub fn check_words<'a>(
    rt: &impl Abort,
    alloc: Global,
    table: &[&'static [&'static str]],
    files: &'a [File<'a>],
    want: Wanted<'_>,
) {
    for (row, words) in table.iter().enumerate() {
        check_call(rt, alloc, row, call_on(words, files), want);
    }
}

/// Stops where a call on a script and one matrix file, by each row of a table, answers or writes something else.
pub fn check_answers(rt: &impl Abort, alloc: Global, table: &[(&[u8], &[u8], Wanted<'_>)]) {
    for (row, (script, matrix, want)) in table.iter().enumerate() {
        let files = [("s.txt", *script), ("a.txt", *matrix)];
        check_call(rt, alloc, row, call_on(&["s.txt"], &files), *want);
    }
}
