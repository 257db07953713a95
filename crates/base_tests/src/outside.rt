//! Shelves and sinks: in memory, and the machine's files and streams.
use io_edge::{
    HostShelf, HostSink, MemShelf, MemSink, NullSink, Shelf, ShelfFault, Sink, SinkFault,
};
use std::alloc::Global;
use std::fs;
use std::process::Abort;
use std::test::Fail;

/// Stops where a file has other bytes, or can't be read.
fn check_file(rt: &impl Abort, alloc: Global, shelf: &mut impl Shelf, name: &str, want: &[u8]) {
    let found = shelf.read(alloc, name).expect(rt, "a file");
    assert_eq!(rt; found.as_slice(), want);
}

/// Stops where a file has another length, or can't be read.
fn check_length(rt: &impl Abort, alloc: Global, shelf: &mut impl Shelf, name: &str, want: usize) {
    let found = shelf.read(alloc, name).expect(rt, "a file");
    assert!(rt; found.len() == want);
}

/// Stops where the read of a file goes well, or fails otherwise.
fn check_fault(
    rt: &impl Abort,
    alloc: Global,
    shelf: &mut impl Shelf,
    name: &str,
    want: ShelfFault,
) {
    assert_eq!(rt; shelf.read(alloc, name).err(), Some(want));
}

/// Stops where a put ends otherwise.
fn check_put(rt: &impl Abort, sink: &mut impl Sink, bytes: &[u8], want: Result<(), SinkFault>) {
    assert_eq!(rt; sink.put(bytes), want);
}

#[test]
fn reads_a_file_that_it_wrote(rt: HostRuntime) -> Result<(), Fail> {
    let alloc = rt.alloc();
    let name = "io_edge_test.txt";
    let mut sink = HostSink::file(&rt, String::from_str(alloc, name)?);
    check_put(&rt, &mut sink, b"ab", Ok(()));
    check_put(&rt, &mut sink, b"c", Ok(()));
    let mut shelf = HostShelf::new(&rt);
    check_file(&rt, alloc, &mut shelf, name, b"abc");
    fs::remove_file(&rt, name)?;
    // it is not there any more
    check_fault(&rt, alloc, &mut shelf, name, ShelfFault::Failed);
    check_fault(&rt, alloc, &mut shelf, "/dev/zero", ShelfFault::TooLong);
    Ok(())
}

#[test]
fn writes_to_streams(rt: HostRuntime) -> Result<(), Fail> {
    check_put(&rt, &mut HostSink::stdout(&rt), b"out\n", Ok(()));
    check_put(&rt, &mut HostSink::stderr(&rt), b"err\n", Ok(()));
    // no text
    check_put(
        &rt,
        &mut HostSink::stderr(&rt),
        &[255],
        Err(SinkFault::Failed),
    );
    check_put(&rt, &mut HostSink::null(&rt), b"x", Ok(()));
    check_put(&rt, &mut NullSink::new(), b"x", Ok(()));
    // no folder
    let lost = String::from_str(rt.alloc(), "no_such_folder/journal.txt")?;
    check_put(
        &rt,
        &mut HostSink::file(&rt, lost),
        b"x",
        Err(SinkFault::Failed),
    );
    Ok(())
}

/// Stops where a sink holds other bytes.
fn check_sink(rt: &impl Abort, sink: &MemSink, want: &[u8]) {
    assert_eq!(rt; sink.bytes(), want);
}

/// A sink with room for this many bytes.
fn sink(rt: &impl Abort, alloc: Global, room: usize) -> MemSink {
    MemSink::new(alloc, room).expect(rt, "memory for a sink")
}

#[test]
fn keeps_what_fits(rt: HostRuntime) {
    let mut sink = sink(&rt, rt.alloc(), 5);
    check_put(&rt, &mut sink, b"abc", Ok(()));
    check_put(&rt, &mut sink, b"def", Err(SinkFault::Failed));
    check_put(&rt, &mut sink, b"", Ok(()));
    check_sink(&rt, &sink, b"abcde");
}

#[test]
fn keeps_what_is_planned(rt: HostRuntime) {
    let mut sink = sink(&rt, rt.alloc(), 6);
    for (call, keep) in [(1, 2), (1, 3), (2, 9), (3, 9)] {
        sink.fail_at(call, keep).expect(&rt, "memory for a plan");
    }
    check_put(&rt, &mut sink, b"a", Ok(()));
    // it keeps two, has fewer than nine, and has room for two
    check_put(&rt, &mut sink, b"bcd", Err(SinkFault::Failed));
    check_put(&rt, &mut sink, b"d", Err(SinkFault::Failed));
    check_put(&rt, &mut sink, b"efg", Err(SinkFault::Failed));
    check_sink(&rt, &sink, b"abcdef");
}

/// Puts a file on a shelf.
fn add(rt: &impl Abort, shelf: &mut MemShelf, name: &str, bytes: &[u8]) {
    shelf.add(name, bytes).expect(rt, "memory for a file");
}

#[test]
fn reads_the_last_file_of_a_name(rt: HostRuntime) {
    let alloc = rt.alloc();
    let mut shelf = MemShelf::new(alloc);
    add(&rt, &mut shelf, "a", b"old");
    add(&rt, &mut shelf, "b", b"");
    add(&rt, &mut shelf, "a", b"new");
    shelf.fail_at(2).expect(&rt, "memory for a plan");
    check_file(&rt, alloc, &mut shelf, "a", b"new");
    check_file(&rt, alloc, &mut shelf, "b", b"");
    // planned
    check_fault(&rt, alloc, &mut shelf, "a", ShelfFault::Failed);
    // not there
    check_fault(&rt, alloc, &mut shelf, "c", ShelfFault::Failed);
    check_file(&rt, alloc, &mut shelf, "a", b"new");
}

#[test]
fn refuses_a_file_past_the_limit(rt: HostRuntime) -> Result<(), Fail> {
    let alloc = rt.alloc();
    let mut shelf = MemShelf::new(alloc);
    let long = vec![in alloc; 7u8; 16_777_217]?;
    add(&rt, &mut shelf, "long", &long);
    add(&rt, &mut shelf, "full", &long[1..]);
    check_fault(&rt, alloc, &mut shelf, "long", ShelfFault::TooLong);
    check_length(&rt, alloc, &mut shelf, "full", 16_777_216);
    Ok(())
}
