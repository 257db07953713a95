//! The three puts.
ghost use Rattle.scalapack_top.specs.Writes.{Output, Puts, PutsIf, AllPut};

use io_edge::Sink;

// One put of the bytes; a put of no bytes isn't made.
fn put_all<S: Sink>(sink: &mut S, bytes: &[u8]) -> bool
    ensures { Puts S.told S.faults sink.old sink.new bytes.now result }
{
    if bytes.is_empty() {
        return true;
    }
    sink.put(bytes).is_ok()
}

// The same, where the puts before went well.
fn put_if<S: Sink>(going: bool, sink: &mut S, bytes: &[u8]) -> bool
    ensures { PutsIf S.told S.faults sink.old sink.new bytes.now going result }
{
    going && put_all(sink, bytes)
}

/// Writes the bytes to the three sinks in order, and says whether all went well.
pub fn write<O: Sink, E: Sink, J: Sink>(
    out_bytes: &[u8],
    err_bytes: &[u8],
    journal_bytes: &[u8],
    out: &mut O,
    err: &mut E,
    journal: &mut J,
) -> bool
    ensures { AllPut O.told O.faults E.told E.faults J.told J.faults out.old out.new err.old err.new journal.old journal.new (record { out = out_bytes.now; err = err_bytes.now; journal = journal_bytes.now }) result }
{
    let first = put_all(out, out_bytes);
    let second = put_if(first, err, err_bytes);
    put_if(second, journal, journal_bytes)
}
