//! A sink in memory, for tests and for use as a library.
ghost use Rattle.std.specs.Prelude.{◌≡◌, ◌+◌, ◌≤◌, Some, ◌++◌, length, take, vec_len, vec_capacity, not, is_ok, IfOk, OnOk, OnErr};
ghost use Rattle.io_edge.specs.Sink.{put_fails, PutTold, PutCause};
ghost use Rattle.io_edge.specs.MemSink.{kept_of, empty, with_planned, after_put};

use crate::counts::count_put;
use crate::plan::{PlannedPut, is_refused, keep_of, kept_len};
use crate::shelf::NoMemory;
use crate::sink::{Sink, SinkFault};
use std::alloc::Global;
use std::marker::Model;

/// A sink in memory with room for some bytes, which tells its bytes.
#[derive(Drop)]
pub struct MemSink {
    bytes: Vec<u8>,
    left: usize,
    calls: u64,
    plan: Vec<PlannedPut>,
    faults: u64,
}

// The room that is left is there already, so that a put takes no memory.
impl Model for MemSink {
    ghost use Rattle.std.specs.Prelude.{◌+◌, ◌≤◌, vec_len, vec_capacity};
    ghost use Rattle.io_edge.specs.MemSink.{SinkState};

    ghost Value = { SinkState };

    ghost view = { λ s. record { bytes = s.bytes.items; left = s.left; calls = s.calls; plan = s.plan.items; faults = s.faults } };

    ghost invariant = { λ s. s.left + vec_len s.bytes ≤ vec_capacity s.bytes };
}

// Appends bytes for which there is room.
fn append(out: &mut Vec<u8>, bytes: &[u8])
    requires { vec_len out.old + length bytes.now ≤ vec_capacity out.old }
    ensures items { out.new.items ≡ out.old.items ++ bytes.now }
    ensures capacity { vec_capacity out.old ≤ vec_capacity out.new }
    ensures len { vec_len out.new ≡ vec_len out.old + length bytes.now }
{
    let _ = out.extend_from_slice(bytes);
}

impl MemSink {
    /// An empty sink with room for this many bytes, to which nothing has been put and which plans
    /// no failure.
    ///
    /// # Errors
    ///
    /// Where there is no memory for the room.
    pub fn new(alloc: Global, room: usize) -> Result<MemSink, NoMemory>
        ensures { IfOk result (λ s. s ≡ empty room) }
    {
        Ok(MemSink {
            bytes: Vec::with_capacity(alloc, room)?,
            left: room,
            calls: 0,
            plan: Vec::new(alloc),
            faults: 0,
        })
    }

    /// Plans that the put of this number fails and keeps the first `keep` of its bytes: all of
    /// them where there are fewer, and never more than fit. Puts are counted from 0. Where a put
    /// is planned twice, the first plan counts.
    ///
    /// # Errors
    ///
    /// Where memory runs out. The sink is as before then.
    pub fn fail_at(&mut self, call: u32, keep: usize) -> Result<(), NoMemory>
        ensures ok { OnOk result (self.new ≡ with_planned self.old call keep) }
        ensures err { OnErr result (self.new ≡ self.old) }
    {
        self.plan.push(PlannedPut { call, keep })?;
        Ok(())
    }

    /// The bytes that were appended so far.
    pub fn bytes(&self) -> &[u8]
        ensures { result.now ≡ self.now.bytes }
    {
        &self.bytes
    }

    // Appends what is kept of a put of these bytes, counts it, and says whether it fails.
    fn keep(&mut self, bytes: &[u8]) -> bool
        ensures state { self.new ≡ after_put self.old bytes.now }
        ensures fails { result ≡ put_fails (kept_of self.old) bytes.now }
        ensures cause { PutCause self.old.faults self.new.faults (not result) }
    {
        let keep = keep_of(&self.plan, self.calls);
        let fails = is_refused(keep, self.left, bytes.len());
        let count = kept_len(keep, self.left, bytes.len());
        append(&mut self.bytes, &bytes[..count]);
        self.left -= count;
        self.calls = self.calls.saturating_add(1);
        self.faults = count_put(self.faults, fails);
        fails
    }
}

impl Sink for MemSink {
    ghost told = { λ s. Some (kept_of s) };

    ghost faults = { λ s. s.faults };

    fn put(&mut self, bytes: &[u8]) -> Result<(), SinkFault>
        ensures bytes { PutTold bytes.now (is_ok result) (Some (kept_of self.old)) (Some (kept_of self.new)) }
        ensures cause { PutCause self.old.faults self.new.faults (is_ok result) }
        // exactly how many bytes are kept, and that the count rises at a failure alone
        ensures state { self.new ≡ after_put self.old bytes.now }
    {
        if self.keep(bytes) {
            Err(SinkFault::Failed)
        } else {
            Ok(())
        }
    }
}
