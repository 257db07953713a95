//! Counts of faults, which stop at their last value.
ghost use Rattle.std.specs.Prelude.{◌≡◌, if◌then◌else◌, not};
ghost use Rattle.io_edge.specs.Causes.{counted};
ghost use Rattle.io_edge.specs.Sink.{PutCause};
ghost use Rattle.io_edge.specs.Counts.{counts_after};
ghost use Rattle.io_edge.specs.Shelf.{ReadCause};

use crate::shelf::ShelfFault;

// A sink's count after a put that failed or not.
pub fn count_put(count: u64, fails: bool) -> u64
    ensures value { result ≡ (if fails then counted count else count) }
    ensures cause { PutCause count result (not fails) }
{
    if fails {
        count.saturating_add(1)
    } else {
        count
    }
}

/// How many reads failed, and how many met a file that was too long. Each count stops at its
/// last value.
#[derive(Clone, Copy)]
pub struct Counts {
    pub faults: u64,
    pub longs: u64,
}

impl Counts {
    pub const ZERO: Counts = Counts {
        faults: 0,
        longs: 0,
    };

    // Counts what a read answered.
    pub fn note(&mut self, answer: &Result<Vec<u8>, ShelfFault>)
        ensures counts { self.new ≡ counts_after answer.now self.old }
        ensures cause { ReadCause self.old.faults self.new.faults self.old.longs self.new.longs answer.now }
    {
        match answer {
            Err(ShelfFault::Failed) => self.faults = self.faults.saturating_add(1),
            Err(ShelfFault::TooLong) => self.longs = self.longs.saturating_add(1),
            Err(ShelfFault::NoMemory) | Ok(_) => {}
        }
    }
}
