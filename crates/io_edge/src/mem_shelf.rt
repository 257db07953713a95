//! A shelf in memory, for tests and for use as a library.
ghost use Rattle.std.specs.Prelude.{◌≡◌, ◌≤◌, Some, OnOk, OnErr, IfOk, vec_len};
ghost use Rattle.io_edge.specs.Counts.{counts_after};
ghost use Rattle.io_edge.specs.Limits.{file_limit};
ghost use Rattle.io_edge.specs.Shelf.{Answers, read_answer, ReadTold, ReadCause};
ghost use Rattle.io_edge.specs.MemShelf.{state_of, empty, with_file, with_planned};

use crate::counts::Counts;
use crate::plan::has_call;
use crate::shelf::{FILE_LIMIT, NoMemory, Shelf, ShelfFault};
use std::alloc::Global;
use std::collections::BTreeMap;

/// A shelf of files in memory, which tells its files.
#[derive(Drop)]
pub struct MemShelf {
    alloc: Global,
    files: BTreeMap<String, Vec<u8>>,
    calls: u64,
    plan: Vec<u32>,
    counts: Counts,
}

impl MemShelf {
    /// A shelf with no file, which has never been read and plans no failure.
    pub fn new(alloc: Global) -> MemShelf
        ensures { state_of result ≡ empty }
    {
        MemShelf {
            alloc,
            files: BTreeMap::new(alloc),
            calls: 0,
            plan: Vec::new(alloc),
            counts: Counts::ZERO,
        }
    }

    /// Puts a file of this name on the shelf, in the place of one that is there.
    ///
    /// # Errors
    ///
    /// Where memory runs out. The shelf is as before then.
    pub fn add(&mut self, name: &str, bytes: &[u8]) -> Result<(), NoMemory>
        ensures ok { OnOk result (state_of self.new ≡ with_file (state_of self.old) name.now bytes.now) }
        ensures err { OnErr result (state_of self.new ≡ state_of self.old) }
    {
        let name = String::from_str(self.alloc, name)?;
        let bytes = bytes.to_vec(self.alloc)?;
        self.files.insert(name, bytes)?;
        Ok(())
    }

    /// Plans that the read of this number fails. Reads are counted from 0.
    ///
    /// # Errors
    ///
    /// Where memory runs out. The shelf is as before then.
    pub fn fail_at(&mut self, call: u32) -> Result<(), NoMemory>
        ensures ok { OnOk result (state_of self.new ≡ with_planned (state_of self.old) call) }
        ensures err { OnErr result (state_of self.new ≡ state_of self.old) }
    {
        self.plan.push(call)?;
        Ok(())
    }

    // What the next read gives of the file of this name.
    fn answer(&self, alloc: Global, name: &str) -> Result<Vec<u8>, ShelfFault>
        ensures { Answers (read_answer (state_of self.now).held name.now) result }
    {
        if has_call(&self.plan, self.calls) {
            return Err(ShelfFault::Failed);
        }
        let Some(bytes) = self.files.get(name) else {
            return Err(ShelfFault::Failed);
        };
        if bytes.len() > FILE_LIMIT {
            return Err(ShelfFault::TooLong);
        }
        bytes.to_vec(alloc).map_err(|_| ShelfFault::NoMemory)
    }
}

impl Shelf for MemShelf {
    ghost told = { λ s. Some (state_of s).held };

    ghost faults = { λ s. (state_of s).counts.faults };

    ghost longs = { λ s. (state_of s).counts.longs };

    fn read(&mut self, alloc: Global, name: &str) -> Result<Vec<u8>, ShelfFault>
        ensures bytes { ReadTold name.now (Some (state_of self.old).held) (Some (state_of self.new).held) result }
        ensures short { IfOk result (λ v. vec_len v ≤ file_limit) }
        ensures cause { ReadCause (state_of self.old).counts.faults (state_of self.new).counts.faults (state_of self.old).counts.longs (state_of self.new).counts.longs result }
        ensures counts { (state_of self.new).counts ≡ counts_after result (state_of self.old).counts }
    {
        let answer = self.answer(alloc, name);
        self.calls = self.calls.saturating_add(1);
        self.counts.note(&answer);
        answer
    }
}
