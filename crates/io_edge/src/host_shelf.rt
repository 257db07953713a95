//! The machine's own files, read whole. This shelf tells nothing of them.
ghost use Rattle.std.specs.Prelude.{◌≡◌, ◌<◌, ◌≤◌, None, Err, IfOk, IfSome, vec_len, length};
ghost use Rattle.io_edge.specs.Limits.{file_limit};
ghost use Rattle.io_edge.specs.Host.{counts_of};

use crate::counts::Counts;
use crate::shelf::{FILE_LIMIT, Shelf, ShelfFault};
use std::alloc::Global;
use std::fs;
use std::io::Read;
use std::rt::Files;

/// How many bytes are asked for at a time.
const CHUNK: usize = 4096;

/// The files of the machine that `rt` reaches, by their paths.
///
/// A read that the machine refuses, for whatever cause, is a failed read.
#[derive(Drop)]
pub struct HostShelf<'a, R> {
    rt: &'a R,
    counts: Counts,
}

// Reads to the end, or past the limit. Each turn takes at least one byte or is the last.
fn read_whole<S: Read + Drop>(alloc: Global, mut source: S) -> Result<Vec<u8>, ShelfFault>
    ensures short { IfOk result (λ v. vec_len v ≤ file_limit) }
    // of a source whose bytes are known
    ensures whole { IfOk result (λ v. IfSome (S.remaining source) (λ bytes. v.items ≡ bytes)) }
    ensures long { result ≡ Err ShelfFault.TooLong → IfSome (S.remaining source) (λ bytes. file_limit < length bytes) }
{
    let mut bytes = Vec::new(alloc);
    let mut chunk = [0u8; CHUNK];
    'turns: while bytes.len() <= FILE_LIMIT {
        let count = source.read(&mut chunk).map_err(|_| ShelfFault::Failed)?;
        if count == 0 {
            return Ok(bytes);
        }
        bytes
            .extend_from_slice(&chunk[..count])
            .map_err(|_| ShelfFault::NoMemory)?;
    }
    Err(ShelfFault::TooLong)
}

fn read_file<R: Files>(rt: &R, alloc: Global, name: &str) -> Result<Vec<u8>, ShelfFault>
    ensures { IfOk result (λ v. vec_len v ≤ file_limit) }
{
    let file = fs::open(rt, name).map_err(|_| ShelfFault::Failed)?;
    read_whole(alloc, file)
}

impl<'a, R: Files> HostShelf<'a, R> {
    /// The files that `rt` reaches. Nothing has been read.
    pub fn new(rt: &'a R) -> HostShelf<'a, R>
        ensures { counts_of result ≡ record { faults = 0; longs = 0 } }
    {
        HostShelf {
            rt,
            counts: Counts::ZERO,
        }
    }
}

impl<'a, R: Files> Shelf for HostShelf<'a, R> {
    ghost told = { λ _. None };

    ghost faults = { λ s. (counts_of s).faults };

    ghost longs = { λ s. (counts_of s).longs };

    fn read(&mut self, alloc: Global, name: &str) -> Result<Vec<u8>, ShelfFault> {
        let answer = read_file(self.rt, alloc, name);
        self.counts.note(&answer);
        answer
    }
}
