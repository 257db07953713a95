//! What a shelf is: a place from which whole files are read by name.
ghost use Rattle.std.specs.Prelude.{ℕ, ◌≤◌, Option, IfOk, vec_len};
ghost use Rattle.io_edge.specs.Limits.{file_limit};
ghost use Rattle.io_edge.specs.Shelf.{Held, ReadTold, ReadCause};

use std::alloc::{AllocError, Global};

/// Memory ran out.
pub type NoMemory = AllocError;

/// The length in bytes of the longest file that a shelf gives.
pub(crate) const FILE_LIMIT: usize = 16_777_216;

/// Why a file was not read.
#[derive(Clone, Copy, Debug, PartialEq, Eq)]
pub enum ShelfFault {
    /// The shelf has no such file, or couldn't read it.
    Failed,
    /// The file has more than 16,777,216 bytes.
    TooLong,
    /// Memory ran out.
    NoMemory,
}

/// A place from which whole files are read by name.
///
/// Some shelves tell their files. Every shelf keeps two counts of 64 bits, which stop at their
/// last value and never fall.
pub trait Shelf {
    /// What the shelf keeps, where it tells it: its files, and which reads are planned to fail.
    ghost told: { Self → Option Held };

    /// The count of failed reads.
    ghost faults: { Self → ℕ };

    /// The count of reads of a file that was too long.
    ghost longs: { Self → ℕ };

    /// Reads the whole file of this name.
    ///
    /// Gives the file's bytes, at most 16,777,216 of them, and leaves the files as they are.
    ///
    /// # Errors
    ///
    /// `Failed` only where the count of failed reads rose or stands at its last value, and where
    /// the shelf tells its files exactly at a planned call or where it has no file of this name.
    /// `TooLong` only where the other count did so, and where the shelf tells its files exactly
    /// where the file has more than 16,777,216 bytes and the call did not fail.
    /// `NoMemory` where there is no memory for the bytes.
    fn read(&mut self, alloc: Global, name: &str) -> Result<Vec<u8>, ShelfFault>
        // over a shelf that tells its files: the answer, and what stays as it was
        ensures bytes { ReadTold name.now (told self.old) (told self.new) result }
        ensures short { IfOk result (λ v. vec_len v ≤ file_limit) }

        // over every shelf: the counts never fall, and a fault has raised its own
        ensures cause { ReadCause (faults self.old) (faults self.new) (longs self.old) (longs self.new) result };
}
