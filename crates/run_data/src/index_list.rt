//! Lists of numbers.
ghost use Rattle.std.specs.Prelude.{◌≡◌, ◌<◌, [], ◌∷◌, ◌++◌, length, slice_index_or, OnOk, OnErr, IfOk};

use std::alloc::{AllocError as NoMemory, Global};
use std::marker::Model;

/// A list of numbers: pivot rows, counted from 1, or the numbers of an `order` line. It has at most 4,294,967,295 of them.
#[derive(Drop)]
pub struct IndexList {
    numbers: Vec<u32>,
}

impl Model for IndexList {
    ghost use Rattle.std.specs.Prelude.{ℕ, List, vec_len, length, ◌≡◌, ◌<◌, ◌^◌};

    ghost Value = { List ℕ };

    ghost view = { λ l. l.numbers.items };

    ghost invariant = { λ l. (vec_len l.numbers < 2 ^ 32) × (length l.numbers.items ≡ vec_len l.numbers) };
}

impl IndexList {
    /// The empty list.
    pub fn new(alloc: Global) -> IndexList
        ensures { result ≡ [] }
    {
        IndexList {
            numbers: Vec::new(alloc),
        }
    }

    /// Puts a number last. After an error the list is what it was.
    pub fn push(&mut self, n: u32) -> Result<(), NoMemory>
        ensures pushed { OnOk result (self.new ≡ self.old ++ n ∷ []) }
        ensures kept { OnErr result (self.new ≡ self.old) }
    {
        if self.numbers.len() >= u32::MAX as usize {
            return Err(NoMemory);
        }
        self.numbers.push(n)?;
        Ok(())
    }

    /// How many numbers there are.
    pub fn len(&self) -> u32
        ensures { result ≡ length self.now }
    {
        self.numbers.len() as u32
    }

    /// The number at place `i`, counted from 0.
    pub fn get(&self, i: u32) -> u32
        requires { i < length self.now }
        ensures { result ≡ slice_index_or self.now i 0 }
    {
        self.numbers[i as usize]
    }

    /// A list of the same numbers.
    pub fn copy(&self, alloc: Global) -> Result<IndexList, NoMemory>
        ensures { IfOk result (λ l. l ≡ self.now) }
    {
        Ok(IndexList {
            numbers: Vec::from_slice(alloc, &self.numbers)?,
        })
    }
}
