//! Whole matrices of files.
ghost use Rattle.std.specs.Prelude.{◌≡◌, ℕ, List, OnOk, OnErr};
ghost use Rattle.std.specs.Option.{option_copied};
ghost use Rattle.std.specs.Ordering.{nat_cmp};
ghost use Rattle.std.specs.FinMap as map;
ghost use Rattle.run_data.specs.Files.{pairs_of};

use crate::matrix::Mat;
use std::alloc::{AllocError as NoMemory, Global};
use std::marker::Model;

#[derive(Drop)]
struct Entry {
    line: u32,
    matrix: Mat,
}

/// Whole matrices by the line of their `matrix` command: a finite map.
#[derive(Drop)]
pub struct Files {
    entries: Vec<Entry>,
}

impl Model for Files {
    ghost use Rattle.std.specs.Ordering.{nat_cmp};
    ghost use Rattle.std.specs.FinMap as map;
    ghost use Rattle.run_data.specs.Matrix.{Matrix, matrix_code};
    ghost use Rattle.std.specs.Coded.{coded_ℕ};

    ghost Value = { map.FinMap nat_cmp Matrix };

    ghost coded = { map.code coded_ℕ matrix_code };

    ghost use Rattle.run_data.specs.Files.{pairs_of};

    ghost view = { λ f. map.from_entries (pairs_of f.entries.items) };
}

fn find(entries: &[Entry], line: u32) -> Option<&Mat>
    ensures { option_copied result ≡ map.find nat_cmp line (pairs_of entries.now) }
{
    for entry in entries {
        if entry.line == line {
            return Some(&entry.matrix);
        }
    }
    None
}

impl Files {
    /// The map without matrices.
    pub fn new(alloc: Global) -> Files
        ensures { result ≡ map.empty }
    {
        Files {
            entries: Vec::new(alloc),
        }
    }

    /// Keeps a matrix for a line, in place of one that was there. After an error the map is what it was.
    pub fn put(&mut self, line: u32, m: Mat) -> Result<(), NoMemory>
        ensures kept { OnOk result (self.new ≡ map.insert self.old line m) }
        ensures same { OnErr result (self.new ≡ self.old) }
    {
        self.entries.insert(0, Entry { line, matrix: m })?;
        Ok(())
    }

    /// The matrix of a line; none exactly where none was put.
    pub fn get(&self, line: u32) -> Option<&Mat>
        ensures { option_copied result ≡ map.get self.now line }
    {
        find(&self.entries, line)
    }
}
