//! Words of a script.
ghost use Rattle.std.specs.Prelude.{◌≡◌, IfOk};

use std::alloc::{AllocError as NoMemory, Global};
use std::marker::Model;

/// A word of a script: its bytes as they stand there.
#[derive(Drop)]
pub struct Word {
    bytes: Vec<u8>,
}

impl Model for Word {
    ghost use Rattle.std.specs.Prelude.{ℕ, List};

    ghost Value = { List ℕ };

    ghost view = { λ w. w.bytes.items };
}

impl Word {
    /// The word of these bytes.
    pub fn new(alloc: Global, bytes: &[u8]) -> Result<Word, NoMemory>
        ensures { IfOk result (λ w. w ≡ bytes.now) }
    {
        Ok(Word {
            bytes: bytes.to_vec(alloc)?,
        })
    }

    /// Its bytes.
    pub fn bytes(&self) -> &[u8]
        ensures { result.now ≡ self.now }
    {
        &self.bytes
    }
}
