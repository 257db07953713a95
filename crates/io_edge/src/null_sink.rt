//! A sink that keeps nothing.
ghost use Rattle.std.specs.Prelude.{None};

use crate::sink::{Sink, SinkFault};

/// A sink that tells nothing, keeps nothing and never fails.
#[derive(Clone, Copy, Debug, Default)]
pub struct NullSink;

impl NullSink {
    /// A sink that keeps nothing.
    pub fn new() -> NullSink {
        NullSink
    }
}

impl Sink for NullSink {
    ghost told = { λ _. None };

    ghost faults = { λ _. 0 };

    fn put(&mut self, _bytes: &[u8]) -> Result<(), SinkFault> {
        Ok(())
    }
}
