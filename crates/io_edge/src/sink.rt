//! What a sink is: a place to which bytes are appended.
ghost use Rattle.std.specs.Prelude.{ℕ, Option, is_ok};
ghost use Rattle.io_edge.specs.Sink.{Kept, PutTold, PutCause};

/// Why bytes were not all appended.
#[derive(Clone, Copy, Debug, PartialEq, Eq)]
pub enum SinkFault {
    /// The sink has no room for all of them, or couldn't write them.
    Failed,
}

/// A place to which bytes are appended.
///
/// Some sinks tell their bytes. Every sink keeps a count of 64 bits, which stops at its last
/// value and never falls.
pub trait Sink {
    /// What the sink keeps, where it tells it: its bytes, how many more fit, and which puts are
    /// planned to fail.
    ghost told: { Self → Option Kept };

    /// The count of failed puts.
    ghost faults: { Self → ℕ };

    /// Appends all the bytes. It takes no memory.
    ///
    /// # Errors
    ///
    /// `Failed` only where the count of failed puts rose or stands at its last value, and where
    /// the sink tells its bytes exactly at a planned call or where more bytes come than fit. A
    /// prefix of the bytes was appended then.
    fn put(&mut self, bytes: &[u8]) -> Result<(), SinkFault>
        // over a sink that tells its bytes: what was appended, and when the put fails
        ensures bytes { PutTold bytes.now (is_ok result) (told self.old) (told self.new) }

        // over every sink: the count never falls, and a failure has raised it
        ensures cause { PutCause (faults self.old) (faults self.new) (is_ok result) };
}
