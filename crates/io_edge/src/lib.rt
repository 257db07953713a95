//! The outside of the program: shelves, from which whole files are read by name, and sinks, to
//! which bytes are appended.
//!
//! A shelf or a sink that tells its contents has an exact contract: which bytes a call gives or
//! takes, and when it fails. One that tells nothing, as the machine's files and streams, promises
//! only that each failure is counted. So what is proved over every shelf and every sink holds in
//! memory byte for byte, and over the machine up to what the machine does.
#![tactic(auto)]

mod counts;
mod host_shelf;
mod host_sink;
mod mem_shelf;
mod mem_sink;
mod null_sink;
mod plan;
mod shelf;
mod sink;

pub use host_shelf::HostShelf;
pub use host_sink::HostSink;
pub use mem_shelf::MemShelf;
pub use mem_sink::MemSink;
pub use null_sink::NullSink;
pub use shelf::{NoMemory, Shelf, ShelfFault};
pub use sink::{Sink, SinkFault};
