//! The top call: it reads a script and its files, runs it on the rank machine, and writes the printed text and the journal.
#![tactic(auto)]

mod call;
mod input;
mod reading;
mod run;
mod status;
mod words;
mod writes;

pub use call::scalapack;
pub use status::Status;
pub use words::journal_name;
