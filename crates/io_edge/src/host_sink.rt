//! The machine's own streams and files, to which bytes are appended. They tell nothing of them.
ghost use Rattle.std.specs.Prelude.{◌≡◌, None};
ghost use Rattle.std.specs.Bool.{OnTrue};
ghost use Rattle.std.specs.Io.KnownBytes.{Appends};
ghost use Rattle.io_edge.specs.Host.{faults_of};

use crate::counts::count_put;
use crate::sink::{Sink, SinkFault};
use std::fs;
use std::io::Write;
use std::rt::Files;

// Where the bytes go. A file is made at the first put.
#[derive(Drop)]
enum Target<F> {
    Output,
    Error,
    File { name: String, file: Option<F> },
    Null,
}

/// A stream or a file of the machine that `rt` reaches.
///
/// A put that the machine refuses, for whatever cause, is a failed put; so is a write that takes
/// nothing of the rest.
#[derive(Drop)]
pub struct HostSink<'a, R: Files> {
    rt: &'a R,
    target: Target<R::File>,
    faults: u64,
}

// Writes all the bytes, and says whether it went well.
fn write_all<W: Write>(writer: &mut W, bytes: &[u8]) -> bool
    ensures { OnTrue result (Appends (W.contents writer.old) (W.contents writer.new) bytes.now) }
{
    writer.write_all(bytes).is_ok()
}

// Writes all the bytes to a file, which is made where it isn't there yet.
fn write_file<R: Files>(rt: &R, name: &str, file: &mut Option<R::File>, bytes: &[u8]) -> bool {
    if let Some(file) = file {
        return write_all(file, bytes);
    }
    let Ok(mut made) = fs::create(rt, name) else {
        return false;
    };
    let written = write_all(&mut made, bytes);
    *file = Some(made);
    written
}

// Writes all the bytes as text, which they have to be.
fn write_text<R: Eprint>(rt: &R, bytes: &[u8]) -> bool {
    match str::from_utf8(bytes) {
        Ok(text) => rt.eprint(text).is_ok(),
        Err(_) => false,
    }
}

impl<'a, R: Files + Print + Eprint> HostSink<'a, R> {
    /// The standard output.
    pub fn stdout(rt: &'a R) -> HostSink<'a, R>
        ensures { faults_of result ≡ 0 }
    {
        HostSink::to(rt, Target::Output)
    }

    /// The standard error, which takes text: bytes that are not UTF-8 are a failed put.
    pub fn stderr(rt: &'a R) -> HostSink<'a, R>
        ensures { faults_of result ≡ 0 }
    {
        HostSink::to(rt, Target::Error)
    }

    /// The file of this path, which the first put makes, or empties where it is there.
    pub fn file(rt: &'a R, name: String) -> HostSink<'a, R>
        ensures { faults_of result ≡ 0 }
    {
        HostSink::to(rt, Target::File { name, file: None })
    }

    /// No stream and no file: each put goes well and writes nothing.
    pub fn null(rt: &'a R) -> HostSink<'a, R>
        ensures { faults_of result ≡ 0 }
    {
        HostSink::to(rt, Target::Null)
    }

    fn to(rt: &'a R, target: Target<R::File>) -> HostSink<'a, R>
        ensures { faults_of result ≡ 0 }
    {
        HostSink {
            rt,
            target,
            faults: 0,
        }
    }

    // Writes all the bytes, and says whether it went well.
    fn write(&mut self, bytes: &[u8]) -> bool
        ensures { faults_of self.new ≡ faults_of self.old }
    {
        match &mut self.target {
            Target::Output => self.rt.write_all(bytes).is_ok(),
            Target::Error => write_text(self.rt, bytes),
            Target::File { name, file } => write_file(self.rt, name.as_str(), file, bytes),
            Target::Null => true,
        }
    }
}

impl<'a, R: Files + Print + Eprint> Sink for HostSink<'a, R> {
    ghost told = { λ _. None };

    ghost faults = { λ s. faults_of s };

    fn put(&mut self, bytes: &[u8]) -> Result<(), SinkFault> {
        let written = self.write(bytes);
        self.faults = count_put(self.faults, !written);
        if written {
            Ok(())
        } else {
            Err(SinkFault::Failed)
        }
    }
}
