//! Runs a script on the rank machine, `scalapack_cli SCRIPT [--journal FILE]`, or serially, `scalapack_cli SCRIPT --serial`. The exit
//! status is the number of the answer.
#![tactic(auto)]

use io_edge::{HostShelf, HostSink};
use scalapack_top::{journal_name, scalapack};
use std::alloc::{AllocError, Global};
use std::env::{self, Env};
use std::io::ErrorKind;
use std::process::ExitCode;

// The words after the program's name. Where one of them, or all, can't be had as text, one empty word stands for them; want of memory is
// an error of its own.
fn words_of<R: Env + Alloc<A = Global>>(rt: &R) -> Result<Vec<String>, AllocError> {
    let alloc = rt.alloc();
    let mut words = Vec::new(alloc);
    match env::args(rt) {
        Ok(args) => {
            for word in args.skip(1) {
                words.push(word)?;
            }
        }
        Err(e) if e.kind() == ErrorKind::OutOfMemory => return Err(AllocError),
        Err(_) => words.push(String::new(alloc))?,
    }
    Ok(words)
}

fn main(rt: HostRuntime) -> ExitCode {
    let alloc = rt.alloc();
    let Ok(words) = words_of(&rt) else {
        return ExitCode::from(5);
    };
    let Ok(name) = journal_name(alloc, &words) else {
        return ExitCode::from(5);
    };
    let mut journal = match name {
        Some(name) => HostSink::file(&rt, name),
        None => HostSink::null(&rt),
    };
    let mut shelf = HostShelf::new(&rt);
    let mut out = HostSink::stdout(&rt);
    let mut err = HostSink::stderr(&rt);
    let status = scalapack(alloc, &words, &mut shelf, &mut out, &mut err, &mut journal);
    ExitCode::from(status.number())
}
