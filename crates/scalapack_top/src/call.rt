//! The top call.
ghost use Rattle.scalapack_top.specs.declared.status.Status.{Status};
ghost use Rattle.std.specs.Prelude.{◌≡◌, ◌≤◌, ◌⊎◌, ◌++◌, Bool, true, false, [], None, IfOk, IfErr, OnOk, codes, decimal};
ghost use Rattle.scalapack_top.specs.Words.{texts, runs_serially, machine_of, script_name};
ghost use Rattle.scalapack_top.specs.Reads.{HasRead};
ghost use Rattle.scalapack_top.specs.Read.{status_of};
ghost use Rattle.scalapack_top.specs.Writes.{Output, AllPut, written};
ghost use Rattle.scalapack_top.specs.Status.{error_text, answer_of};
ghost use Rattle.scalapack_top.specs.Causes.{IsFailure, IsCaused};
ghost use Rattle.scalapack_top.specs.Headline.{IsAnswered, HasCause};
ghost use Rattle.scalapack_top.specs.Work.{error_of, output_of, IsWorkOf, IsRanBy, HasFailed, HasReadFor};

use crate::input::read_input;
use crate::run::run;
use crate::status::Status;
use crate::words::{Machine, places_of, text_at};
use crate::writes::write;
use io_edge::{Shelf, Sink};
use itoa::Buffer;
use script_run::{Drove, Ran};
use std::alloc::{AllocError, Global};

/// What the work came to, and its texts. `made` is the text on err where that isn't fixed.
#[derive(Drop)]
pub struct Work {
    pub answer: Status,
    pub out: Vec<u8>,
    pub made: Vec<u8>,
    pub journal: Vec<u8>,
}

fn add_number(out: &mut Vec<u8>, n: u32) -> Result<(), AllocError>
    ensures { OnOk result (out.new.items ≡ out.old.items ++ decimal n) }
{
    let mut buffer = Buffer::new();
    out.extend_from_slice(buffer.format(n as usize).as_bytes())
}

fn refused_text(alloc: Global, file: u32, line: u32, code: i32) -> Result<Vec<u8>, AllocError>
    ensures { IfOk result (λ v. v.items ≡ error_text (Status.Refused file line code)) }
{
    let mut out = Vec::from_slice(alloc, b"refused file ")?;
    add_number(&mut out, file)?;
    out.extend_from_slice(b" line ")?;
    add_number(&mut out, line)?;
    out.extend_from_slice(b" code ")?;
    let mut buffer = Buffer::new();
    out.extend_from_slice(buffer.format(code).as_bytes())?;
    out.push(b'\n')?;
    Ok(out)
}

fn fault_text(alloc: Global, file: u32) -> Result<Vec<u8>, AllocError>
    ensures { IfOk result (λ v. v.items ≡ error_text (Status.ReadFault file)) }
{
    let mut out = Vec::from_slice(alloc, b"read fault file ")?;
    add_number(&mut out, file)?;
    out.push(b'\n')?;
    Ok(out)
}

fn beyond_text(alloc: Global, grid: u32, row: u32) -> Result<Vec<u8>, AllocError>
    ensures { IfOk result (λ v. v.items ≡ error_text (Status.Beyond grid row)) }
{
    let mut out = Vec::from_slice(alloc, b"beyond grid ")?;
    add_number(&mut out, grid)?;
    out.extend_from_slice(b" row ")?;
    add_number(&mut out, row)?;
    out.push(b'\n')?;
    Ok(out)
}

fn no_spare_text(alloc: Global, rank: u32) -> Result<Vec<u8>, AllocError>
    ensures { IfOk result (λ v. v.items ≡ error_text (Status.NoSpare rank)) }
{
    let mut out = Vec::from_slice(alloc, b"no spare rank ")?;
    add_number(&mut out, rank)?;
    out.push(b'\n')?;
    Ok(out)
}

// The text of an answer, where it isn't fixed.
fn made_text(alloc: Global, answer: Status) -> Result<Vec<u8>, AllocError>
    ensures { IfOk result (λ v. error_of answer v.items ≡ error_text answer) }
{
    match answer {
        Status::Refused { file, line, code } => refused_text(alloc, file, line, code),
        Status::ReadFault { file } => fault_text(alloc, file),
        Status::Beyond { grid, row } => beyond_text(alloc, grid, row),
        Status::NoSpare { rank } => no_spare_text(alloc, rank),
        Status::Done | Status::Usage | Status::WriteFault | Status::NoMemory => Ok(Vec::new(alloc)),
    }
}

// Want of memory.
fn no_memory(alloc: Global) -> Work
    ensures answer { result.answer ≡ Status.NoMemory }
    ensures output { output_of result ≡ record { out = []; err = error_text Status.NoMemory; journal = [] } }
{
    Work {
        answer: Status::NoMemory,
        out: Vec::new(alloc),
        made: Vec::new(alloc),
        journal: Vec::new(alloc),
    }
}

// An answer without a run, or want of memory for its text.
fn ended(alloc: Global, answer: Status) -> Work
    ensures answer { (result.answer ≡ answer) ⊎ (result.answer ≡ Status.NoMemory) }
    ensures output { output_of result ≡ record { out = []; err = error_text result.answer; journal = [] } }
{
    match made_text(alloc, answer) {
        Ok(made) => Work {
            answer,
            out: Vec::new(alloc),
            made,
            journal: Vec::new(alloc),
        },
        Err(_) => no_memory(alloc),
    }
}

// How a run ended, as an answer.
fn answer_of(ending: Drove) -> Status
    ensures { result ≡ answer_of ending }
{
    match ending {
        Drove::Done => Status::Done,
        Drove::Beyond { grid, row } => Status::Beyond { grid, row },
        Drove::NoSpare { rank } => Status::NoSpare { rank },
    }
}

// The answer of a run, or want of memory for its text.
fn finished(alloc: Global, ran: Ran) -> Work
    ensures { IsWorkOf ran result }
{
    let answer = answer_of(ran.ending);
    match made_text(alloc, answer) {
        Ok(made) => Work {
            answer,
            out: ran.out,
            made,
            journal: ran.journal,
        },
        Err(_) => no_memory(alloc),
    }
}

// Reads the input of a name and runs it by a machine.
fn run_named<F: Shelf>(
    alloc: Global,
    machine: Machine,
    shelf: &mut F,
    name: &str,
) -> Result<Ran, Status>
    ensures ran { IfOk result (IsRanBy machine name.now (F.told shelf.old)) }
    ensures failure { IfErr result IsFailure }
    ensures failed { IfErr result (HasFailed machine name.now (F.told shelf.old)) }
    ensures read { HasReadFor machine name.now (F.told shelf.old) (F.told shelf.new) (status_of result) }
    ensures faults { F.faults shelf.old ≤ F.faults shelf.new }
    ensures longs { F.longs shelf.old ≤ F.longs shelf.new }
    ensures caused { IfErr result (IsCaused (F.faults shelf.old) (F.faults shelf.new) (F.longs shelf.old) (F.longs shelf.new)) }
{
    match read_input(alloc, machine, shelf, name) {
        Ok(prepared) => match run(alloc, machine, &prepared.script, &prepared.files) {
            Ok(ran) => Ok(ran),
            Err(_) => Err(Status::NoMemory),
        },
        Err(e) => Err(e),
    }
}

// The answer for words of no form.
fn usage(alloc: Global) -> Work
    ensures answer { result.answer ≡ Status.Usage }
    ensures output { output_of result ≡ record { out = []; err = error_text Status.Usage; journal = [] } }
{
    Work {
        answer: Status::Usage,
        out: Vec::new(alloc),
        made: Vec::new(alloc),
        journal: Vec::new(alloc),
    }
}

// What the work answers, and what it makes.
fn answer_words<F: Shelf>(alloc: Global, words: &[String], shelf: &mut F) -> Work
    ensures answer { IsAnswered (machine_of (texts words.now)) (texts words.now) (F.told shelf.old) result.answer (output_of result) }
    ensures read { HasRead (texts words.now) (F.told shelf.old) (F.told shelf.new) result.answer }
    ensures untouched { script_name (texts words.now) ≡ None → shelf.new ≡ shelf.old }
    ensures cause { HasCause (F.faults shelf.old) (F.faults shelf.new) (F.longs shelf.old) (F.longs shelf.new) result.answer }
{
    let Some(places) = places_of(words) else {
        return usage(alloc);
    };
    match run_named(alloc, places.machine, shelf, text_at(words, places.script)) {
        Ok(ran) => finished(alloc, ran),
        Err(e) => ended(alloc, e),
    }
}

const USAGE: &[u8] =
    b"usage: scalapack_cli SCRIPT [--journal FILE] or SCRIPT --serial or --generate N\n";

const NO_MEMORY: &[u8] = b"no memory\n";

fn error_bytes(work: &Work) -> &[u8]
    ensures { result.now ≡ error_of work.now.answer work.now.made.items }
{
    match work.answer {
        Status::Usage => USAGE,
        Status::NoMemory => NO_MEMORY,
        _ => &work.made,
    }
}

/// Runs the script that the words name over the shelf's files, and writes the printed text to `out`, the text of an error to
/// `err`, and the journal's text to `journal`.
///
/// The words, without the program's name, are `S`, `S --journal J` or `--journal J S`, which run the script on the ranks, or
/// `S --serial` or `--serial S`, which run it serially and leave no journal; all others are `Usage`. The script and then its matrix
/// files in line order are read and checked, each before the next is read; the first fault or refusal is the answer.
/// A script with a line that the ranks can't run is refused at the first such line, for the words that run the ranks alone: after
/// its own rules, and before a matrix file is read.
/// A run on the ranks goes over the losses that the script says. Done: the printed text is that of the serial run. Beyond and NoSpare:
/// losses fell that the run can't survive, and what was printed is the text of the lines that had ended.
/// Nothing is written before all is made: then out, err and journal get their bytes in this order, each by one put, and a put of
/// no bytes isn't made. The first put that fails makes the answer `WriteFault`, and nothing is put after it.
pub fn scalapack<F: Shelf, O: Sink, E: Sink, J: Sink>(
    alloc: Global,
    words: &[String],
    shelf: &mut F,
    out: &mut O,
    err: &mut E,
    journal: &mut J,
) -> Status
    // For all words but those that ask for the serial machine.
    ensures ranks { runs_serially (texts words.now) ≡ false → (answer : Status) × (output : Output) × (ok : Bool)
        × IsAnswered Machine.Ranks (texts words.now) (F.told shelf.old) answer output
        × HasCause (F.faults shelf.old) (F.faults shelf.new) (F.longs shelf.old) (F.longs shelf.new) answer
        × AllPut O.told O.faults E.told E.faults J.told J.faults out.old out.new err.old err.new journal.old journal.new output ok
        × (result ≡ written answer ok) }

    ensures serial { runs_serially (texts words.now) ≡ true → (answer : Status) × (output : Output) × (ok : Bool)
        × IsAnswered Machine.Serial (texts words.now) (F.told shelf.old) answer output
        × HasCause (F.faults shelf.old) (F.faults shelf.new) (F.longs shelf.old) (F.longs shelf.new) answer
        × AllPut O.told O.faults E.told E.faults J.told J.faults out.old out.new err.old err.new journal.old journal.new output ok
        × (result ≡ written answer ok) }

    // The files that were read: the script's and then those of its matrix lines, up to the first that ends the work.
    ensures reads { HasRead (texts words.now) (F.told shelf.old) (F.told shelf.new) result }

    // For words of no form the shelf isn't asked.
    ensures untouched { script_name (texts words.now) ≡ None → shelf.new ≡ shelf.old }
{
    let work = answer_words(alloc, words, shelf);
    let ok = write(
        &work.out,
        error_bytes(&work),
        &work.journal,
        out,
        err,
        journal,
    );
    if ok { work.answer } else { Status::WriteFault }
}
