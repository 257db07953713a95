//! Reading one file from the shelf: the script, or the matrix of a line.
ghost use Rattle.scalapack_top.specs.declared.status.Status.{Status};
ghost use Rattle.std.specs.Prelude.{◌≡◌, ◌<◌, ◌≤◌, length, IfOk, IfErr};
ghost use Rattle.script_bounds.specs.Accepted.{IsAccepted};
ghost use Rattle.script_text.specs.Script.{script_of};
ghost use Rattle.script_words.specs.MatrixFile.{matrix_of, HasResidues};
ghost use Rattle.scalapack_top.specs.Input.{of_read, of_text, runnable_by, script_in, script_from, matrix_from};
ghost use Rattle.scalapack_top.specs.Causes.{Comes, IsOfText, IsStep};
ghost use Rattle.scalapack_top.specs.Read.{RunsOn, settled};

use crate::status::Status;
use crate::words::Machine;
use io_edge::{Shelf, ShelfFault};
use run_data::{Mat, Script};
use script_text::{Refused, TextFault, first_unrunnable, parse_matrix, parse_script};
use std::alloc::Global;

// What an answer of the shelf comes to; the number of the script's file is 0.
fn settled(file: u32, answer: Result<Vec<u8>, ShelfFault>) -> Result<Vec<u8>, Status>
    ensures { result ≡ settled file answer }
{
    match answer {
        Ok(bytes) => Ok(bytes),
        Err(ShelfFault::Failed) => Err(Status::ReadFault { file }),
        Err(ShelfFault::TooLong) => Err(Status::Refused {
            file,
            line: 0,
            code: 12,
        }),
        Err(ShelfFault::NoMemory) => Err(Status::NoMemory),
    }
}

// The bytes of a file; its number is 0 for the script.
fn read_file<F: Shelf>(
    alloc: Global,
    shelf: &mut F,
    name: &str,
    file: u32,
) -> Result<Vec<u8>, Status>
    ensures read { IsStep (λ v. v.items) name.now (of_read file) (F.told shelf.old) (F.told shelf.new) (F.faults shelf.old) (F.faults shelf.new) (F.longs shelf.old) (F.longs shelf.new) result }
    ensures short { IfOk result (λ v. length v.items ≤ 16777216) }
{
    settled(file, shelf.read(alloc, name))
}

// The answer for a broken rule.
fn refused(r: Refused) -> Status
    ensures { result ≡ Status.Refused r.file r.line r.code }
{
    Status::Refused {
        file: r.file,
        line: r.line,
        code: r.code,
    }
}

// The script, unless it has a line that what is to run it can't run.
fn runnable_by(machine: Machine, script: Script) -> Result<Script, Status>
    ensures due { Comes (λ s. s) result (runnable_by machine script) }
    ensures fault { IfErr result IsOfText }
    ensures same { IfOk result (λ s. s ≡ script) }
    ensures runs { IfOk result (RunsOn machine) }
{
    match machine {
        Machine::Serial => Ok(script),
        Machine::Ranks => match first_unrunnable(&script) {
            None => Ok(script),
            Some(line) => Err(Status::Refused {
                file: 0,
                line,
                code: 18,
            }),
        },
    }
}

// The script that bytes spell.
fn parsed(alloc: Global, bytes: &[u8]) -> Result<Script, Status>
    requires { length bytes.now ≤ 16777216 }
    ensures due { Comes (λ s. s) result (of_text (script_of bytes.now)) }
    ensures fault { IfErr result IsOfText }
    ensures accepted { IfOk result IsAccepted }
{
    match parse_script(alloc, bytes) {
        Ok(script) => Ok(script),
        Err(TextFault::NoMemory) => Err(Status::NoMemory),
        Err(TextFault::Refused(r)) => Err(refused(r)),
    }
}

// The same, for what is to run it.
fn script_in(alloc: Global, machine: Machine, bytes: &[u8]) -> Result<Script, Status>
    requires { length bytes.now ≤ 16777216 }
    ensures due { Comes (λ s. s) result (script_in machine bytes.now) }
    ensures fault { IfErr result IsOfText }
    ensures accepted { IfOk result IsAccepted }
    ensures runs { IfOk result (RunsOn machine) }
{
    match parsed(alloc, bytes) {
        Ok(script) => runnable_by(machine, script),
        Err(e) => Err(e),
    }
}

// The matrix that bytes spell.
fn matrix_in(
    alloc: Global,
    bytes: &[u8],
    file: u32,
    m: u32,
    n: u32,
    modulus: u32,
) -> Result<Mat, Status>
    requires size { length bytes.now ≤ 16777216 }
    requires modulus { 0 < modulus }
    ensures due { Comes (λ a. a) result (of_text (matrix_of modulus bytes.now file m n)) }
    ensures fault { IfErr result IsOfText }
    ensures residues { IfOk result (HasResidues modulus m n) }
{
    match parse_matrix(alloc, bytes, file, m, n, modulus) {
        Ok(matrix) => Ok(matrix),
        Err(TextFault::NoMemory) => Err(Status::NoMemory),
        Err(TextFault::Refused(r)) => Err(refused(r)),
    }
}

/// Reads the script of a name, for what is to run it.
pub fn read_script<F: Shelf>(
    alloc: Global,
    machine: Machine,
    shelf: &mut F,
    name: &str,
) -> Result<Script, Status>
    ensures read { IsStep (λ s. s) name.now (script_from machine) (F.told shelf.old) (F.told shelf.new) (F.faults shelf.old) (F.faults shelf.new) (F.longs shelf.old) (F.longs shelf.new) result }
    ensures accepted { IfOk result IsAccepted }
    ensures runs { IfOk result (RunsOn machine) }
{
    match read_file(alloc, shelf, name, 0) {
        Ok(bytes) => script_in(alloc, machine, &bytes),
        Err(e) => Err(e),
    }
}

/// Reads the matrix of m rows and n columns of words below a modulus of a file, for a matrix line.
pub fn read_matrix<F: Shelf>(
    alloc: Global,
    shelf: &mut F,
    name: &str,
    line: u32,
    m: u32,
    n: u32,
    modulus: u32,
) -> Result<Mat, Status>
    requires { 0 < modulus }
    ensures read { IsStep (λ a. a) name.now (matrix_from modulus line m n) (F.told shelf.old) (F.told shelf.new) (F.faults shelf.old) (F.faults shelf.new) (F.longs shelf.old) (F.longs shelf.new) result }
    ensures residues { IfOk result (HasResidues modulus m n) }
{
    match read_file(alloc, shelf, name, line) {
        Ok(bytes) => matrix_in(alloc, &bytes, line, m, n, modulus),
        Err(e) => Err(e),
    }
}
