//! Reading the script and its matrix files.
ghost use Rattle.std.specs.Prelude.{◌<◌, IfOk};
ghost use Rattle.script_bounds.specs.Accepted.{IsAccepted};
ghost use Rattle.scalapack_top.specs.Input.{input_from};
ghost use Rattle.scalapack_top.specs.Reads.{names_read};
ghost use Rattle.scalapack_top.specs.Causes.{IsStep};
ghost use Rattle.scalapack_top.specs.Read.{file_due, IsLine, files_read, files_names, input_read, IsPart, IsPut, IsAdded, NamesText, IsPrepared};
ghost use Rattle.serial_laws.specs.Files.{HasFiles};

use crate::reading::{read_matrix, read_script};
use crate::status::Status;
use crate::words::Machine;
use io_edge::Shelf;
use run_data::{Command, Files, Script};
use std::alloc::Global;

/// A script and the whole matrices of its files.
#[derive(Drop)]
pub struct Prepared {
    pub script: Script,
    pub files: Files,
}

// Adds the matrix of a line, of m rows and n columns, from the file of a name.
fn add_matrix<F: Shelf>(
    alloc: Global,
    shelf: &mut F,
    name: &str,
    line: u32,
    m: u32,
    n: u32,
    modulus: u32,
    files: &mut Files,
) -> Result<(), Status>
    requires { 0 < modulus }
    ensures read { IsStep (λ u. files.new) name.now (file_due modulus line m n files.old) (F.told shelf.old) (F.told shelf.new) (F.faults shelf.old) (F.faults shelf.new) (F.longs shelf.old) (F.longs shelf.new) result }
    ensures put { IfOk result (λ u. IsPut modulus m n line files.old files.new) }
{
    let matrix = match read_matrix(alloc, shelf, name, line, m, n, modulus) {
        Ok(matrix) => matrix,
        Err(e) => return Err(e),
    };
    match files.put(line, matrix) {
        Ok(()) => Ok(()),
        Err(_) => Err(Status::NoMemory),
    }
}

// Adds the file of a command's line, where it is a matrix line.
fn add_file<F: Shelf>(
    alloc: Global,
    shelf: &mut F,
    line: u32,
    command: &Command,
    modulus: u32,
    files: &mut Files,
) -> Result<(), Status>
    requires name { NamesText command.now }
    requires modulus { 0 < modulus }
    ensures read { IsLine modulus line command.now files.old files.new (F.told shelf.old) (F.told shelf.new) (F.faults shelf.old) (F.faults shelf.new) (F.longs shelf.old) (F.longs shelf.new) result }
    ensures added { IfOk result (λ u. IsAdded modulus line command.now files.old files.new) }
{
    match command {
        Command::Matrix { m, n, file, .. } => match str::from_utf8(file.bytes()) {
            Ok(name) => add_matrix(alloc, shelf, name, line, *m, *n, modulus, files),
            Err(_) => unreachable!(),
        },
        _ => Ok(()),
    }
}

// The files of a script, in the order of its lines.
fn files_of<F: Shelf>(alloc: Global, shelf: &mut F, script: &Script) -> Result<Files, Status>
    requires { IsAccepted script.now }
    ensures read { IsPart (λ f. f) (files_read script.now) (files_names script.now) (F.told shelf.old) (F.told shelf.new) (F.faults shelf.old) (F.faults shelf.new) (F.longs shelf.old) (F.longs shelf.new) result }
    ensures files { IfOk result (λ f. HasFiles script.now f) }
{
    let modulus = script.modulus();
    let lines = script.as_slice();
    let mut files = Files::new(alloc);
    for i in 0..lines.len() {
        if let Some(command) = &lines[i] {
            match add_file(alloc, shelf, i as u32 + 1, command, modulus, &mut files) {
                Ok(()) => {}
                Err(e) => return Err(e),
            }
        }
    }
    Ok(files)
}

/// Reads the script of a name and its files, for what is to run it.
pub fn read_input<F: Shelf>(
    alloc: Global,
    machine: Machine,
    shelf: &mut F,
    name: &str,
) -> Result<Prepared, Status>
    ensures read { IsPart input_read (input_from machine name.now) (names_read machine name.now) (F.told shelf.old) (F.told shelf.new) (F.faults shelf.old) (F.faults shelf.new) (F.longs shelf.old) (F.longs shelf.new) result }
    ensures ready { IfOk result (λ p. IsPrepared machine p.script p.files) }
{
    let script = match read_script(alloc, machine, shelf, name) {
        Ok(script) => script,
        Err(e) => return Err(e),
    };
    match files_of(alloc, shelf, &script) {
        Ok(files) => Ok(Prepared { script, files }),
        Err(e) => Err(e),
    }
}
