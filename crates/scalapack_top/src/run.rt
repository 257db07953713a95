//! The run of an accepted script.
ghost use Rattle.std.specs.Prelude.{◌≡◌, IfOk};
ghost use Rattle.run_data.specs.Script.{commands_of, modulus_of};
ghost use Rattle.scalapack_top.specs.Read.{IsPrepared};
ghost use Rattle.scalapack_top.specs.Work.{EndsBy, output_ran};

use crate::words::Machine;
use field_core::{F65521, F65537, Field};
use run_data::{Files, Script};
use script_run::{Drove, Ran};
use serial_machine::serial;
use std::alloc::{AllocError, Global};

// Runs a script on the ranks, over its field.
fn run_on_ranks<K: Field>(alloc: Global, script: &Script, files: &Files) -> Result<Ran, AllocError>
    requires field { K.MODULUS ≡ modulus_of (commands_of script.now) }
    requires prepared { IsPrepared Machine.Ranks script.now files.now }
    ensures { IfOk result (λ r. EndsBy Machine.Ranks (record { script = script.now; files = files.now }) r.ending (output_ran r)) }
{
    script_run::run::<K>(alloc, script, files)
}

// Runs a script on whole matrices, over its field; there is no journal, and nothing cuts it short.
fn run_serially<K: Field>(alloc: Global, script: &Script, files: &Files) -> Result<Ran, AllocError>
    requires field { K.MODULUS ≡ modulus_of (commands_of script.now) }
    requires prepared { IsPrepared Machine.Serial script.now files.now }
    ensures { IfOk result (λ r. EndsBy Machine.Serial (record { script = script.now; files = files.now }) r.ending (output_ran r)) }
{
    let out = serial::<K>(alloc, script, files)?;
    Ok(Ran {
        ending: Drove::Done,
        out,
        journal: Vec::new(alloc),
    })
}

// Runs a script by a machine, over its field.
fn run_over<K: Field>(
    alloc: Global,
    machine: Machine,
    script: &Script,
    files: &Files,
) -> Result<Ran, AllocError>
    requires field { K.MODULUS ≡ modulus_of (commands_of script.now) }
    requires prepared { IsPrepared machine script.now files.now }
    ensures { IfOk result (λ r. EndsBy machine (record { script = script.now; files = files.now }) r.ending (output_ran r)) }
{
    match machine {
        Machine::Ranks => run_on_ranks::<K>(alloc, script, files),
        Machine::Serial => run_serially::<K>(alloc, script, files),
    }
}

/// Runs a script by a machine, in the field that the script says.
pub fn run(
    alloc: Global,
    machine: Machine,
    script: &Script,
    files: &Files,
) -> Result<Ran, AllocError>
    requires { IsPrepared machine script.now files.now }
    ensures { IfOk result (λ r. EndsBy machine (record { script = script.now; files = files.now }) r.ending (output_ran r)) }
{
    if script.modulus() == 65521 {
        run_over::<F65521>(alloc, machine, script, files)
    } else {
        run_over::<F65537>(alloc, machine, script, files)
    }
}
