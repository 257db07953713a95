//! The lines of a script, each driven over losses.
ghost use Rattle.std.specs.Prelude.{◌≡◌, ◌+◌, ◌++◌, ℕ, Some, IfOk, OnOk};
ghost use Rattle.std.specs.Str.{IsUtf8};
ghost use Rattle.run_data.specs.Script.{commands_of, command_at, modulus_of};
ghost use Rattle.run_data.specs.declared.command.Command.TheVariants as c;
ghost use Rattle.serial_model.specs.Text.{matrix_text};
ghost use Rattle.world_heal.specs.Outcomes.{IfDrove};
ghost use Rattle.loss_recovery.specs.Driven.{site_at};
ghost use Rattle.whole_run.specs.Between.{HasRun};
ghost use Rattle.whole_run.specs.Inside.{IsStopped};
ghost use Rattle.script_run.specs.Runnable.{IsRunnable};
ghost use Rattle.script_run.specs.Driving.{IsWholeLine, HasDriven, MakesMatrix, DropsName};

use crate::printing::{slots_of, whole_of};
use block_world::{Mark, Mat, Order, World};
use dist_matrix::Site;
use feed_phase::FeedPhase;
use field_core::Field;
use loss_recovery::{Drove, drive};
use phases::Phase;
use plain_phases::{EndPhase, TakePhase};
use printed_text::matrix_text;
use run_data::{Command, Files, Script};
use std::alloc::{AllocError as NoMemory, Global};

// Drives the phase that is the whole of the next line; `_out` is what was printed so far.
fn drive_line<K: Field, H: Phase<K>>(
    alloc: Global,
    world: &mut World<'_, K>,
    site: &mut Site<'_>,
    script: &Script,
    order: &mut Order,
    phase: &mut H,
    done: u32,
    _out: &[u8],
) -> Result<Drove, NoMemory>
    requires runnable { IsRunnable script.now world.old.files }
    requires before { HasRun script.now world.old.files done world.old _out.now }
    requires line { IsWholeLine script.now done (H.plan (H.task phase.old)) world.old }
    requires site_is { site.old ≡ site_at world.old }
    ensures same_task { OnOk result (H.task phase.new ≡ H.task phase.old) }
    ensures site_is { OnOk result (site.new ≡ site_at world.new) }
    ensures driven { IfOk result (IfDrove (HasDriven script.now (H.plan (H.task phase.old)) (H.progress phase.new) world.old world.new) (IsStopped script.now world.old.files done world.new _out.now)) }
{
    let _running = world.journal();
    drive(alloc, world, site, script, order, phase)
}

// A `matrix` line.
fn run_matrix<K: Field>(
    alloc: Global,
    world: &mut World<'_, K>,
    site: &mut Site<'_>,
    script: &Script,
    files: &Files,
    order: &mut Order,
    done: u32,
    out: &[u8],
) -> Result<Drove, NoMemory>
    requires field { K.MODULUS ≡ modulus_of (commands_of script.now) }
    requires runnable { IsRunnable script.now files.now }
    requires before { HasRun script.now files.now done world.old out.now }
    requires line { MakesMatrix (command_at (commands_of script.now) (done + 1)) }
    requires site_is { site.old ≡ site_at world.old }
    ensures site_is { OnOk result (site.new ≡ site_at world.new) }
    ensures ran { IfOk result (IfDrove (HasRun script.now files.now (done + 1) world.new out.now) (IsStopped script.now files.now done world.new out.now)) }
{
    let Some(file) = files.get(done + 1) else {
        unreachable!();
    };
    let mut phase = FeedPhase::new(alloc, site, file, done + 1);
    drive_line(alloc, world, site, script, order, &mut phase, done, out)
}

// Adds the text of a matrix of a name.
fn add_text(alloc: Global, name: &[u8], m: &Mat, out: &mut Vec<u8>) -> Result<(), NoMemory>
    requires { IsUtf8 name.now }
    ensures { OnOk result (out.new.items ≡ out.old.items ++ matrix_text name.now m.now) }
{
    let Ok(name) = str::from_utf8(name) else {
        unreachable!();
    };
    let text = matrix_text(alloc, name, m)?;
    out.extend_from_slice(&text)
}

// A `print` line of a name.
fn run_print<K: Field>(
    alloc: Global,
    world: &mut World<'_, K>,
    site: &mut Site<'_>,
    script: &Script,
    order: &mut Order,
    done: u32,
    name: &[u8],
    out: &mut Vec<u8>,
) -> Result<Drove, NoMemory>
    requires runnable { IsRunnable script.now world.old.files }
    requires before { HasRun script.now world.old.files done world.old out.old.items }
    requires line { command_at (commands_of script.now) (done + 1) ≡ Some (c.Print name.now) }
    requires site_is { site.old ≡ site_at world.old }
    ensures site_is { OnOk result (site.new ≡ site_at world.new) }
    ensures ran { IfOk result (IfDrove (HasRun script.now world.old.files (done + 1) world.new out.new.items) (IsStopped script.now world.old.files done world.new out.new.items)) }
{
    let what = script.operand(done + 1, 1).unwrap_or(0);
    let layout = site.layout(what);
    let slots = slots_of(alloc, layout, what)?;
    let mut phase = TakePhase::new(alloc, slots, Mark::end_of(done + 1));
    match drive_line(alloc, world, site, script, order, &mut phase, done, out)? {
        Drove::Done => {}
        cut => return Ok(cut),
    }
    let whole = whole_of(alloc, layout, what, phase.got())?;
    add_text(alloc, name, &whole, out)?;
    Ok(Drove::Done)
}

// A `drop` line.
fn run_drop<K: Field>(
    alloc: Global,
    world: &mut World<'_, K>,
    site: &mut Site<'_>,
    script: &Script,
    order: &mut Order,
    done: u32,
    out: &[u8],
) -> Result<Drove, NoMemory>
    requires runnable { IsRunnable script.now world.old.files }
    requires before { HasRun script.now world.old.files done world.old out.now }
    requires line { DropsName (command_at (commands_of script.now) (done + 1)) }
    requires site_is { site.old ≡ site_at world.old }
    ensures site_is { OnOk result (site.new ≡ site_at world.new) }
    ensures ran { IfOk result (IfDrove (HasRun script.now world.old.files (done + 1) world.new out.now) (IsStopped script.now world.old.files done world.new out.now)) }
{
    let mut phase = EndPhase::new(Mark::end_of(done + 1));
    drive_line(alloc, world, site, script, order, &mut phase, done, out)
}

/// Runs the command of the next line, where so many are done.
///
/// Done: the line has run, and what it prints was added. Beyond and NoSpare: the run was cut short in it, and nothing was added.
/// `grid`, `field`, `links`, `spares`, `order`, `topology` and `lose` lines do nothing here: a World opens with all grids and losses, in
/// the field of the script, and no command broadcasts.
pub fn run_line<K: Field>(
    alloc: Global,
    world: &mut World<'_, K>,
    site: &mut Site<'_>,
    script: &Script,
    files: &Files,
    order: &mut Order,
    done: u32,
    command: &Command,
    out: &mut Vec<u8>,
) -> Result<Drove, NoMemory>
    requires field { K.MODULUS ≡ modulus_of (commands_of script.now) }
    requires runnable { IsRunnable script.now files.now }
    requires before { HasRun script.now files.now done world.old out.old.items }
    requires line { command_at (commands_of script.now) (done + 1) ≡ Some command.now }
    requires site_is { site.old ≡ site_at world.old }
    ensures site_is { OnOk result (site.new ≡ site_at world.new) }
    ensures ran { IfOk result (IfDrove (HasRun script.now files.now (done + 1) world.new out.new.items) (IsStopped script.now files.now done world.new out.new.items)) }
{
    match command {
        Command::Matrix { .. } => run_matrix(alloc, world, site, script, files, order, done, out),
        Command::Print { name } => {
            run_print(alloc, world, site, script, order, done, name.bytes(), out)
        }
        Command::Discard { .. } => run_drop(alloc, world, site, script, order, done, out),
        Command::Grid { .. }
        | Command::Field { .. }
        | Command::Links { .. }
        | Command::Spares { .. }
        | Command::Order { .. }
        | Command::Topology { .. }
        | Command::Lose { .. } => Ok(Drove::Done),
        _ => unreachable!(),
    }
}
