//! The run of a whole script.
ghost use Rattle.std.specs.Prelude.{◌≡◌, ℕ, [], length, IfOk, OnOk};
ghost use Rattle.run_data.specs.Script.{commands_of, modulus_of};
ghost use Rattle.rank_machine.specs.State.{first_mark};
ghost use Rattle.script_bounds.specs.Bounds.{bound};
ghost use Rattle.block_world.specs.World.{setting_in};
ghost use Rattle.world_heal.specs.Outcomes.{IfDrove};
ghost use Rattle.loss_recovery.specs.Driven.{site_at};
ghost use Rattle.whole_run.specs.Between.{HasRun};
ghost use Rattle.whole_run.specs.Inside.{IsStopped, ending_at};
ghost use Rattle.whole_run.specs.WholeRun.{IsRunOf, Completes};
ghost use Rattle.script_run.specs.Runnable.{IsRunnable};

use crate::lines::run_line;
use crate::opening::{open_world, order_of};
use block_world::{Order, World};
use dist_matrix::Site;
use field_core::Field;
use journal_text::journal_text;
use loss_recovery::Drove;
use run_data::{Files, Script};
use std::alloc::{AllocError as NoMemory, Global};

/// How a run ended, what it printed, and the text of its journal.
#[derive(Drop)]
pub struct Ran {
    pub ending: Drove,
    pub out: Vec<u8>,
    pub journal: Vec<u8>,
}

// The lines of a script, one after another, in a world that was opened for it, with room for all records.
fn run_lines<K: Field>(
    alloc: Global,
    world: &mut World<'_, K>,
    site: &mut Site<'_>,
    script: &Script,
    files: &Files,
    order: &mut Order,
    out: &mut Vec<u8>,
) -> Result<Drove, NoMemory>
    requires field { K.MODULUS ≡ modulus_of (commands_of script.now) }
    requires runnable { IsRunnable script.now files.now }
    requires before { HasRun script.now files.now 0 world.old out.old.items }
    requires room { world.old.room ≡ bound (commands_of script.now) }
    requires site_is { site.old ≡ site_at world.old }
    ensures ran { IfOk result (IfDrove (HasRun script.now files.now (length script.now) world.new out.new.items) (λ cut. (done : ℕ) × IsStopped script.now files.now done world.new out.new.items cut)) }
{
    let lines = script.as_slice();
    for i in 0..script.lines() {
        if let Some(command) = &lines[i as usize] {
            match run_line(alloc, world, site, script, files, order, i, command, out)? {
                Drove::Done => {}
                cut => return Ok(cut),
            }
        }
    }
    Ok(Drove::Done)
}

/// Runs a script on the ranks, over the losses that it says, in the field K, which is that of the script.
///
/// The run goes to its end, or it is cut short where losses fall that it cannot survive: Beyond, a process row of a grid that holds
/// something lost more ranks than it has code columns, or NoSpare, a lost rank got no spare. The printed text is that of the serial
/// run, or of its lines that had ended; the journal is that of a legal run. It fails only where memory runs out.
pub fn run<K: Field>(alloc: Global, script: &Script, files: &Files) -> Result<Ran, NoMemory>
    requires field { K.MODULUS ≡ modulus_of (commands_of script.now) }
    requires runnable { IsRunnable script.now files.now }
    ensures run { IfOk result (λ r. IsRunOf script.now files.now (ending_at r.ending) r.out.items r.journal.items) }
    ensures complete { IfOk result (λ r. Completes script.now files.now (ending_at r.ending)) }
{
    let mut world = open_world::<K>(alloc, script, files)?;
    let mut site = Site::new(alloc, script)?;
    let mut order = order_of(alloc, script)?;
    let mut out = Vec::new(alloc);
    let ending = run_lines(
        alloc, &mut world, &mut site, script, files, &mut order, &mut out,
    )?;
    let journal = journal_text(alloc, world.journal())?;
    Ok(Ran {
        ending,
        out,
        journal,
    })
}
