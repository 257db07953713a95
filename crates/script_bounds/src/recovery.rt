//! How many records a recovery makes.
ghost use Rattle.std.specs.Prelude.{◌≡◌, ◌≤◌, ◌<◌, ◌^◌, suc, slice_get, Some};
ghost use Rattle.run_data.specs.Script.{commands_of};
ghost use Rattle.script_bounds.specs.Accepted.{KeepsRules};
ghost use Rattle.script_rules.specs.Rules.{ranks_made, ranks_of};
ghost use Rattle.script_bounds.specs.Bounds.{recovery_made, recovery_dropped, greatest, live_recovery, recovery_steps};

use crate::steps::{list_recovery, matrix_recovery};
use run_data::{Command, Script};
use script_rules::{distribution_of, distribution_on};

// The records that bring back what the command at a place of a script makes.
fn recovery_made(script: &Script, place: usize, command: &Command) -> u64
    requires rules { KeepsRules script.now }
    requires there { slice_get script.now place ≡ Some (Some command.now) }
    requires few { place < 2 ^ 31 }
    ensures value { result ≡ recovery_made (commands_of script.now) (suc place) command.now }
    ensures few { result < 2 ^ 24 }
{
    let line = place as u32 + 1;
    match command {
        Command::Matrix {
            grid,
            m,
            n,
            mb,
            nb,
            rsrc,
            csrc,
            ..
        } => matrix_recovery(distribution_on(
            script,
            line,
            grid.bytes(),
            *m,
            *n,
            *mb,
            *nb,
            *rsrc,
            *csrc,
        )),
        Command::Pgetrf { a, .. } => list_recovery(distribution_of(script, line, a.bytes())),
        _ => 0,
    }
}

// The records that bring back what the command at a place of a script drops.
fn recovery_dropped(script: &Script, place: usize, command: &Command) -> u64
    requires rules { KeepsRules script.now }
    requires there { slice_get script.now place ≡ Some (Some command.now) }
    requires few { place < 2 ^ 31 }
    ensures value { result ≡ recovery_dropped (commands_of script.now) (suc place) command.now }
    ensures few { result < 2 ^ 24 }
{
    let Command::Discard { name } = command else {
        return 0;
    };
    let line = place as u32 + 1;
    let Some(at) = script.maker(line, name.bytes()) else {
        return 0;
    };
    match script.command(at) {
        Some(made) => recovery_made(script, at as usize - 1, made),
        None => 0,
    }
}

// The ranks of the grid that the command at a place of a script makes.
fn ranks_made(script: &Script, place: usize, command: &Command) -> u64
    requires rules { KeepsRules script.now }
    requires there { slice_get script.now place ≡ Some (Some command.now) }
    ensures value { result ≡ ranks_made command.now }
    ensures few { result ≤ 320 }
{
    match command {
        Command::Grid { p, q, f, .. } => u64::from(*p) * (u64::from(*q) + u64::from(*f)),
        _ => 0,
    }
}

// The ranks of all grids.
fn ranks_of(script: &Script) -> u64
    requires { KeepsRules script.now }
    ensures value { result ≡ ranks_of (commands_of script.now) }
    ensures few { result ≤ 64 }
{
    let lines = script.as_slice();
    let mut ranks = 0;
    for i in 0..lines.len() {
        if let Some(command) = &lines[i] {
            ranks += ranks_made(script, i, command);
        }
    }
    ranks
}

// The most records that bring back all that lives before or after a line.
fn greatest_recovery(script: &Script) -> u64
    requires { KeepsRules script.now }
    ensures value { result ≡ greatest (λ n. live_recovery (commands_of script.now) n.line) (commands_of script.now) }
    ensures few { result < 2 ^ 36 }
{
    let lines = script.as_slice();
    let mut live: u64 = 0;
    let mut greatest: u64 = 0;
    for i in 0..lines.len() {
        if let Some(command) = &lines[i] {
            live += recovery_made(script, i, command);
            greatest = greatest.max(live);
            live = live.saturating_sub(recovery_dropped(script, i, command));
        }
    }
    greatest
}

/// The number of records of a recovery at most: the restore and the commit, one for each rank of all grids, and those that bring back the
/// matrices and the pivot lists that live before or after a line, for the line where they are most.
#[tactic(auto, unfolding(crate::specs::Bounds::recovery_steps))]
pub fn recovery_steps(script: &Script) -> u64
    requires { KeepsRules script.now }
    ensures value { result ≡ recovery_steps (commands_of script.now) }
    ensures few { result < 2 ^ 37 }
{
    2 + ranks_of(script) + greatest_recovery(script)
}
