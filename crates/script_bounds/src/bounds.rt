//! How many records a script makes.
ghost use Rattle.std.specs.Prelude.{◌≡◌, ◌+◌, ◌*◌, ◌≤◌, ◌<◌, ◌^◌, suc, length, slice_get, Some};
ghost use Rattle.array_desc.specs.Maps.{groups};
ghost use Rattle.run_data.specs.Script.{commands_of, maker};
ghost use Rattle.script_bounds.specs.Accepted.{KeepsRules};
ghost use Rattle.script_bounds.specs.Bounds.{matrix_records, print_records, records_of_matrix, print_on, records_of_print, steps_in, plain_bound, phase_steps, losses, bound};
ghost use Rattle.script_rules.specs.Rules.{maker_command};

use crate::flips::pending_flips;
use crate::recovery::recovery_steps;
use crate::steps::{
    Steps, one_phase, pgemm_steps, pgemr2d_steps, pgetrf_steps, pgetri_steps, pgetrs_steps,
    ptran_steps, ptrsm_steps, pverify_steps,
};
use array_desc::groups;
use run_data::{Command, Script};
use script_rules::{distribution_of, maker_command};

// The number of records of all lines when no rank is lost.
fn plain_bound(script: &Script) -> u64
    requires { KeepsRules script.now }
    ensures value { result ≡ plain_bound (commands_of script.now) }
    ensures few { result < 2 ^ 52 }
{
    let lines = script.as_slice();
    let mut sum = 0;
    for i in 0..lines.len() {
        if let Some(command) = &lines[i] {
            sum += steps_in(script, i, command).count;
        }
    }
    sum
}

/// The number of records of a script's longest phase, at most; a phase ends with a commit. It is 0 where no line makes records.
pub fn phase_steps(script: &Script) -> u64
    requires { KeepsRules script.now }
    ensures value { result ≡ phase_steps (commands_of script.now) }
    ensures few { result < 2 ^ 40 }
{
    let lines = script.as_slice();
    let mut greatest: u64 = 0;
    for i in 0..lines.len() {
        if let Some(command) = &lines[i] {
            greatest = greatest.max(steps_in(script, i, command).phase);
        }
    }
    greatest
}

// The number of `lose` lines.
fn losses(script: &Script) -> u64
    requires { length script.now ≤ 4096 }
    ensures value { result ≡ losses (commands_of script.now) }
    ensures few { result ≤ 4096 }
{
    let lines = script.as_slice();
    let mut count = 0;
    for i in 0..lines.len() {
        if let Some(Command::Lose { .. }) = &lines[i] {
            count += 1;
        }
    }
    count
}

/// The number of records that a script makes at most: those of its lines when no rank is lost, and for each `lose` line those of a phase
/// and of a recovery.
#[tactic(auto, unfolding(crate::specs::Bounds::bound))]
pub fn bound(script: &Script) -> u64
    requires { KeepsRules script.now }
    ensures { result ≡ bound (commands_of script.now) }
{
    plain_bound(script) + losses(script) * (phase_steps(script) + recovery_steps(script))
}

// The records of the command at a place of a script.
fn steps_in(script: &Script, place: usize, command: &Command) -> Steps
    requires rules { KeepsRules script.now }
    requires there { slice_get script.now place ≡ Some (Some command.now) }
    requires few { place < 2 ^ 31 }
    ensures value { result ≡ steps_in (commands_of script.now) (suc place) command.now }
    ensures few { result.count < 2 ^ 40 }
    ensures few_in_phase { result.phase < 2 ^ 40 }
{
    let line = place as u32 + 1;
    match command {
        Command::Matrix { grid, n, nb, .. } => {
            one_phase(records_of_matrix(script, line, grid.bytes(), *n, *nb))
        }
        Command::Pgemm { k, a, c, .. } => pgemm_steps(
            *k,
            distribution_of(script, line, a.bytes()),
            distribution_of(script, line, c.bytes()),
        ),
        Command::Ptrsm {
            side,
            transa,
            m,
            n,
            a,
            b,
            ..
        } => ptrsm_steps(
            side.bytes(),
            transa.bytes(),
            *m,
            *n,
            distribution_of(script, line, a.bytes()),
            distribution_of(script, line, b.bytes()),
        ),
        Command::Pgetrf { m, n, a, .. } => pgetrf_steps(
            *m,
            *n,
            distribution_of(script, line, a.bytes()),
        ),
        Command::Pgetrs { trans, n, a, b, .. } => pgetrs_steps(
            trans.bytes(),
            *n,
            distribution_of(script, line, a.bytes()),
            distribution_of(script, line, b.bytes()),
        ),
        Command::Pgemr2d { m, n, a, b, .. } => pgemr2d_steps(
            *m,
            *n,
            distribution_of(script, line, a.bytes()),
            distribution_of(script, line, b.bytes()),
        ),
        Command::Ptran { m, n, a, c, .. } => ptran_steps(
            *m,
            *n,
            distribution_of(script, line, a.bytes()),
            distribution_of(script, line, c.bytes()),
        ),
        Command::Pgetri { n, a, b, .. } => pgetri_steps(
            *n,
            distribution_of(script, line, a.bytes()),
            distribution_of(script, line, b.bytes()),
        ),
        Command::Pverify { name } => pverify_steps(
            distribution_of(script, line, name.bytes()),
            pending_flips(script, line, name.bytes()),
        ),
        Command::Print { name } => one_phase(records_of_print(script, line, name.bytes())),
        Command::Pivots { .. } => one_phase(2),
        Command::Discard { .. } => one_phase(1),
        _ => one_phase(0),
    }
}

// The records of a `matrix` line of `n` columns in blocks of `nb` on the grid of a name.
fn records_of_matrix(script: &Script, line: u32, grid: &[u8], n: u32, nb: u32) -> u64
    requires rules { KeepsRules script.now }
    requires columns { n ≤ 1024 }
    requires block { 0 < nb }
    ensures value { result ≡ records_of_matrix (maker_command (commands_of script.now) line grid.now) n nb }
    ensures few { result ≤ 4000000 }
{
    match maker_command(script, line, grid) {
        Some(Command::Grid { p, q, f, .. }) => {
            let groups = groups(n, nb, *q);
            matrix_records(
                u64::from(*p),
                u64::from(*q),
                u64::from(*f),
                u64::from(groups),
            )
        }
        _ => 0,
    }
}

// The records of a line that prints the matrix of a name.
fn records_of_print(script: &Script, line: u32, name: &[u8]) -> u64
    requires { KeepsRules script.now }
    ensures value { result ≡ records_of_print (commands_of script.now) (maker (commands_of script.now) line name.now) (maker_command (commands_of script.now) line name.now) }
    ensures few { result ≤ 4000000 }
{
    let Some(maker) = script.maker(line, name) else {
        return 0;
    };
    match script.command(maker) {
        Some(Command::Matrix { grid, n, nb, .. }) => print_on(script, maker, grid.bytes(), *n, *nb),
        _ => 0,
    }
}

// The records of a print of a matrix of `n` columns in blocks of `nb`, made by a line on the grid of a name.
fn print_on(script: &Script, line: u32, grid: &[u8], n: u32, nb: u32) -> u64
    requires rules { KeepsRules script.now }
    requires columns { n ≤ 1024 }
    requires block { 0 < nb }
    ensures value { result ≡ print_on (maker_command (commands_of script.now) line grid.now) n nb }
    ensures few { result ≤ 4000000 }
{
    match maker_command(script, line, grid) {
        Some(Command::Grid { p, q, .. }) => {
            let groups = groups(n, nb, *q);
            print_records(u64::from(*p), u64::from(*q), u64::from(groups))
        }
        _ => 0,
    }
}

// The data strips of one process column of each group.
fn data_strips(p: u64, groups: u64) -> u64
    requires rows { p ≤ 16 }
    requires few { groups ≤ 1024 }
    ensures value { result ≡ p * groups }
    ensures fits { result ≤ 16384 }
{
    p * groups
}

// The records of a row of strips: each data strip is fed, and each code strip is made of them.
fn records_by_strip(q: u64, f: u64) -> u64
    requires columns { q ≤ 16 }
    requires code_columns { f ≤ 4 }
    ensures value { result ≡ q + f * (3 * q + 1) }
    ensures few { result ≤ 212 }
{
    q + f * (3 * q + 1)
}

fn matrix_records(p: u64, q: u64, f: u64, groups: u64) -> u64
    requires rows { p ≤ 16 }
    requires columns { q ≤ 16 }
    requires code_columns { f ≤ 4 }
    requires few { groups ≤ 1024 }
    ensures value { result ≡ matrix_records p q f groups }
    ensures few { result ≤ 4000000 }
{
    data_strips(p, groups) * records_by_strip(q, f) + 1
}

fn print_records(p: u64, q: u64, groups: u64) -> u64
    requires rows { p ≤ 16 }
    requires columns { q ≤ 16 }
    requires few { groups ≤ 1024 }
    ensures value { result ≡ print_records p q groups }
    ensures few { result ≤ 4000000 }
{
    p * q * groups + 1
}
