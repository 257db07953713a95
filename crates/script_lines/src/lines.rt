//! The lines of a script that make records, as a table.
ghost use Rattle.std.specs.Prelude.{◌≡◌, ℕ, true, map, Some, IfSome, IfOk};
ghost use Rattle.run_data.specs.Script.{commands_of, command_at};
ghost use Rattle.rank_machine.specs.Scripts.{grids_from, job_of};
ghost use Rattle.script_lines.specs.Layouts.{AreGrids, IsLayout, jobs_of, makes_matrix, layout_in};
ghost use Rattle.script_lines.specs.Lines.{job_seen, of_slots, first_drop, with_drop, IsTableOf, AreLaidOut, AreRising, AreSound};

use crate::layouts::{grids_of, layout_in};
use blacs_grid::Grid;
use rank_machine::Layout;
use run_data::{Command, Script};
use std::alloc::{AllocError, Global};

/// A line that makes records: the layout of the matrix that it makes, the line of the matrix that it factors, the line that made
/// what it drops, and the line that drops what it makes. Lines count from 1, and 0 is no line.
#[derive(Clone, Copy)]
pub struct Line {
    pub line: u32,
    pub makes: Option<Layout>,
    pub factors: u32,
    pub drops: u32,
    pub dropped: Option<u32>,
}

// What a line that makes records asks, but for the line that drops what it makes.
fn line_of(grids: &[Grid], script: &Script, line: u32, command: &Command) -> Line
    requires grids { grids.now ≡ grids_from 0 (commands_of script.now) }
    requires there { command_at (commands_of script.now) line ≡ Some command.now }
    requires laid_out { makes_matrix script.now line ≡ true → IsLayout (layout_in script.now line) }
    ensures line { result.line ≡ line }
    ensures job { job_seen result ≡ of_slots (job_of (commands_of script.now) (grids_from 0 (commands_of script.now)) line command.now) }
    ensures sound { IfSome result.makes IsLayout }
{
    let mut asked = Line {
        line,
        makes: None,
        factors: 0,
        drops: 0,
        dropped: None,
    };
    match command {
        Command::Matrix { .. } => asked.makes = Some(layout_in(grids, script, line)),
        Command::Pgetrf { .. } => asked.factors = script.operand(line, 3).unwrap_or(0),
        Command::Discard { .. } => asked.drops = script.operand(line, 1).unwrap_or(0),
        _ => {}
    }
    asked
}

// The lines of a script that make records, in its order, but for the lines that drop what they make.
fn asked_of(alloc: Global, script: &Script) -> Result<Vec<Line>, AllocError>
    requires grids { AreGrids (grids_from 0 (commands_of script.now)) }
    requires laid_out { (line : ℕ) → makes_matrix script.now line ≡ true → IsLayout (layout_in script.now line) }
    ensures table { IfOk result (λ v. IsTableOf (jobs_of script.now) v.items) }
    ensures laid_out { IfOk result (λ v. AreLaidOut v.items) }
    ensures rising { IfOk result (λ v. AreRising v.items) }
{
    let grids = grids_of(alloc, script)?;
    let lines = script.as_slice();
    let mut table = Vec::new(alloc);
    for i in 0..script.lines() {
        if let Some(command) = &lines[i as usize] {
            if command.makes_records() {
                table.push(line_of(&grids, script, i + 1, command))?;
            }
        }
    }
    Ok(table)
}

// The first line that drops what a line made.
fn first_drop(table: &[Line], what: u32) -> Option<u32>
    ensures { result ≡ first_drop table.now what }
{
    for asked in table {
        if asked.drops == what {
            return Some(asked.line);
        }
    }
    None
}

// The same lines, each with the line that drops what it makes.
fn with_drops(alloc: Global, table: &[Line]) -> Result<Vec<Line>, AllocError>
    ensures { IfOk result (λ v. v.items ≡ map (with_drop table.now) table.now) }
{
    let mut lines = Vec::new(alloc);
    for asked in table {
        let mut line = *asked;
        line.dropped = first_drop(table, asked.line);
        lines.push(line)?;
    }
    Ok(lines)
}

/// The lines of a script that make records, in its order.
pub fn lines_of(alloc: Global, script: &Script) -> Result<Vec<Line>, AllocError>
    requires grids { AreGrids (grids_from 0 (commands_of script.now)) }
    requires laid_out { (line : ℕ) → makes_matrix script.now line ≡ true → IsLayout (layout_in script.now line) }
    ensures table { IfOk result (λ v. IsTableOf (jobs_of script.now) v.items) }
    ensures sound { IfOk result (λ v. AreSound v.items) }
{
    let table = asked_of(alloc, script)?;
    with_drops(alloc, &table)
}
