//! The first rule that a script breaks.
ghost use Rattle.std.specs.Prelude.{◌≡◌, ◌≤◌, ◌<◌, ◌-◌, ◌++◌, ◌∷◌, [], suc, length, take, slice_index_or, Some, None, IfOk, IfErr, OnOk};
ghost use Rattle.std.specs.Option.{option_or};
ghost use Rattle.std.specs.List.{sum_by};
ghost use Rattle.run_data.specs.Script.{commands_of};
ghost use Rattle.script_words.specs.Tables.{first_code};
ghost use Rattle.script_rules.specs.Rules.{word_rules};
ghost use Rattle.script_rules.specs.Counted.{AreCounts, commands_before};
ghost use Rattle.script_bounds.specs.Accepted.{count_rules, named_words, names_code, broken_by, IsAccepted};
ghost use Rattle.script_text.specs.Check.{ranks_shaped, told_of, line_broken, first_broken, first_refusal};

use crate::reading::{MAX_LINES, MAX_RECORDS, above_bound};
use run_data::{Command, Script};
use script_bounds::bound;
use script_rules::{Counts, Told, is_shape, word_code};
use script_words::{Kind, Refused};

// The ranks of a grid whose shape is in range.
fn ranks_shaped(command: &Command) -> u64
    ensures value { result ≡ ranks_shaped command.now }
    ensures few { result ≤ 320 }
{
    match command {
        Command::Grid { p, q, f, .. } => {
            if is_shape(*p, *q, *f) {
                u64::from(*p * (*q + *f))
            } else {
                0
            }
        }
        _ => 0,
    }
}

// The ranks that the commands of a script tell.
fn all_ranks(script: &Script) -> u64
    ensures { result ≡ sum_by (λ n. ranks_shaped n.command) (commands_of script.now) }
{
    let lines = script.as_slice();
    let mut ranks = 0;
    for i in 0..script.lines() {
        if let Some(command) = &lines[i as usize] {
            ranks += ranks_shaped(command);
        }
    }
    ranks
}

// The code of the first rule that a name breaks by its kind, or that of the words after it.
fn named(script: &Script, line: u32, kind: Kind, name: &[u8], others: Option<i32>) -> Option<i32>
    ensures { result ≡ option_or (first_code (word_rules (commands_of script.now) line kind name.now)) others }
{
    match word_code(script, line, kind, name) {
        Some(code) => Some(code),
        None => others,
    }
}

// The code of two names of matrices, or that of the words after them.
fn operands(
    script: &Script,
    line: u32,
    first: &[u8],
    second: &[u8],
    others: Option<i32>,
) -> Option<i32>
    ensures { result ≡ option_or (first_code (word_rules (commands_of script.now) line Kind.MatrixName first.now)) (option_or (first_code (word_rules (commands_of script.now) line Kind.MatrixName second.now)) others) }
{
    let others = named(script, line, Kind::MatrixName, second, others);
    named(script, line, Kind::MatrixName, first, others)
}

// The code of the names of factors, of their pivot list and of the matrix that is solved for.
fn solved(script: &Script, line: u32, a: &[u8], v: &[u8], b: &[u8]) -> Option<i32>
    ensures { result ≡ names_code (commands_of script.now) line ((Kind.MatrixName, a.now) ∷ (Kind.ListName, v.now) ∷ (Kind.MatrixName, b.now) ∷ []) }
{
    let others = named(script, line, Kind::MatrixName, b, None);
    let others = named(script, line, Kind::ListName, v, others);
    named(script, line, Kind::MatrixName, a, others)
}

// The code of the first name of a command, from left to right, that breaks a rule on a line.
fn names_code(script: &Script, line: u32, command: &Command) -> Option<i32>
    ensures { result ≡ names_code (commands_of script.now) line (named_words command.now) }
{
    match command {
        Command::Grid { name, .. } => named(script, line, Kind::NewName, name.bytes(), None),
        Command::Matrix {
            name,
            grid,
            file,
            ..
        } => {
            let others = named(script, line, Kind::FileName, file.bytes(), None);
            let others = named(script, line, Kind::GridName, grid.bytes(), others);
            named(script, line, Kind::NewName, name.bytes(), others)
        }
        Command::Pgemm { a, b, c, .. } => {
            let others = named(script, line, Kind::MatrixName, c.bytes(), None);
            operands(script, line, a.bytes(), b.bytes(), others)
        }
        Command::Ptrsm { a, b, .. } => operands(script, line, a.bytes(), b.bytes(), None),
        Command::Pgetrf { a, v, .. } => {
            let others = named(script, line, Kind::NewName, v.bytes(), None);
            named(script, line, Kind::MatrixName, a.bytes(), others)
        }
        Command::Pgetrs { a, v, b, .. } => solved(script, line, a.bytes(), v.bytes(), b.bytes()),
        Command::Pgemr2d { a, b, .. } => operands(script, line, a.bytes(), b.bytes(), None),
        Command::Ptran { a, c, .. } => operands(script, line, a.bytes(), c.bytes(), None),
        Command::Pgetri { a, v, b, .. } => solved(script, line, a.bytes(), v.bytes(), b.bytes()),
        Command::Flip { name, .. } => named(script, line, Kind::MatrixName, name.bytes(), None),
        Command::Print { name } => named(script, line, Kind::MatrixName, name.bytes(), None),
        Command::Pverify { name } => named(script, line, Kind::MatrixName, name.bytes(), None),
        Command::Pivots { name } => named(script, line, Kind::ListName, name.bytes(), None),
        Command::Discard { name } => named(script, line, Kind::ThingName, name.bytes(), None),
        _ => None,
    }
}

// The code of an `order` command without numbers.
fn count_code(command: &Command) -> Option<i32>
    ensures { result ≡ first_code (count_rules command.now) }
{
    match command {
        Command::Order { numbers } => { if numbers.len() == 0 { Some(2) } else { None } }
        _ => None,
    }
}

// The counts with the command of a line, or the code of the first rule that it breaks.
fn with_command(
    told: Told,
    script: &Script,
    line: u32,
    counts: Counts,
    command: &Command,
) -> Result<Counts, i32>
    requires some { 1 ≤ line }
    requires within { line ≤ suc (length script.now) }
    requires counts { AreCounts counts (line - 1) (commands_before script.now line) }
    ensures kept { OnOk result (broken_by told (take (line - 1) script.now) command.now ≡ None) }
    ensures counted { IfOk result (λ after. AreCounts after line (commands_before script.now line ++ record { line = line; command = command.now } ∷ [])) }
    ensures broken { IfErr result (λ code. broken_by told (take (line - 1) script.now) command.now ≡ Some code) }
{
    if let Some(code) = count_code(command) {
        return Err(code);
    }
    match names_code(script, line, command) {
        Some(code) => Err(code),
        None => counts.after(told, script, line, command),
    }
}

// The counts with the line at a place, or the code of the first rule that it breaks.
fn with_place(told: Told, script: &Script, place: u32, counts: Counts) -> Result<Counts, i32>
    requires within { place < length script.now }
    requires counts { AreCounts counts place (commands_of (take place script.now)) }
    ensures kept { OnOk result (line_broken told (take place script.now) (slice_index_or script.now place None) ≡ None) }
    ensures counted { IfOk result (λ after. AreCounts after (suc place) (commands_of (take (suc place) script.now))) }
    ensures broken { IfErr result (λ code. line_broken told (take place script.now) (slice_index_or script.now place None) ≡ Some code) }
{
    if MAX_LINES <= place {
        return Err(11);
    }
    match &script.as_slice()[place as usize] {
        Some(command) => with_command(told, script, place + 1, counts, command),
        None => Ok(counts),
    }
}

// The first rule that a line of a script breaks.
fn first_broken(script: &Script) -> Option<Refused>
    ensures { result ≡ first_broken (told_of (commands_of script.now)) [] script.now }
{
    let told = Told {
        ranks: all_ranks(script),
    };
    let mut counts = Counts::new();
    for place in 0..script.lines() {
        match with_place(told, script, place, counts) {
            Ok(after) => counts = after,
            Err(code) => {
                return Some(Refused {
                    file: 0,
                    line: place + 1,
                    code,
                });
            }
        }
    }
    None
}

/// The first rule that a script breaks: of the first line that breaks one, as `parse_script` says; and at line 0, code 7, where the
/// records of all lines are more than 4,194,304. What its words could break as text it cannot: numbers are numbers, and each line is a
/// command. An `order` without numbers has code 2.
pub fn check(script: &Script) -> Result<(), Refused>
    ensures refused { IfErr result (λ r. first_refusal script.now ≡ Some r) }
    ensures passes { OnOk result (first_refusal script.now ≡ None) }
    ensures accepted { OnOk result (IsAccepted script.now) }
{
    if let Some(refused) = first_broken(script) {
        return Err(refused);
    }
    if MAX_RECORDS < bound(script) {
        return Err(above_bound());
    }
    Ok(())
}
