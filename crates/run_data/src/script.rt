//! Scripts.
ghost use Rattle.std.specs.Prelude.{◌≡◌, ◌<◌, ◌≤◌, ◌^◌, [], ◌∷◌, ◌++◌, length, IfOk, OnOk, OnErr};
ghost use Rattle.run_data.specs.Script.{command_at, commands_of, grids_before, is_grid_line, maker, modulus_of, operand, spares_of};
ghost use Rattle.run_data.specs.Flips.{pending};
ghost use Rattle.std.specs.Option.{option_copied};

use crate::command::Command;
use crate::flips::Flip;
use std::alloc::{AllocError as NoMemory, Global};
use std::marker::Model;

/// A script, line by line; a line without words has no command. It has at most 4,294,967,295 lines.
#[derive(Drop)]
pub struct Script {
    lines: Vec<Option<Command>>,
}

impl Model for Script {
    ghost use Rattle.std.specs.Prelude.{List, Option, vec_len, length, ◌≡◌, ◌<◌, ◌^◌};
    ghost use Rattle.run_data.specs.declared.command.Command.{Command};

    ghost Value = { List (Option Command) };

    ghost view = { λ s. s.lines.items };

    ghost invariant = { λ s. (vec_len s.lines < 2 ^ 32) × (length s.lines.items ≡ vec_len s.lines) };
}

impl Script {
    /// The script without lines.
    pub fn new(alloc: Global) -> Script
        ensures { result ≡ [] }
    {
        Script {
            lines: Vec::new(alloc),
        }
    }

    /// Adds a line at the end. After an error the script is what it was.
    pub fn push(&mut self, line: Option<Command>) -> Result<(), NoMemory>
        ensures pushed { OnOk result (self.new ≡ self.old ++ line ∷ []) }
        ensures kept { OnErr result (self.new ≡ self.old) }
    {
        if self.lines.len() >= u32::MAX as usize {
            return Err(NoMemory);
        }
        self.lines.push(line)?;
        Ok(())
    }

    /// How many lines there are.
    pub fn lines(&self) -> u32
        ensures { result ≡ length self.now }
    {
        self.lines.len() as u32
    }

    /// The command of a line, counted from 1. None is a line without words, or no line of the script.
    pub fn command(&self, line: u32) -> Option<&Command>
        ensures { option_copied result ≡ command_at (commands_of self.now) line }
    {
        command_of(&self.lines, line)
    }

    /// What a word of a line means; words count from 0, the command's own word included. It is the number of the line that made the
    /// matrix or the pivot list of that name, or the number of the grid of that name, counted from 0. As seen from a line, a name
    /// means what the last line before it made under that name, if no line between drops it.
    ///
    /// None where there is no such line or no such word, where the word does not stand for a grid, a matrix or a pivot list, and where
    /// its name means nothing as seen from that line.
    pub fn operand(&self, line: u32, word: u32) -> Option<u32>
        ensures { result ≡ operand (commands_of self.now) line word }
    {
        let name = self.command(line)?.name_at(word)?;
        let maker = maker_of(&self.lines, line, name)?;
        if is_grid_line(&self.lines, maker) {
            Some(grids_before(&self.lines, maker))
        } else {
            Some(maker)
        }
    }

    /// The line that made what a name means as seen from a line: the last line before it that made something under that name, if no
    /// line between drops it.
    pub fn maker(&self, line: u32, name: &[u8]) -> Option<u32>
        ensures { result ≡ maker (commands_of self.now) line name.now }
    {
        maker_of(&self.lines, line, name)
    }

    /// How many lost ranks can be replaced: what the `spares` line says, the last one where there are several. None exactly where the
    /// script has no such line: there is no limit then.
    pub fn spares(&self) -> Option<u32>
        ensures { result ≡ spares_of (commands_of self.now) }
    {
        spares_in(&self.lines)
    }

    /// The modulus of all words of the run: what the `field` line says, the last one where there are several, and 65537 where the script
    /// has none.
    pub fn modulus(&self) -> u32
        ensures { result ≡ modulus_of (commands_of self.now) }
    {
        modulus_in(&self.lines)
    }

    /// The flips of a name that are pending as seen from a line, in the order of their lines: those of earlier lines with no `pverify` of
    /// that name, and no `drop`, between. It fails only where memory runs out.
    pub fn pending(&self, alloc: Global, line: u32, name: &[u8]) -> Result<Vec<Flip>, NoMemory>
        ensures { IfOk result (λ flips. flips.items ≡ pending (commands_of self.now) line name.now) }
    {
        pending_in(alloc, &self.lines, line, name)
    }

    /// The lines.
    pub fn as_slice(&self) -> &[Option<Command>]
        ensures { result.now ≡ self.now }
    {
        &self.lines
    }
}

// The command of a line, counted from 1.
fn command_of(lines: &[Option<Command>], line: u32) -> Option<&Command>
    ensures { option_copied result ≡ command_at (commands_of lines.now) line }
{
    if line == 0 {
        return None;
    }
    lines.get(line as usize - 1)?.as_ref()
}

// The line that made what a name means as seen from a line.
fn maker_of(lines: &[Option<Command>], line: u32, name: &[u8]) -> Option<u32>
    requires { length lines.now < 2 ^ 32 }
    ensures { result ≡ maker (commands_of lines.now) line name.now }
{
    let mut maker = None;
    for i in 0..lines.len() {
        if let Some(command) = &lines[i] {
            if i + 1 < line as usize {
                maker = command.maker_after(i as u32 + 1, name, maker);
            }
        }
    }
    maker
}

fn is_grid_line(lines: &[Option<Command>], line: u32) -> bool
    ensures { result ≡ is_grid_line (command_at (commands_of lines.now) line) }
{
    match command_of(lines, line) {
        Some(command) => command.is_grid(),
        None => false,
    }
}

// How many grids the lines before a line make.
fn grids_before(lines: &[Option<Command>], line: u32) -> u32
    requires { length lines.now < 2 ^ 32 }
    ensures { result ≡ grids_before (commands_of lines.now) line }
{
    let mut count = 0;
    for i in 0..lines.len() {
        if let Some(command) = &lines[i] {
            if i + 1 < line as usize && command.is_grid() {
                count += 1;
            }
        }
    }
    count
}

// What the last `spares` line says.
fn spares_in(lines: &[Option<Command>]) -> Option<u32>
    requires { length lines.now < 2 ^ 32 }
    ensures { result ≡ spares_of (commands_of lines.now) }
{
    let mut spares = None;
    for i in 0..lines.len() {
        if let Some(Command::Spares { n }) = &lines[i] {
            spares = Some(*n);
        }
    }
    spares
}

// What the last `field` line says, or 65537.
fn modulus_in(lines: &[Option<Command>]) -> u32
    requires { length lines.now < 2 ^ 32 }
    ensures { result ≡ modulus_of (commands_of lines.now) }
{
    let mut modulus = 65537;
    for i in 0..lines.len() {
        if let Some(Command::Field { n }) = &lines[i] {
            modulus = *n;
        }
    }
    modulus
}

// The pending flips of a name as seen from a line.
fn pending_in(
    alloc: Global,
    lines: &[Option<Command>],
    line: u32,
    name: &[u8],
) -> Result<Vec<Flip>, NoMemory>
    requires { length lines.now < 2 ^ 32 }
    ensures { IfOk result (λ flips. flips.items ≡ pending (commands_of lines.now) line name.now) }
{
    let mut flips = Vec::new(alloc);
    for i in 0..lines.len() {
        if let Some(command) = &lines[i] {
            if i + 1 < line as usize {
                command.flip(i as u32 + 1, name, &mut flips)?;
            }
        }
    }
    Ok(flips)
}
