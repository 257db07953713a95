//! The matrices that names mean: their grids and their descriptors.
ghost use Rattle.std.specs.Prelude.{◌≡◌};
ghost use Rattle.run_data.specs.Script.{commands_of, maker};
ghost use Rattle.script_rules.specs.Rules.{maker_command, no_distribution, distribution_on, distribution_of, factored};

use crate::rules::maker_command;
use run_data::{Command, Script};

/// A matrix as the rules and the numbers of records see it: the line of its grid and the grid's process rows, data columns and code
/// columns; its rows, its columns, its block sizes and its first process row and column.
#[derive(Clone, Copy)]
pub struct Distribution {
    pub grid: u32,
    pub p: u32,
    pub q: u32,
    pub f: u32,
    pub m: u32,
    pub n: u32,
    pub mb: u32,
    pub nb: u32,
    pub rsrc: u32,
    pub csrc: u32,
}

// What a name that means no matrix has.
fn no_distribution() -> Distribution
    ensures { result ≡ no_distribution }
{
    Distribution {
        grid: 0,
        p: 0,
        q: 0,
        f: 0,
        m: 0,
        n: 0,
        mb: 0,
        nb: 0,
        rsrc: 0,
        csrc: 0,
    }
}

/// A matrix on the grid that a name means as seen from a line.
pub fn distribution_on(
    script: &Script,
    line: u32,
    grid: &[u8],
    m: u32,
    n: u32,
    mb: u32,
    nb: u32,
    rsrc: u32,
    csrc: u32,
) -> Distribution
    ensures { result ≡ distribution_on (maker (commands_of script.now) line grid.now) (maker_command (commands_of script.now) line grid.now) m n mb nb rsrc csrc }
{
    let Some(at) = script.maker(line, grid) else {
        return no_distribution();
    };
    match maker_command(script, line, grid) {
        Some(Command::Grid { p, q, f, .. }) => Distribution {
            grid: at,
            p: *p,
            q: *q,
            f: *f,
            m,
            n,
            mb,
            nb,
            rsrc,
            csrc,
        },
        _ => no_distribution(),
    }
}

/// The matrix that a name means as seen from a line; all 0 where it means none.
pub fn distribution_of(script: &Script, line: u32, name: &[u8]) -> Distribution
    ensures { result ≡ distribution_of (commands_of script.now) line name.now }
{
    let Some(at) = script.maker(line, name) else {
        return no_distribution();
    };
    match maker_command(script, line, name) {
        Some(
            Command::Matrix {
                grid,
                m,
                n,
                mb,
                nb,
                rsrc,
                csrc,
                ..
            },
        ) => distribution_on(script, at, grid.bytes(), *m, *n, *mb, *nb, *rsrc, *csrc),
        _ => no_distribution(),
    }
}

/// The matrix whose factorization made the pivot list that a name means as seen from a line; all 0 where it means none.
pub fn factored(script: &Script, line: u32, name: &[u8]) -> Distribution
    ensures { result ≡ factored (commands_of script.now) line name.now }
{
    let Some(at) = script.maker(line, name) else {
        return no_distribution();
    };
    match maker_command(script, line, name) {
        Some(Command::Pgetrf { a, .. }) => distribution_of(script, at, a.bytes()),
        _ => no_distribution(),
    }
}
