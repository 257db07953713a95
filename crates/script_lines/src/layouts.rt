//! Where the matrices of a script lie.
ghost use Rattle.std.specs.Prelude.{◌≡◌, true, slice_index_or, IfOk};
ghost use Rattle.run_data.specs.Script.{commands_of};
ghost use Rattle.array_desc.specs.Descriptors.{desc_of};
ghost use Rattle.rank_machine.specs.Scripts.{grids_from, layout_on};
ghost use Rattle.rank_machine.specs.Setting.{no_grid};
ghost use Rattle.script_lines.specs.Layouts.{AreGrids, IsLayout, makes_matrix, layout_in};

use array_desc::Desc;
use blacs_grid::Grid;
use rank_machine::Layout;
use run_data::{Command, Script};
use std::alloc::{AllocError, Global};

/// The grids of a script, in its order; the ranks of each follow those of the grids before.
pub fn grids_of(alloc: Global, script: &Script) -> Result<Vec<Grid>, AllocError>
    requires { AreGrids (grids_from 0 (commands_of script.now)) }
    ensures { IfOk result (λ v. v.items ≡ grids_from 0 (commands_of script.now)) }
{
    let lines = script.as_slice();
    let mut grids = Vec::new(alloc);
    let mut first = 0;
    for i in 0..lines.len() {
        if let Some(Command::Grid { p, q, f, .. }) = &lines[i] {
            grids.push(Grid {
                p: *p,
                q: *q,
                f: *f,
                first,
            })?;
            first += p * (q + f);
        }
    }
    Ok(grids)
}

// The grid of a number; where there is none, one of one rank.
fn grid_of(grids: &[Grid], number: u32) -> Grid
    ensures { result ≡ slice_index_or grids.now number no_grid }
{
    match grids.get(number as usize) {
        Some(grid) => *grid,
        None => Grid {
            p: 1,
            q: 1,
            f: 0,
            first: 0,
        },
    }
}

// The descriptor of a matrix on a grid of that number.
fn descriptor(
    number: u32,
    grid: Grid,
    m: u32,
    n: u32,
    mb: u32,
    nb: u32,
    rsrc: u32,
    csrc: u32,
) -> Desc
    requires { IsLayout (layout_on number grid m n mb nb rsrc csrc) }
    ensures { result ≡ desc_of number grid.p grid.q m n mb nb rsrc csrc }
{
    match Desc::new(number, grid.p, grid.q, m, n, mb, nb, rsrc, csrc) {
        Ok(desc) => desc,
        Err(_) => unreachable!(),
    }
}

/// Where the matrix of a `matrix` line lies.
pub fn layout_in(grids: &[Grid], script: &Script, line: u32) -> Layout
    requires grids { grids.now ≡ grids_from 0 (commands_of script.now) }
    requires makes { makes_matrix script.now line ≡ true }
    requires laid_out { IsLayout (layout_in script.now line) }
    ensures { result ≡ layout_in script.now line }
{
    let Some(command) = script.command(line) else {
        unreachable!();
    };
    let Command::Matrix {
        m,
        n,
        mb,
        nb,
        rsrc,
        csrc,
        ..
    } = command
    else {
        unreachable!();
    };
    let number = script.operand(line, 2).unwrap_or(0);
    let grid = grid_of(grids, number);
    Layout {
        grid,
        desc: descriptor(number, grid, *m, *n, *mb, *nb, *rsrc, *csrc),
    }
}
