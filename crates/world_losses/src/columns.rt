//! The ranks of a process row that were lost.
ghost use Rattle.std.specs.Prelude.{◌≡◌, ◌<◌, ◌≤◌, IfOk};
ghost use Rattle.blacs_grid.specs.Limits.{IsGrid};
ghost use Rattle.blacs_grid.specs.Places.{width};
ghost use Rattle.rank_machine.specs.Legal.{lost_columns};
ghost use Rattle.rank_machine.specs.Losses.{lost_in};
ghost use Rattle.block_world.specs.World.{state_of};

use blacs_grid::Grid;
use block_world::World;
use field_core::Field;
use std::alloc::{AllocError as NoMemory, Global};

/// How many ranks of a process row of a grid were lost since the last commit.
#[tactic(auto, using(crate::proofs::Rows::none_lost, crate::proofs::Rows::one_more_lost, crate::proofs::Rows::none_more_lost))]
pub fn lost_in<K: Field>(world: &World<'_, K>, grid: &Grid, row: u32) -> u32
    requires grid { IsGrid grid.now }
    requires row_in { row < grid.now.p }
    ensures value { result ≡ lost_in (state_of world.now) grid.now row }
    ensures few { result ≤ width grid.now }
{
    let mut lost = 0;
    for col in 0..grid.width() {
        if world.was_lost(grid.rank(row, col)) {
            lost += 1;
        }
    }
    lost
}

/// Which ranks of a process row of a grid were lost since the last commit, by process column.
#[tactic(auto, using(crate::proofs::Rows::one_more_column))]
pub fn lost_columns<K: Field>(
    world: &World<'_, K>,
    alloc: Global,
    grid: &Grid,
    row: u32,
) -> Result<Vec<bool>, NoMemory>
    requires grid { IsGrid grid.now }
    requires row_in { row < grid.now.p }
    ensures { IfOk result (λ v. v.items ≡ lost_columns (state_of world.now) grid.now row) }
{
    let mut lost = Vec::new(alloc);
    for col in 0..grid.width() {
        lost.push(world.was_lost(grid.rank(row, col)))?;
    }
    Ok(lost)
}
