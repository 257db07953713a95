//! The round that copies a pivot list to the ranks that were lost.
ghost use Rattle.std.specs.Prelude.{◌≡◌, ◌<◌, ◌≤◌, ℕ, true, IfOk};
ghost use Rattle.blacs_grid.specs.Limits.{IsGrid};
ghost use Rattle.rank_machine.specs.Setting as machine;
ghost use Rattle.rank_machine.specs.Effect as effect;
ghost use Rattle.rank_machine.specs.Losses as losses;
ghost use Rattle.rank_machine.specs.State.{State};
ghost use Rattle.run_laws.specs.Traces.{list_most};
ghost use Rattle.block_world.specs.World.{setting_in, state_of};
ghost use Rattle.recovery_code.specs.Copies.{grid_copies};
ghost use Rattle.recovery_rounds.specs.Mending.{copy_events};
ghost use Rattle.recovery_rounds.specs.Rows.{IsListHealed};
ghost use Rattle.world_heal.specs.Ways.{IfDone, rest_of};
ghost use Rattle.world_heal.specs.Mended.{IsTable, IsMending, HasMended, IsHitMending};

use blacs_grid::Grid;
use block_world::{Did, Order, Ran, RankMem, Round, Slot, SlotKind, World};
use field_core::Field;
use recovery_code::copy_row;
use script_lines::{Line, layout_at};
use std::alloc::{AllocError as NoMemory, Global};
use world_losses::lost_columns;

// The round that copies a list, in each process row from the first rank that was not lost to each one that was.
fn copies<K: Field>(
    alloc: Global,
    world: &World<'_, K>,
    list: Slot,
    grid: &Grid,
) -> Result<Round<RankMem<K>>, NoMemory>
    requires grid { IsGrid grid.now }
    requires few_lost { (row : ℕ) → row < grid.now.p → losses.lost_in (state_of world.now) grid.now row ≤ grid.now.f }
    ensures { IfOk result (λ round. round ≡ copy_events list (grid_copies (state_of world.now) grid.now)) }
{
    let mut round = Round::new(alloc);
    for row in 0..grid.p {
        let lost = lost_columns(world, alloc, grid, row)?;
        copy_row(&mut round, list, grid, row, &lost)?;
    }
    Ok(round)
}

/// Copies the live list of a line to the ranks of its grid that were lost. The list lies on the grid of the matrix that the line factors.
pub fn mend_list<K: Field>(
    alloc: Global,
    world: &mut World<'_, K>,
    order: &mut Order,
    table: &[Line],
    asked: &Line,
) -> Result<Did, NoMemory>
    requires mending { IsMending world.old }
    requires table { IsTable (setting_in world.old) table.now }
    requires live { effect.is_live_list (setting_in world.old) (rest_of world.old).mark asked.now.line ≡ true }
    requires factors { machine.factored (setting_in world.old) asked.now.line ≡ asked.now.factors }
    ensures { IfOk result (IfDone (HasMended (list_most (machine.layout (setting_in world.old) asked.now.factors)) (λ (s : machine.Setting) (last now : State). IsListHealed s last now asked.now.line) world.old world.new)
        (IsHitMending (list_most (machine.layout (setting_in world.old) asked.now.factors)) world.old world.new)) }
{
    let grid = layout_at(table, asked.factors).grid;
    let list = Slot {
        kind: SlotKind::Pivots,
        id: asked.line,
        group: 0,
    };
    let round = copies(alloc, world, list, &grid)?;
    match world.run(&round, order)? {
        Ran::Whole => Ok(Did::Done),
        Ran::Hit => Ok(Did::Hit),
    }
}
