//! Whether a process row is beyond repair.
ghost use Rattle.std.specs.Prelude.{◌≡◌, ◌<◌, map, length};
ghost use Rattle.blacs_grid.specs.Limits.{IsGrid};
ghost use Rattle.rank_machine.specs.Setting.{some_job};
ghost use Rattle.rank_machine.specs.Losses as machine;
ghost use Rattle.script_lines.specs.Lines.{job_seen, setting_on, AreSound, IsTableOf};
ghost use Rattle.script_lines.specs.Layouts.{AreGrids};
ghost use Rattle.block_world.specs.World.{setting_in, state_of};
ghost use Rattle.world_losses.specs.Judged.{lies_on, FirstRow, FirstBeyond};

use crate::columns::lost_in;
use blacs_grid::Grid;
use block_world::{Mark, World};
use field_core::Field;
use script_lines::{Line, is_live_list, is_live_matrix, layout_at};

// Whether what a line made is live, and lies on the grid of a number.
fn lies_on(table: &[Line], mark: Mark, asked: &Line, number: u32) -> bool
    requires sound { AreSound table.now }
    ensures { result ≡ lies_on (setting_on 0 table.now) mark (job_seen asked.now) number }
{
    (is_live_matrix(table, mark, asked.line) && layout_at(table, asked.line).desc.ctxt == number)
        || (is_live_list(table, mark, asked.line)
            && layout_at(table, asked.factors).desc.ctxt == number)
}

// Whether something live lies on the grid of a number.
fn some_lies_on(table: &[Line], mark: Mark, number: u32) -> bool
    requires sound { AreSound table.now }
    ensures { result ≡ some_job (map job_seen table.now) (λ j. lies_on (setting_on 0 table.now) mark j number) }
{
    for i in 0..table.len() {
        if lies_on(table, mark, &table[i], number) {
            return true;
        }
    }
    false
}

/// Whether something that is live lies on the grid of a number.
#[tactic(auto, using(crate::proofs::Tables::held_live))]
pub fn holds_live<K: Field>(world: &World<'_, K>, table: &[Line], number: u32) -> bool
    requires lines { IsTableOf (setting_in world.now).jobs table.now }
    requires sound { AreSound table.now }
    ensures { result ≡ machine.holds_live (setting_in world.now) (state_of world.now) number }
{
    some_lies_on(table, world.mark(), number)
}

// The first process row of a grid that is beyond repair, where something live lies on the grid.
#[tactic(auto, using(crate::proofs::First::none_before, crate::proofs::First::none_up_to))]
fn first_row<K: Field>(world: &World<'_, K>, grid: &Grid, live: bool) -> Option<u32>
    requires grid { IsGrid grid.now }
    ensures { FirstRow (state_of world.now) grid.now live result }
{
    for row in 0..grid.p {
        if live && grid.f < lost_in(world, grid, row) {
            return Some(row);
        }
    }
    None
}

/// The first grid and process row that are beyond repair: more of the row's ranks were lost since the last commit than the grid has
/// code columns, and something on the grid is live.
#[tactic(auto, using(crate::proofs::First::rows_within, crate::proofs::First::row_beyond, crate::proofs::First::grids_none, crate::proofs::First::grids_up_to, crate::proofs::First::all_within))]
pub fn first_beyond<K: Field>(
    world: &World<'_, K>,
    grids: &[Grid],
    table: &[Line],
) -> Option<(u32, u32)>
    requires grids { grids.now ≡ (setting_in world.now).grids }
    requires within { AreGrids grids.now }
    requires few { length grids.now < 4096 }
    requires lines { IsTableOf (setting_in world.now).jobs table.now }
    requires sound { AreSound table.now }
    ensures { FirstBeyond (setting_in world.now) (state_of world.now) result }
{
    for number in 0..grids.len() as u32 {
        let live = holds_live(world, table, number);
        if let Some(row) = first_row(world, &grids[number as usize], live) {
            return Some((number, row));
        }
    }
    None
}
