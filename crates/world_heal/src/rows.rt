//! The rounds that make the lost strips of a matrix anew.
ghost use Rattle.std.specs.Prelude.{◌≡◌, ◌<◌, ◌*◌, ℕ, true, IfOk};
ghost use Rattle.rank_machine.specs.Setting as machine;
ghost use Rattle.rank_machine.specs.Effect as effect;
ghost use Rattle.rank_machine.specs.Legal as legal;
ghost use Rattle.rank_machine.specs.State.{State};
ghost use Rattle.script_lines.specs.Layouts.{IsLayout};
ghost use Rattle.run_laws.specs.Traces.{matrix_most};
ghost use Rattle.block_world.specs.World.{setting_in, state_of};
ghost use Rattle.recovery_code.specs.Spots.{spot_seen, spot_under};
ghost use Rattle.recovery_counts.specs.Counted.{round_most};
ghost use Rattle.recovery_rounds.specs.Rows.{IsRowHealed};
ghost use Rattle.world_heal.specs.Ways.{IfDone, rest_of};
ghost use Rattle.world_heal.specs.Mended.{some_in, IsTable, IsMending, HasMended, IsHitMending, AreGroupsHealed, IsMatrixHealed};

use array_desc::groups;
use block_world::{Did, Order, Ran, Round, World};
use field_core::Field;
use recovery_code::{Place, mend_row, place_of};
use script_lines::{Layout, Line, layout_at};
use std::alloc::{AllocError as NoMemory, Global};
use world_losses::lost_columns;

// Whether a rank of a process row was lost.
fn some_lost(lost: &[bool]) -> bool
    ensures { result ≡ some_in lost.now }
{
    for i in 0..lost.len() {
        if lost[i] {
            return true;
        }
    }
    false
}

// Makes the lost strips of a process row and a group anew.
fn mend_group<K: Field>(
    alloc: Global,
    world: &mut World<'_, K>,
    order: &mut Order,
    place: Place,
    lost: &[bool],
) -> Result<Did, NoMemory>
    requires mending { IsMending world.old }
    requires live { effect.is_live_matrix (setting_in world.old) (rest_of world.old).mark place.line ≡ true }
    requires place { spot_seen place ≡ spot_under (setting_in world.old) (rest_of world.old).mark place.line place.row place.group }
    requires laid_out { IsLayout place.layout }
    requires row_in { place.row < place.layout.grid.p }
    requires group_in { place.group < machine.group_count place.layout }
    requires lost { lost.now ≡ legal.lost_columns (state_of world.old) place.layout.grid place.row }
    ensures { IfOk result (IfDone (HasMended (round_most place.layout) (λ (s : machine.Setting) (last now : State). IsRowHealed s last now place.line place.row place.group) world.old world.new)
        (IsHitMending (round_most place.layout) world.old world.new)) }
{
    let _running = world.journal();
    let mut round = Round::new(alloc);
    mend_row(&mut round, alloc, place, lost)?;
    match world.run(&round, order)? {
        Ran::Whole => Ok(Did::Done),
        Ran::Hit => Ok(Did::Hit),
    }
}

// Makes the lost strips of a process row anew, group by group.
fn mend_groups<K: Field>(
    alloc: Global,
    world: &mut World<'_, K>,
    order: &mut Order,
    table: &[Line],
    layout: Layout,
    line: u32,
    row: u32,
    lost: &[bool],
) -> Result<Did, NoMemory>
    requires mending { IsMending world.old }
    requires table { IsTable (setting_in world.old) table.now }
    requires live { effect.is_live_matrix (setting_in world.old) (rest_of world.old).mark line ≡ true }
    requires layout { layout ≡ machine.layout (setting_in world.old) line }
    requires laid_out { IsLayout layout }
    requires row_in { row < layout.grid.p }
    requires lost { lost.now ≡ legal.lost_columns (state_of world.old) layout.grid row }
    ensures { IfOk result (IfDone (HasMended (machine.group_count layout * round_most layout) (AreGroupsHealed line row (machine.group_count layout)) world.old world.new)
        (IsHitMending (machine.group_count layout * round_most layout) world.old world.new)) }
{
    for group in 0..groups(layout.desc.n, layout.desc.nb, layout.grid.q) {
        let place = place_of(table, world.mark(), layout, line, row, group);
        match mend_group(alloc, world, order, place, lost)? {
            Did::Done => {}
            Did::Hit => return Ok(Did::Hit),
        }
    }
    Ok(Did::Done)
}

// Makes the lost strips of a process row of a matrix anew. A row that lost no rank needs no round.
fn mend_process_row<K: Field>(
    alloc: Global,
    world: &mut World<'_, K>,
    order: &mut Order,
    table: &[Line],
    line: u32,
    row: u32,
) -> Result<Did, NoMemory>
    requires mending { IsMending world.old }
    requires table { IsTable (setting_in world.old) table.now }
    requires live { effect.is_live_matrix (setting_in world.old) (rest_of world.old).mark line ≡ true }
    requires row_in { row < (machine.layout (setting_in world.old) line).grid.p }
    ensures { IfOk result (IfDone (HasMended (machine.group_count (machine.layout (setting_in world.old) line) * round_most (machine.layout (setting_in world.old) line)) (AreGroupsHealed line row (machine.group_count (machine.layout (setting_in world.old) line))) world.old world.new)
        (IsHitMending (machine.group_count (machine.layout (setting_in world.old) line) * round_most (machine.layout (setting_in world.old) line)) world.old world.new)) }
{
    let layout = layout_at(table, line);
    let lost = lost_columns(world, alloc, &layout.grid, row)?;
    if some_lost(&lost) {
        mend_groups(alloc, world, order, table, layout, line, row, &lost)
    } else {
        Ok(Did::Done)
    }
}

/// Makes the lost strips of a live matrix anew, process row by process row.
pub fn mend_matrix<K: Field>(
    alloc: Global,
    world: &mut World<'_, K>,
    order: &mut Order,
    table: &[Line],
    line: u32,
) -> Result<Did, NoMemory>
    requires mending { IsMending world.old }
    requires table { IsTable (setting_in world.old) table.now }
    requires live { effect.is_live_matrix (setting_in world.old) (rest_of world.old).mark line ≡ true }
    ensures { IfOk result (IfDone (HasMended (matrix_most (machine.layout (setting_in world.old) line)) (IsMatrixHealed line) world.old world.new)
        (IsHitMending (matrix_most (machine.layout (setting_in world.old) line)) world.old world.new)) }
{
    for row in 0..layout_at(table, line).grid.p {
        match mend_process_row(alloc, world, order, table, line, row)? {
            Did::Done => {}
            Did::Hit => return Ok(Did::Hit),
        }
    }
    Ok(Did::Done)
}
