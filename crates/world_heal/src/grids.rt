//! All that is live on the grids, one grid after the other.
ghost use Rattle.std.specs.Prelude.{◌≡◌, ◌<◌, ℕ, true, length, IfOk};
ghost use Rattle.rank_machine.specs.Setting as machine;
ghost use Rattle.rank_machine.specs.State.{State};
ghost use Rattle.rank_machine.specs.Effect as effect;
ghost use Rattle.script_lines.specs.Lines.{job_seen};
ghost use Rattle.block_world.specs.World.{setting_in, state_of};
ghost use Rattle.recovery_counts.specs.Counted.{matrix_on, list_on, matrices_so_far, lists_so_far, grid_most, grids_so_far};
ghost use Rattle.recovery_rounds.specs.Rows.{IsListHealed, IsAllHealed};
ghost use Rattle.world_heal.specs.Ways.{IfDone, rest_of};
ghost use Rattle.world_heal.specs.Mended.{IsTable, IsMending, HasMended, IsHitMending, IsMatrixHealed, AreMatricesHealed, AreListsHealed, IsGridHealed};

use crate::lists::mend_list;
use crate::rows::mend_matrix;
use block_world::{Did, Order, World};
use field_core::Field;
use script_lines::{Line, is_live_list, is_live_matrix, layout_at};
use std::alloc::{AllocError as NoMemory, Global};

// Mends the matrix of a line, where it is live and lies on the grid of a number.
fn mend_matrix_on<K: Field>(
    alloc: Global,
    world: &mut World<'_, K>,
    order: &mut Order,
    table: &[Line],
    line: u32,
    number: u32,
) -> Result<Did, NoMemory>
    requires mending { IsMending world.old }
    requires table { IsTable (setting_in world.old) table.now }
    ensures { IfOk result (IfDone (HasMended (matrix_on (setting_in world.old) (rest_of world.old).mark number (machine.no_job line)) (λ (s : machine.Setting) (last now : State). effect.is_live_matrix s last.mark line ≡ true → (machine.layout s line).desc.ctxt ≡ number → IsMatrixHealed line s last now) world.old world.new)
        (IsHitMending (matrix_on (setting_in world.old) (rest_of world.old).mark number (machine.no_job line)) world.old world.new)) }
{
    if is_live_matrix(table, world.mark(), line) && layout_at(table, line).desc.ctxt == number {
        return mend_matrix(alloc, world, order, table, line);
    }
    Ok(Did::Done)
}

// Mends the list of a line, where it is live and lies on the grid of a number.
fn mend_list_on<K: Field>(
    alloc: Global,
    world: &mut World<'_, K>,
    order: &mut Order,
    table: &[Line],
    asked: &Line,
    number: u32,
) -> Result<Did, NoMemory>
    requires mending { IsMending world.old }
    requires table { IsTable (setting_in world.old) table.now }
    requires factors { machine.factored (setting_in world.old) asked.now.line ≡ asked.now.factors }
    ensures { IfOk result (IfDone (HasMended (list_on (setting_in world.old) (rest_of world.old).mark number (job_seen asked.now)) (λ (s : machine.Setting) (last now : State). effect.is_live_list s last.mark asked.now.line ≡ true → (machine.layout s asked.now.factors).desc.ctxt ≡ number → IsListHealed s last now asked.now.line) world.old world.new)
        (IsHitMending (list_on (setting_in world.old) (rest_of world.old).mark number (job_seen asked.now)) world.old world.new)) }
{
    if is_live_list(table, world.mark(), asked.line)
        && layout_at(table, asked.factors).desc.ctxt == number
    {
        return mend_list(alloc, world, order, table, asked);
    }
    Ok(Did::Done)
}

// Mends the live matrices on the grid of a number, by their lines.
fn mend_matrices<K: Field>(
    alloc: Global,
    world: &mut World<'_, K>,
    order: &mut Order,
    table: &[Line],
    number: u32,
) -> Result<Did, NoMemory>
    requires mending { IsMending world.old }
    requires table { IsTable (setting_in world.old) table.now }
    ensures { IfOk result (IfDone (HasMended (matrices_so_far (setting_in world.old) (rest_of world.old).mark number (length (setting_in world.old).jobs)) (AreMatricesHealed number (length (setting_in world.old).jobs)) world.old world.new)
        (IsHitMending (matrices_so_far (setting_in world.old) (rest_of world.old).mark number (length (setting_in world.old).jobs)) world.old world.new)) }
{
    for i in 0..table.len() {
        match mend_matrix_on(alloc, world, order, table, table[i].line, number)? {
            Did::Done => {}
            Did::Hit => return Ok(Did::Hit),
        }
    }
    Ok(Did::Done)
}

// Mends the live lists on the grid of a number, by their lines.
fn mend_lists<K: Field>(
    alloc: Global,
    world: &mut World<'_, K>,
    order: &mut Order,
    table: &[Line],
    number: u32,
) -> Result<Did, NoMemory>
    requires mending { IsMending world.old }
    requires table { IsTable (setting_in world.old) table.now }
    ensures { IfOk result (IfDone (HasMended (lists_so_far (setting_in world.old) (rest_of world.old).mark number (length (setting_in world.old).jobs)) (AreListsHealed number (length (setting_in world.old).jobs)) world.old world.new)
        (IsHitMending (lists_so_far (setting_in world.old) (rest_of world.old).mark number (length (setting_in world.old).jobs)) world.old world.new)) }
{
    for i in 0..table.len() {
        match mend_list_on(alloc, world, order, table, &table[i], number)? {
            Did::Done => {}
            Did::Hit => return Ok(Did::Hit),
        }
    }
    Ok(Did::Done)
}

// Mends all that is live on the grid of a number: first the matrices, then the lists.
fn mend_grid<K: Field>(
    alloc: Global,
    world: &mut World<'_, K>,
    order: &mut Order,
    table: &[Line],
    number: u32,
) -> Result<Did, NoMemory>
    requires mending { IsMending world.old }
    requires table { IsTable (setting_in world.old) table.now }
    ensures { IfOk result (IfDone (HasMended (grid_most (setting_in world.old) (rest_of world.old).mark number) (IsGridHealed number) world.old world.new)
        (IsHitMending (grid_most (setting_in world.old) (rest_of world.old).mark number) world.old world.new)) }
{
    match mend_matrices(alloc, world, order, table, number)? {
        Did::Done => mend_lists(alloc, world, order, table, number),
        Did::Hit => Ok(Did::Hit),
    }
}

/// Mends all that is live, grid by grid.
pub fn mend_all<K: Field>(
    alloc: Global,
    world: &mut World<'_, K>,
    order: &mut Order,
    table: &[Line],
    grids: u32,
) -> Result<Did, NoMemory>
    requires mending { IsMending world.old }
    requires table { IsTable (setting_in world.old) table.now }
    requires grids { grids ≡ length (setting_in world.old).grids }
    ensures { IfOk result (IfDone (HasMended (grids_so_far (setting_in world.old) (rest_of world.old).mark grids) IsAllHealed world.old world.new)
        (IsHitMending (grids_so_far (setting_in world.old) (rest_of world.old).mark grids) world.old world.new)) }
{
    for number in 0..grids {
        match mend_grid(alloc, world, order, table, number)? {
            Did::Done => {}
            Did::Hit => return Ok(Did::Hit),
        }
    }
    Ok(Did::Done)
}
