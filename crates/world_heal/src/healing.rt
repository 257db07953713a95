//! What becomes of a run whose ranks are lost.
ghost use Rattle.std.specs.Prelude.{◌≡◌, ◌<◌, ◌≤◌, ℕ, true, length, IfOk, OnOk};
ghost use Rattle.rank_machine.specs.Setting as machine;
ghost use Rattle.rank_machine.specs.Legal.{some_lost};
ghost use Rattle.run_laws.specs.Due.{has_fallen};
ghost use Rattle.run_laws.specs.Cuts.{MayGoOn};
ghost use Rattle.block_world.specs.World.{setting_in, state_of};
ghost use Rattle.world_heal.specs.Ways.{IfDone};
ghost use Rattle.world_heal.specs.Outcomes.{IfDrove, IsHealed, IsCutAt, EndsOrGoesOn};
ghost use Rattle.world_heal.specs.Costs.{Heals, KeepsGoing, KeepsShort, HealsInTime, HoldsWords};
ghost use Rattle.world_heal.specs.Mended.{IsMendable, IsTable};
ghost use Rattle.world_heal.specs.Attempts.{attempt_most, HasRecovered, IsStoppedWithin};

use crate::grids::mend_all;
use crate::spawns::spawn_all;
use blacs_grid::Grid;
use block_world::{Did, Order, World};
use field_core::Field;
use script_lines::Line;
use std::alloc::{AllocError as NoMemory, Global};
use world_losses::{first_beyond, first_without_spare};

/// What became of a phase, or of what was lost.
#[derive(Clone, Copy)]
pub enum Drove {
    /// The phase has committed; or what was lost is there again.
    Done,
    /// A process row of a grid that holds something live lost more ranks than it has code columns: the first such grid, and its
    /// first such row, both from 0.
    Beyond { grid: u32, row: u32 },
    /// No spare rank is left for a lost one: the first that gets none, by rising number.
    NoSpare { rank: u32 },
}

// How many ranks there are.
fn ranks_in<K: Field>(world: &World<'_, K>, grids: &[Grid]) -> u32
    requires grids { grids.now ≡ (setting_in world.now).grids }
    ensures value { result ≡ machine.ranks (setting_in world.now) }
    ensures few { result ≤ 64 }
{
    let _sound = world.journal();
    let mut ranks = 0;
    for i in 0..grids.len() {
        ranks += grids[i].size();
    }
    ranks
}

// Carries one recovery out, from its restore to its commit, or until a loss is due.
fn heal_once<K: Field>(
    alloc: Global,
    world: &mut World<'_, K>,
    order: &mut Order,
    grids: &[Grid],
    table: &[Line],
) -> Result<Did, NoMemory>
    requires mendable { IsMendable (setting_in world.old) }
    requires table { IsTable (setting_in world.old) table.now }
    requires grids { grids.now ≡ (setting_in world.old).grids }
    requires few_grids { length grids.now < 4096 }
    requires lost { some_lost (setting_in world.old) (state_of world.old) ≡ true }
    requires go { MayGoOn (setting_in world.old) world.old.journal }
    ensures { IfOk result (IfDone (HasRecovered world.old world.new) (IsStoppedWithin (attempt_most (setting_in world.old) (state_of world.old).mark) world.old world.new)) }
{
    let ranks = ranks_in(world, grids);
    match world.restore()? {
        Did::Done => {}
        Did::Hit => return Ok(Did::Hit),
    }
    match spawn_all(world, ranks)? {
        Did::Done => {}
        Did::Hit => return Ok(Did::Hit),
    }
    let _running = world.journal();
    match mend_all(alloc, world, order, table, grids.len() as u32)? {
        Did::Done => {}
        Did::Hit => return Ok(Did::Hit),
    }
    let mark = world.mark();
    world.commit(mark)
}

// Whether the run ends here: a process row is beyond repair, or else a lost rank gets no spare.
fn ending<K: Field>(world: &World<'_, K>, grids: &[Grid], table: &[Line]) -> Option<Drove>
    requires table { IsTable (setting_in world.now) table.now }
    requires grids { grids.now ≡ (setting_in world.now).grids }
    requires few_grids { length grids.now < 4096 }
    ensures { EndsOrGoesOn (setting_in world.now) world.now.journal result }
{
    let _sound = world.journal();
    if let Some((grid, row)) = first_beyond(world, grids, table) {
        return Some(Drove::Beyond { grid, row });
    }
    match first_without_spare(world, ranks_in(world, grids)) {
        Some(rank) => Some(Drove::NoSpare { rank }),
        None => None,
    }
}

/// Makes anew what lost ranks held at the last commit, however often ranks are lost meanwhile. It is called where losses have just
/// fallen, with the grids and the table of the lines of the world's script.
///
/// Done: the state is that of the last commit again, but that more ranks may have been spawned. Beyond and NoSpare: losses fell that the run cannot
/// survive, when it was called or later, and this is the first process row, or the first rank, of which that is so.
pub fn heal<K: Field>(
    alloc: Global,
    world: &mut World<'_, K>,
    order: &mut Order,
    grids: &[Grid],
    table: &[Line],
) -> Result<Drove, NoMemory>
    requires mendable { IsMendable (setting_in world.old) }
    requires table { IsTable (setting_in world.old) table.now }
    requires grids { grids.now ≡ (setting_in world.old).grids }
    requires few_grids { length grids.now < 4096 }
    requires fell { has_fallen world.old.journal ≡ true }
    requires lost { some_lost (setting_in world.old) (state_of world.old) ≡ true }
    ensures outcome { IfOk result (IfDrove (IsHealed world.old world.new) (IsCutAt world.old world.new)) }
    ensures costs { OnOk result (Heals world.old world.new) }
    ensures in_time { OnOk result (HealsInTime world.old world.new) }
    ensures goes { OnOk result (KeepsGoing world.old world.new) }
    ensures short { OnOk result ((phase : ℕ) → KeepsShort phase world.old world.new) }
    ensures holds { OnOk result (HoldsWords world.old world.new) }
{
    loop {
        if let Some(drove) = ending(world, grids, table) {
            return Ok(drove);
        }
        match heal_once(alloc, world, order, grids, table)? {
            Did::Done => return Ok(Drove::Done),
            Did::Hit => {
                world.fall();
                let _running = world.journal();
            }
        }
    }
}
