//! `drive`, a phase from one commit to its own.
ghost use Rattle.std.specs.Prelude.{◌≡◌, ◌≢◌, ℕ, ◌+◌, ◌-◌, ◌≤◌, ◌<◌, [], true, IfOk, OnOk, length};
ghost use Rattle.rank_machine.specs.Effect.{replay};
ghost use Rattle.run_laws.specs.Due.{ahead};
ghost use Rattle.run_laws.specs.Traces.{recovery_under};
ghost use Rattle.block_world.specs.World.{setting_in, state_of, is_due};
ghost use Rattle.phases.specs.declared.phase.Next.TheVariants.{End};
ghost use Rattle.phases.specs.Plans.{CanStart, at_start, saves, records_in, steps_in};
ghost use Rattle.world_heal.specs.Ways.{IfDone, rest_of, IsHit};
ghost use Rattle.world_heal.specs.Outcomes.{IfDrove, IsCutAt, IsHealed};
ghost use Rattle.world_heal.specs.Costs.{KeepsGoing, KeepsShort, HoldsWords};
ghost use Rattle.world_heal.specs.Mended.{IsMendable};
ghost use Rattle.loss_recovery.specs.Driven.{site_at, IsAtRest, CostsAtMost, RecoversInTime, Recovers, cost_of, HasCome, CanCarry, HasCarried, IsDriven, IsStraight, HoldsAlong, HoldsDriven};
ghost use Rattle.loss_recovery.specs.Steps.{IfCarried, IsRunOut, HasBegun};

use block_world::{Did, Order, Ran, Taken, Tile, World};
use dist_matrix::Site;
use field_core::Field;
use phases::{Next, Phase};
use run_data::Script;
use std::alloc::{AllocError as NoMemory, Global};
use world_heal::{Drove, heal};

/// What became of one answer of a phase.
#[derive(Drop)]
pub enum Carried {
    On(Option<Tile>),
    Ended,
    Hit,
}

// Saves the slots that a phase lists.
#[tactic(auto, using(crate::proofs::Saving::saving_begins, crate::proofs::Saving::saving_legal, crate::proofs::Saving::saving_goes_on, crate::proofs::Saving::saving_stops, crate::proofs::Saving::saving_ends, crate::proofs::Saving::below_length))]
fn save_all<K: Field, H: Phase<K>>(world: &mut World<'_, K>, phase: &H) -> Result<Did, NoMemory>
    requires rest { IsAtRest world.old }
    requires may { CanStart (H.plan (H.task phase.now)) (setting_in world.old) (state_of world.old) }
    ensures saves { IfOk result (IfDone (HasCome (replay (setting_in world.old) (state_of world.old) (saves (H.plan (H.task phase.now)).listed)) (length (H.plan (H.task phase.now)).listed) world.old world.new) (IsHit (length (H.plan (H.task phase.now)).listed) world.old world.new)) }
    ensures holds { OnOk result (HoldsAlong (saves (H.plan (H.task phase.now)).listed) world.old world.new) }
{
    let mut i = 0u32;
    while let Some((rank, slot)) = phase.save_at(i) {
        match world.save(rank, slot)? {
            Did::Done => {}
            Did::Hit => return Ok(Did::Hit),
        }
        i += 1;
    }
    Ok(Did::Done)
}

// Carries out one answer of a phase.
fn carry_out<K: Field>(
    world: &mut World<'_, K>,
    order: &mut Order,
    next: Next<K>,
) -> Result<Carried, NoMemory>
    requires { CanCarry world.old next }
    ensures carried { IfOk result (IfCarried next (HasCarried world.old world.new next) (world.new ≡ world.old) (IsHit (steps_in next) world.old world.new)) }
    ensures holds { OnOk result (HoldsAlong (records_in next) world.old world.new) }
{
    match next {
        Next::Round(round) => match world.run(&round, order)? {
            Ran::Whole => Ok(Carried::On(None)),
            Ran::Hit => Ok(Carried::Hit),
        },
        Next::Feed(rank, slot, m) => match world.feed(rank, slot, m)? {
            Did::Done => Ok(Carried::On(None)),
            Did::Hit => Ok(Carried::Hit),
        },
        Next::Take(rank, slot) => match world.take(rank, slot)? {
            Taken::Tile(tile) => Ok(Carried::On(Some(tile))),
            Taken::Hit => Ok(Carried::Hit),
        },
        Next::End => Ok(Carried::Ended),
    }
}

// Carries out the answers of a phase until it ends.
fn run_all<K: Field, H: Phase<K>>(
    world: &mut World<'_, K>,
    order: &mut Order,
    phase: &mut H,
) -> Result<Did, NoMemory>
    requires begun { H.progress phase.old ≡ at_start }
    requires start { CanStart (H.plan (H.task phase.old)) (setting_in world.old) (rest_of world.old) }
    requires stands { H.stands phase.old (setting_in world.old) (rest_of world.old) (state_of world.old) }
    requires begins { HasBegun world.old }
    ensures same_task { OnOk result (H.task phase.new ≡ H.task phase.old) }
    ensures runs { IfOk result (IfDone (IsRunOut (H.plan (H.task phase.old)) (H.progress phase.new) world.old world.new) (IsHit ((H.plan (H.task phase.old)).most_records - length (H.plan (H.task phase.old)).listed) world.old world.new)) }
    ensures holds { OnOk result (HoldsWords world.old world.new) }
{
    let mut taken = None;
    loop {
        let next = phase.next(taken)?;
        match carry_out(world, order, next)? {
            Carried::On(tile) => taken = tile,
            Carried::Ended => return Ok(Did::Done),
            Carried::Hit => return Ok(Did::Hit),
        }
    }
}

// Carries a phase out from its start to its commit, or until a loss is due.
fn attempt<K: Field, H: Phase<K>>(
    world: &mut World<'_, K>,
    order: &mut Order,
    phase: &mut H,
) -> Result<Did, NoMemory>
    requires rest { IsAtRest world.old }
    requires may { (H.plan (H.task phase.old)).MayDrive (setting_in world.old) (state_of world.old) }
    ensures same_task { OnOk result (H.task phase.new ≡ H.task phase.old) }
    ensures driven { IfOk result (IfDone (IsStraight (H.plan (H.task phase.old)) (H.progress phase.new) world.old world.new) (IsHit (H.plan (H.task phase.old)).most_records world.old world.new)) }
    ensures holds { IfOk result (IfDone (HoldsDriven world.old world.new) (HoldsWords world.old world.new)) }
{
    phase.start();
    match save_all(world, phase)? {
        Did::Done => {}
        Did::Hit => return Ok(Did::Hit),
    }
    match run_all(world, order, phase)? {
        Did::Done => {}
        Did::Hit => return Ok(Did::Hit),
    }
    let _running = world.journal();
    world.commit(phase.mark())
}

// Lets the losses that are due fall, and has the machine healed.
fn recover<K: Field>(
    alloc: Global,
    world: &mut World<'_, K>,
    site: &Site<'_>,
    order: &mut Order,
) -> Result<Drove, NoMemory>
    requires mendable { IsMendable (setting_in world.old) }
    requires due { is_due world.old ≡ true }
    requires site_is { site.now ≡ site_at world.old }
    ensures outcome { IfOk result (IfDrove (IsHealed world.old world.new) (IsCutAt world.old world.new)) }
    ensures fewer { OnOk result (ahead (setting_in world.old) world.new.journal < ahead (setting_in world.old) world.old.journal) }
    ensures costs { OnOk result (Recovers world.old world.new) }
    ensures in_time { OnOk result (RecoversInTime world.old world.new) }
    ensures goes { OnOk result (KeepsGoing world.old world.new) }
    ensures short { OnOk result ((phase : ℕ) → KeepsShort phase world.old world.new) }
    ensures holds { OnOk result (HoldsWords world.old world.new) }
{
    world.fall();
    let _running = world.journal();
    heal(alloc, world, order, site.grid_list(), site.table())
}

/// Drives a phase from the last commit to its own, over losses.
///
/// The world is to stand as its last commit, or the opening, left it, and the phase is to be one that may be driven from there; the
/// setting is to be one whose lost ranks can be mended, as an accepted script gives. The site is that of the world's script and last
/// mark, before and after. Done: the phase's effect holds between the state of that commit and that of its own, and the takes that it
/// was handed are, in order, the committed ones that were added. Beyond and NoSpare: the run is cut short exactly where losses fell
/// that it cannot survive, and no plain commit was made. In every state on the way each rank holds at most the words that it may,
/// where what the last commit left is measured, and what the phase's own commit left. After an error nothing is promised of the site.
pub fn drive<K: Field, H: Phase<K>>(
    alloc: Global,
    world: &mut World<'_, K>,
    site: &mut Site<'_>,
    script: &Script,
    order: &mut Order,
    phase: &mut H,
) -> Result<Drove, NoMemory>
    requires mendable { IsMendable (setting_in world.old) }
    requires rest { IsAtRest world.old }
    requires may { (H.plan (H.task phase.old)).MayDrive (setting_in world.old) (state_of world.old) }
    requires site_is { site.old ≡ site_at world.old }
    requires script_is { script.now ≡ world.old.script }
    ensures same_task { OnOk result (H.task phase.new ≡ H.task phase.old) }
    ensures driven { IfOk result (IfDrove (IsDriven (H.plan (H.task phase.old)) (H.progress phase.new) world.old world.new) (IsCutAt world.old world.new)) }
    ensures site_is { OnOk result (site.new ≡ site_at world.new) }
    ensures costs { IfOk result (λ drove. (most recovery : ℕ) → (H.plan (H.task phase.old)).most_records ≤ most → recovery_under (setting_in world.old) (state_of world.old).mark ≤ recovery
        → CostsAtMost most recovery world.old world.new (cost_of (H.plan (H.task phase.old)) drove)) }
    ensures in_time { OnOk result (RecoversInTime world.old world.new) }
    ensures goes { OnOk result (KeepsGoing world.old world.new) }
    ensures short { OnOk result ((most : ℕ) → (H.plan (H.task phase.old)).most_records ≤ most → KeepsShort most world.old world.new) }
    ensures holds { IfOk result (IfDrove (HoldsDriven world.old world.new) (λ cut. HoldsWords world.old world.new)) }
{
    loop {
        match attempt(world, order, phase)? {
            Did::Done => {
                site.set(phase.mark(), script);
                return Ok(Drove::Done);
            }
            Did::Hit => {}
        }
        match recover(alloc, world, site, order)? {
            Drove::Done => {}
            cut => return Ok(cut),
        }
    }
}
