//! Records made one after another.
ghost use Rattle.std.specs.Prelude.{◌≡◌, true, IfOk};
ghost use Rattle.rank_machine.specs.Legal.{IsLegalRec};
ghost use Rattle.block_world.specs.World.{setting_in, state_of};
ghost use Rattle.block_world.specs.Did.{IsDid};
ghost use Rattle.world_tests.specs.Play.{IsOnlyMatrix, is_one_call, ready, may_play};

use block_world::{Did, Mat, Rec, Slot, Taken, Tile, World};
use dist_matrix::strip;
use field_core::F65537;
use script_lines::Layout;
use std::alloc::{AllocError, Global};

// Feeds a strip of the matrix.
fn feed(
    alloc: Global,
    world: &mut World<'_, F65537>,
    m: &Mat,
    layout: Layout,
    rank: u32,
    slot: Slot,
) -> Result<Did, AllocError>
    requires only { IsOnlyMatrix (setting_in world.old) layout m.now }
    requires legal { IsLegalRec (setting_in world.old) (state_of world.old) (Rec.Feed rank slot) }
    ensures { IfOk result (λ did. IsDid did world.old world.new (Rec.Feed rank slot)) }
{
    let cut = strip(alloc, m, &layout.desc, &layout.grid, rank, slot.group)?;
    world.feed(rank, slot, cut)
}

// Adds the words of a tile.
fn add_words(taken: &mut Vec<u32>, tile: &Tile) -> Result<(), AllocError> {
    match tile {
        Tile::Words(m) => taken.extend_from_slice(m.words()),
        Tile::Index(_) => Ok(()),
    }
}

// Takes a tile, and keeps its words.
fn take(
    world: &mut World<'_, F65537>,
    rank: u32,
    slot: Slot,
    taken: &mut Vec<u32>,
) -> Result<Did, AllocError>
    requires { IsLegalRec (setting_in world.old) (state_of world.old) (Rec.Take rank slot) }
    ensures { IfOk result (λ did. IsDid did world.old world.new (Rec.Take rank slot)) }
{
    match world.take(rank, slot)? {
        Taken::Tile(tile) => {
            add_words(taken, &tile)?;
            Ok(Did::Done)
        }
        Taken::Hit => Ok(Did::Hit),
    }
}

// Makes a record by one call.
fn make(
    alloc: Global,
    world: &mut World<'_, F65537>,
    m: &Mat,
    layout: Layout,
    entry: Rec,
    taken: &mut Vec<u32>,
) -> Result<Did, AllocError>
    requires only { IsOnlyMatrix (setting_in world.old) layout m.now }
    requires one_call { is_one_call entry ≡ true }
    requires legal { IsLegalRec (setting_in world.old) (state_of world.old) entry }
    ensures { IfOk result (λ did. IsDid did world.old world.new entry) }
{
    match entry {
        Rec::Feed(rank, slot) => feed(alloc, world, m, layout, rank, slot),
        Rec::Save(rank, slot) => world.save(rank, slot),
        Rec::Take(rank, slot) => take(world, rank, slot, taken),
        Rec::Restore => world.restore(),
        Rec::Spawn(rank) => world.spawn(rank),
        Rec::Commit(mark, _) => world.commit(mark),
        _ => unreachable!(),
    }
}

/// Lets the losses fall that are due.
pub fn settle(world: &mut World<'_, F65537>)
    ensures setting { setting_in world.new ≡ setting_in world.old }
    ensures journal { world.new.journal ≡ ready (setting_in world.old) world.old.journal }
{
    if world.due() {
        world.fall();
    }
}

/// Makes records one after another, and before each lets the losses fall that are due, as at the end. The words of what is taken are
/// added to `taken`.
pub fn play(
    alloc: Global,
    world: &mut World<'_, F65537>,
    m: &Mat,
    layout: Layout,
    records: &[Rec],
    taken: &mut Vec<u32>,
) -> Result<(), AllocError>
    requires only { IsOnlyMatrix (setting_in world.old) layout m.now }
    requires legal { may_play (setting_in world.old) world.old.journal records.now ≡ true }
{
    for i in 0..records.len() {
        settle(world);
        match make(alloc, world, m, layout, records[i], taken)? {
            Did::Done => {}
            Did::Hit => return Ok(()),
        }
    }
    settle(world);
    Ok(())
}
