//! New ranks for those that are lost.
ghost use Rattle.std.specs.Prelude.{◌≡◌, ◌≤◌, IfOk};
ghost use Rattle.rank_machine.specs.Setting as machine;
ghost use Rattle.run_laws.specs.Cuts.{MayGoOn};
ghost use Rattle.block_world.specs.World.{setting_in};
ghost use Rattle.world_heal.specs.Ways.{IfDone};
ghost use Rattle.world_heal.specs.Attempts.{HasSpawned, IsStoppedWithin};

use block_world::{Did, World};
use field_core::Field;
use std::alloc::AllocError as NoMemory;

/// Makes each rank that is lost anew, by rising number, with nothing in it.
pub fn spawn_all<K: Field>(world: &mut World<'_, K>, ranks: u32) -> Result<Did, NoMemory>
    requires ranks { ranks ≡ machine.ranks (setting_in world.old) }
    requires few { ranks ≤ 64 }
    requires go { MayGoOn (setting_in world.old) world.old.journal }
    ensures { IfOk result (IfDone (HasSpawned world.old world.new) (IsStoppedWithin (machine.ranks (setting_in world.old)) world.old world.new)) }
{
    for rank in 0..ranks {
        if !world.is_live(rank) {
            let _running = world.journal();
            match world.spawn(rank)? {
                Did::Done => {}
                Did::Hit => return Ok(Did::Hit),
            }
        }
    }
    Ok(Did::Done)
}
