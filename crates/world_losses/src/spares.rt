//! Whether the spares last.
ghost use Rattle.std.specs.Prelude.{◌≡◌, ◌≤◌};
ghost use Rattle.rank_machine.specs.Setting as machine;
ghost use Rattle.block_world.specs.World.{setting_in, state_of};
ghost use Rattle.world_losses.specs.Judged.{FirstWithout, FirstLacking};

use block_world::World;
use field_core::Field;

// The first lost rank that gets none of so many spares.
#[tactic(auto, using(crate::proofs::First::none_now, crate::proofs::First::one_more_now, crate::proofs::First::none_more_now, crate::proofs::First::live_lacks_none, crate::proofs::First::spare_left, crate::proofs::First::lacks_here, crate::proofs::First::none_up_to))]
fn first_without<K: Field>(world: &World<'_, K>, ranks: u32, spares: u32) -> Option<u32>
    requires { ranks ≤ 64 }
    ensures { FirstWithout (state_of world.now) spares ranks result }
{
    let mut used = world.spawns() as u64;
    for rank in 0..ranks {
        if !world.is_live(rank) {
            if used == spares as u64 {
                return Some(rank);
            }
            used += 1;
        }
    }
    None
}

/// The first lost rank for which no spare is left, by rising number.
#[tactic(auto, using(crate::proofs::First::no_limit))]
pub fn first_without_spare<K: Field>(world: &World<'_, K>, ranks: u32) -> Option<u32>
    requires ranks { ranks ≡ machine.ranks (setting_in world.now) }
    requires few { ranks ≤ 64 }
    ensures { FirstLacking (setting_in world.now) (state_of world.now) result }
{
    match world.spares() {
        Some(spares) => first_without(world, ranks, spares),
        None => None,
    }
}
