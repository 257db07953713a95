//! `EndPhase`, a commit alone.
ghost use Rattle.std.specs.Prelude.{◌≡◌};

use block_world::{Mark, Slot, Tile};
use field_core::Field;
use phases::{Next, Phase};
use std::alloc::AllocError as NoMemory;

/// A commit under a mark, and nothing before it: a line that drops something, and a command that finds that it can't go on.
#[derive(Drop)]
pub struct EndPhase {
    mark: Mark,
    calls: u32,
}

impl EndPhase {
    /// The phase that commits under a mark.
    pub fn new(mark: Mark) -> EndPhase
        ensures mark { result.mark ≡ mark }
    {
        EndPhase { mark, calls: 0 }
    }
}

impl<K: Field> Phase<K> for EndPhase {
    ghost use Rattle.rank_machine.specs.declared.mark.Mark.{Mark as TheMark};
    ghost use Rattle.plain_phases.specs.Ending.{end_plan, end_progress, EndStands, end_ignores_spawns, end_can_save, end_few_saved, end_follows, end_some_next, end_enough, end_saves_fit, end_has_room};

    ghost Task = { TheMark };

    ghost task = { λ x. x.mark };

    ghost plan = { end_plan };

    ghost progress = { λ x. end_progress x.calls };

    ghost stands = { λ x. EndStands };

    ghost ignores_spawns = { end_ignores_spawns };

    ghost can_save = { end_can_save };

    ghost few_saved = { end_few_saved };

    ghost mark_follows = { end_follows };

    ghost some_next = { end_some_next };

    ghost enough = { end_enough };

    ghost saves_fit = { end_saves_fit };

    ghost has_room = { end_has_room };

    fn start(&mut self) {
        self.calls = 0;
    }

    fn save_at(&self, _i: u32) -> Option<(u32, Slot)> {
        None
    }

    fn next(&mut self, _taken: Option<Tile>) -> Result<Next<K>, NoMemory> {
        self.calls += 1;
        Ok(Next::End)
    }

    fn mark(&self) -> Mark {
        self.mark
    }
}
