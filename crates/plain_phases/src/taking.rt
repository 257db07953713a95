//! `TakePhase`, takes in a fixed order.
ghost use Rattle.std.specs.Prelude.{◌≡◌, ℕ, ◌++◌, map, OnOk, slice_get, length, [], ◌<◌, ◌^◌};
ghost use Rattle.phases.specs.Plans.{took_with};
ghost use Rattle.plain_phases.specs.Taking.{took_from, asked_after, answer_of};

use block_world::{Mark, Slot, Tile};
use field_core::Field;
use phases::{Next, Phase};
use std::alloc::{AllocError as NoMemory, Global};

/// A tile that the host took, and where.
#[derive(Drop)]
pub struct Got {
    pub rank: u32,
    pub slot: Slot,
    pub tile: Tile,
}

/// Takes the tiles of slots one after another, and commits: a line that prints a matrix or a list.
#[derive(Drop)]
pub struct TakePhase {
    slots: Vec<(u32, Slot)>,
    mark: Mark,
    calls: usize,
    got: Vec<Got>,
}

impl TakePhase {
    /// The phase that takes the tiles of these slots, each with its rank, in order, and commits under a mark.
    pub fn new(alloc: Global, slots: Vec<(u32, Slot)>, mark: Mark) -> TakePhase
        ensures slots { result.slots.items ≡ slots.items }
        ensures mark { result.mark ≡ mark }
    {
        TakePhase {
            slots,
            mark,
            calls: 0,
            got: Vec::new(alloc),
        }
    }

    /// The tiles that were taken since the phase began.
    pub fn got(&self) -> &[Got]
        ensures { result.now ≡ self.now.got.items }
    {
        &self.got
    }

    // The slot that was asked for last.
    fn asked(&self) -> Option<(u32, Slot)>
        ensures { result ≡ asked_after self.now.slots.items self.now.calls }
    {
        if self.calls == 0 || self.slots.len() < self.calls {
            return None;
        }
        Some(self.slots[self.calls - 1])
    }

    // Keeps the tile of the slot that was asked for.
    fn keep(&mut self, taken: Option<Tile>) -> Result<(), NoMemory>
        ensures slots { OnOk result (self.new.slots.items ≡ self.old.slots.items) }
        ensures mark { OnOk result (self.new.mark ≡ self.old.mark) }
        ensures calls { OnOk result (self.new.calls ≡ self.old.calls) }
        ensures got { OnOk result (map (took_from self.old.mark.line) self.new.got.items ≡ map (took_from self.old.mark.line) self.old.got.items ++ took_with self.old.mark.line (asked_after self.old.slots.items self.old.calls) taken) }
    {
        if let (Some((rank, slot)), Some(tile)) = (self.asked(), taken) {
            self.got.push(Got { rank, slot, tile })?;
        }
        Ok(())
    }

    // What is to be done next.
    fn answer<K: Field>(&self) -> Next<K>
        ensures { result ≡ answer_of (slice_get self.now.slots.items self.now.calls) }
    {
        if self.slots.len() <= self.calls {
            return Next::End;
        }
        let (rank, slot) = self.slots[self.calls];
        Next::Take(rank, slot)
    }
}

impl<K: Field> Phase<K> for TakePhase {
    ghost use Rattle.plain_phases.specs.Taking.{TakeTask, take_task, take_plan, take_progress, TakeStands, take_ignores_spawns, take_can_save, take_few_saved, take_follows, take_some_next, take_enough, take_saves_fit, take_has_room};

    ghost Task = { TakeTask };

    ghost task = { λ x. take_task x.slots.items x.mark };

    ghost plan = { take_plan };

    ghost progress = { λ x. take_progress x.slots.items x.mark x.calls x.got.items };

    ghost stands = { λ x. TakeStands (take_task x.slots.items x.mark) x.calls x.got.items };

    ghost ignores_spawns = { take_ignores_spawns };

    ghost can_save = { take_can_save };

    ghost few_saved = { take_few_saved };

    ghost mark_follows = { take_follows };

    ghost some_next = { take_some_next };

    ghost enough = { take_enough };

    ghost saves_fit = { take_saves_fit };

    ghost has_room = { take_has_room };

    fn start(&mut self) {
        self.calls = 0;
        self.got.clear();
    }

    fn save_at(&self, _i: u32) -> Option<(u32, Slot)> {
        None
    }

    fn next(&mut self, taken: Option<Tile>) -> Result<Next<K>, NoMemory> {
        self.keep(taken)?;
        let next = self.answer();
        self.calls += 1;
        Ok(next)
    }

    fn mark(&self) -> Mark {
        self.mark
    }
}
