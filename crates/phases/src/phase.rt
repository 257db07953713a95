//! `Phase`, what happens between two commits.
ghost use Rattle.std.specs.Prelude.{◌≡◌, ℕ, ◌+◌, ◌<◌, ◌≤◌, ◌^◌, List, true, length, slice_get, IfOk, OnOk, IsTrue};
ghost use Rattle.rank_machine.specs.Setting.{Setting};
ghost use Rattle.rank_machine.specs.State.{State};
ghost use Rattle.rank_machine.specs.Effect.{replay};
ghost use Rattle.rank_machine.specs.Legal.{IsLegalFrom};
ghost use Rattle.rank_machine.specs.Marks.{follows};
ghost use Rattle.phases.specs.Plans.{Plan, Progress, IgnoresSpawns, at_start, after_next, handed, saves, CanStart, GoesOn};
ghost use Rattle.phases.specs.Words.{AddThrough, HasRoom};

use block_world::{Mark, Mat, RankMem, Round, Slot, Tile};
use field_core::Field;
use std::alloc::AllocError as NoMemory;

/// What a phase has done next.
#[derive(Drop)]
pub enum Next<K: Field> {
    /// The events of a round.
    Round(Round<RankMem<K>>),
    /// A rank gets the strip of its slot from the file.
    Feed(u32, Slot, Mat),
    /// The host takes what a slot of a rank holds, and hands it over at the next call.
    Take(u32, Slot),
    /// Nothing more: the phase commits.
    End,
}

/// What happens between two commits, made so that it can begin again from the first of them.
pub trait Phase<K: Field> {
    /// What a phase is made for; it never changes.
    ghost Task: { Type 0 };

    ghost task: { Self → Task };

    /// What the task means.
    ghost plan: { Task → Plan };

    /// What it has answered since `start`.
    ghost progress: { Self → Progress };

    /// In which states the phase may go on: that of the last commit, and the one now.
    ghost stands: { Self → Setting → State → State → Type 0 };

    /// Begins, or begins again.
    fn start(&mut self)
        ensures same_task { task self.new ≡ task self.old }
        ensures at_start { progress self.new ≡ at_start }
        ensures stands { (s : Setting) (base : State) → CanStart (plan (task self.old)) s base → stands self.new s base (replay s base (saves (plan (task self.old)).listed)) };

    /// The slots that the phase changes, one after another.
    fn save_at(&self, i: u32) -> Option<(u32, Slot)>
        ensures { result ≡ slice_get (plan (task self.now)).listed i };

    /// What is to be done next. It is handed the tile of the take that it asked for last.
    fn next(&mut self, taken: Option<Tile>) -> Result<Next<K>, NoMemory>
        requires { (progress self.old).nexts < (plan (task self.old)).most_nexts }
        ensures same_task { OnOk result (task self.new ≡ task self.old) }
        ensures progress { IfOk result (λ next. progress self.new ≡ after_next (plan (task self.old)).mark.line (progress self.old) taken next) }
        ensures goes_on { IfOk result (λ next. (s : Setting) (base now : State) → CanStart (plan (task self.old)) s base → stands self.old s base now → taken ≡ handed now (progress self.old).asked
            → GoesOn (plan (task self.old)) (stands self.new) (progress self.new) s base now next) };

    /// The mark under which the phase commits.
    fn mark(&self) -> Mark
        ensures { result ≡ (plan (task self.now)).mark };

    /// How many ranks were spawned is nothing to it: a recovery leads back to a state in which more were.
    ghost ignores_spawns: { (x : Task) → IgnoresSpawns (plan x) };

    /// The listed slots can be saved.
    ghost can_save: { (x : Task) (s : Setting) (base : State) → CanStart (plan x) s base → IsLegalFrom s base (saves (plan x).listed) };

    ghost few_saved: { (x : Task) (s : Setting) (base : State) → CanStart (plan x) s base → length (plan x).listed < 2 ^ 32 };

    /// The mark may follow the last one.
    ghost mark_follows: { (x : Task) (s : Setting) (base : State) → CanStart (plan x) s base → IsTrue (follows s base.mark (plan x).mark) };

    /// It has something to say, and records for its saves and its commit.
    ghost some_next: { (x : Task) (s : Setting) (base : State) → CanStart (plan x) s base → 0 < (plan x).most_nexts };

    ghost enough: { (x : Task) (s : Setting) (base : State) → CanStart (plan x) s base → length (plan x).listed + 1 ≤ (plan x).most_records };

    /// The saves, and the words that the phase adds, have room on each rank.
    ghost saves_fit: { (x : Task) (s : Setting) (base : State) → CanStart (plan x) s base → AddThrough (plan x).most_words s base base (saves (plan x).listed) };

    ghost has_room: { (x : Task) (s : Setting) (base : State) → CanStart (plan x) s base → HasRoom (plan x).most_words s base };
}
