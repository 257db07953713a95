//! The states before and after the rounds.

ghost use Rattle.std.specs.Prelude.{◌≡◌, ℕ, true, false, List};
ghost use Rattle.rank_machine.specs.declared.slot.Slot.{Slot};
ghost use Rattle.rank_machine.specs.declared.mark.Mark.{Mark};
ghost use Rattle.rank_machine.specs.declared.record.Rec.TheVariants as r;
ghost use Rattle.rank_machine.specs.Setting.{Setting};
ghost use Rattle.rank_machine.specs.State.{State, same_slot};
ghost use Rattle.rank_machine.specs.Effect.{after, replay, is_live};
ghost use Rattle.rank_machine.specs.Held.{size_of};
ghost use Rattle.run_laws.specs.LastCommit.{IsRest};
ghost use Rattle.run_laws.specs.Traces.{AllHold};
ghost use Rattle.phase_words.specs.Resting.{IsMeasured};
ghost use Rattle.recovery_laws.specs.Healed.{FallsBack};
ghost use Rattle.recovery_rounds.specs.Mending.{brought};
ghost use Rattle.recovery_rounds.specs.Rows.{spawn_records};
ghost use Rattle.recovery_words.specs.Roomy.{IsRoomy};

/// In a state in which no rank holds more than at the last commit, but for a strip in its work slot, each holds at most what it may.
pub fn roomy_states_hold()
    ensures { (s : Setting) (last now : State) → IsMeasured s last → IsRest s last → now.mark ≡ last.mark → IsRoomy s last now → AllHold s now }
{}

/// All words of such a state are in slots that were live at the last commit, and in work slots.
pub fn words_lie_in_live_slots()
    ensures { (s : Setting) (last now : State) → IsRest s last → IsRoomy s last now → (rank : ℕ) (slot : Slot) → is_live s last.mark rank slot ≡ false → same_slot slot brought ≡ false → size_of (now.tiles rank slot) ≡ 0 }
{}

/// After a restore and any spawns the state is such a one.
pub fn recoveries_begin_roomy()
    ensures { (s : Setting) (last now : State) (lost : List ℕ) → FallsBack last now → IsRoomy s last (replay s (after s now r.Restore) (spawn_records lost)) }
{}

/// And it stays one when a rank is lost.
pub fn losses_stay_roomy()
    ensures { (s : Setting) (last now : State) (rank : ℕ) → IsRoomy s last now → IsRoomy s last (after s now (r.Lose rank)) }
{}

/// After a restore each rank holds at most what it may, if it did before.
pub fn restores_hold()
    ensures { (s : Setting) (now : State) → AllHold s now → AllHold s (after s now r.Restore) }
{}

/// After a spawn.
pub fn spawns_hold()
    ensures { (s : Setting) (now : State) (rank : ℕ) → AllHold s now → AllHold s (after s now (r.Spawn rank)) }
{}

/// After a loss.
pub fn losses_hold()
    ensures { (s : Setting) (now : State) (rank : ℕ) → AllHold s now → AllHold s (after s now (r.Lose rank)) }
{}

/// After the healed commit, which is under the last mark.
pub fn healed_commits_hold()
    ensures { (s : Setting) (now : State) (mark : Mark) → now.mark ≡ mark → AllHold s now → AllHold s (after s now (r.Commit mark true)) }
{}
