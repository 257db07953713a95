//! The states on the way of a round, by how many of its events have been taken.

ghost use Rattle.std.specs.Prelude.{◌≡◌, ◌<◌, ℕ, true, List, take};
ghost use Rattle.rank_machine.specs.declared.slot.SlotKind.TheVariants.{Pivots};
ghost use Rattle.rank_machine.specs.Setting.{Setting, layout, factored, group_count};
ghost use Rattle.rank_machine.specs.State.{State};
ghost use Rattle.rank_machine.specs.Effect.{is_live_matrix, is_live_list, replay};
ghost use Rattle.rank_machine.specs.CodeLaw.{slot_at};
ghost use Rattle.rank_slots.specs.Stands.{records_of};
ghost use Rattle.run_laws.specs.Traces.{HoldFrom};
ghost use Rattle.phase_words.specs.Resting.{IsMeasured};
ghost use Rattle.recovery_rounds.specs.Mending.{copy_events};
ghost use Rattle.recovery_rounds.specs.Rows.{row_events, IsHealing, ReachAllLost};
ghost use Rattle.recovery_words.specs.Roomy.{IsRoomy};

/// In the round of a process row and a group of a live matrix, whatever the coefficients are.
pub fn rounds_stay_roomy()
    ensures { (s : Setting) (last now : State) (line row group : ℕ) (coefficients : ℕ → List ℕ) → IsHealing s last now → is_live_matrix s last.mark line ≡ true → row < (layout s line).grid.p → group < group_count (layout s line) → IsRoomy s last now →
        (k : ℕ) → IsRoomy s last (replay s now (records_of (take k (row_events s last now line row group coefficients)))) }
{}

/// And at its end.
pub fn rounds_end_roomy()
    ensures { (s : Setting) (last now : State) (line row group : ℕ) (coefficients : ℕ → List ℕ) → IsHealing s last now → is_live_matrix s last.mark line ≡ true → row < (layout s line).grid.p → group < group_count (layout s line) → IsRoomy s last now →
        IsRoomy s last (replay s now (records_of (row_events s last now line row group coefficients))) }
{}

/// So in each state that its records lead through each rank holds at most what it may.
pub fn rounds_hold()
    ensures { (s : Setting) (last now : State) (line row group : ℕ) (coefficients : ℕ → List ℕ) → IsMeasured s last → IsHealing s last now → is_live_matrix s last.mark line ≡ true → row < (layout s line).grid.p → group < group_count (layout s line) → IsRoomy s last now →
        HoldFrom s now (records_of (row_events s last now line row group coefficients)) }
{}

/// In the round of the copies of a live list.
pub fn copies_stay_roomy()
    ensures { (s : Setting) (last now : State) (line : ℕ) (pairs : List (ℕ × ℕ)) → IsHealing s last now → is_live_list s last.mark line ≡ true → ReachAllLost now (layout s (factored s line)).grid pairs → IsRoomy s last now →
        (k : ℕ) → IsRoomy s last (replay s now (records_of (take k (copy_events (slot_at Pivots line 0) pairs)))) }
{}

/// And at its end.
pub fn copies_end_roomy()
    ensures { (s : Setting) (last now : State) (line : ℕ) (pairs : List (ℕ × ℕ)) → IsHealing s last now → is_live_list s last.mark line ≡ true → ReachAllLost now (layout s (factored s line)).grid pairs → IsRoomy s last now →
        IsRoomy s last (replay s now (records_of (copy_events (slot_at Pivots line 0) pairs))) }
{}

/// So in each state that its records lead through each rank holds at most what it may.
pub fn copies_hold()
    ensures { (s : Setting) (last now : State) (line : ℕ) (pairs : List (ℕ × ℕ)) → IsMeasured s last → IsHealing s last now → is_live_list s last.mark line ≡ true → ReachAllLost now (layout s (factored s line)).grid pairs → IsRoomy s last now →
        HoldFrom s now (records_of (copy_events (slot_at Pivots line 0) pairs)) }
{}
