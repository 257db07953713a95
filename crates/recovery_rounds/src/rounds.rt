//! The rounds.

ghost use Rattle.std.specs.Prelude.{◌≡◌, ℕ, ◌<◌, true, false, nat_lt, List};
ghost use Rattle.blacs_grid.specs.Places.{width, rank_at};
ghost use Rattle.rank_machine.specs.declared.slot.Slot.{Slot};
ghost use Rattle.rank_machine.specs.declared.slot.SlotKind.TheVariants.{Pivots};
ghost use Rattle.rank_machine.specs.declared.record.Rec.TheVariants as r;
ghost use Rattle.rank_machine.specs.Setting.{Setting, ranks, layout, factored, group_count};
ghost use Rattle.rank_machine.specs.State.{State, same_slot};
ghost use Rattle.rank_machine.specs.Effect.{is_live_matrix, is_live_list, after, replay};
ghost use Rattle.rank_machine.specs.CodeLaw.{slot_at};
ghost use Rattle.rank_machine.specs.Legal.{some_lost, IsLegalFrom, IsCommit};
ghost use Rattle.rank_slots.specs.Stands.{records_of};
ghost use Rattle.round_laws.specs.Turns.{IsGridOf};
ghost use Rattle.recovery_laws.specs.Healed.{FallsBack, IsSensible, IsLast};
ghost use Rattle.recovery_rounds.specs.Mending.{copy_events};
ghost use Rattle.recovery_rounds.specs.Rows.{row_events, IsHealing, AreCoefficients, IsRowHealed, LeavesOthers, IsElsewhere, IsListHealed, IsAllHealed, ReachAllLost, spawn_records};

/// After a restore and spawns, once every rank is live, a recovery may begin.
pub fn a_recovery_begins()
    ensures { (s : Setting) (last now : State) (lost : List ℕ) → IsSensible s → IsLast s last → FallsBack last now → some_lost s now ≡ true → 0 < s.capacity →
        ((rank : ℕ) → (replay s (after s now r.Restore) (spawn_records lost)).live rank ≡ nat_lt rank (ranks s)) →
        IsHealing s last (replay s (after s now r.Restore) (spawn_records lost)) }
{}

/// The round of a process row and a group of a live matrix is legal.
pub fn rounds_are_legal()
    ensures { (s : Setting) (last now : State) (line row group : ℕ) (coefficients : ℕ → List ℕ) → IsHealing s last now → is_live_matrix s last.mark line ≡ true → IsGridOf s (layout s line).grid → row < (layout s line).grid.p → group < group_count (layout s line) → AreCoefficients s now (layout s line).grid row coefficients →
        IsLegalFrom s now (records_of (row_events s last now line row group coefficients)) }
{}

/// It leaves the strips of the last commit on that row.
pub fn rounds_heal_their_row()
    ensures { (s : Setting) (last now : State) (line row group : ℕ) (coefficients : ℕ → List ℕ) → IsHealing s last now → is_live_matrix s last.mark line ≡ true → IsGridOf s (layout s line).grid → row < (layout s line).grid.p → group < group_count (layout s line) → AreCoefficients s now (layout s line).grid row coefficients →
        IsRowHealed s last (replay s now (records_of (row_events s last now line row group coefficients))) line row group }
{}

/// It leaves other ranks and other slots as they are.
pub fn rounds_leave_the_rest()
    ensures { (s : Setting) (last now : State) (line row group : ℕ) (coefficients : ℕ → List ℕ) → IsHealing s last now → is_live_matrix s last.mark line ≡ true → IsGridOf s (layout s line).grid → row < (layout s line).grid.p → group < group_count (layout s line) → AreCoefficients s now (layout s line).grid row coefficients →
        LeavesOthers s last now (replay s now (records_of (row_events s last now line row group coefficients))) line row group }
{}

/// And the recovery goes on from there.
pub fn rounds_follow_rounds()
    ensures { (s : Setting) (last now : State) (line row group : ℕ) (coefficients : ℕ → List ℕ) → IsHealing s last now → is_live_matrix s last.mark line ≡ true → IsGridOf s (layout s line).grid → row < (layout s line).grid.p → group < group_count (layout s line) → AreCoefficients s now (layout s line).grid row coefficients →
        IsHealing s last (replay s now (records_of (row_events s last now line row group coefficients))) }
{}

/// What another round healed stays healed.
pub fn healed_rows_stay()
    ensures { (s : Setting) (last now then : State) (line row group : ℕ) → LeavesOthers s last now then line row group → (other_line other_row other_group : ℕ) → IsGridOf s (layout s other_line).grid → other_row < (layout s other_line).grid.p → IsElsewhere line row group other_line other_row other_group →
        IsRowHealed s last now other_line other_row other_group → IsRowHealed s last then other_line other_row other_group }
{}

/// Copies of a live list, to each lost rank of its grid from ranks that were not lost, are legal.
pub fn copies_are_legal()
    ensures { (s : Setting) (last now : State) (line : ℕ) (pairs : List (ℕ × ℕ)) → IsHealing s last now → is_live_list s last.mark line ≡ true → IsGridOf s (layout s (factored s line)).grid → ReachAllLost now (layout s (factored s line)).grid pairs →
        IsLegalFrom s now (records_of (copy_events (slot_at Pivots line 0) pairs)) }
{}

/// They leave the list on every rank of the grid.
pub fn copies_heal_their_list()
    ensures { (s : Setting) (last now : State) (line : ℕ) (pairs : List (ℕ × ℕ)) → IsHealing s last now → is_live_list s last.mark line ≡ true → IsGridOf s (layout s (factored s line)).grid → ReachAllLost now (layout s (factored s line)).grid pairs →
        IsListHealed s last (replay s now (records_of (copy_events (slot_at Pivots line 0) pairs))) line }
{}

/// They leave all other slots as they are.
pub fn copies_leave_the_rest()
    ensures { (s : Setting) (last now : State) (line : ℕ) (pairs : List (ℕ × ℕ)) → IsHealing s last now → is_live_list s last.mark line ≡ true → IsGridOf s (layout s (factored s line)).grid → ReachAllLost now (layout s (factored s line)).grid pairs →
        (a : ℕ) (slot : Slot) → a < ranks s → same_slot slot (slot_at Pivots line 0) ≡ false →
        (replay s now (records_of (copy_events (slot_at Pivots line 0) pairs))).tiles a slot ≡ now.tiles a slot }
{}

/// And the recovery goes on from there.
pub fn rounds_follow_copies()
    ensures { (s : Setting) (last now : State) (line : ℕ) (pairs : List (ℕ × ℕ)) → IsHealing s last now → is_live_list s last.mark line ≡ true → IsGridOf s (layout s (factored s line)).grid → ReachAllLost now (layout s (factored s line)).grid pairs →
        IsHealing s last (replay s now (records_of (copy_events (slot_at Pivots line 0) pairs))) }
{}

/// Once everything live is healed, the healed commit is legal.
pub fn the_healed_commit_is_legal()
    ensures { (s : Setting) (last now : State) → IsHealing s last now → IsAllHealed s last now → IsCommit s now last.mark true }
{}

/// So it leads back to the state of the last commit, from which a phase can be driven again; only more ranks count as spawned.
pub fn the_healed_commit_leads_back()
    ensures { (s : Setting) (last now : State) → IsHealing s last now → IsAllHealed s last now → after s now (r.Commit last.mark true) ≡ record last { spawned = now.spawned } }
{}

/// A row in which no rank was lost needs no round.
pub fn rows_without_losses_are_whole()
    ensures { (s : Setting) (last now : State) (line row group : ℕ) → IsHealing s last now → IsGridOf s (layout s line).grid → row < (layout s line).grid.p → ((col : ℕ) → col < width (layout s line).grid → now.lost (rank_at (layout s line).grid row col) ≡ false) →
        IsRowHealed s last now line row group }
{}
