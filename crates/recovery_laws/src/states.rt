//! States between a loss and its healed commit.

ghost use Rattle.std.specs.Prelude.{◌≡◌, ℕ, ◌/◌, ◌<◌, true, false, nat_lt, None, List};
ghost use Rattle.rank_machine.specs.declared.slot.Slot.{Slot};
ghost use Rattle.rank_machine.specs.declared.mark.Mark.{Mark};
ghost use Rattle.rank_machine.specs.declared.record.Rec.{Rec};
ghost use Rattle.rank_machine.specs.declared.record.Rec.TheVariants as r;
ghost use Rattle.rank_machine.specs.Setting.{Setting, ranks, layout, blocks, group_count, block_at};
ghost use Rattle.rank_machine.specs.State.{State};
ghost use Rattle.rank_machine.specs.Effect.{is_live_matrix, after, state_after};
ghost use Rattle.rank_machine.specs.CodeLaw.{has_open, CodeLaw};
ghost use Rattle.rank_machine.specs.Legal.{IsLegalRec, IsLegal};
ghost use Rattle.recovery_laws.specs.Recovery.{is_closed_block, IsCommitted};
ghost use Rattle.recovery_laws.specs.Healed.{HoldAlike, FallsBack, IsMarkOf, IsSensible, IsLast, AreRebuilt};
ghost use Rattle.run_laws.specs.LastCommit.{is_commit, rest_after, IsRest};

/// Every legal record but Commit keeps what ranks fall back to.
pub fn records_leave_what_ranks_fall_back_to()
    ensures { (last now : State) (s : Setting) (x : Rec) → is_commit x ≡ false → IsLegalRec s now x → FallsBack last now → FallsBack last (after s now x) }
{}

/// After a restore, ranks that were not lost hold what they held at the last commit.
pub fn ranks_are_restored()
    ensures { (last now : State) (s : Setting) (rank : ℕ) (slot : Slot) → FallsBack last now → now.lost rank ≡ false → (after s now r.Restore).tiles rank slot ≡ last.tiles rank slot }
{}

/// And ranks that were lost hold nothing.
pub fn lost_ranks_hold_nothing()
    ensures { (last now : State) (s : Setting) (rank : ℕ) (slot : Slot) → FallsBack last now → now.lost rank ≡ true → (after s now r.Restore).tiles rank slot ≡ None }
{}

/// The code law holds again where the live slots hold the same.
pub fn the_law_holds_again()
    ensures { (s : Setting) (last now : State) (mark : Mark) → IsSensible s →
        HoldAlike s mark last now → CodeLaw s last mark → CodeLaw s now mark }
{}

/// Then a healed commit leaves on every rank exactly what the last commit left.
pub fn a_healed_commit_leaves_the_same()
    ensures { (s : Setting) (last now : State) (rank : ℕ) (slot : Slot) → HoldAlike s last.mark last now → IsRest s last → (after s now (r.Commit last.mark true)).tiles rank slot ≡ last.tiles rank slot }
{}

/// In a legal journal the state of the last commit is at rest, holds residues and has a mark whose numbers fit; and ranks fall
/// back to it.
pub fn the_last_commit_is_known()
    ensures { (s : Setting) (journal : List Rec) → IsSensible s → IsLegal s journal → IsLast s (rest_after s journal) × FallsBack (rest_after s journal) (state_after s journal) }
{}

/// So the laws on lost strips can be used with it.
pub fn the_last_commit_serves()
    ensures { (s : Setting) (last : State) (line : ℕ) → IsSensible s → IsLast s last → is_live_matrix s last.mark line ≡ true → IsCommitted s last last.mark line (layout s line) }
{}

/// Where Data, Code, Low, Open and Pivots are equal, all live slots are.
pub fn rebuilt_slots_are_all()
    ensures { (s : Setting) (mark : Mark) (last now : State) → IsSensible s → IsMarkOf s mark → AreRebuilt s mark last now → HoldAlike s mark last now }
{}

/// In a legal journal no rank is live but those of the run.
pub fn no_other_ranks_are_live()
    ensures { (s : Setting) (journal : List Rec) (rank : ℕ) → IsLegal s journal → nat_lt rank (ranks s) ≡ false → (state_after s journal).live rank ≡ false }
{}

/// The group of the open panel is one of the matrix's groups.
pub fn the_open_group_is_there()
    ensures { (s : Setting) (mark : Mark) (line : ℕ) → IsSensible s → IsMarkOf s mark → has_open s mark line ≡ true → mark.closed / (layout s line).grid.q < group_count (layout s line) }
{}

/// A block column that is cut is one of the matrix's.
pub fn closed_blocks_are_there()
    ensures { (s : Setting) (mark : Mark) (line group col : ℕ) → IsSensible s → IsMarkOf s mark → is_closed_block s mark line (layout s line) group col ≡ true → block_at (layout s line) group col < blocks (layout s line) }
{}
