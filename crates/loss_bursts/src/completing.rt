//! Where no row is beyond repair, and no rank lacks a spare.
ghost use Rattle.std.specs.Prelude.{◌≡◌, ℕ, true, Bool, List, length, IsTrue};
ghost use Rattle.rank_machine.specs.declared.record.Rec.{Rec};
ghost use Rattle.rank_machine.specs.Setting.{Setting};
ghost use Rattle.rank_machine.specs.Effect.{state_after};
ghost use Rattle.rank_machine.specs.Legal.{IsLegal};
ghost use Rattle.rank_machine.specs.Losses.{AreDue, is_beyond_at, LacksSpare};
ghost use Rattle.run_laws.specs.Cuts.{NoneGoesTooFar};
ghost use Rattle.run_laws.specs.Traces.{AllHeal};
ghost use Rattle.loss_bursts.specs.Bursts.{AreSurvivable, HasSparesOf};

/// Where each burst of losses takes at most as many different ranks of a process row as its grid has code columns, and healed commits
/// come in time, no process row is ever beyond repair.
pub fn no_row_is_beyond()
    ensures { (s : Setting) (recovery : ℕ) (cut : Bool) (journal : List Rec) (number row : ℕ) → AreDue s cut journal → NoneGoesTooFar s journal → AllHeal recovery s journal → AreSurvivable s recovery
        → is_beyond_at s (state_after s journal) number row ≡ true → ⊥ }
{}

/// Where there are as many spares as losses, no rank lacks one.
pub fn no_rank_lacks_a_spare()
    ensures { (s : Setting) (cut : Bool) (journal : List Rec) (rank : ℕ) → IsLegal s journal → AreDue s cut journal → HasSparesOf s.spares (length s.losses) → LacksSpare s (state_after s journal) rank → ⊥ }
{}
