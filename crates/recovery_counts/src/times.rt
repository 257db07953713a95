//! What the records of a recovery cost where losses fall in the midst of it, and that its healed commit comes in time.

ghost use Rattle.std.specs.Prelude.{◌≡◌, ℕ, ◌+◌, ◌<◌, ◌≤◌, ◌++◌, ◌∷◌, [], true, List, length, All};
ghost use Rattle.rank_machine.specs.declared.mark.Mark.{Mark};
ghost use Rattle.rank_machine.specs.declared.record.Loss.{Loss};
ghost use Rattle.rank_machine.specs.declared.record.Rec.{Rec};
ghost use Rattle.rank_machine.specs.declared.record.Rec.TheVariants.{Commit};
ghost use Rattle.rank_machine.specs.Setting.{Setting};
ghost use Rattle.rank_machine.specs.Losses.{is_numbered, falls};
ghost use Rattle.run_laws.specs.Due.{numbered, has_fallen};
ghost use Rattle.run_laws.specs.Traces.{spent, AllHeal, AllHealSoFar};

/// A recovery, whole or cut short by a loss, costs no more than its records.
pub fn an_attempt_costs_its_records()
    ensures { (cost : ℕ) (s : Setting) (journal added : List Rec) → numbered added ≤ cost → spent cost s (journal ++ added) ≤ spent cost s journal + cost }
{}

/// Where losses cut it short, the recovery begins again, and so does the time.
pub fn losses_begin_it_again()
    ensures { (recovery : ℕ) (s : Setting) (journal added : List Rec) (losses : List Loss) (at : ℕ) → AllHealSoFar recovery s journal → has_fallen journal ≡ true →
        All (λ x. is_numbered x ≡ true) added → length added < recovery →
        AllHealSoFar recovery s (journal ++ (added ++ falls losses at)) }
{}

/// Where none do, the healed commit is in time.
pub fn the_healed_commit_is_in_time()
    ensures { (recovery : ℕ) (s : Setting) (journal added : List Rec) (mark : Mark) → AllHealSoFar recovery s journal → has_fallen journal ≡ true →
        All (λ x. is_numbered x ≡ true) added → length added < recovery →
        AllHeal recovery s (journal ++ (added ++ Commit mark true ∷ [])) }
{}
