//! Where the run may go on, few ranks of each process row were lost, and at most all are replaced.

ghost use Rattle.std.specs.Prelude.{◌≡◌, ℕ, ◌<◌, ◌≤◌, true, length};
ghost use Rattle.rank_machine.specs.declared.layout.Layout.{Layout};
ghost use Rattle.rank_machine.specs.Setting.{Setting, layout, factored, grid_numbered};
ghost use Rattle.rank_machine.specs.State.{State};
ghost use Rattle.rank_machine.specs.Effect.{is_live_matrix, is_live_list};
ghost use Rattle.rank_machine.specs.Losses.{lost_now};
ghost use Rattle.run_laws.specs.Cuts.{IsWithin};
ghost use Rattle.recovery_counts.specs.Counted.{FewAreLost};

/// On the grid of a live matrix, where no process row is beyond repair.
pub fn few_are_lost_of_a_matrix()
    ensures { (s : Setting) (state : State) (line : ℕ) → IsWithin s state → is_live_matrix s state.mark line ≡ true →
        (layout s line).desc.ctxt < length s.grids → (layout s line).grid ≡ grid_numbered s (layout s line).desc.ctxt →
        FewAreLost state (layout s line) }
{}

/// On the grid of a live list.
pub fn few_are_lost_of_a_list()
    ensures { (s : Setting) (state : State) (line : ℕ) → IsWithin s state → is_live_list s state.mark line ≡ true →
        (layout s (factored s line)).desc.ctxt < length s.grids → (layout s (factored s line)).grid ≡ grid_numbered s (layout s (factored s line)).desc.ctxt →
        FewAreLost state (layout s (factored s line)) }
{}

/// And after records that lose no rank.
pub fn few_are_lost_later()
    ensures { (before now : State) (matrix : Layout) → ((rank : ℕ) → now.lost rank ≡ before.lost rank) → FewAreLost before matrix → FewAreLost now matrix }
{}

/// Of the ranks below a number, at most all are lost now.
pub fn few_are_lost_now()
    ensures { (state : State) (n : ℕ) → lost_now state n ≤ n }
{}
