//! Recoveries under the marks of a journal, and the bound of a script.

ghost use Rattle.std.specs.Prelude.{◌≡◌, ℕ, ◌<◌, ◌≤◌, true, List, Option};
ghost use Rattle.run_data.specs.declared.command.Command.{Command};
ghost use Rattle.run_data.specs.Script.{commands_of};
ghost use Rattle.rank_machine.specs.declared.record.Rec.{Rec};
ghost use Rattle.rank_machine.specs.Setting.{factored, is_matrix};
ghost use Rattle.rank_machine.specs.Scripts.{Matrices, setting_of};
ghost use Rattle.rank_machine.specs.Effect.{state_after};
ghost use Rattle.rank_machine.specs.Legal.{IsLegal};
ghost use Rattle.run_laws.specs.Traces.{recovery_under};
ghost use Rattle.script_bounds.specs.Accepted.{KeepsRules};
ghost use Rattle.script_bounds.specs.Bounds.{recovery_steps};

/// Under the last mark of a legal journal a recovery takes at most as many records as the bound of the script counts for one.
pub fn recoveries_keep_to_the_bound()
    ensures { (script : List (Option Command)) (files : Matrices) (journal : List Rec) → KeepsRules script → IsLegal (setting_of script files) journal →
        recovery_under (setting_of script files) (state_after (setting_of script files) journal).mark ≤ recovery_steps (commands_of script) }
{}

/// What a line factors is a matrix.
pub fn factored_lines_make_matrices()
    ensures { (script : List (Option Command)) (files : Matrices) (line : ℕ) → KeepsRules script → 0 < factored (setting_of script files) line →
        is_matrix (setting_of script files) (factored (setting_of script files) line) ≡ true }
{}
