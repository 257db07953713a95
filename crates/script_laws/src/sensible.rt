//! The setting of a script that keeps the rules.

ghost use Rattle.std.specs.Prelude.{◌≡◌, ℕ, ◌<◌, true, false, List, Option};
ghost use Rattle.run_data.specs.declared.command.Command.{Command};
ghost use Rattle.rank_machine.specs.declared.mark.Mark.{Mark};
ghost use Rattle.rank_machine.specs.Setting.{is_matrix, factored};
ghost use Rattle.rank_machine.specs.Scripts.{Matrices, setting_of};
ghost use Rattle.rank_machine.specs.Effect.{is_live_matrix};
ghost use Rattle.script_bounds.specs.Accepted.{KeepsRules};
ghost use Rattle.script_lines.specs.Sound.{IsSound};
ghost use Rattle.recovery_laws.specs.Healed.{IsSensible};
ghost use Rattle.script_laws.specs.Lies.{LiesOnGrid};

/// A matrix is live as long as a line factors it: an earlier line made it, and no line between drops it.
pub fn factored_matrices_are_live()
    ensures { (script : List (Option Command)) (files : Matrices) (mark : Mark) → KeepsRules script → mark.ended ≡ false → 0 < factored (setting_of script files) mark.line →
        is_live_matrix (setting_of script files) mark (factored (setting_of script files) mark.line) ≡ true }
{}

/// So the setting of a script that keeps the rules, with files of words, is one that recovery can be told of.
pub fn accepted_scripts_are_sensible()
    ensures { (script : List (Option Command)) (files : Matrices) (p : ℕ) → KeepsRules script → IsSound p (setting_of script files) → IsSensible (setting_of script files) }
{}

/// Each matrix lies on the grid of the number that its descriptor has, and that grid is one of the run: each of its ranks knows it
/// as its own.
pub fn matrices_lie_on_grids_of_the_run()
    ensures { (script : List (Option Command)) (files : Matrices) (p line : ℕ) → KeepsRules script → IsSound p (setting_of script files) → is_matrix (setting_of script files) line ≡ true → LiesOnGrid (setting_of script files) line }
{}
