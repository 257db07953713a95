//! The field of a script that keeps the rules.

ghost use Rattle.std.specs.Prelude.{◌≡◌, ◌⊎◌, List, Option};
ghost use Rattle.field_core.specs.Residue.{IsPrime};
ghost use Rattle.run_data.specs.declared.command.Command.{Command};
ghost use Rattle.run_data.specs.Script.{commands_of, modulus_of};
ghost use Rattle.script_bounds.specs.Accepted.{KeepsRules};

/// The words of its run are those modulo one of two numbers.
pub fn accepted_scripts_have_one_of_two_fields()
    ensures { (script : List (Option Command)) → KeepsRules script → (modulus_of (commands_of script) ≡ 65537) ⊎ (modulus_of (commands_of script) ≡ 65521) }
{}

/// So they are modulo a prime.
pub fn accepted_scripts_have_prime_fields()
    ensures { (script : List (Option Command)) → KeepsRules script → IsPrime (modulus_of (commands_of script)) }
{}
