//! The lines that the ranks can run so far.
ghost use Rattle.std.specs.Prelude.{◌≡◌};
ghost use Rattle.run_data.specs.Script.{commands_of};
ghost use Rattle.script_rules.specs.Runs.{can_run, first_unrunnable};

use run_data::{Command, Script};

fn can_run(command: &Command) -> bool
    ensures { result ≡ can_run command.now }
{
    match command {
        Command::Grid { .. } => true,
        Command::Matrix { .. } => true,
        Command::Print { .. } => true,
        Command::Discard { .. } => true,
        Command::Topology { .. } => true,
        Command::Links { .. } => true,
        Command::Order { .. } => true,
        Command::Lose { .. } => true,
        Command::Spares { .. } => true,
        Command::Field { .. } => true,
        _ => false,
    }
}

/// The first line, counted from 1, that the ranks can't run so far: they run `grid`, `matrix`, `print`, `drop`, `topology`, `links`,
/// `order`, `lose`, `spares` and `field` lines.
pub fn first_unrunnable(script: &Script) -> Option<u32>
    ensures { result ≡ first_unrunnable (commands_of script.now) }
{
    let lines = script.as_slice();
    for i in 0..script.lines() {
        if let Some(command) = &lines[i as usize] {
            if !can_run(command) {
                return Some(i + 1);
            }
        }
    }
    None
}
