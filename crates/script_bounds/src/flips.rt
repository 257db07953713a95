//! How many flips are pending.
ghost use Rattle.std.specs.Prelude.{◌≡◌, ◌+◌, ◌≤◌, length};
ghost use Rattle.run_data.specs.Script.{commands_of};
ghost use Rattle.run_data.specs.Flips.{pending};
ghost use Rattle.script_bounds.specs.Flipping.{count_after};

use run_data::{Command, Script};

// The number of pending flips of a name after one more command, where so many are pending before it.
fn flips_after(command: &Command, name: &[u8], before: u32) -> u32
    requires { before ≤ 4096 }
    ensures value { result ≡ count_after command.now name.now before }
    ensures few { result ≤ before + 1 }
{
    match command {
        Command::Flip { name: flipped, .. } if flipped.bytes() == name => before + 1,
        Command::Pverify { name: verified } if verified.bytes() == name => 0,
        Command::Discard { name: dropped } if dropped.bytes() == name => 0,
        _ => before,
    }
}

/// The number of pending flips of a name as seen from a line.
pub fn pending_flips(script: &Script, line: u32, name: &[u8]) -> u32
    requires { length script.now ≤ 4096 }
    ensures value { result ≡ length (pending (commands_of script.now) line name.now) }
    ensures few { result ≤ 4096 }
{
    let lines = script.as_slice();
    let mut flips = 0;
    for i in 0..lines.len() {
        if let Some(command) = &lines[i] {
            if i + 1 < line as usize {
                flips = flips_after(command, name, flips);
            }
        }
    }
    flips
}
