//! The rules of a `flip` line.
ghost use Rattle.std.specs.Prelude.{◌≡◌, ℕ, ◌/◌, ◌%◌, ◌&&◌, ◌==◌, not};
ghost use Rattle.std.specs.List.{list_all};
ghost use Rattle.run_data.specs.Script.{commands_of};
ghost use Rattle.run_data.specs.Flips.{pending};
ghost use Rattle.script_words.specs.Tables.{first_code};
ghost use Rattle.script_rules.specs.Rules.{group_of, place_of, is_apart, flip_rules};
ghost use Rattle.script_rules.specs.Flipping.{all_after};

use crate::distributions::Distribution;
use run_data::{Command, Script};

// A quotient, which is 0 where the divisor is.
fn quotient(n: u32, by: u32) -> u32
    ensures { result ≡ n / by }
{
    if by == 0 { 0 } else { n / by }
}

// A remainder, which is the number itself where the divisor is 0.
fn remainder(n: u32, by: u32) -> u32
    ensures { result ≡ n % by }
{
    if by == 0 { n } else { n % by }
}

// The group of the block column of a column of a matrix, which counts from 1.
fn group_of(a: Distribution, j: u32) -> u32
    ensures { result ≡ group_of a j }
{
    quotient(quotient(j.saturating_sub(1), a.nb), a.q)
}

// The place of such a column in its block.
fn place_of(a: Distribution, j: u32) -> u32
    ensures { result ≡ place_of a j }
{
    remainder(j.saturating_sub(1), a.nb)
}

// Whether a word of a matrix and one at another row and column may be wrong at once.
fn is_apart(a: Distribution, i: u32, j: u32, row: u32, column: u32) -> bool
    ensures { result ≡ not ((row == i) && not (column == j) && (group_of a column == group_of a j) && (place_of a column == place_of a j)) }
{
    !(row == i
        && column != j
        && group_of(a, column) == group_of(a, j)
        && place_of(a, column) == place_of(a, j))
}

// Whether all pending flips of a name may be there beside a word of its matrix, after one more command, where `before` says it of those before.
fn apart_after(
    command: &Command,
    name: &[u8],
    a: Distribution,
    i: u32,
    j: u32,
    before: bool,
) -> bool
    ensures { (line : ℕ) → result ≡ all_after line command.now name.now (is_apart a i j) before }
{
    match command {
        Command::Flip {
            name: flipped,
            i: row,
            j: column,
            ..
        } if flipped.bytes() == name => before && is_apart(a, i, j, *row, *column),
        Command::Pverify { name: verified } if verified.bytes() == name => true,
        Command::Discard { name: dropped } if dropped.bytes() == name => true,
        _ => before,
    }
}

// Whether all pending flips of a name as seen from a line may be there beside a word of its matrix.
fn are_apart(script: &Script, line: u32, name: &[u8], a: Distribution, i: u32, j: u32) -> bool
    ensures { result ≡ list_all (is_apart a i j) (pending (commands_of script.now) line name.now) }
{
    let lines = script.as_slice();
    let mut apart = true;
    for at in 0..script.lines() {
        if let Some(command) = &lines[at as usize] {
            if at + 1 < line {
                apart = apart_after(command, name, a, i, j, apart);
            }
        }
    }
    apart
}

/// The first broken rule of a `flip` line that adds `x` to the word at row `i` and column `j` of the matrix of a name, over the field of modulus p.
pub fn flip_code(
    p: u32,
    script: &Script,
    line: u32,
    name: &[u8],
    a: Distribution,
    i: u32,
    j: u32,
    x: u32,
) -> Option<i32>
    ensures { result ≡ first_code (flip_rules p a (pending (commands_of script.now) line name.now) i j x) }
{
    if i < 1 || a.m < i || j < 1 || a.n < j || p <= x {
        return Some(8);
    }
    if a.f < 2 {
        return Some(23);
    }
    if are_apart(script, line, name, a, i, j) {
        None
    } else {
        Some(24)
    }
}
