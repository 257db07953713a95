//! A script of one grid of one rank, with a matrix of one word that is fed and printed, and no losses.
ghost use Rattle.std.specs.Prelude.{◌≡◌, [], true, IfOk};
ghost use Rattle.world_tests.specs.OneWord as word;
ghost use Rattle.world_tests.specs.Play.{may_play};

use crate::fixture::{Left, grid_line, left_of, matrix_line, print_line};
use crate::play::play;
use array_desc::Desc;
use blacs_grid::Grid;
use block_world::{Files, Mat, Rec, Script, World};
use field_core::F65537;
use script_lines::Layout;
use std::alloc::{AllocError, Global};

#[tactic(auto, unfolding(run_data::specs::Matrix::tabulate, crate::specs::OneWord::matrix))]
fn matrix_of(alloc: Global) -> Result<Mat, AllocError>
    ensures { IfOk result (λ m. m ≡ word.matrix) }
{
    let mut m = Mat::zeros(alloc, 1, 1)?;
    m.set(0, 0, 7);
    Ok(m)
}

#[tactic(auto, unfolding(crate::specs::OneWord::files))]
fn files_of(alloc: Global) -> Result<Files, AllocError>
    ensures { IfOk result (λ f. f ≡ word.files) }
{
    let mut result = Files::new(alloc);
    result.put(2, matrix_of(alloc)?)?;
    Ok(result)
}

fn fixture_layout() -> Layout
    ensures { result ≡ word.where_it_lies }
{
    Layout {
        grid: Grid {
            p: 1,
            q: 1,
            f: 0,
            first: 0,
        },
        desc: Desc {
            dtype: 1,
            ctxt: 0,
            m: 1,
            n: 1,
            mb: 1,
            nb: 1,
            rsrc: 0,
            csrc: 0,
            lld: 1,
        },
    }
}

#[tactic(auto, unfolding(crate::specs::OneWord::lines))]
fn script_of(alloc: Global) -> Result<Script, AllocError>
    ensures { IfOk result (λ s. s ≡ word.lines) }
{
    let mut script = Script::new(alloc);
    script.push(grid_line(alloc, b"g")?)?;
    script.push(matrix_line(alloc, b"A", b"g", 1, 1, b"a")?)?;
    script.push(print_line(alloc, b"A")?)?;
    Ok(script)
}

/// Plays records in a world with room for five.
pub fn played_word(alloc: Global, records: &[Rec]) -> Result<Left, AllocError>
    requires legal { may_play word.setting [] records.now ≡ true }
{
    let script = script_of(alloc)?;
    let files = files_of(alloc)?;
    let m = matrix_of(alloc)?;
    let mut taken = Vec::new(alloc);
    let mut world = World::<F65537>::open(alloc, &script, &files, &[], 5)?;
    play(alloc, &mut world, &m, fixture_layout(), records, &mut taken)?;
    left_of(alloc, &world, taken)
}
