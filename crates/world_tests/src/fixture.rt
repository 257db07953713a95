//! A script of two grids of one rank each, with a matrix on the first that is fed and printed, and two losses.
ghost use Rattle.std.specs.Prelude.{◌≡◌, ◌<◌, [], true, IfOk};
ghost use Rattle.world_tests.specs.OneMatrix.{files, limit, lines, matrix, setting, where_it_lies};
ghost use Rattle.world_tests.specs.Play.{may_play};

use crate::play::play;
use array_desc::Desc;
use blacs_grid::Grid;
use block_world::{Command, Files, Loss, Mat, Rec, Script, Slot, SlotKind, Word, World};
use field_core::F65537;
use journal_text::journal_text;
use script_lines::Layout;
use std::alloc::{AllocError, Global};

/// The slot of the matrix.
pub const A: Slot = Slot {
    kind: SlotKind::Data,
    id: 2,
    group: 0,
};

/// What a run leaves of each rank, and of the world.
#[derive(Drop)]
pub struct Left {
    pub text: Vec<u8>,
    pub live: [bool; 2],
    pub words: [u64; 2],
    pub spawns: u32,
    pub spares: Option<u32>,
    /// Whether rank 0 holds the matrix.
    pub holds: bool,
    pub steps: u32,
    pub room: u32,
    /// The words of what was taken, one tile after another.
    pub taken: Vec<u32>,
}

#[tactic(auto, unfolding(run_data::specs::Matrix::tabulate, crate::specs::OneMatrix::matrix))]
fn matrix_of(alloc: Global) -> Result<Mat, AllocError>
    ensures { IfOk result (λ m. m ≡ matrix) }
{
    let mut m = Mat::zeros(alloc, 2, 3)?;
    m.set(0, 0, 7);
    Ok(m)
}

#[tactic(auto, unfolding(crate::specs::OneMatrix::files))]
fn files_of(alloc: Global) -> Result<Files, AllocError>
    ensures { IfOk result (λ f. f ≡ files) }
{
    let mut result = Files::new(alloc);
    result.put(2, matrix_of(alloc)?)?;
    Ok(result)
}

fn fixture_layout() -> Layout
    ensures { result ≡ where_it_lies }
{
    Layout {
        grid: Grid {
            p: 1,
            q: 1,
            f: 0,
            first: 0,
        },
        desc: Desc {
            dtype: 1,
            ctxt: 0,
            m: 2,
            n: 3,
            mb: 2,
            nb: 3,
            rsrc: 0,
            csrc: 0,
            lld: 2,
        },
    }
}

/// A line that makes a grid of one rank.
pub fn grid_line(alloc: Global, name: &[u8]) -> Result<Option<Command>, AllocError>
    ensures { IfOk result (λ line. line ≡ Some (Command.Grid name.now 1 1 0)) }
{
    Ok(Some(Command::Grid {
        name: Word::new(alloc, name)?,
        p: 1,
        q: 1,
        f: 0,
    }))
}

/// A line that makes a matrix of one block.
pub fn matrix_line(
    alloc: Global,
    name: &[u8],
    grid: &[u8],
    m: u32,
    n: u32,
    file: &[u8],
) -> Result<Option<Command>, AllocError>
    ensures { IfOk result (λ line. line ≡ Some (Command.Matrix name.now grid.now m n m n 0 0 file.now)) }
{
    Ok(Some(Command::Matrix {
        name: Word::new(alloc, name)?,
        grid: Word::new(alloc, grid)?,
        m,
        n,
        mb: m,
        nb: n,
        rsrc: 0,
        csrc: 0,
        file: Word::new(alloc, file)?,
    }))
}

/// A line that prints a matrix.
pub fn print_line(alloc: Global, name: &[u8]) -> Result<Option<Command>, AllocError>
    ensures { IfOk result (λ line. line ≡ Some (Command.Print name.now)) }
{
    Ok(Some(Command::Print {
        name: Word::new(alloc, name)?,
    }))
}

fn limit_line(spares: Option<u32>) -> Option<Command>
    ensures { result ≡ limit spares }
{
    match spares {
        Some(n) => Some(Command::Spares { n }),
        None => None,
    }
}

fn lose_line(loss: Loss) -> Option<Command>
    ensures { result ≡ Some (Command.Lose loss.at loss.rank) }
{
    Some(Command::Lose {
        at: loss.at,
        rank: loss.rank,
    })
}

#[tactic(auto, unfolding(crate::specs::OneMatrix::lines))]
fn script_of(
    alloc: Global,
    first: Loss,
    second: Loss,
    spares: Option<u32>,
) -> Result<Script, AllocError>
    ensures { IfOk result (λ s. s ≡ lines first second spares) }
{
    let mut script = Script::new(alloc);
    script.push(grid_line(alloc, b"g")?)?;
    script.push(matrix_line(alloc, b"A", b"g", 2, 3, b"a.txt")?)?;
    script.push(print_line(alloc, b"A")?)?;
    script.push(grid_line(alloc, b"h")?)?;
    script.push(lose_line(first))?;
    script.push(lose_line(second))?;
    script.push(limit_line(spares))?;
    Ok(script)
}

/// What a world is in the end, and what was taken.
pub fn left_of(
    alloc: Global,
    world: &World<'_, F65537>,
    taken: Vec<u32>,
) -> Result<Left, AllocError> {
    let text = journal_text(alloc, world.journal())?;
    Ok(Left {
        text,
        live: [world.is_live(0), world.is_live(1)],
        words: [world.words_held(0), world.words_held(1)],
        spawns: world.spawns(),
        spares: world.spares(),
        holds: world.holds(0, A),
        steps: world.steps(),
        room: world.room(),
        taken,
    })
}

/// Plays records with two losses, and with so many spares or no limit.
pub fn played(
    alloc: Global,
    first: Loss,
    second: Loss,
    spares: Option<u32>,
    records: &[Rec],
) -> Result<Left, AllocError>
    requires first { first.rank < 2 }
    requires second { second.rank < 2 }
    requires legal { may_play (setting first second spares) [] records.now ≡ true }
{
    let script = script_of(alloc, first, second, spares)?;
    let files = files_of(alloc)?;
    let m = matrix_of(alloc)?;
    let mut taken = Vec::new(alloc);
    let mut world = World::<F65537>::open(alloc, &script, &files, &[first, second], 20)?;
    play(alloc, &mut world, &m, fixture_layout(), records, &mut taken)?;
    left_of(alloc, &world, taken)
}
