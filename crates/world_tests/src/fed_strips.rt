//! A script of one grid of four ranks, two process rows of a data rank and a code rank, with a matrix of two rows and one column: a row of 0
//! and a row of 7. Rounds on its ranks, and the number that a rank holds after one.
ghost use Rattle.std.specs.Prelude.{◌≡◌, ◌++◌, ◌∷◌, ℕ, [], List, All, IfOk, OnOk};
ghost use Rattle.field_core.specs.Residue.{inverse};
ghost use Rattle.rank_run.specs.Parts.{IsWithin};
ghost use Rattle.rank_machine.specs.Setting.{ranks};
ghost use Rattle.rank_machine.specs.Effect.{replay};
ghost use Rattle.rank_machine.specs.Legal.{IsLegalRec, IsLegalFrom};
ghost use Rattle.rank_slots.specs.Stands.{records_of};
ghost use Rattle.block_world.specs.Did.{IsDid};
ghost use Rattle.block_world.specs.World.{setting_in, state_of};
ghost use Rattle.world_tests.specs.Play.{IsOnlyMatrix};
ghost use Rattle.world_tests.specs.FedStrips.{MayLook, column_round, data_slot, encode_round, exchange_round, files, finding, gather_round, least_round, lines, matrix, row_round, where_it_lies};

use array_desc::Desc;
use blacs_comm::{Topology, broadcast, combine, send_piece, work_at};
use blacs_grid::{Grid, Scope};
use block_world::{
    Command, Cut, Did, Files, Kernel, Mat, Order, Part, Piece, Ran, RankMem, Rec, Round, Script,
    Slot, SlotKind, Taken, Tile, Word, World,
};
use dist_matrix::{Site, encode_group, strip};
use field_core::F65537;
use script_lines::Layout;
use std::alloc::{AllocError, Global};

/// The events of a round on these ranks.
pub type Events = Round<RankMem<F65537>>;

const GRID: Grid = Grid {
    p: 2,
    q: 1,
    f: 1,
    first: 0,
};

const DATA: Slot = Slot {
    kind: SlotKind::Data,
    id: 2,
    group: 0,
};

const CODE: Slot = Slot {
    kind: SlotKind::Code,
    id: 2,
    group: 0,
};

/// A work slot.
pub const W0: Slot = Slot {
    kind: SlotKind::Work,
    id: 0,
    group: 0,
};

/// A second one.
pub const W1: Slot = Slot {
    kind: SlotKind::Work,
    id: 1,
    group: 0,
};

const W2: Slot = Slot {
    kind: SlotKind::Work,
    id: 2,
    group: 0,
};

const ROW: Part = Part {
    r0: 0,
    r1: 1,
    c0: 0,
    c1: 1,
};

#[tactic(auto, unfolding(run_data::specs::Matrix::tabulate, crate::specs::FedStrips::matrix))]
fn matrix_of(alloc: Global) -> Result<Mat, AllocError>
    ensures { IfOk result (λ m. m ≡ matrix) }
{
    let mut m = Mat::zeros(alloc, 2, 1)?;
    m.set(1, 0, 7);
    Ok(m)
}

#[tactic(auto, unfolding(crate::specs::FedStrips::files))]
fn files_of(alloc: Global) -> Result<Files, AllocError>
    ensures { IfOk result (λ f. f ≡ files) }
{
    let mut result = Files::new(alloc);
    result.put(2, matrix_of(alloc)?)?;
    Ok(result)
}

#[tactic(auto, unfolding(crate::specs::FedStrips::lines))]
fn script_of(alloc: Global) -> Result<Script, AllocError>
    ensures { IfOk result (λ s. s ≡ lines) }
{
    let mut script = Script::new(alloc);
    script.push(Some(Command::Grid {
        name: Word::new(alloc, b"g")?,
        p: 2,
        q: 1,
        f: 1,
    }))?;
    script.push(Some(Command::Matrix {
        name: Word::new(alloc, b"A")?,
        grid: Word::new(alloc, b"g")?,
        m: 2,
        n: 1,
        mb: 1,
        nb: 1,
        rsrc: 0,
        csrc: 0,
        file: Word::new(alloc, b"a.txt")?,
    }))?;
    Ok(script)
}

fn fixture_layout() -> Layout
    ensures { result ≡ where_it_lies }
{
    Layout {
        grid: GRID,
        desc: Desc {
            dtype: 1,
            ctxt: 0,
            m: 2,
            n: 1,
            mb: 1,
            nb: 1,
            rsrc: 0,
            csrc: 0,
            lld: 1,
        },
    }
}

// Feeds its strip to a data rank.
fn feed(
    alloc: Global,
    world: &mut World<'_, F65537>,
    m: &Mat,
    layout: Layout,
    rank: u32,
) -> Result<Did, AllocError>
    requires only { IsOnlyMatrix (setting_in world.old) layout m.now }
    requires legal { IsLegalRec (setting_in world.old) (state_of world.old) (Rec.Feed rank data_slot) }
    ensures { IfOk result (λ did. IsDid did world.old world.new (Rec.Feed rank data_slot)) }
{
    let cut = strip(alloc, m, &layout.desc, &layout.grid, rank, DATA.group)?;
    world.feed(rank, DATA, cut)
}

// The first of a tile's numbers, or 0 where there is none.
fn first_number(tile: &Tile) -> u32 {
    match tile {
        Tile::Index(numbers) => { if numbers.len() > 0 { numbers.get(0) } else { 0 } }
        Tile::Words(_) => 0,
    }
}

// The number that a rank holds in a slot.
fn look(world: &mut World<'_, F65537>, rank: u32, slot: Slot) -> Result<u32, AllocError>
    requires { IsLegalRec (setting_in world.old) (state_of world.old) (Rec.Take rank slot) }
{
    match world.take(rank, slot)? {
        Taken::Tile(tile) => Ok(first_number(&tile)),
        Taken::Hit => Ok(0),
    }
}

// Runs a round, and then looks.
fn run_and_look(
    alloc: Global,
    world: &mut World<'_, F65537>,
    round: &Events,
    rank: u32,
    slot: Slot,
) -> Result<u32, AllocError>
    requires links { (from to : ℕ) → (state_of world.old).links from to ≡ [] }
    requires within { All (IsWithin (ranks (setting_in world.old))) round.now }
    requires legal { IsLegalFrom (setting_in world.old) (state_of world.old) (records_of round.now) }
    requires look { IsLegalRec (setting_in world.old) (replay (setting_in world.old) (state_of world.old) (records_of round.now)) (Rec.Take rank slot) }
{
    let mut order = Order::new(alloc);
    match world.run(round, &mut order)? {
        Ran::Whole => look(world, rank, slot),
        Ran::Hit => Ok(0),
    }
}

/// The number that a rank holds in a slot after a round, in a world in which the matrix was fed.
pub fn number_after(alloc: Global, round: &Events, rank: u32, slot: Slot) -> Result<u32, AllocError>
    requires { MayLook (inverse 65537) round.now rank slot }
{
    let script = script_of(alloc)?;
    let files = files_of(alloc)?;
    let m = matrix_of(alloc)?;
    let mut world = World::<F65537>::open(alloc, &script, &files, &[], 100)?;
    feed(alloc, &mut world, &m, fixture_layout(), 0)?;
    feed(alloc, &mut world, &m, fixture_layout(), 2)?;
    run_and_look(alloc, &mut world, round, rank, slot)
}

fn find(round: &mut Events, rank: u32, to: Slot, from: Slot) -> Result<(), AllocError>
    ensures { OnOk result (round.new ≡ round.old ++ finding rank to from ∷ []) }
{
    work_at(round, rank, Kernel::First(to, Piece::Whole(from), 0, 0))
}

/// Rank 2 finds its first row, and the number goes to the other rank of its process row.
pub fn along_row(alloc: Global) -> Result<Events, AllocError>
    ensures { IfOk result (λ round. round ≡ row_round) }
{
    let mut round = Round::new(alloc);
    find(&mut round, 2, W0, DATA)?;
    broadcast(
        &mut round,
        &GRID,
        Scope::Row(1),
        Topology::I,
        0,
        Piece::Whole(W0),
        Piece::Whole(W1),
    )?;
    Ok(round)
}

/// Rank 2 finds its first row, and the number goes to the other rank of its process column.
pub fn up_column(alloc: Global) -> Result<Events, AllocError>
    ensures { IfOk result (λ round. round ≡ column_round) }
{
    let mut round = Round::new(alloc);
    find(&mut round, 2, W0, DATA)?;
    broadcast(
        &mut round,
        &GRID,
        Scope::Column(0),
        Topology::I,
        1,
        Piece::Whole(W0),
        Piece::Whole(W1),
    )?;
    Ok(round)
}

/// Both data ranks find their first rows, and the least number goes to both.
pub fn least_of_both(alloc: Global) -> Result<Events, AllocError>
    ensures { IfOk result (λ round. round ≡ least_round) }
{
    let mut round = Round::new(alloc);
    find(&mut round, 0, W0, DATA)?;
    find(&mut round, 2, W0, DATA)?;
    combine(
        &mut round,
        &GRID,
        Scope::Column(0),
        Topology::I,
        0,
        Piece::Whole(W0),
        Piece::Whole(W1),
        Kernel::Least(W0, Piece::Whole(W1)),
        true,
    )?;
    Ok(round)
}

/// The two rows change places, and then a data rank finds its first row.
pub fn exchanged(alloc: Global, rank: u32) -> Result<Events, AllocError>
    ensures { IfOk result (λ round. round ≡ exchange_round rank) }
{
    let mut round = Round::new(alloc);
    send_piece(&mut round, 0, Piece::Part(DATA, ROW), 2, Piece::Whole(W2))?;
    send_piece(
        &mut round,
        2,
        Piece::Part(DATA, ROW),
        0,
        Piece::Part(DATA, ROW),
    )?;
    work_at(
        &mut round,
        2,
        Kernel::Copy(Piece::Part(DATA, ROW), Piece::Whole(W2)),
    )?;
    find(&mut round, rank, W0, DATA)?;
    Ok(round)
}

/// The code rank of the second process row gathers the strip of its row, and finds its first row.
pub fn gathered(alloc: Global) -> Result<Events, AllocError>
    ensures { IfOk result (λ round. round ≡ gather_round) }
{
    let mut round = Round::new(alloc);
    work_at(&mut round, 3, Kernel::Zero(CODE, 1, 1))?;
    send_piece(&mut round, 2, Piece::Whole(DATA), 3, Piece::Whole(W0))?;
    work_at(
        &mut round,
        3,
        Kernel::Add(Piece::Whole(CODE), 1, Piece::Whole(W0), Cut::Whole),
    )?;
    find(&mut round, 3, W1, CODE)?;
    Ok(round)
}

/// The code strips are made, and then a code rank finds its first row.
#[tactic(auto, unfolding(crate::specs::FedStrips::lines))]
pub fn encoded(alloc: Global, rank: u32) -> Result<Events, AllocError>
    ensures { IfOk result (λ round. round ≡ encode_round (inverse 65537) rank) }
{
    let script = script_of(alloc)?;
    let site = Site::new(alloc, &script)?;
    let mut round = Round::new(alloc);
    encode_group(&mut round, &site, 2, 0)?;
    find(&mut round, rank, W1, CODE)?;
    Ok(round)
}
