//! The events of the round of a group of a product.
ghost use Rattle.std.specs.Prelude.{◌≡◌, ◌+◌, ◌*◌, ◌<◌, ◌++◌, ◌∷◌, [], OnOk};
ghost use Rattle.rank_run.specs.declared.round.Event.TheVariants.{Local};
ghost use Rattle.blacs_grid.specs.Places.{width, rank_at};
ghost use Rattle.rank_machine.specs.CodeLaw.{slot_at};
ghost use Rattle.phase_rounds.specs.Strips.{work};
ghost use Rattle.phase_rounds.specs.Products.{left_piece, right_piece, product_kernel, product_row, product_column, product_events};
ghost use Rattle.round_laws.specs.Turns.{each_below};
ghost use Rattle.product_rounds.specs.Rounds.{IsOnGrid, strip_slot, block_width, block_product, column_moves, scale_column, scale_events, group_events};

use array_desc::{Desc, group_of, numroc};
use blacs_comm::{Topology, broadcast, work_at};
use blacs_grid::{Grid, Scope};
use field_core::Field;
use rank_machine::{Kernel, Piece, Slot, SlotKind};
use rank_memory::RankMem;
use rank_run::{NoMemory, Round};
use run_data::Part;

/// What the ranks do for one group of C in `C := BETA * C + ALPHA * A * B`: the grid on which the three
/// matrices lie, their descriptors and the lines that made them, the group, the two factors, and the
/// way of the broadcasts.
#[derive(Clone, Copy)]
pub struct GroupProduct {
    pub grid: Grid,
    pub a: Desc,
    pub b: Desc,
    pub c: Desc,
    pub line_a: u32,
    pub line_b: u32,
    pub line_c: u32,
    pub group: u32,
    pub alpha: u32,
    pub beta: u32,
    pub topology: Topology,
}

// A slot of a kind.
fn slot_at(kind: SlotKind, id: u32, group: u32) -> Slot
    ensures { result ≡ slot_at kind id group }
{
    Slot { kind, id, group }
}

// A work slot.
fn work(id: u32) -> Slot
    ensures { result ≡ work id }
{
    slot_at(SlotKind::Work, id, 0)
}

/// The slot of a strip of the group, of the matrix that a line made, on a process column.
pub fn strip_slot(x: &GroupProduct, line: u32, col: u32) -> Slot
    ensures { result ≡ strip_slot x.now line col }
{
    if col < x.grid.q {
        slot_at(SlotKind::Data, line, x.group)
    } else {
        slot_at(SlotKind::Code, line, x.group)
    }
}

// How many columns a block column of A has.
fn block_width(x: &GroupProduct, block: u32) -> u32
    requires inside { block * x.now.a.nb < x.now.a.n }
    ensures { result ≡ block_width x.now block }
{
    x.a.nb.min(x.a.n - block * x.a.nb)
}

// What a rank multiplies from the left.
fn left_piece(x: &GroupProduct, block: u32, row: u32, col: u32) -> Piece
    requires on_grid { IsOnGrid x.now }
    requires inside { block * x.now.a.nb < x.now.a.n }
    requires row_in { row < x.now.grid.p }
    ensures { result ≡ left_piece (block_product x.now block) row col }
{
    let at = Part {
        r0: 0,
        r1: numroc(x.a.m, x.a.mb, row, x.a.rsrc, x.grid.p),
        c0: 0,
        c1: block_width(x, block),
    };
    if col == (x.a.csrc + block) % x.grid.q {
        let slot = slot_at(SlotKind::Data, x.line_a, group_of(block, x.grid.q));
        Piece::Part(slot, at)
    } else {
        Piece::Part(work(0), at)
    }
}

// The part of B's strips that a block row is.
fn right_part(x: &GroupProduct, block: u32) -> Part
    requires on_grid { IsOnGrid x.now }
    requires inside { block * x.now.a.nb < x.now.a.n }
    ensures { result ≡ (block_product x.now block).right }
{
    let first = x.b.mb * (block / x.grid.p);
    Part {
        r0: first,
        r1: first + block_width(x, block),
        c0: 0,
        c1: x.b.nb,
    }
}

// What a rank multiplies from the right.
fn right_piece(x: &GroupProduct, block: u32, row: u32, col: u32) -> Piece
    requires on_grid { IsOnGrid x.now }
    requires inside { block * x.now.a.nb < x.now.a.n }
    ensures { result ≡ right_piece (block_product x.now block) row col }
{
    if row == (x.b.rsrc + block) % x.grid.p {
        let slot = strip_slot(x, x.line_b, col);
        Piece::Part(slot, right_part(x, block))
    } else {
        Piece::Whole(work(1))
    }
}

// A strip of the block column goes along a process row.
fn send_along_row<K: Field>(
    round: &mut Round<RankMem<K>>,
    x: &GroupProduct,
    block: u32,
    row: u32,
) -> Result<(), NoMemory>
    requires on_grid { IsOnGrid x.now }
    requires inside { block * x.now.a.nb < x.now.a.n }
    requires row_in { row < x.now.grid.p }
    ensures { OnOk result (round.new ≡ round.old ++ product_row (block_product x.now block) row) }
{
    let root = (x.a.csrc + block) % x.grid.q;
    let slot = slot_at(SlotKind::Data, x.line_a, group_of(block, x.grid.q));
    broadcast(
        round,
        &x.grid,
        Scope::Row(row),
        x.topology,
        root,
        Piece::Whole(slot),
        Piece::Whole(work(0)),
    )
}

// One rank adds its product.
fn multiply_on<K: Field>(
    round: &mut Round<RankMem<K>>,
    x: &GroupProduct,
    block: u32,
    row: u32,
    col: u32,
) -> Result<(), NoMemory>
    requires on_grid { IsOnGrid x.now }
    requires inside { block * x.now.a.nb < x.now.a.n }
    requires row_in { row < x.now.grid.p }
    requires col_in { col < width x.now.grid }
    ensures { OnOk result (round.new ≡ round.old ++ Local (rank_at x.now.grid row col) (product_kernel (block_product x.now block) row col) ∷ []) }
{
    let rank = x.grid.rank(row, col);
    let to = strip_slot(x, x.line_c, col);
    let left = left_piece(x, block, row, col);
    let right = right_piece(x, block, row, col);
    work_at(
        round,
        rank,
        Kernel::MulAdd(Piece::Whole(to), x.alpha, left, right),
    )
}

// The block row of B goes down a process column.
fn send_down_column<K: Field>(
    round: &mut Round<RankMem<K>>,
    x: &GroupProduct,
    block: u32,
    col: u32,
) -> Result<(), NoMemory>
    requires on_grid { IsOnGrid x.now }
    requires inside { block * x.now.a.nb < x.now.a.n }
    requires col_in { col < width x.now.grid }
    ensures { OnOk result (round.new ≡ round.old ++ column_moves (block_product x.now block) col) }
{
    let root = (x.b.rsrc + block) % x.grid.p;
    let slot = strip_slot(x, x.line_b, col);
    let source = Piece::Part(slot, right_part(x, block));
    broadcast(
        round,
        &x.grid,
        Scope::Column(col),
        x.topology,
        root,
        source,
        Piece::Whole(work(1)),
    )
}

// The block row of B goes down a process column, and each rank of it adds its product.
fn multiply_in_column<K: Field>(
    round: &mut Round<RankMem<K>>,
    x: &GroupProduct,
    block: u32,
    col: u32,
) -> Result<(), NoMemory>
    requires on_grid { IsOnGrid x.now }
    requires inside { block * x.now.a.nb < x.now.a.n }
    requires col_in { col < width x.now.grid }
    ensures { OnOk result (round.new ≡ round.old ++ product_column (block_product x.now block) col) }
{
    send_down_column(round, x, block, col)?;
    for row in 0..x.grid.p {
        multiply_on(round, x, block, row, col)?;
    }
    Ok(())
}

// The block column of A goes along all process rows.
fn send_along_rows<K: Field>(
    round: &mut Round<RankMem<K>>,
    x: &GroupProduct,
    block: u32,
) -> Result<(), NoMemory>
    requires on_grid { IsOnGrid x.now }
    requires inside { block * x.now.a.nb < x.now.a.n }
    ensures { OnOk result (round.new ≡ round.old ++ each_below x.now.grid.p (product_row (block_product x.now block))) }
{
    for row in 0..x.grid.p {
        send_along_row(round, x, block, row)?;
    }
    Ok(())
}

// What one block column of A adds to the strips of the group.
fn multiply_block<K: Field>(
    round: &mut Round<RankMem<K>>,
    x: &GroupProduct,
    block: u32,
) -> Result<(), NoMemory>
    requires on_grid { IsOnGrid x.now }
    requires inside { block * x.now.a.nb < x.now.a.n }
    ensures { OnOk result (round.new ≡ round.old ++ product_events (block_product x.now block)) }
{
    send_along_rows(round, x, block)?;
    for col in 0..x.grid.width() {
        multiply_in_column(round, x, block, col)?;
    }
    Ok(())
}

// The strips of a process column are multiplied by BETA.
fn scale_in_column<K: Field>(
    round: &mut Round<RankMem<K>>,
    x: &GroupProduct,
    col: u32,
) -> Result<(), NoMemory>
    requires on_grid { IsOnGrid x.now }
    requires col_in { col < width x.now.grid }
    ensures { OnOk result (round.new ≡ round.old ++ scale_column x.now col) }
{
    let slot = strip_slot(x, x.line_c, col);
    for row in 0..x.grid.p {
        let rank = x.grid.rank(row, col);
        work_at(round, rank, Kernel::Scale(Piece::Whole(slot), x.beta))?;
    }
    Ok(())
}

// The strips of the group are multiplied by BETA.
fn scale_strips<K: Field>(round: &mut Round<RankMem<K>>, x: &GroupProduct) -> Result<(), NoMemory>
    requires on_grid { IsOnGrid x.now }
    ensures { OnOk result (round.new ≡ round.old ++ scale_events x.now) }
{
    let columns = x.grid.width();
    for col in 0..columns {
        scale_in_column(round, x, col)?;
    }
    Ok(())
}

/// Appends the events of a group of C: its strips are multiplied by BETA, and gain ALPHA times the products of all block columns
/// of A with the block rows of B, on data and on code columns alike. It fails only where memory runs out.
pub fn multiply_group<K: Field>(
    round: &mut Round<RankMem<K>>,
    x: &GroupProduct,
) -> Result<(), NoMemory>
    requires on_grid { IsOnGrid x.now }
    ensures events { OnOk result (round.new ≡ round.old ++ group_events x.now) }
{
    scale_strips(round, x)?;
    for block in 0..x.a.n.div_ceil(x.a.nb) {
        multiply_block(round, x, block)?;
    }
    Ok(())
}
