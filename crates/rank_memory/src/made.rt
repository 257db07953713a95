//! The kernels that may make their slot.
ghost use Rattle.std.specs.Prelude.{◌≡◌, ◌+◌, ◌∷◌, [], true, min, nat_lt, Some, IsTrue, IfOk};
ghost use Rattle.run_data.specs.Parts.{part_of};
ghost use Rattle.rank_machine.specs.declared.slot.Tile.TheVariants.{Words, Index};
ghost use Rattle.rank_machine.specs.Setting.{layout};
ghost use Rattle.rank_machine.specs.Effect.{words_of, is_words, slot_of, target, matrix_in, area_in, piece_in, made_by, first_number, first_row, least_of, number_if, is_zero_here, diagonal, transposed};
ghost use Rattle.rank_machine.specs.Legal.{makes, holds, holds_words, in_matrix, breadth, is_number};
ghost use Rattle.script_lines.specs.Lines.{setting_on, AreSound};
ghost use Rattle.rank_slots.specs.Cells.{tiles_in};
ghost use Rattle.rank_slots.specs.Rank.{IsFit};

use crate::pieces::{area_of, cut_out, transpose, zero_tile};
use crate::search::{first_row, first_zero};
use field_core::Field;
use rank_machine::{Kernel, Piece, Slot, Tile};
use rank_slots::{Cells, find_tile};
use run_data::{IndexList, Mat};
use script_lines::{Line, layout_at};
use std::alloc::{AllocError, Global};

/// The slot that a kernel writes.
pub fn target_of(kernel: &Kernel) -> Slot
    ensures { result ≡ slot_of (target kernel.now) }
{
    match *kernel {
        Kernel::Zero(to, _, _) => to,
        Kernel::Copy(to, _) => to.slot(),
        Kernel::Scale(to, _) => to.slot(),
        Kernel::Add(to, _, _, _) => to.slot(),
        Kernel::MulAdd(to, _, _, _) => to.slot(),
        Kernel::Lower(to, _, _) => to.slot(),
        Kernel::Upper(to, _, _) => to.slot(),
        Kernel::Swap(to, _, _) => to,
        Kernel::First(to, _, _, _) => to,
        Kernel::Diag(to, _, _) => to,
        Kernel::Least(to, _) => to,
        Kernel::Elim(to, _, _, _) => to,
        Kernel::Push(to, _, _) => to,
        Kernel::Trans(to, _) => to,
    }
}

/// Whether a kernel may make its slot.
pub fn may_make(kernel: &Kernel) -> bool
    ensures { result ≡ makes kernel.now }
{
    match *kernel {
        Kernel::Zero(_, _, _) => true,
        Kernel::Copy(Piece::Whole(_), _) => true,
        Kernel::First(_, _, _, _) => true,
        Kernel::Diag(_, _, _) => true,
        Kernel::Trans(_, _) => true,
        _ => false,
    }
}

/// The list of one number.
pub fn single(alloc: Global, n: u32) -> Result<Tile, AllocError>
    ensures { IfOk result (λ t. t ≡ Index (n ∷ [])) }
{
    let mut numbers = IndexList::new(alloc);
    numbers.push(n)?;
    Ok(Tile::Index(numbers))
}

/// The number of a tile that holds one.
pub fn number_in(tile: &Tile) -> u32
    requires { IsTrue (is_number (Some tile.now)) }
    ensures { result ≡ first_number (Some tile.now) }
{
    match tile {
        Tile::Index(numbers) => numbers.get(0),
        Tile::Words(_) => unreachable!(),
    }
}

/// What a piece holds, as a tile of its own.
pub fn copied(alloc: Global, cells: &Cells, from: Piece) -> Result<Tile, AllocError>
    requires { IsTrue (holds (tiles_in cells.now) from) }
    ensures { IfOk result (λ t. t ≡ piece_in (tiles_in cells.now) from) }
{
    match find_tile(cells, from.slot()) {
        Some(tile) => cut_out(alloc, from, tile),
        None => unreachable!(),
    }
}

// The least row of a column of a matrix with a word that is not zero.
fn first_in(
    alloc: Global,
    table: &[Line],
    rank: u32,
    cells: &Cells,
    from: Piece,
    j: u32,
    above: u32,
) -> Result<Tile, AllocError>
    requires sound { AreSound table.now }
    requires placed { IsTrue (in_matrix (setting_on 0 table.now) rank (slot_of from)) }
    requires held { IsTrue (holds_words (tiles_in cells.now) from) }
    requires column { IsTrue (nat_lt j (breadth (area_in (tiles_in cells.now) from))) }
    ensures { IfOk result (λ t. t ≡ Index (first_row (setting_on 0 table.now) rank (tiles_in cells.now) from j above ∷ [])) }
{
    let placed = layout_at(table, from.slot().id);
    let m = words_at(cells, from);
    let n = first_row(m, area_of(from, m), j, &placed, rank, above);
    single(alloc, n)
}

// The least zero on the diagonal of a matrix that lies on the rank.
fn zero_in(
    alloc: Global,
    table: &[Line],
    rank: u32,
    cells: &Cells,
    slot: Slot,
    n: u32,
) -> Result<Tile, AllocError>
    requires sound { AreSound table.now }
    requires placed { IsTrue (in_matrix (setting_on 0 table.now) rank slot) }
    ensures { IfOk result (λ t. t ≡ Index (least_of (min n (diagonal (layout (setting_on 0 table.now) slot.id))) (λ i. number_if (is_zero_here (setting_on 0 table.now) rank (tiles_in cells.now) slot.id i) (i + 1)) ∷ [])) }
{
    let placed = layout_at(table, slot.id);
    let n = first_zero(cells, &placed, slot.id, rank, n);
    single(alloc, n)
}

/// The words of a tile that has words.
pub fn words_of_tile(tile: &Tile) -> &Mat
    requires { IsTrue (is_words (Some tile.now)) }
    ensures { result.now ≡ words_of (Some tile.now) }
{
    match tile {
        Tile::Words(m) => m,
        Tile::Index(_) => unreachable!(),
    }
}

/// The words of a piece's slot.
pub fn words_at(cells: &Cells, x: Piece) -> &Mat
    requires { IsTrue (holds_words (tiles_in cells.now) x) }
    ensures { result.now ≡ matrix_in (tiles_in cells.now) x }
{
    match find_tile(cells, x.slot()) {
        Some(tile) => words_of_tile(tile),
        None => unreachable!(),
    }
}

// The transpose of a piece's words, as a tile.
fn transposed_from(alloc: Global, cells: &Cells, from: Piece) -> Result<Tile, AllocError>
    requires { IsTrue (holds_words (tiles_in cells.now) from) }
    ensures { IfOk result (λ t. t ≡ Words (transposed (part_of (matrix_in (tiles_in cells.now) from) (area_in (tiles_in cells.now) from)))) }
{
    let m = words_at(cells, from);
    Ok(Tile::Words(transpose(alloc, m, area_of(from, m))?))
}

/// The tile that a kernel makes, of those that may make their slot.
pub fn made<K: Field>(
    alloc: Global,
    table: &[Line],
    rank: u32,
    cells: &Cells,
    kernel: &Kernel,
) -> Result<Tile, AllocError>
    requires makes { makes kernel.now ≡ true }
    requires sound { AreSound table.now }
    requires fit { IsFit K.MODULUS (setting_on K.MODULUS table.now) rank (tiles_in cells.now) kernel.now }
    ensures { IfOk result (λ t. t ≡ made_by (setting_on K.MODULUS table.now) rank (tiles_in cells.now) kernel.now) }
{
    match *kernel {
        Kernel::Zero(to, rows, cols) => zero_tile(alloc, to, rows, cols),
        Kernel::Copy(Piece::Whole(_), from) => copied(alloc, cells, from),
        Kernel::First(_, from, j, above) => first_in(alloc, table, rank, cells, from, j, above),
        Kernel::Diag(_, from, n) => zero_in(alloc, table, rank, cells, from.slot(), n),
        Kernel::Trans(_, from) => transposed_from(alloc, cells, from),
        _ => unreachable!(),
    }
}
