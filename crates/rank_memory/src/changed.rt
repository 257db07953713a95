//! The kernels that change a tile that is there. Their tile is out of its slot; what they read is in its slots.
ghost use Rattle.std.specs.Prelude.{◌≡◌, ◌∷◌, [], ◌++◌, min, true, false, Some, IsSome, IsTrue, IfOk, OnOk};
ghost use Rattle.rank_machine.specs.declared.slot.Tile.TheVariants.{Words, Index};
ghost use Rattle.rank_machine.specs.Effect.{numbers_of, first_number, is_index, pushed, slot_of, target, made_by};
ghost use Rattle.rank_machine.specs.Legal.{is_number, makes};
ghost use Rattle.script_lines.specs.Lines.{setting_on, AreSound};
ghost use Rattle.rank_slots.specs.Cells.{tiles_in, with_slot, IsMatrixOf, IsTileOf, AreCellsOf};
ghost use Rattle.rank_slots.specs.Rank.{IsFit, changes_words};
ghost use Rattle.rank_memory.specs.Fits.{LeastFit, PushFit};

use crate::made::{number_in, single};
use crate::reads::{
    add_from, copy_from, eliminate_from, multiply_from, solve_lower_from, solve_upper_from,
};
use crate::search::NONE;
use crate::words::scale_words;
use field_core::Field;
use local_blas::swap_rows;
use rank_machine::{Kernel, Piece, Tile};
use rank_slots::{Cells, find_tile};
use run_data::Mat;
use script_lines::Line;
use std::alloc::{AllocError, Global};

/// Changes the words of a kernel's tile.
pub fn change_words<K: Field>(
    alloc: Global,
    table: &[Line],
    rank: u32,
    cells: &Cells,
    kernel: &Kernel,
    dst: &mut Mat,
) -> Result<(), AllocError>
    requires words { changes_words kernel.now ≡ true }
    requires sound { AreSound table.now }
    requires residues { AreCellsOf K.MODULUS cells.now }
    requires dst_words { IsMatrixOf K.MODULUS dst.old }
    requires fit { IsFit K.MODULUS (setting_on K.MODULUS table.now) rank (with_slot (tiles_in cells.now) (slot_of (target kernel.now)) (Words dst.old)) kernel.now }
    ensures { OnOk result (Words dst.new ≡ made_by (setting_on K.MODULUS table.now) rank (with_slot (tiles_in cells.now) (slot_of (target kernel.now)) (Words dst.old)) kernel.now) }
{
    match *kernel {
        Kernel::Copy(to, from) => Ok(copy_from(cells, dst, to, from)),
        Kernel::Scale(to, a) => Ok(scale_words::<K>(dst, to, a)),
        Kernel::Add(to, a, from, cut) => {
            Ok(add_from::<K>(table, rank, cells, dst, to, a, from, cut))
        }
        Kernel::MulAdd(to, a, left, right) => {
            Ok(multiply_from::<K>(cells, dst, to, a, left, right))
        }
        Kernel::Lower(to, block, unit) => { Ok(solve_lower_from::<K>(cells, dst, to, block, unit)) }
        Kernel::Upper(to, block, unit) => { Ok(solve_upper_from::<K>(cells, dst, to, block, unit)) }
        Kernel::Swap(_, i, j) => Ok(swap_rows(dst, i, j)),
        Kernel::Elim(to, j, above, row) => {
            eliminate_from::<K>(alloc, table, rank, cells, dst, to, j, above, row)
        }
        _ => unreachable!(),
    }
}

/// The smaller number of two tiles, as a tile.
pub fn least_of_two(alloc: Global, tile: &Tile, other: &Tile) -> Result<Tile, AllocError>
    requires number { IsTrue (is_number (Some tile.now)) }
    requires other { IsTrue (is_number (Some other.now)) }
    ensures { IfOk result (λ t. t ≡ Index (min (first_number (Some tile.now)) (first_number (Some other.now)) ∷ [])) }
{
    let n = number_in(tile).min(number_in(other));
    single(alloc, n)
}

// The number that goes last in a list. One that does not fit wants memory.
fn number_to_push(n: u32, above: u32) -> Result<u32, AllocError>
    ensures { IfOk result (λ r. r ≡ pushed n above) }
{
    if n != NONE {
        return Ok(n);
    }
    if above == u32::MAX {
        return Err(AllocError);
    }
    Ok(above + 1)
}

/// A list of numbers with the number of another tile, or with a row where that means none.
pub fn push_to(tile: Tile, other: &Tile, above: u32) -> Result<Tile, AllocError>
    requires index { IsTrue (is_index (Some tile)) }
    requires other { IsTrue (is_number (Some other.now)) }
    ensures { IfOk result (λ t. t ≡ Index (numbers_of (Some tile) ++ pushed (first_number (Some other.now)) above ∷ [])) }
{
    let n = number_to_push(number_in(other), above)?;
    match tile {
        Tile::Index(mut numbers) => {
            numbers.push(n)?;
            Ok(Tile::Index(numbers))
        }
        Tile::Words(_) => unreachable!(),
    }
}

// The tile of a piece's slot.
pub fn tile_at(cells: &Cells, x: Piece) -> &Tile
    requires { IsSome (tiles_in cells.now (slot_of x)) }
    ensures { Some result.now ≡ tiles_in cells.now (slot_of x) }
{
    match find_tile(cells, x.slot()) {
        Some(tile) => tile,
        None => unreachable!(),
    }
}

// The smaller number of a tile and of another slot, as a tile.
fn least_from(alloc: Global, cells: &Cells, tile: &Tile, from: Piece) -> Result<Tile, AllocError>
    requires { LeastFit (tiles_in cells.now) tile.now from }
    ensures { IfOk result (λ t. t ≡ Index (min (first_number (Some tile.now)) (first_number (tiles_in cells.now (slot_of from))) ∷ [])) }
{
    least_of_two(alloc, tile, tile_at(cells, from))
}

// A list of numbers with the number of another slot, or with a row where that means none.
fn push_from(cells: &Cells, tile: Tile, from: Piece, above: u32) -> Result<Tile, AllocError>
    requires { PushFit (tiles_in cells.now) tile from }
    ensures { IfOk result (λ t. t ≡ Index (numbers_of (Some tile) ++ pushed (first_number (tiles_in cells.now (slot_of from))) above ∷ [])) }
{
    push_to(tile, tile_at(cells, from), above)
}

/// Whether a kernel changes words.
pub fn is_for_words(kernel: &Kernel) -> bool
    ensures { result ≡ changes_words kernel.now }
{
    match *kernel {
        Kernel::Zero(_, _, _) => false,
        Kernel::Copy(Piece::Whole(_), _) => false,
        Kernel::First(_, _, _, _) => false,
        Kernel::Diag(_, _, _) => false,
        Kernel::Least(_, _) => false,
        Kernel::Push(_, _, _) => false,
        Kernel::Trans(_, _) => false,
        _ => true,
    }
}

/// The numbers of a kernel's tile, changed.
fn change_numbers<K: Field>(
    alloc: Global,
    table: &[Line],
    rank: u32,
    cells: &Cells,
    kernel: &Kernel,
    tile: Tile,
) -> Result<Tile, AllocError>
    requires words { changes_words kernel.now ≡ false }
    requires makes { makes kernel.now ≡ false }
    requires fit { IsFit K.MODULUS (setting_on K.MODULUS table.now) rank (with_slot (tiles_in cells.now) (slot_of (target kernel.now)) tile) kernel.now }
    ensures { IfOk result (λ t. t ≡ made_by (setting_on K.MODULUS table.now) rank (with_slot (tiles_in cells.now) (slot_of (target kernel.now)) tile) kernel.now) }
{
    match *kernel {
        Kernel::Least(_to, from) => least_from(alloc, cells, &tile, from),
        Kernel::Push(_to, from, above) => push_from(cells, tile, from, above),
        _ => unreachable!(),
    }
}

/// The tile of a kernel that changes its slot, changed.
pub fn changed<K: Field>(
    alloc: Global,
    table: &[Line],
    rank: u32,
    cells: &Cells,
    kernel: &Kernel,
    tile: Tile,
) -> Result<Tile, AllocError>
    requires makes { makes kernel.now ≡ false }
    requires sound { AreSound table.now }
    requires residues { AreCellsOf K.MODULUS cells.now }
    requires tile_words { IsTileOf K.MODULUS tile }
    requires fit { IsFit K.MODULUS (setting_on K.MODULUS table.now) rank (with_slot (tiles_in cells.now) (slot_of (target kernel.now)) tile) kernel.now }
    ensures { IfOk result (λ t. t ≡ made_by (setting_on K.MODULUS table.now) rank (with_slot (tiles_in cells.now) (slot_of (target kernel.now)) tile) kernel.now) }
{
    if !is_for_words(kernel) {
        return change_numbers::<K>(alloc, table, rank, cells, kernel, tile);
    }
    match tile {
        Tile::Words(mut dst) => {
            change_words::<K>(alloc, table, rank, cells, kernel, &mut dst)?;
            Ok(Tile::Words(dst))
        }
        Tile::Index(_) => unreachable!(),
    }
}
