//! What a kernel and a message do to the cells of a rank. A tile that is changed is out of its slot meanwhile, so none is copied.
ghost use Rattle.std.specs.Prelude.{◌≡◌, ◌==◌, ◌&&◌, false, IsSome, IsTrue, OnOk};
ghost use Rattle.run_data.specs.Matrix.{cols};
ghost use Rattle.rank_machine.specs.declared.slot.Tile.TheVariants.{Words};
ghost use Rattle.rank_machine.specs.declared.slot.Piece.TheVariants as piece;
ghost use Rattle.rank_machine.specs.Effect.{slot_of, target, with_piece, made_by};
ghost use Rattle.rank_machine.specs.Legal.{makes, holds_words, height, breadth};
ghost use Rattle.script_lines.specs.Lines.{setting_on, AreSound};
ghost use Rattle.rank_slots.specs.Cells.{tiles_in, with_tile_in, IsMatrixOf, AreCellsOf};
ghost use Rattle.rank_slots.specs.Rank.{IsFit};

use crate::changed::changed;
use crate::made::{made, may_make, target_of};
use crate::pieces::put_words;
use field_core::Field;
use rank_machine::{Kernel, Slot, Tile};
use rank_slots::{Cells, put, take_out};
use run_data::{Mat, Part};
use script_lines::Line;
use std::alloc::{AllocError, Global};

/// Applies a kernel to the cells of a rank. Whatever comes of it, all words are residues.
pub fn apply_to<K: Field>(
    alloc: Global,
    table: &[Line],
    rank: u32,
    cells: &mut Cells,
    kernel: &Kernel,
) -> Result<(), AllocError>
    requires sound { AreSound table.now }
    requires residues { AreCellsOf K.MODULUS cells.old }
    requires there { makes kernel.now ≡ false → IsSome (tiles_in cells.old (slot_of (target kernel.now))) }
    requires fit { IsFit K.MODULUS (setting_on K.MODULUS table.now) rank (tiles_in cells.old) kernel.now }
    ensures done { OnOk result (cells.new ≡ with_tile_in cells.old (slot_of (target kernel.now)) (made_by (setting_on K.MODULUS table.now) rank (tiles_in cells.old) kernel.now)) }
    ensures residues { AreCellsOf K.MODULUS cells.new }
{
    let to = target_of(kernel);
    if may_make(kernel) {
        let tile = made::<K>(alloc, table, rank, cells, kernel)?;
        return put(cells, to, tile);
    }
    let old = take_out(alloc, cells, to);
    let tile = changed::<K>(alloc, table, rank, cells, kernel, old)?;
    put(cells, to, tile)
}

/// Writes words into a part of the words of a slot. Whatever comes of it, all words are residues.
pub fn write_part<K: Field>(
    alloc: Global,
    cells: &mut Cells,
    slot: Slot,
    at: Part,
    words: &Mat,
) -> Result<(), AllocError>
    requires held { IsTrue (holds_words (tiles_in cells.old) (piece.Part slot at)) }
    requires shape { IsTrue ((height at == words.now.rows) && (breadth at == cols words.now)) }
    requires residues { AreCellsOf K.MODULUS cells.old }
    requires words { IsMatrixOf K.MODULUS words.now }
    ensures done { OnOk result (cells.new ≡ with_tile_in cells.old slot (with_piece (tiles_in cells.old slot) (piece.Part slot at) (Words words.now))) }
    ensures residues { AreCellsOf K.MODULUS cells.new }
{
    match take_out(alloc, cells, slot) {
        Tile::Words(mut dst) => {
            put_words(&mut dst, at, words);
            put(cells, slot, Tile::Words(dst))
        }
        Tile::Index(_) => unreachable!(),
    }
}
