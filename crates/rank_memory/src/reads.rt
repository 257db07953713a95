//! The kernels on words that read another slot.
ghost use Rattle.std.specs.Prelude.{◌≡◌, nat_lt, IsTrue, OnOk};
ghost use Rattle.field_core.specs.Residue.{inverse};
ghost use Rattle.run_data.specs.Parts.{part_of, with_copy};
ghost use Rattle.local_blas.specs.Kernels.{with_added, with_product, with_solved_lower, with_solved_upper, with_eliminated};
ghost use Rattle.rank_machine.specs.Setting.{layout, global_row};
ghost use Rattle.rank_machine.specs.Effect.{slot_of, area, matrix_in, area_in, reaches};
ghost use Rattle.rank_machine.specs.Legal.{same_area};
ghost use Rattle.script_lines.specs.Lines.{setting_on, AreSound};
ghost use Rattle.rank_slots.specs.Cells.{tiles_in, IsMatrixOf, AreCellsOf};
ghost use Rattle.rank_slots.specs.Shapes.{from_corner};
ghost use Rattle.rank_memory.specs.Fits.{PairFit, AddFit, ProductFit, SolveFit, ElimFit};

use crate::made::words_at;
use crate::pieces::area_of;
use crate::words::{
    add_words, copy_words, eliminate_words, multiply_words, solve_words_lower, solve_words_upper,
};
use field_core::Field;
use rank_machine::{Cut, Piece, Slot};
use rank_slots::Cells;
use run_data::Mat;
use script_lines::Line;
use std::alloc::{AllocError, Global};

/// A piece gets what another holds.
pub fn copy_from(cells: &Cells, dst: &mut Mat, to: Piece, from: Piece)
    requires pair { PairFit (tiles_in cells.now) dst.old to from }
    requires shape { IsTrue (same_area (area to dst.old) (area_in (tiles_in cells.now) from)) }
    ensures { dst.new ≡ with_copy dst.old (area to dst.old) (part_of (matrix_in (tiles_in cells.now) from) (area_in (tiles_in cells.now) from)) (from_corner (area to dst.old)) }
{
    let at = area_of(to, dst);
    let m = words_at(cells, from);
    copy_words(dst, at, m, from);
}

/// A piece gains a factor times another, where a cut reaches.
pub fn add_from<K: Field>(
    table: &[Line],
    rank: u32,
    cells: &Cells,
    dst: &mut Mat,
    to: Piece,
    a: u32,
    from: Piece,
    cut: Cut,
)
    requires sound { AreSound table.now }
    requires residues { AreCellsOf K.MODULUS cells.now }
    requires dst_words { IsMatrixOf K.MODULUS dst.old }
    requires fit { AddFit K.MODULUS (setting_on 0 table.now) rank (tiles_in cells.now) dst.old to a from cut }
    ensures { dst.new ≡ with_added K.MODULUS dst.old (area to dst.old) a (matrix_in (tiles_in cells.now) from) (area_in (tiles_in cells.now) from) (reaches (setting_on 0 table.now) rank (slot_of to) cut) }
{
    let m = words_at(cells, from);
    add_words::<K>(table, rank, dst, to, a, m, from, cut);
}

/// A piece gains a factor times the product of two others.
pub fn multiply_from<K: Field>(
    cells: &Cells,
    dst: &mut Mat,
    to: Piece,
    a: u32,
    left: Piece,
    right: Piece,
)
    requires residues { AreCellsOf K.MODULUS cells.now }
    requires dst_words { IsMatrixOf K.MODULUS dst.old }
    requires fit { ProductFit K.MODULUS (tiles_in cells.now) dst.old to a left right }
    ensures { dst.new ≡ with_product K.MODULUS dst.old (area to dst.old) a (matrix_in (tiles_in cells.now) left) (area_in (tiles_in cells.now) left) (matrix_in (tiles_in cells.now) right) (area_in (tiles_in cells.now) right) }
{
    let x = words_at(cells, left);
    let y = words_at(cells, right);
    multiply_words::<K>(dst, to, a, x, left, y, right);
}

/// A piece becomes the solution with the lower triangle of another.
pub fn solve_lower_from<K: Field>(cells: &Cells, dst: &mut Mat, to: Piece, block: Piece, unit: bool)
    requires residues { AreCellsOf K.MODULUS cells.now }
    requires dst_words { IsMatrixOf K.MODULUS dst.old }
    requires fit { SolveFit (tiles_in cells.now) dst.old to block unit }
    ensures { dst.new ≡ with_solved_lower K.MODULUS (inverse K.MODULUS) dst.old (area to dst.old) (matrix_in (tiles_in cells.now) block) (area_in (tiles_in cells.now) block) unit }
{
    let m = words_at(cells, block);
    solve_words_lower::<K>(dst, to, m, block, unit);
}

/// A piece becomes the solution with the upper triangle of another.
pub fn solve_upper_from<K: Field>(cells: &Cells, dst: &mut Mat, to: Piece, block: Piece, unit: bool)
    requires residues { AreCellsOf K.MODULUS cells.now }
    requires dst_words { IsMatrixOf K.MODULUS dst.old }
    requires fit { SolveFit (tiles_in cells.now) dst.old to block unit }
    ensures { dst.new ≡ with_solved_upper K.MODULUS (inverse K.MODULUS) dst.old (area to dst.old) (matrix_in (tiles_in cells.now) block) (area_in (tiles_in cells.now) block) unit }
{
    let m = words_at(cells, block);
    solve_words_upper::<K>(dst, to, m, block, unit);
}

/// A column of a strip is eliminated below a global row, by a row of another slot.
pub fn eliminate_from<K: Field>(
    alloc: Global,
    table: &[Line],
    rank: u32,
    cells: &Cells,
    dst: &mut Mat,
    slot: Slot,
    j: u32,
    above: u32,
    row: Piece,
) -> Result<(), AllocError>
    requires sound { AreSound table.now }
    requires residues { AreCellsOf K.MODULUS cells.now }
    requires dst_words { IsMatrixOf K.MODULUS dst.old }
    requires fit { ElimFit (setting_on 0 table.now) rank (tiles_in cells.now) dst.old slot j row }
    ensures { OnOk result (dst.new ≡ with_eliminated K.MODULUS (inverse K.MODULUS) dst.old (λ i. nat_lt above (global_row (layout (setting_on 0 table.now) slot.id) rank i)) j (matrix_in (tiles_in cells.now) row) (area_in (tiles_in cells.now) row)) }
{
    let m = words_at(cells, row);
    eliminate_words::<K>(alloc, table, rank, dst, slot, j, above, m, row)
}
