//! The kernels on words: each changes a piece of a matrix.
ghost use Rattle.std.specs.Prelude.{◌≡◌, ◌<◌, ◌+◌, ◌&&◌, ◌==◌, not, nat_lt, IsTrue, OnOk};
ghost use Rattle.field_core.specs.Residue.{inverse};
ghost use Rattle.run_data.specs.Matrix.{cols, entry, AreWords};
ghost use Rattle.run_data.specs.Parts.{IsWithin, SameShape, part_of, with_copy};
ghost use Rattle.local_blas.specs.Kernels.{with_scaled, with_added, with_product, with_solved_lower, with_solved_upper, with_eliminated};
ghost use Rattle.rank_machine.specs.Setting.{layout, global_row};
ghost use Rattle.rank_machine.specs.Effect.{slot_of, area, reaches};
ghost use Rattle.rank_machine.specs.Legal.{is_inside, same_area, is_square, is_cut_placed, in_matrix, height, breadth};
ghost use Rattle.script_lines.specs.Lines.{setting_on, AreSound};
ghost use Rattle.rank_slots.specs.Shapes.{from_corner, has_nonzero_diagonal, is_in_triangle};

use crate::kernels::{add_triangle, eliminate_below};
use crate::pieces::{area_of, put_copy};
use field_core::Field;
use local_blas::{add_scaled, mul_add, scale, solve_lower, solve_upper};
use rank_machine::{Cut, Piece, Slot};
use run_data::{Mat, Part};
use script_lines::{Line, layout_at};
use std::alloc::{AllocError, Global};

/// A part gets what a piece of another matrix holds.
#[tactic(auto, using(rank_slots::proofs::TestLaws::tests))]
pub fn copy_words(dst: &mut Mat, at: Part, src: &Mat, from: Piece)
    requires dst_in { IsTrue (is_inside at dst.old) }
    requires src_in { IsTrue (is_inside (area from src.now) src.now) }
    requires shape { IsTrue (same_area at (area from src.now)) }
    ensures { dst.new ≡ with_copy dst.old at (part_of src.now (area from src.now)) (from_corner at) }
{
    put_copy(dst, at, src, area_of(from, src));
}

/// A piece is multiplied by a factor.
#[tactic(auto, using(rank_slots::proofs::TestLaws::tests))]
pub fn scale_words<K: Field>(dst: &mut Mat, to: Piece, a: u32)
    requires dst_in { IsTrue (is_inside (area to dst.old) dst.old) }
    requires factor { a < K.MODULUS }
    requires dst_words { AreWords K.MODULUS dst.old }
    ensures { dst.new ≡ with_scaled K.MODULUS dst.old (area to dst.old) a }
{
    let at = area_of(to, dst);
    scale::<K>(dst, at, a);
}

// The entries of a block column on or above the diagonal, or those below it, gain a factor times a part of another matrix.
fn add_in_triangle<K: Field>(
    table: &[Line],
    rank: u32,
    dst: &mut Mat,
    slot: Slot,
    at: Part,
    a: u32,
    src: &Mat,
    sp: Part,
    upper: bool,
    block: u32,
)
    requires sound { AreSound table.now }
    requires placed { IsTrue (in_matrix (setting_on 0 table.now) rank slot) }
    requires dst_part { IsWithin at dst.old }
    requires src_part { IsWithin sp src.now }
    requires shape { SameShape at sp }
    requires factor { a < K.MODULUS }
    requires dst_words { AreWords K.MODULUS dst.old }
    requires src_words { AreWords K.MODULUS src.now }
    ensures { dst.new ≡ with_added K.MODULUS dst.old at a src.now sp (is_in_triangle (layout (setting_on 0 table.now) slot.id) rank upper block) }
{
    let placed = layout_at(table, slot.id);
    add_triangle::<K>(dst, at, a, src, sp, &placed, rank, upper, block);
}

/// A piece gains a factor times a piece of another matrix, on all entries or on those of a block column that a cut reaches.
#[tactic(auto, using(rank_slots::proofs::TestLaws::tests))]
pub fn add_words<K: Field>(
    table: &[Line],
    rank: u32,
    dst: &mut Mat,
    to: Piece,
    a: u32,
    src: &Mat,
    from: Piece,
    cut: Cut,
)
    requires sound { AreSound table.now }
    requires placed { IsTrue (is_cut_placed (setting_on 0 table.now) rank (slot_of to) cut) }
    requires dst_in { IsTrue (is_inside (area to dst.old) dst.old) }
    requires src_in { IsTrue (is_inside (area from src.now) src.now) }
    requires shape { IsTrue (same_area (area to dst.old) (area from src.now)) }
    requires factor { a < K.MODULUS }
    requires dst_words { AreWords K.MODULUS dst.old }
    requires src_words { AreWords K.MODULUS src.now }
    ensures { dst.new ≡ with_added K.MODULUS dst.old (area to dst.old) a src.now (area from src.now) (reaches (setting_on 0 table.now) rank (slot_of to) cut) }
{
    let at = area_of(to, dst);
    let sp = area_of(from, src);
    match cut {
        Cut::Whole => add_scaled::<K>(dst, at, a, src, sp),
        Cut::Upper(block) => {
            add_in_triangle::<K>(table, rank, dst, to.slot(), at, a, src, sp, true, block)
        }
        Cut::Lower(block) => {
            add_in_triangle::<K>(table, rank, dst, to.slot(), at, a, src, sp, false, block)
        }
    }
}

/// A piece gains a factor times the product of two pieces of other matrices.
#[tactic(auto, using(rank_slots::proofs::TestLaws::tests))]
pub fn multiply_words<K: Field>(
    dst: &mut Mat,
    to: Piece,
    a: u32,
    left: &Mat,
    lp: Piece,
    right: &Mat,
    rp: Piece,
)
    requires dst_in { IsTrue (is_inside (area to dst.old) dst.old) }
    requires left_in { IsTrue (is_inside (area lp left.now) left.now) }
    requires right_in { IsTrue (is_inside (area rp right.now) right.now) }
    requires shape { IsTrue ((height (area to dst.old) == height (area lp left.now)) && ((breadth (area lp left.now) == height (area rp right.now)) && (breadth (area to dst.old) == breadth (area rp right.now)))) }
    requires factor { a < K.MODULUS }
    requires dst_words { AreWords K.MODULUS dst.old }
    requires left_words { AreWords K.MODULUS left.now }
    requires right_words { AreWords K.MODULUS right.now }
    ensures { dst.new ≡ with_product K.MODULUS dst.old (area to dst.old) a left.now (area lp left.now) right.now (area rp right.now) }
{
    let at = area_of(to, dst);
    mul_add::<K>(
        dst,
        at,
        a,
        left,
        area_of(lp, left),
        right,
        area_of(rp, right),
    );
}

/// A piece becomes the solution with a lower triangle.
#[tactic(auto, using(rank_slots::proofs::TestLaws::tests))]
pub fn solve_words_lower<K: Field>(dst: &mut Mat, to: Piece, block: &Mat, x: Piece, unit: bool)
    requires dst_in { IsTrue (is_inside (area to dst.old) dst.old) }
    requires block_in { IsTrue (is_inside (area x block.now) block.now) }
    requires shape { IsTrue (is_square (area x block.now) (area to dst.old)) }
    requires dst_words { AreWords K.MODULUS dst.old }
    requires block_words { AreWords K.MODULUS block.now }
    requires divisors { IsTrue (has_nonzero_diagonal block.now (area x block.now) unit) }
    ensures { dst.new ≡ with_solved_lower K.MODULUS (inverse K.MODULUS) dst.old (area to dst.old) block.now (area x block.now) unit }
{
    let at = area_of(to, dst);
    solve_lower::<K>(dst, at, block, area_of(x, block), unit);
}

/// A piece becomes the solution with an upper triangle.
#[tactic(auto, using(rank_slots::proofs::TestLaws::tests))]
pub fn solve_words_upper<K: Field>(dst: &mut Mat, to: Piece, block: &Mat, x: Piece, unit: bool)
    requires dst_in { IsTrue (is_inside (area to dst.old) dst.old) }
    requires block_in { IsTrue (is_inside (area x block.now) block.now) }
    requires shape { IsTrue (is_square (area x block.now) (area to dst.old)) }
    requires dst_words { AreWords K.MODULUS dst.old }
    requires block_words { AreWords K.MODULUS block.now }
    requires divisors { IsTrue (has_nonzero_diagonal block.now (area x block.now) unit) }
    ensures { dst.new ≡ with_solved_upper K.MODULUS (inverse K.MODULUS) dst.old (area to dst.old) block.now (area x block.now) unit }
{
    let at = area_of(to, dst);
    solve_upper::<K>(dst, at, block, area_of(x, block), unit);
}

/// A column of a strip is eliminated below a global row.
#[tactic(auto, using(rank_slots::proofs::TestLaws::tests))]
pub fn eliminate_words<K: Field>(
    alloc: Global,
    table: &[Line],
    rank: u32,
    dst: &mut Mat,
    slot: Slot,
    j: u32,
    above: u32,
    row: &Mat,
    x: Piece,
) -> Result<(), AllocError>
    requires sound { AreSound table.now }
    requires placed { IsTrue (in_matrix (setting_on 0 table.now) rank slot) }
    requires row_in { IsTrue (is_inside (area x row.now) row.now) }
    requires shape { IsTrue (((height (area x row.now) == 1) && (breadth (area x row.now) == cols dst.old)) && nat_lt j (cols dst.old)) }
    requires dst_words { AreWords K.MODULUS dst.old }
    requires row_words { AreWords K.MODULUS row.now }
    requires pivot { IsTrue (not (entry row.now (area x row.now).r0 ((area x row.now).c0 + j) == 0)) }
    ensures { OnOk result (dst.new ≡ with_eliminated K.MODULUS (inverse K.MODULUS) dst.old (λ i. nat_lt above (global_row (layout (setting_on 0 table.now) slot.id) rank i)) j row.now (area x row.now)) }
{
    let placed = layout_at(table, slot.id);
    eliminate_below::<K>(alloc, dst, &placed, rank, above, j, row, x)
}
