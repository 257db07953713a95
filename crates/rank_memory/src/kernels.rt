//! What kernels do to matrices beyond the dense kernels: additions on a triangle, and elimination below a global row.
ghost use Rattle.std.specs.Prelude.{◌≡◌, ◌≢◌, ◌+◌, ◌-◌, ◌*◌, ◌%◌, ◌<◌, ◌≤◌, if◌then◌else◌, nat_lt, nat_le, IsTrue, OnOk};
ghost use Rattle.field_core.specs.Residue.{inverse};
ghost use Rattle.run_data.specs.Matrix.{cols, entry, AreWords};
ghost use Rattle.run_data.specs.Parts.{IsWithin, SameShape, part_entry, with_part};
ghost use Rattle.local_blas.specs.Kernels.{with_added, with_eliminated};
ghost use Rattle.blacs_grid.specs.Places.{is_member};
ghost use Rattle.rank_machine.specs.Setting.{global_row};
ghost use Rattle.rank_machine.specs.Effect.{area};
ghost use Rattle.script_lines.specs.Layouts.{IsLayout};
ghost use Rattle.rank_memory.specs.Places.{column_in};
ghost use Rattle.rank_slots.specs.Shapes.{is_in_triangle};

use crate::pieces::{area_of, part_in, word_in};
use crate::rows::rows_below;
use field_core::Field;
use local_blas::eliminate;
use rank_machine::{Layout, Piece};
use run_data::{Mat, Part};
use std::alloc::{AllocError, Global};

// A word that gains a multiple of another, if it is reached.
fn gain<K: Field>(word: u32, a: u32, other: u32, reached: bool) -> u32
    requires word { word < K.MODULUS }
    requires factor { a < K.MODULUS }
    requires other { other < K.MODULUS }
    ensures { result ≡ (if reached then (word + a * other) % K.MODULUS else word) }
{
    if reached {
        K::add(word, K::mul(a, other))
    } else {
        word
    }
}

// Whether a row is one of the first, or one of the others.
fn is_on_side(upper: bool, i: u32, end: u32) -> bool
    ensures { result ≡ (if upper then nat_lt i end else nat_le end i) }
{
    if upper { i < end } else { i >= end }
}

// Adds `a` times a column of a part of another matrix to the rows before an end, or to the others.
#[tactic(auto, using(run_data::proofs::Fills::fills))]
fn add_column<K: Field>(
    dst: &mut Mat,
    at: Part,
    j: u32,
    a: u32,
    src: &Mat,
    sp: Part,
    upper: bool,
    end: u32,
)
    requires dst_part { IsWithin at dst.old }
    requires src_part { IsWithin sp src.now }
    requires shape { SameShape at sp }
    requires first { at.c0 ≤ j }
    requires last { j < at.c1 }
    requires factor { a < K.MODULUS }
    requires dst_words { AreWords K.MODULUS dst.old }
    requires src_words { AreWords K.MODULUS src.now }
    ensures { dst.new ≡ with_part dst.old (column_in at j) (λ i k. if (if upper then nat_lt i end else nat_le end i) then (entry dst.old i k + a * part_entry src.now sp (i - at.r0) (k - at.c0)) % K.MODULUS else entry dst.old i k) }
{
    let _shaped = dst.rows();
    let column = j - at.c0;
    for i in at.r0..at.r1 {
        let word = dst.get(i, j);
        let other = word_in(src, sp, i - at.r0, column);
        dst.set(i, j, gain::<K>(word, a, other, is_on_side(upper, i, end)));
    }
}

/// Adds `a` times a part of another matrix to the entries of a block column on or above the diagonal, or to those below it.
#[tactic(auto, using(run_data::proofs::Fills::fills))]
pub fn add_triangle<K: Field>(
    dst: &mut Mat,
    at: Part,
    a: u32,
    src: &Mat,
    sp: Part,
    placed: &Layout,
    rank: u32,
    upper: bool,
    block: u32,
)
    requires sound { IsLayout placed.now }
    requires member { IsTrue (is_member placed.now.grid rank) }
    requires dst_part { IsWithin at dst.old }
    requires src_part { IsWithin sp src.now }
    requires shape { SameShape at sp }
    requires factor { a < K.MODULUS }
    requires dst_words { AreWords K.MODULUS dst.old }
    requires src_words { AreWords K.MODULUS src.now }
    ensures { dst.new ≡ with_added K.MODULUS dst.old at a src.now sp (is_in_triangle placed.now rank upper block) }
{
    let _shaped = dst.rows();
    let first_column = u64::from(block) * u64::from(placed.desc.nb);
    for j in at.c0..at.c1 {
        let end = rows_below(placed, rank, at.r1, first_column + u64::from(j) + 1);
        add_column::<K>(dst, at, j, a, src, sp, upper, end);
    }
}

/// Eliminates column j in the rows whose global row is above a bound, by a piece of one row.
pub fn eliminate_below<K: Field>(
    alloc: Global,
    dst: &mut Mat,
    placed: &Layout,
    rank: u32,
    above: u32,
    j: u32,
    row: &Mat,
    x: Piece,
) -> Result<(), AllocError>
    requires sound { IsLayout placed.now }
    requires member { IsTrue (is_member placed.now.grid rank) }
    requires column { j < cols dst.old }
    requires row_part { IsWithin (area x row.now) row.now }
    requires row_rows { (area x row.now).r1 - (area x row.now).r0 ≡ 1 }
    requires row_columns { (area x row.now).c1 - (area x row.now).c0 ≡ cols dst.old }
    requires dst_words { AreWords K.MODULUS dst.old }
    requires row_words { AreWords K.MODULUS row.now }
    requires pivot { part_entry row.now (area x row.now) 0 j ≢ 0 }
    ensures { OnOk result (dst.new ≡ with_eliminated K.MODULUS (inverse K.MODULUS) dst.old (λ i. nat_lt above (global_row placed.now rank i)) j row.now (area x row.now)) }
{
    let pivot_row = part_in(alloc, x, row)?;
    let from = rows_below(placed, rank, dst.rows(), u64::from(above) + 1);
    eliminate::<K>(dst, from, j, &pivot_row);
    Ok(())
}
