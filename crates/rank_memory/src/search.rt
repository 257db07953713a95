//! Searches for rows: the first entry that is not zero, and the first zero on the diagonal.
ghost use Rattle.std.specs.Prelude.{◌≡◌, ℕ, ◌+◌, ◌-◌, ◌/◌, ◌%◌, ◌^◌, ◌<◌, ◌==◌, ◌&&◌, not, nat_lt, min, Some, IsTrue};
ghost use Rattle.run_data.specs.Matrix.{cols, entry};
ghost use Rattle.run_data.specs.Parts.{IsWithin};
ghost use Rattle.array_desc.specs.Maps.{owner, local};
ghost use Rattle.blacs_grid.specs.Places.{is_member, row_of, col_of};
ghost use Rattle.rank_machine.specs.Setting.{Setting, layout, global_row};
ghost use Rattle.rank_machine.specs.Effect.{words_of, least_of, number_if, is_zero_here, diagonal};
ghost use Rattle.script_lines.specs.Layouts.{IsLayout};
ghost use Rattle.rank_slots.specs.Cells.{tiles_in};

use crate::pieces::word_in;
use crate::rows::{global_of, row_on};
use array_desc::{local, owner};
use rank_machine::{Layout, Slot, SlotKind, Tile};
use rank_slots::{Cells, find_tile};
use run_data::{Mat, Part};

/// The number that means none.
pub const NONE: u32 = 2048;

// The number, from 1, of a global row, if its word is not zero and the number is above a bound; else the one before.
fn less_row(best: u64, word: u32, row: u64, above: u32) -> u64
    requires { row < 2 ^ 63 }
    ensures { result ≡ min best (number_if (not (word == 0) && nat_lt above (row + 1)) (row + 1)) }
{
    if word != 0 && u64::from(above) < row + 1 {
        best.min(row + 1)
    } else {
        best.min(2048)
    }
}

/// The least number, from 1, of a global row above a bound whose word in a column of a part is not zero, or the number that
/// means none.
pub fn first_row(m: &Mat, at: Part, j: u32, placed: &Layout, rank: u32, above: u32) -> u32
    requires sound { IsLayout placed.now }
    requires member { IsTrue (is_member placed.now.grid rank) }
    requires part { IsWithin at m.now }
    requires column { j < at.c1 - at.c0 }
    ensures { result ≡ least_of (at.r1 - at.r0) (λ i. number_if (not (entry m.now (at.r0 + i) (at.c0 + j) == 0) && nat_lt above (global_row placed.now rank (at.r0 + i) + 1)) (global_row placed.now rank (at.r0 + i) + 1)) }
{
    let row = row_on(placed, rank);
    let mut best = 2048;
    for i in 0..at.r1 - at.r0 {
        let word = word_in(m, at, i, j);
        best = less_row(best, word, global_of(placed, row, at.r0 + i), above);
    }
    best as u32
}

// Whether a word is zero, or not there.
#[tactic(auto, using(crate::proofs::RowLaws::past_rows, crate::proofs::RowLaws::past_columns))]
fn is_zero_in(m: &Mat, i: u32, j: u32) -> bool
    ensures { result ≡ (entry m.now i j == 0) }
{
    if i >= m.rows() || j >= m.cols() {
        return true;
    }
    m.get(i, j) == 0
}

// Whether a word of a tile is zero, or not there.
#[tactic(auto, using(crate::proofs::RowLaws::nothing))]
fn is_zero_of(tile: &Tile, i: u32, j: u32) -> bool
    ensures { result ≡ (entry (words_of (Some tile.now)) i j == 0) }
{
    match tile {
        Tile::Words(m) => is_zero_in(m, i, j),
        Tile::Index(_) => true,
    }
}

// Whether the word at a place of the tile of a slot is zero, or not there.
#[tactic(auto, using(crate::proofs::RowLaws::nothing))]
fn is_zero_at(cells: &Cells, slot: Slot, i: u32, j: u32) -> bool
    ensures { result ≡ (entry (words_of (tiles_in cells.now slot)) i j == 0) }
{
    match find_tile(cells, slot) {
        Some(tile) => is_zero_of(tile, i, j),
        None => true,
    }
}

// Whether the diagonal entry of a row and column lies on a rank and is zero.
fn is_zero_on(cells: &Cells, placed: &Layout, line: u32, row: u32, col: u32, i: u32) -> bool
    requires sound { IsLayout placed.now }
    requires row { row < placed.now.grid.p }
    ensures { (s : Setting) (rank : ℕ) → layout s line ≡ placed.now → row ≡ row_of placed.now.grid rank → col ≡ col_of placed.now.grid rank → result ≡ is_zero_here s rank (tiles_in cells.now) line i }
{
    let d = &placed.desc;
    let g = &placed.grid;
    if owner(i, d.mb, d.rsrc, g.p) != row || owner(i, d.nb, d.csrc, g.q) != col {
        return false;
    }
    let slot = Slot {
        kind: SlotKind::Data,
        id: line,
        group: i / d.nb / g.q,
    };
    is_zero_at(cells, slot, local(i, d.mb, g.p), i % d.nb)
}

/// The least number, from 1 and up to a bound, of a diagonal entry of a matrix that lies on a rank and is zero, or the number
/// that means none.
pub fn first_zero(cells: &Cells, placed: &Layout, line: u32, rank: u32, n: u32) -> u32
    requires sound { IsLayout placed.now }
    requires member { IsTrue (is_member placed.now.grid rank) }
    ensures { (s : Setting) → layout s line ≡ placed.now → result ≡ least_of (min n (diagonal placed.now)) (λ i. number_if (is_zero_here s rank (tiles_in cells.now) line i) (i + 1)) }
{
    let (row, col) = match placed.grid.coords(rank) {
        Some(at) => at,
        None => unreachable!(),
    };
    let mut best = NONE;
    for i in 0..n.min(placed.desc.m.min(placed.desc.n)) {
        if is_zero_on(cells, placed, line, row, col, i) {
            best = best.min(i + 1);
        }
    }
    best
}
