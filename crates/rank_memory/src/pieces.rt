//! Pieces of tiles: cutting them out, and putting words into them.
ghost use Rattle.std.specs.Prelude.{◌≡◌, ◌-◌, ◌<◌, Some, IsTrue, IfOk};
ghost use Rattle.run_data.specs.Matrix.{cols};
ghost use Rattle.run_data.specs.Parts.{IsWithin, SameShape, part_entry, part_of, with_part, with_copy};
ghost use Rattle.rank_machine.specs.Effect.{area, cut_out, transposed, zero_tile};
ghost use Rattle.rank_machine.specs.Legal.{holds};
ghost use Rattle.rank_memory.specs.Places.{column};
ghost use Rattle.rank_slots.specs.Shapes.{from_corner};

use rank_machine::{Piece, Slot, SlotKind, Tile};
use run_data::{IndexList, Mat, Part, put_part};
use std::alloc::{AllocError, Global};

/// The rectangle of a piece of a matrix.
pub fn area_of(x: Piece, m: &Mat) -> Part
    ensures { result ≡ area x m.now }
{
    match x {
        Piece::Whole(_) => Part {
            r0: 0,
            r1: m.rows(),
            c0: 0,
            c1: m.cols(),
        },
        Piece::Part(_, at) => at,
    }
}

/// A word of a part of a matrix.
pub fn word_in(m: &Mat, at: Part, i: u32, j: u32) -> u32
    requires within { IsWithin at m.now }
    requires row { i < at.r1 - at.r0 }
    requires column { j < at.c1 - at.c0 }
    ensures { result ≡ part_entry m.now at i j }
{
    m.get(at.r0 + i, at.c0 + j)
}

/// A piece of a matrix, as a matrix of its own.
#[tactic(auto, using(rank_slots::proofs::PieceLaws::whole_is_part))]
pub fn part_in(alloc: Global, x: Piece, m: &Mat) -> Result<Mat, AllocError>
    requires { IsWithin (area x m.now) m.now }
    ensures { IfOk result (λ t. t ≡ part_of m.now (area x m.now)) }
{
    let _shaped = m.rows();
    match x {
        Piece::Whole(_) => m.copy(alloc),
        Piece::Part(_, at) => m.part(alloc, at),
    }
}

/// What a piece of a tile holds.
pub fn cut_out(alloc: Global, x: Piece, tile: &Tile) -> Result<Tile, AllocError>
    requires { IsTrue (holds (λ _. Some tile.now) x) }
    ensures { IfOk result (λ t. t ≡ cut_out x (Some tile.now)) }
{
    match tile {
        Tile::Words(m) => Ok(Tile::Words(part_in(alloc, x, m)?)),
        Tile::Index(numbers) => Ok(Tile::Index(numbers.copy(alloc)?)),
    }
}

// Writes a row of a part of a matrix into the column of that number.
fn put_row(dst: &mut Mat, row: u32, src: &Mat, at: Part)
    requires within { IsWithin at src.now }
    requires row { row < at.r1 - at.r0 }
    requires rows { dst.old.rows ≡ at.c1 - at.c0 }
    requires columns { cols dst.old ≡ at.r1 - at.r0 }
    ensures { dst.new ≡ with_part dst.old (column dst.old row) (λ i j. part_entry src.now at j i) }
{
    for i in 0..dst.rows() {
        dst.set(i, row, src.get(at.r0 + row, at.c0 + i));
    }
}

/// The transpose of a part of a matrix.
pub fn transpose(alloc: Global, m: &Mat, at: Part) -> Result<Mat, AllocError>
    requires { IsWithin at m.now }
    ensures { IfOk result (λ t. t ≡ transposed (part_of m.now at)) }
{
    let rows = at.c1 - at.c0;
    let cols = at.r1 - at.r0;
    let mut result = Mat::zeros(alloc, rows, cols)?;
    for j in 0..cols {
        put_row(&mut result, j, m, at);
    }
    Ok(result)
}

/// A zero tile of a shape, and of a pivot list the empty one.
pub fn zero_tile(alloc: Global, slot: Slot, rows: u32, cols: u32) -> Result<Tile, AllocError>
    ensures { IfOk result (λ t. t ≡ zero_tile slot rows cols) }
{
    if slot.kind.number() == SlotKind::Pivots.number() {
        Ok(Tile::Index(IndexList::new(alloc)))
    } else {
        Ok(Tile::Words(Mat::zeros(alloc, rows, cols)?))
    }
}

/// Writes a matrix into a part of its shape.
pub fn put_words(dst: &mut Mat, at: Part, words: &Mat)
    requires within { IsWithin at dst.old }
    requires rows { at.r1 - at.r0 ≡ words.now.rows }
    requires columns { at.c1 - at.c0 ≡ cols words.now }
    ensures { dst.new ≡ with_copy dst.old at words.now (from_corner at) }
{
    let all = Part {
        r0: 0,
        r1: words.rows(),
        c0: 0,
        c1: words.cols(),
    };
    put_part(dst, at, words, all);
}

/// Copies a part of a matrix into a part of its shape.
pub fn put_copy(dst: &mut Mat, at: Part, src: &Mat, sp: Part)
    requires dst_part { IsWithin at dst.old }
    requires src_part { IsWithin sp src.now }
    requires shape { SameShape at sp }
    ensures { dst.new ≡ with_copy dst.old at (part_of src.now sp) (from_corner at) }
{
    put_part(dst, at, src, sp);
}
