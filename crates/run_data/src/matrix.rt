//! Dense matrices of words and their rectangular parts.

ghost use Rattle.std.specs.Prelude.{◌≡◌, ℕ, ◌+◌, ◌*◌, ◌<◌, ◌↔◌, length, slice_index, EachIndex, IsTrue, IfOk};
ghost use Rattle.std.specs.Borrow.{sem};
ghost use Rattle.run_data.specs.Matrix.{Matrix, cols, entry, IsShaped, AreWords, zero_matrix, with_entry};
ghost use Rattle.run_data.specs.Columns.{LendsWords};
ghost use Rattle.run_data.specs.Parts.{IsWithin, SameShape, part_of, with_copy};

use std::alloc::{AllocError as NoMemory, Global};
use std::marker::Model;

/// The rows from `r0` to below `r1` and the columns from `c0` to below `c1` of a matrix.
///
/// Rows and columns count from 0. A part may have no rows or no columns.
#[derive(Clone, Copy, Debug)]
pub struct Part {
    pub r0: u32,
    pub r1: u32,
    pub c0: u32,
    pub c1: u32,
}

/// A matrix of words, kept column by column as in LAPACK, with no gap between columns.
///
/// It may have no rows or no columns, and keeps its shape. Its words are any `u32`; calls that
/// compute modulo a prime ask for words below it.
#[derive(Drop)]
pub struct Mat {
    rows: u32,
    cols: u32,
    words: Vec<u32>,
}

impl Model for Mat {
    ghost use Rattle.std.specs.Prelude.{◌≡◌, ◌+◌, ◌*◌, vec_len, length, slice_index};
    ghost use Rattle.run_data.specs.Matrix.{Matrix, tabulate};

    ghost Value = { Matrix };

    ghost view = { λ m. tabulate m.rows m.cols (λ i j. slice_index m.words.items (j * m.rows + i)) };

    ghost invariant = { λ m. (vec_len m.words ≡ m.cols * m.rows) × (length m.words.items ≡ m.cols * m.rows) };
}

impl Mat {
    /// The matrix of `rows` rows and `cols` columns whose words are all 0. It fails only where memory
    /// runs out.
    pub fn zeros(alloc: Global, rows: u32, cols: u32) -> Result<Mat, NoMemory>
        ensures { IfOk result (λ m. m ≡ zero_matrix rows cols) }
    {
        let count = cols as usize * rows as usize;
        let words = vec![in alloc; 0u32; count]?;
        Ok(Mat { rows, cols, words })
    }

    /// A matrix with the same shape and the same words. It fails only where memory runs out.
    pub fn copy(&self, alloc: Global) -> Result<Mat, NoMemory>
        ensures { IfOk result (λ m. m ≡ self.now) }
    {
        let words = Vec::from_slice(alloc, &self.words)?;
        Ok(Mat {
            rows: self.rows,
            cols: self.cols,
            words,
        })
    }

    /// The number of rows.
    pub fn rows(&self) -> u32
        ensures value { result ≡ self.now.rows }
        ensures shaped { IsShaped self.now }
    {
        self.rows
    }

    /// The number of columns.
    pub fn cols(&self) -> u32
        ensures { result ≡ cols self.now }
    {
        self.cols
    }

    /// The word at row `i` and column `j`, both counted from 0.
    pub fn get(&self, i: u32, j: u32) -> u32
        requires row { i < self.now.rows }
        requires column { j < cols self.now }
        ensures { result ≡ entry self.now i j }
    {
        self.words[j as usize * self.rows as usize + i as usize]
    }

    /// Writes the word at row `i` and column `j`, both counted from 0.
    pub fn set(&mut self, i: u32, j: u32, x: u32)
        requires row { i < self.old.rows }
        requires column { j < cols self.old }
        ensures { self.new ≡ with_entry self.old i j x }
    {
        self.words[j as usize * self.rows as usize + i as usize] = x;
    }

    /// The words, one column after another: that of row `i` and column `j` is at
    /// `j * rows + i`.
    pub fn words(&self) -> &[u32]
        ensures size { length result.now ≡ cols self.now * self.now.rows }
        ensures words { (i j : ℕ) → i < self.now.rows → j < cols self.now → slice_index result.now (j * self.now.rows + i) ≡ entry self.now i j }
        ensures shaped { IsShaped self.now }
    {
        self.words.as_slice()
    }

    /// The words in the order of `words`, to be written in place.
    pub fn words_mut(&mut self) -> &mut [u32]
        ensures* writes_back { sem 𝓛 (LendsWords self.entry result) }
        ensures size { length result.now ≡ cols self.old * self.old.rows }
        ensures words { (i j : ℕ) → i < self.old.rows → j < cols self.old → slice_index result.now (j * self.old.rows + i) ≡ entry self.old i j }
        ensures shaped { IsShaped self.old }
    {
        self.words.as_mut_slice()
    }

    /// Whether each word is below `limit`, as calls that compute modulo a prime ask.
    pub fn has_words_below(&self, limit: u32) -> bool
        requires { 0 < limit }
        ensures { IsTrue result ↔ AreWords limit self.now }
    {
        are_below(self.words(), limit)
    }

    /// A part, as a matrix of its own. It fails only where memory runs out.
    pub fn part(&self, alloc: Global, at: Part) -> Result<Mat, NoMemory>
        requires { IsWithin at self.now }
        ensures { IfOk result (λ m. m ≡ part_of self.now at) }
    {
        let rows = at.r1 - at.r0;
        let cols = at.c1 - at.c0;
        let mut result = Mat::zeros(alloc, rows, cols)?;
        let all = Part {
            r0: 0,
            r1: rows,
            c0: 0,
            c1: cols,
        };
        put_part(&mut result, all, self, at);
        Ok(result)
    }
}

/// Whether each number is below `limit`.
fn are_below(words: &[u32], limit: u32) -> bool
    ensures { IsTrue result ↔ EachIndex words.now (λ k. slice_index words.now k < limit) }
{
    words.iter().all(|word| *word < limit)
}

/// Column `j` of a part.
pub fn column_of(at: Part, j: u32) -> Part
    requires { j < at.c1 }
    ensures { result ≡ record { r0 = at.r0; r1 = at.r1; c0 = j; c1 = j + 1 } }
{
    Part {
        r0: at.r0,
        r1: at.r1,
        c0: j,
        c1: j + 1,
    }
}

/// Copies a part of one column over another of as many rows.
fn put_column(dst: &mut Mat, at: Part, src: &Mat, sp: Part)
    requires dst_part { IsWithin at dst.old }
    requires src_part { IsWithin sp src.now }
    requires shape { SameShape at sp }
    requires column { at.c1 ≡ at.c0 + 1 }
    ensures { dst.new ≡ with_copy dst.old at src.now sp }
{
    let first = sp.c0 as usize * src.rows() as usize;
    let words = &src.words()[first + sp.r0 as usize..first + sp.r1 as usize];
    let start = at.c0 as usize * dst.rows() as usize;
    let place = dst.words_mut();
    place[start + at.r0 as usize..start + at.r1 as usize].copy_from_slice(words);
}

/// Copies the part `sp` of `src` over the part `at` of `dst`, which has the same shape (as
/// LAPACK's xLACPY). The words of `dst` outside `at` stay.
#[tactic(auto, using(crate::proofs::Fills::fills))]
pub fn put_part(dst: &mut Mat, at: Part, src: &Mat, sp: Part)
    requires dst_part { IsWithin at dst.old }
    requires src_part { IsWithin sp src.now }
    requires shape { SameShape at sp }
    ensures { dst.new ≡ with_copy dst.old at src.now sp }
{
    let _shaped = dst.rows();
    for j in at.c0..at.c1 {
        let column = column_of(sp, sp.c0 + (j - at.c0));
        put_column(dst, column_of(at, j), src, column);
    }
}
