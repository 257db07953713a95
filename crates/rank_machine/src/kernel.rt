//! Kernels: what one rank does in one step on its own memory.
use crate::slot::{Piece, Slot};

/// Which entries of a block column an addition is for: all, those whose global row is at most their global column, or those
/// whose global row is greater. The number is that of the block column.
#[derive(Clone, Copy)]
pub enum Cut {
    Whole,
    Upper(u32),
    Lower(u32),
}

/// A step of one rank on its own memory. Fields stand in the order of the journal's words; docs/MACHINE.md says what each does.
#[derive(Clone, Copy)]
pub enum Kernel {
    /// The slot becomes a zero tile of so many rows and columns; a pivot list becomes empty.
    Zero(Slot, u32, u32),
    /// The first piece gets what the second holds.
    Copy(Piece, Piece),
    /// The piece is multiplied by a factor.
    Scale(Piece, u32),
    /// The piece gets a factor times the second piece added.
    Add(Piece, u32, Piece, Cut),
    /// The piece gets a factor times the product of the other two added.
    MulAdd(Piece, u32, Piece, Piece),
    /// The piece becomes the solution with the lower triangle of the second; true where the diagonal counts as 1.
    Lower(Piece, Piece, bool),
    /// The same with the upper triangle.
    Upper(Piece, Piece, bool),
    /// Two local rows are exchanged.
    Swap(Slot, u32, u32),
    /// The slot becomes the least global row above a bound with a nonzero entry in a local column of the piece.
    First(Slot, Piece, u32, u32),
    /// The slot becomes the least place, up to a bound, of a zero on the diagonal that lies on this rank.
    Diag(Slot, Piece, u32),
    /// The slot gets the smaller of its number and that of the piece.
    Least(Slot, Piece),
    /// Column j of the slot is eliminated below global row k by a pivot row.
    Elim(Slot, u32, u32, Piece),
    /// The piece's number goes last in the slot's list.
    Push(Slot, Piece, u32),
    /// The slot becomes the transpose of the piece's words.
    Trans(Slot, Piece),
}
