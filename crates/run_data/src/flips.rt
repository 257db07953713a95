//! Words of matrices that are silently wrong.

/// What a `flip` line says: the word of a matrix at `row` and `column`, both counted from 1, is too great by `error`.
#[derive(Clone, Copy, Debug)]
pub struct Flip {
    pub line: u32,
    pub row: u32,
    pub column: u32,
    pub error: u32,
}
