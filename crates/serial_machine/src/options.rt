//! The options of commands: single letters, in either case.
ghost use Rattle.std.specs.Prelude.{◌≡◌};
ghost use Rattle.serial_model.specs.Serial.{is_left, is_lower, is_transposed, is_unit};

use crate::solves::Triangle;

// Whether an option is the letter L.
fn is_lower(word: &[u8]) -> bool
    ensures { result ≡ is_lower word.now }
{
    word == b"L".as_slice() || word == b"l".as_slice()
}

// Whether an option is the letter U.
fn is_unit(word: &[u8]) -> bool
    ensures { result ≡ is_unit word.now }
{
    word == b"U".as_slice() || word == b"u".as_slice()
}

// Whether a side is the letter L.
fn is_left(word: &[u8]) -> bool
    ensures { result ≡ is_left word.now }
{
    word == b"L".as_slice() || word == b"l".as_slice()
}

/// Whether an option asks for the transpose: the letter T.
pub fn is_transposed(word: &[u8]) -> bool
    ensures { result ≡ is_transposed word.now }
{
    word == b"T".as_slice() || word == b"t".as_slice()
}

/// The options of a solve with a triangle: from which side, with the triangle or its transpose, and which triangle.
#[derive(Clone, Copy)]
pub struct Options {
    pub is_left: bool,
    pub is_transposed: bool,
    pub triangle: Triangle,
}

impl Options {
    /// The options SIDE, UPLO, TRANSA and DIAG of a `ptrsm` line.
    pub fn of(side: &[u8], uplo: &[u8], transa: &[u8], diag: &[u8]) -> Options
        ensures left { result.is_left ≡ is_left side.now }
        ensures transposed { result.is_transposed ≡ is_transposed transa.now }
        ensures lower { result.triangle.is_lower ≡ is_lower uplo.now }
        ensures unit { result.triangle.is_unit ≡ is_unit diag.now }
    {
        let triangle = Triangle {
            is_lower: is_lower(uplo),
            is_unit: is_unit(diag),
        };
        Options {
            is_left: is_left(side),
            is_transposed: is_transposed(transa),
            triangle,
        }
    }
}
