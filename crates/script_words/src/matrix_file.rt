//! Reading a matrix file.
ghost use Rattle.std.specs.Prelude.{◌≡◌, ◌+◌, ◌^◌, ◌≤◌, ◌<◌, suc, length, None, Some, Ok, Err, IfOk, IfErr, IfNone, IfSome, is_some};
ghost use Rattle.script_words.specs.Gives.{Gives};
ghost use Rattle.run_data.specs.Matrix.{cols};
ghost use Rattle.script_words.specs.Lines.{words_of};
ghost use Rattle.script_words.specs.Numbers.{number_of};
ghost use Rattle.script_words.specs.Tables.{first_code};
ghost use Rattle.script_words.specs.MatrixFile.{is_residue_word, residue_or_zero, row_rules, with_row, IsRead, IsBroken, too_few, matrix_of, HasResidues};

use crate::fault::{Refused, TextFault};
use crate::lines::{Stop, cut, line_text, next_word, skip_one, word_count};
use crate::numbers::number_of;
use run_data::Mat;
use std::alloc::Global;

fn residue_of(word: &[u8], modulus: u32) -> Option<u32>
    ensures test { is_some result ≡ is_residue_word modulus word.now }
    ensures value { IfSome result (λ n. n ≡ residue_or_zero modulus (number_of word.now)) }
{
    match number_of(word) {
        Some(n) if n < modulus => Some(n),
        _ => None,
    }
}

// The first rule that the next row of a matrix breaks, after `i` rows; its text has `count` words. A row that breaks none is written.
fn read_row(matrix: &mut Mat, i: u32, text: &[u8], count: usize, modulus: u32) -> Option<i32>
    requires { count ≡ length (words_of text.now) }
    ensures code { result ≡ first_code (row_rules modulus matrix.old.rows (cols matrix.old) i (words_of text.now)) }
    ensures few { IfNone result (i < matrix.old.rows) }
    ensures fits { IfNone result (i + 1 < 2 ^ 32) }
    ensures row { IfNone result (matrix.new ≡ with_row modulus matrix.old i (words_of text.now)) }
{
    if i >= matrix.rows() {
        return Some(13);
    }
    let cols = matrix.cols();
    if count != cols as usize {
        return Some(14);
    }
    let mut rest = text;
    for j in 0..cols {
        let Some((word, after)) = next_word(rest) else {
            return Some(14);
        };
        match residue_of(word, modulus) {
            Some(number) => matrix.set(i, j, number),
            None => return Some(15),
        }
        rest = after;
    }
    None
}

// The rows after the next line; a line without words is no row. The code of the first rule that the line breaks is the error.
fn read_line(matrix: &mut Mat, rows: u32, text: &[u8], modulus: u32) -> Result<u32, i32>
    ensures read { IfOk result (λ more. IsRead modulus matrix.old matrix.new rows more (words_of text.now)) }
    ensures broken { IfErr result (λ code. IsBroken modulus matrix.old rows (words_of text.now) code) }
{
    let count = word_count(text);
    if count == 0 {
        return Ok(rows);
    }
    match read_row(matrix, rows, text, count, modulus) {
        Some(code) => Err(code),
        None => Ok(rows + 1),
    }
}

/// The matrix of `m` rows and `n` columns of words below `modulus` that the bytes of a file spell; `file` is the number that a refusal names. Each line with
/// words is a row. The refusal is the first broken rule, row by row: a row too many is refused at its line by code 13, a row with
/// another number of words by 14, a word that is no number below the modulus by 15; and too few rows at line 0 by 13.
pub fn parse_matrix(
    alloc: Global,
    bytes: &[u8],
    file: u32,
    m: u32,
    n: u32,
    modulus: u32,
) -> Result<Mat, TextFault>
    requires { length bytes.now ≤ 16777216 }
    ensures read { Gives result (matrix_of modulus bytes.now file m n) }
    ensures residues { 0 < modulus → IfOk result (HasResidues modulus m n) }
{
    let mut matrix = Mat::zeros(alloc, m, n)?;
    let mut rest = bytes;
    let mut rows = 0;
    let mut line = 0;
    while !rest.is_empty() {
        let (text, after) = cut(rest, Stop::LineFeed);
        line += 1;
        match read_line(&mut matrix, rows, line_text(text), modulus) {
            Ok(more) => rows = more,
            Err(code) => return Err(TextFault::Refused(Refused { file, line, code })),
        }
        rest = skip_one(after);
    }
    if rows < m {
        return Err(TextFault::Refused(too_few(file)));
    }
    Ok(matrix)
}

// The refusal of a matrix file that has too few rows.
fn too_few(file: u32) -> Refused
    ensures { result ≡ too_few file }
{
    Refused {
        file,
        line: 0,
        code: 13,
    }
}
