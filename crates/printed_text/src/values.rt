//! The texts of printed values: lines with single spaces between words.
ghost use Rattle.std.specs.Prelude.{◌≡◌, ◌<◌, ◌==◌, ◌∷◌, ◌++◌, [], if◌then◌else◌, length, decimal, map, IfOk, OnOk};
ghost use Rattle.run_data.specs.Matrix.{cols};
ghost use Rattle.run_data.specs.Text.{line_of};
ghost use Rattle.serial_model.specs.Text.{row_text, matrix_text, pivots_text, info_text, wrong_text};

use itoa::Buffer;
use run_data::{IndexList, Mat};
use std::alloc::{AllocError as NoMemory, Global};

fn add_count(out: &mut Vec<u8>, n: usize) -> Result<(), NoMemory>
    ensures { OnOk result (out.new.items ≡ out.old.items ++ decimal n) }
{
    let mut buffer = Buffer::new();
    out.extend_from_slice(buffer.format(n).as_bytes())
}

fn add_number(out: &mut Vec<u8>, n: u32) -> Result<(), NoMemory>
    ensures { OnOk result (out.new.items ≡ out.old.items ++ decimal n) }
{
    add_count(out, n as usize)
}

// The space before a word that is not the first of its line.
fn add_gap(out: &mut Vec<u8>, j: u32) -> Result<(), NoMemory>
    ensures { OnOk result (out.new.items ≡ out.old.items ++ (if j == 0 then [] else 32 ∷ [])) }
{
    if 0 < j {
        out.push(b' ')?;
    }
    Ok(())
}

// A row of a matrix, as a line of its words.
fn add_row(out: &mut Vec<u8>, m: &Mat, i: u32) -> Result<(), NoMemory>
    requires { i < m.now.rows }
    ensures { OnOk result (out.new.items ≡ out.old.items ++ row_text m.now i) }
{
    let cols = m.cols();
    for j in 0..cols {
        add_gap(out, j)?;
        add_number(out, m.get(i, j))?;
    }
    out.push(b'\n')?;
    Ok(())
}

// The numbers of a list, as a line.
fn add_list(out: &mut Vec<u8>, v: &IndexList) -> Result<(), NoMemory>
    ensures { OnOk result (out.new.items ≡ out.old.items ++ line_of (map decimal v.now)) }
{
    let count = v.len();
    for j in 0..count {
        add_gap(out, j)?;
        add_number(out, v.get(j))?;
    }
    out.push(b'\n')?;
    Ok(())
}

// The first line of a printed matrix: its name, its rows and its columns.
fn matrix_head(alloc: Global, name: &str, m: &Mat) -> Result<Vec<u8>, NoMemory>
    ensures { IfOk result (λ v. v.items ≡ line_of (name.now ∷ decimal m.now.rows ∷ decimal (cols m.now) ∷ [])) }
{
    let mut out = name.as_bytes().to_vec(alloc)?;
    out.push(b' ')?;
    add_number(&mut out, m.rows())?;
    out.push(b' ')?;
    add_number(&mut out, m.cols())?;
    out.push(b'\n')?;
    Ok(out)
}

// The first line of a printed list: its name and its length.
fn list_head(alloc: Global, name: &str, v: &IndexList) -> Result<Vec<u8>, NoMemory>
    ensures { IfOk result (λ t. t.items ≡ line_of (name.now ∷ decimal (length v.now) ∷ [])) }
{
    let mut out = name.as_bytes().to_vec(alloc)?;
    out.push(b' ')?;
    add_number(&mut out, v.len())?;
    out.push(b'\n')?;
    Ok(out)
}

/// What `print` prints of a matrix: a line with its name, its rows and its columns, and then a line for each row.
pub fn matrix_text(alloc: Global, name: &str, m: &Mat) -> Result<Vec<u8>, NoMemory>
    ensures { IfOk result (λ v. v.items ≡ matrix_text name.now m.now) }
{
    let mut out = matrix_head(alloc, name, m)?;
    let rows = m.rows();
    for i in 0..rows {
        add_row(&mut out, m, i)?;
    }
    Ok(out)
}

/// What `pivots` prints of a list: a line with its name and its length, and a line of its numbers.
pub fn pivots_text(alloc: Global, name: &str, v: &IndexList) -> Result<Vec<u8>, NoMemory>
    ensures { IfOk result (λ t. t.items ≡ pivots_text name.now v.now) }
{
    let mut out = list_head(alloc, name, v)?;
    add_list(&mut out, v)?;
    Ok(out)
}

/// What a command says of the matrix that it changed: the command, the matrix, `info` and the number.
pub fn info_text(alloc: Global, command: &str, name: &str, info: u32) -> Result<Vec<u8>, NoMemory>
    ensures { IfOk result (λ v. v.items ≡ info_text command.now name.now info) }
{
    let mut out = command.as_bytes().to_vec(alloc)?;
    out.push(b' ')?;
    out.extend_from_slice(name.as_bytes())?;
    out.extend_from_slice(b" info ")?;
    add_number(&mut out, info)?;
    out.push(b'\n')?;
    Ok(out)
}

/// How many words of a matrix were found wrong: `pverify`, the matrix, `wrong` and the number.
pub fn wrong_text(alloc: Global, name: &str, count: usize) -> Result<Vec<u8>, NoMemory>
    ensures { IfOk result (λ v. v.items ≡ wrong_text name.now count) }
{
    let mut out = b"pverify ".to_vec(alloc)?;
    out.extend_from_slice(name.as_bytes())?;
    out.extend_from_slice(b" wrong ")?;
    add_count(&mut out, count)?;
    out.push(b'\n')?;
    Ok(out)
}
