//! The serial run of a script.
ghost use Rattle.std.specs.Prelude.{◌≡◌, ◌≤◌, ◌++◌, false, length, Some, codes, OnOk, IfOk};
ghost use Rattle.std.specs.FinMap as map;
ghost use Rattle.field_core.specs.Residue.{inverse};
ghost use Rattle.run_data.specs.Matrix.{cols};
ghost use Rattle.run_data.specs.Script.{commands_of, modulus_of};
ghost use Rattle.local_blas.specs.Kernels.{AreWords};
ghost use Rattle.elimination.specs.Whole.{AreRows};
ghost use Rattle.rank_machine.specs.Scripts.{file_of};
ghost use Rattle.serial_model.specs.Serial as model;
ghost use Rattle.serial_model.specs.Serial.{with_matrix, with_value, matrix_in, list_in, factored, inverted_by_factors, wrong_in, text_under, values_under, serial_text};
ghost use Rattle.serial_model.specs.Solves.{product_of, window_copied};
ghost use Rattle.serial_model.specs.Elimination.{eliminated_matrix};
ghost use Rattle.serial_model.specs.Text.{info_text, wrong_text};
ghost use Rattle.serial_model.specs.Transposes.{side_solved, trans_solved, transpose_added};
ghost use Rattle.serial_machine.specs.Values.{values_of};
ghost use Rattle.serial_machine.specs.Ready.{AreWhole, CanCopy, CanFactor, CanMultiply, CanRun, CanSolve, CanSolveTriangle, CanTranspose, CanVerify, CanRunLine, prints_text};

use crate::factors::factor;
use crate::inverses::invert_with_factors;
use crate::options::{Options, is_transposed};
use crate::product::multiply;
use crate::sides::{add_transpose, solve_from_side};
use crate::solves::solve_with_factors;
use crate::texts::{print_info, print_value, print_wrong};
use crate::turned_factors::solve_with_transpose;
use crate::values::{Value, Values};
use crate::windows::{Corner, copy_window};
use crate::wrong::count_wrong;
use field_core::Field;
use run_data::{Command, Files, Mat, Script};
use std::alloc::{AllocError, Global};

// A `matrix` line: the name gets the matrix of its file.
fn add_matrix(
    alloc: Global,
    values: &mut Values,
    files: &Files,
    line: u32,
    name: &[u8],
) -> Result<(), AllocError>
    requires { map.get files.now line ≡ Some (file_of files.now line) }
    ensures { OnOk result (values_of values.new.entries.items ≡ with_matrix (values_of values.old.entries.items) name.now (file_of files.now line)) }
{
    let Some(m) = files.get(line) else {
        unreachable!();
    };
    values.put_matrix(alloc, name, m.copy(alloc)?)
}

// A `pgemm` line on the matrices of three names.
fn run_product<K: Field>(
    alloc: Global,
    values: &mut Values,
    alpha: u32,
    a: &[u8],
    b: &[u8],
    beta: u32,
    c: &[u8],
) -> Result<(), AllocError>
    requires whole { AreWhole K.MODULUS (values_of values.old.entries.items) }
    requires can { CanMultiply K.MODULUS (values_of values.old.entries.items) alpha a.now b.now beta c.now }
    ensures { OnOk result (values_of values.new.entries.items ≡ with_matrix (values_of values.old.entries.items) c.now (product_of K.MODULUS alpha (matrix_in (values_of values.old.entries.items a.now)) (matrix_in (values_of values.old.entries.items b.now)) beta (matrix_in (values_of values.old.entries.items c.now)))) }
{
    let mut product = values.take_matrix(c);
    let left = values.matrix(a);
    let right = values.matrix(b);
    multiply::<K>(alpha, left, right, beta, &mut product);
    values.put_matrix(alloc, c, product)
}

// A `ptran` line on the matrices of two names.
fn run_transpose<K: Field>(
    alloc: Global,
    values: &mut Values,
    alpha: u32,
    a: &[u8],
    beta: u32,
    c: &[u8],
) -> Result<(), AllocError>
    requires whole { AreWhole K.MODULUS (values_of values.old.entries.items) }
    requires can { CanTranspose K.MODULUS (values_of values.old.entries.items) alpha a.now beta c.now }
    ensures { OnOk result (values_of values.new.entries.items ≡ with_matrix (values_of values.old.entries.items) c.now (transpose_added K.MODULUS alpha (matrix_in (values_of values.old.entries.items a.now)) beta (matrix_in (values_of values.old.entries.items c.now)))) }
{
    let mut sum = values.take_matrix(c);
    let source = values.matrix(a);
    add_transpose::<K>(alpha, source, beta, &mut sum);
    values.put_matrix(alloc, c, sum)
}

// A `ptrsm` line.
fn run_triangle<K: Field>(
    alloc: Global,
    values: &mut Values,
    options: Options,
    alpha: u32,
    a: &[u8],
    b: &[u8],
    out: &mut Vec<u8>,
) -> Result<(), AllocError>
    requires whole { AreWhole K.MODULUS (values_of values.old.entries.items) }
    requires can { CanSolveTriangle K.MODULUS (values_of values.old.entries.items) options.is_left alpha a.now b.now }
    ensures changed { OnOk result (values_of values.new.entries.items ≡ with_matrix (values_of values.old.entries.items) b.now (side_solved K.MODULUS (inverse K.MODULUS) options.is_left options.is_transposed options.triangle.is_lower options.triangle.is_unit alpha (matrix_in (values_of values.old.entries.items a.now)) (matrix_in (values_of values.old.entries.items b.now))).matrix) }
    ensures text { OnOk result (out.new.items ≡ out.old.items ++ info_text (codes "ptrsm") b.now (side_solved K.MODULUS (inverse K.MODULUS) options.is_left options.is_transposed options.triangle.is_lower options.triangle.is_unit alpha (matrix_in (values_of values.old.entries.items a.now)) (matrix_in (values_of values.old.entries.items b.now))).info) }
{
    let mut solved = values.take_matrix(b);
    let matrix = values.matrix(a);
    let (left, transposed) = (options.is_left, options.is_transposed);
    let info = solve_from_side::<K>(
        alloc,
        left,
        transposed,
        options.triangle,
        alpha,
        matrix,
        &mut solved,
    )?;
    values.put_matrix(alloc, b, solved)?;
    print_info(alloc, "ptrsm", b, info, out)
}

// A `pgetrf` line.
fn run_factor<K: Field>(
    alloc: Global,
    values: &mut Values,
    a: &[u8],
    v: &[u8],
    out: &mut Vec<u8>,
) -> Result<(), AllocError>
    requires whole { AreWhole K.MODULUS (values_of values.old.entries.items) }
    requires can { CanFactor (values_of values.old.entries.items) a.now }
    ensures changed { OnOk result (values_of values.new.entries.items ≡ with_value (with_matrix (values_of values.old.entries.items) a.now (eliminated_matrix K.MODULUS (inverse K.MODULUS) (matrix_in (values_of values.old.entries.items a.now)))) v.now (Some (model.rows (factored K.MODULUS (inverse K.MODULUS) (values_of values.old.entries.items) a.now).pivots))) }
    ensures text { OnOk result (out.new.items ≡ out.old.items ++ info_text (codes "pgetrf") a.now (factored K.MODULUS (inverse K.MODULUS) (values_of values.old.entries.items) a.now).info) }
{
    let mut matrix = values.take_matrix(a);
    let factored = factor::<K>(alloc, &mut matrix)?;
    values.put_matrix(alloc, a, matrix)?;
    values.put(alloc, v, Value::Rows(factored.pivots))?;
    print_info(alloc, "pgetrf", a, factored.info, out)
}

// B becomes the X with A X = B, or with a transpose the X with A^T X = B, from the factors and the pivots' rows of A.
fn solve_factored<K: Field>(
    alloc: Global,
    transposed: bool,
    a: &Mat,
    rows: &[u32],
    b: &mut Mat,
) -> Result<u32, AllocError>
    requires square { cols a.now ≡ a.now.rows }
    requires same_rows { b.old.rows ≡ a.now.rows }
    requires list { a.now.rows ≤ length rows.now }
    requires pivots { AreRows rows.now 0 a.now.rows a.now.rows }
    requires a_words { AreWords K.MODULUS a.now }
    requires b_words { AreWords K.MODULUS b.old }
    ensures matrix { OnOk result (b.new ≡ (trans_solved K.MODULUS (inverse K.MODULUS) transposed a.now rows.now b.old).matrix) }
    ensures info { IfOk result (λ info. info ≡ (trans_solved K.MODULUS (inverse K.MODULUS) transposed a.now rows.now b.old).info) }
{
    if transposed {
        solve_with_transpose::<K>(alloc, a, rows, b)
    } else {
        Ok(solve_with_factors::<K>(a, rows, b))
    }
}

// A `pgetrs` line.
fn run_solve<K: Field>(
    alloc: Global,
    values: &mut Values,
    transposed: bool,
    a: &[u8],
    v: &[u8],
    b: &[u8],
    out: &mut Vec<u8>,
) -> Result<(), AllocError>
    requires whole { AreWhole K.MODULUS (values_of values.old.entries.items) }
    requires can { CanSolve (values_of values.old.entries.items) a.now v.now b.now }
    ensures changed { OnOk result (values_of values.new.entries.items ≡ with_matrix (values_of values.old.entries.items) b.now (trans_solved K.MODULUS (inverse K.MODULUS) transposed (matrix_in (values_of values.old.entries.items a.now)) (list_in (values_of values.old.entries.items v.now)) (matrix_in (values_of values.old.entries.items b.now))).matrix) }
    ensures text { OnOk result (out.new.items ≡ out.old.items ++ info_text (codes "pgetrs") b.now (trans_solved K.MODULUS (inverse K.MODULUS) transposed (matrix_in (values_of values.old.entries.items a.now)) (list_in (values_of values.old.entries.items v.now)) (matrix_in (values_of values.old.entries.items b.now))).info) }
{
    let mut solved = values.take_matrix(b);
    let matrix = values.matrix(a);
    let rows = values.rows(v);
    let info = solve_factored::<K>(alloc, transposed, matrix, rows, &mut solved)?;
    values.put_matrix(alloc, b, solved)?;
    print_info(alloc, "pgetrs", b, info, out)
}

// A `pgetri` line.
fn run_inverse<K: Field>(
    alloc: Global,
    values: &mut Values,
    a: &[u8],
    v: &[u8],
    b: &[u8],
    out: &mut Vec<u8>,
) -> Result<(), AllocError>
    requires whole { AreWhole K.MODULUS (values_of values.old.entries.items) }
    requires can { CanSolve (values_of values.old.entries.items) a.now v.now b.now }
    ensures changed { OnOk result (values_of values.new.entries.items ≡ with_matrix (values_of values.old.entries.items) b.now (inverted_by_factors K.MODULUS (inverse K.MODULUS) (values_of values.old.entries.items) a.now v.now b.now).matrix) }
    ensures text { OnOk result (out.new.items ≡ out.old.items ++ info_text (codes "pgetri") b.now (inverted_by_factors K.MODULUS (inverse K.MODULUS) (values_of values.old.entries.items) a.now v.now b.now).info) }
{
    let mut inverted = values.take_matrix(b);
    let matrix = values.matrix(a);
    let rows = values.rows(v);
    let info = invert_with_factors::<K>(alloc, matrix, rows, &mut inverted)?;
    values.put_matrix(alloc, b, inverted)?;
    print_info(alloc, "pgetri", b, info, out)
}

// A `pverify` line.
fn run_verify<K: Field>(
    alloc: Global,
    values: &Values,
    script: &Script,
    line: u32,
    name: &[u8],
    out: &mut Vec<u8>,
) -> Result<(), AllocError>
    requires { CanVerify (values_of values.now.entries.items) name.now }
    ensures { OnOk result (out.new.items ≡ out.old.items ++ wrong_text name.now (wrong_in K.MODULUS (commands_of script.now) line name.now (matrix_in (values_of values.now.entries.items name.now)))) }
{
    let matrix = values.matrix(name);
    let flips = script.pending(alloc, line, name)?;
    let count = count_wrong::<K>(alloc, matrix.rows(), matrix.cols(), &flips)?;
    print_wrong(alloc, name, count, out)
}

// A `pgemr2d` line.
fn run_copy(
    alloc: Global,
    values: &mut Values,
    m: u32,
    n: u32,
    a: &[u8],
    from: Corner,
    b: &[u8],
    to: Corner,
) -> Result<(), AllocError>
    requires { CanCopy (values_of values.old.entries.items) m n a.now from.row from.column b.now to.row to.column }
    ensures { OnOk result (values_of values.new.entries.items ≡ with_matrix (values_of values.old.entries.items) b.now (window_copied m n (matrix_in (values_of values.old.entries.items a.now)) from.row from.column (matrix_in (values_of values.old.entries.items b.now)) to.row to.column)) }
{
    let mut copied = values.take_matrix(b);
    let source = values.matrix(a);
    copy_window(m, n, source, from, &mut copied, to);
    values.put_matrix(alloc, b, copied)
}

// A line that makes, changes or drops a matrix and prints nothing.
fn run_quiet_line<K: Field>(
    alloc: Global,
    values: &mut Values,
    files: &Files,
    line: u32,
    command: &Command,
) -> Result<(), AllocError>
    requires whole { AreWhole K.MODULUS (values_of values.old.entries.items) }
    requires ready { CanRunLine K.MODULUS files.now line command.now (values_of values.old.entries.items) }
    requires quiet { prints_text command.now ≡ false }
    ensures { OnOk result (values_of values.new.entries.items ≡ values_under K.MODULUS (inverse K.MODULUS) (file_of files.now) line command.now (values_of values.old.entries.items)) }
{
    match command {
        Command::Matrix { name, .. } => add_matrix(alloc, values, files, line, name.bytes()),
        Command::Pgemm {
            alpha,
            a,
            b,
            beta,
            c,
            ..
        } => {
            let (a, b, c) = (a.bytes(), b.bytes(), c.bytes());
            run_product::<K>(alloc, values, *alpha, a, b, *beta, c)
        }
        Command::Ptran {
            alpha,
            a,
            beta,
            c,
            ..
        } => run_transpose::<K>(alloc, values, *alpha, a.bytes(), *beta, c.bytes()),
        Command::Pgemr2d {
            m,
            n,
            a,
            ia,
            ja,
            b,
            ib,
            jb,
            ..
        } => {
            let from = Corner::at(*ia, *ja);
            let to = Corner::at(*ib, *jb);
            run_copy(alloc, values, *m, *n, a.bytes(), from, b.bytes(), to)
        }
        Command::Discard { name } => {
            values.take(name.bytes());
            Ok(())
        }
        _ => Ok(()),
    }
}

// A line with a command.
fn run_line<K: Field>(
    alloc: Global,
    values: &mut Values,
    script: &Script,
    files: &Files,
    line: u32,
    command: &Command,
    out: &mut Vec<u8>,
) -> Result<(), AllocError>
    requires whole { AreWhole K.MODULUS (values_of values.old.entries.items) }
    requires ready { CanRunLine K.MODULUS files.now line command.now (values_of values.old.entries.items) }
    ensures changed { OnOk result (values_of values.new.entries.items ≡ values_under K.MODULUS (inverse K.MODULUS) (file_of files.now) line command.now (values_of values.old.entries.items)) }
    ensures text { OnOk result (out.new.items ≡ out.old.items ++ text_under K.MODULUS (inverse K.MODULUS) (commands_of script.now) line command.now (values_of values.old.entries.items)) }
{
    match command {
        Command::Ptrsm {
            side,
            uplo,
            transa,
            diag,
            alpha,
            a,
            b,
            ..
        } => {
            let options = Options::of(side.bytes(), uplo.bytes(), transa.bytes(), diag.bytes());
            run_triangle::<K>(alloc, values, options, *alpha, a.bytes(), b.bytes(), out)
        }
        Command::Pgetrf { a, v, .. } => run_factor::<K>(alloc, values, a.bytes(), v.bytes(), out),
        Command::Pgetrs { trans, a, v, b, .. } => {
            let transposed = is_transposed(trans.bytes());
            let (a, v, b) = (a.bytes(), v.bytes(), b.bytes());
            run_solve::<K>(alloc, values, transposed, a, v, b, out)
        }
        Command::Pgetri { a, v, b, .. } => {
            run_inverse::<K>(alloc, values, a.bytes(), v.bytes(), b.bytes(), out)
        }
        Command::Pverify { name } => {
            run_verify::<K>(alloc, values, script, line, name.bytes(), out)
        }
        Command::Print { name } => print_value(alloc, values, name.bytes(), out),
        Command::Pivots { name } => print_value(alloc, values, name.bytes(), out),
        _ => run_quiet_line::<K>(alloc, values, files, line, command),
    }
}

/// The text that a script prints when one process runs it on whole matrices, over the field that it names.
///
/// `files` has the matrix of each `matrix` line, with the line's rows and columns and words below the modulus. It fails only where
/// memory runs out.
pub fn serial<K: Field>(
    alloc: Global,
    script: &Script,
    files: &Files,
) -> Result<Vec<u8>, AllocError>
    requires modulus { K.MODULUS ≡ modulus_of (commands_of script.now) }
    requires can_run { CanRun script.now files.now }
    ensures { IfOk result (λ text. text.items ≡ serial_text (file_of files.now) (commands_of script.now)) }
{
    let lines = script.as_slice();
    let mut values = Values::new(alloc);
    let mut out = Vec::new(alloc);
    for i in 0..script.lines() {
        if let Some(command) = &lines[i as usize] {
            run_line::<K>(alloc, &mut values, script, files, i + 1, command, &mut out)?;
        }
    }
    Ok(out)
}
