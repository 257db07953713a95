//! Words of a matrix that are silently wrong.
ghost use Rattle.std.specs.Prelude.{◌≡◌, ◌==◌, if◌then◌else◌, IfOk};
ghost use Rattle.field_core.specs.Sums.{sum_to};
ghost use Rattle.run_data.specs.Matrix.{Matrix, cols, entry};
ghost use Rattle.local_blas.specs.Kernels.{AreWords};
ghost use Rattle.serial_model.specs.Wrong.{wrong_words};
ghost use Rattle.serial_machine.specs.Errors.{errors_of, with_error};

use field_core::Field;
use run_data::{Flip, Mat};
use std::alloc::{AllocError, Global};

// One flip more; a flip of no word of the matrix adds nothing.
fn add_error<K: Field>(errors: &mut Mat, flip: Flip)
    requires { AreWords K.MODULUS errors.old }
    ensures { errors.new ≡ with_error K.MODULUS errors.old flip }
{
    let rows = errors.rows();
    let cols = errors.cols();
    if 0 < flip.row && flip.row <= rows && 0 < flip.column && flip.column <= cols {
        let i = flip.row - 1;
        let j = flip.column - 1;
        let word = K::add(errors.get(i, j), flip.error % K::MODULUS);
        errors.set(i, j, word);
    }
}

// What flips add to each word of a matrix.
fn errors_of<K: Field>(
    alloc: Global,
    rows: u32,
    cols: u32,
    flips: &[Flip],
) -> Result<Mat, AllocError>
    ensures { IfOk result (λ e. e ≡ errors_of K.MODULUS rows cols flips.now) }
{
    let mut errors = Mat::zeros(alloc, rows, cols)?;
    for flip in flips {
        add_error::<K>(&mut errors, *flip);
    }
    Ok(errors)
}

// How many words of a matrix are not 0.
fn count_words(m: &Mat) -> usize
    ensures { result ≡ sum_to m.now.rows (λ i. sum_to (cols m.now) (λ j. if entry m.now i j == 0 then 0 else 1)) }
{
    let words = m.words();
    let mut count = 0;
    for word in words {
        if *word != 0 {
            count += 1;
        }
    }
    count
}

/// How many words of a matrix of that shape are wrong by flips: those to which they add something.
pub fn count_wrong<K: Field>(
    alloc: Global,
    rows: u32,
    cols: u32,
    flips: &[Flip],
) -> Result<usize, AllocError>
    ensures { IfOk result (λ count. count ≡ wrong_words K.MODULUS rows cols flips.now) }
{
    let errors = errors_of::<K>(alloc, rows, cols, flips)?;
    Ok(count_words(&errors))
}
