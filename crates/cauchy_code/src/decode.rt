// The coefficients that decode a lost data symbol.
ghost use Rattle.std.specs.Prelude.{◌≡◌, ◌≢◌, ℕ, ◌+◌, ◌-◌, ◌*◌, ◌%◌, ◌<◌, ◌≤◌, List, false, true, not, length, All, count_by, IfOk, slice_index, slice_index_or};
ghost use Rattle.std.specs.List.{AllByRecursion};
ghost use Rattle.field_core.specs.Residue.{inverse};
ghost use Rattle.cauchy_code.specs.Cauchy.{IsDecoding};
ghost use Rattle.cauchy_code.specs.Solving.{column_sum, Scaled, Solves, lost_but, data_coefs};

use field_core::Field;
use std::alloc::{AllocError as NoMemory, Global};
use std::marker::Model;

/// The code coefficients from place `x` on, each times its weight at a data column, added up.
fn column_total<K: Field>(x: u32, code: &[u32], col: u32) -> u32
    requires left { col < x }
    requires right { x + length code.now ≤ 32 }
    requires residues { All (λ k. k < K.MODULUS) code.now }
    ensures { result ≡ column_sum (inverse K.MODULUS) x code.now col % K.MODULUS }
{
    let mut sum = 0;
    let mut at = x;
    for k in code {
        sum = K::add(sum, K::mul(K::inv(at - col), *k));
        at += 1;
    }
    sum
}

/// Puts back what taking the code column at place `x` away with a data column has divided out.
fn unscale<K: Field>(x: u32, col: u32, code: &mut [u32])
    requires left { col < x }
    requires right { x + 1 + length code.old ≤ 32 }
    requires residues { All (λ k. k < K.MODULUS) code.old }
    ensures scaled { Scaled K.MODULUS x col (x + 1) code.new code.old }
    ensures residues { All (λ k. k < K.MODULUS) code.new }
{
    let mut at = x + 1;
    for k in code.iter_mut() {
        *k = K::mul(K::mul(*k, at - col), K::inv(at - x));
        at += 1;
    }
}

/// Puts the other coefficients back, and gives the coefficient of the code column at place `x`,
/// with which they add up to 0 at the data column.
fn add_pivot<K: Field>(x: u32, col: u32, code: &mut [u32]) -> u32
    requires left { col < x }
    requires right { x + 1 + length code.old ≤ 32 }
    requires residues { All (λ k. k < K.MODULUS) code.old }
    ensures scaled { Scaled K.MODULUS x col (x + 1) code.new code.old }
    ensures residues { All (λ k. k < K.MODULUS) code.new }
    ensures residue { result < K.MODULUS }
    ensures own { (result + (x - col) * column_sum (inverse K.MODULUS) (x + 1) code.new col) % K.MODULUS ≡ 0 % K.MODULUS }
{
    unscale::<K>(x, col, code);
    let total = column_total::<K>(x + 1, code, col);
    K::neg(K::mul(x - col, total))
}

/// The code coefficients that add up to 0 at each of the columns and to `target` at `which`.
/// Only the first code columns that are not lost get one, one more than there are columns.
fn solve<K: Field>(
    alloc: Global,
    x: u32,
    lost: &[bool],
    columns: &[u32],
    which: u32,
    target: u32,
) -> Result<Vec<u32>, NoMemory>
    requires room { length columns.now < count_by not lost.now }
    requires right { x + length lost.now ≤ 32 }
    requires left { which < x }
    requires columns { AllByRecursion (λ y. (y < x) × (y ≢ which)) columns.now }
    requires residue { target < K.MODULUS }
    ensures { IfOk result (λ code. Solves K.MODULUS (inverse K.MODULUS) x lost.now columns.now which target code.items) }
{
    let [is_lost, others @ ..] = lost else {
        unreachable!();
    };
    let skipped = *is_lost;
    if skipped {
        let mut code = solve::<K>(alloc, x + 1, others, columns, which, target)?;
        code.insert(0, 0)?;
        return Ok(code);
    }
    match columns {
        [] => {
            let mut code = vec![in alloc; 0; others.len()]?;
            code.insert(0, K::mul(x - which, target))?;
            Ok(code)
        }
        [col, more @ ..] => {
            let step = K::mul(K::mul(x - which, target), K::inv(K::sub(*col, which)));
            let mut code = solve::<K>(alloc, x + 1, others, more, which, step)?;
            let first = add_pivot::<K>(x, *col, &mut code);
            code.insert(0, first)?;
            Ok(code)
        }
    }
}

/// The lost columns but one.
fn columns_but(alloc: Global, lost: &[bool], which: u32) -> Result<Vec<u32>, NoMemory>
    requires { length lost.now ≤ 16 }
    ensures { IfOk result (λ columns. columns.items ≡ lost_but which 0 lost.now) }
{
    let mut columns = Vec::new(alloc);
    let mut col = 0;
    for is_lost in lost {
        if *is_lost && col != which {
            columns.push(col)?;
        }
        col += 1;
    }
    Ok(columns)
}

/// The data coefficients that go with code coefficients: each live column then adds up to 0.
fn live_coefs<K: Field>(
    alloc: Global,
    q: u32,
    lost: &[bool],
    code: &[u32],
) -> Result<Vec<u32>, NoMemory>
    requires columns { length lost.now ≤ q }
    requires right { q + length code.now ≤ 32 }
    requires residues { All (λ k. k < K.MODULUS) code.now }
    ensures { IfOk result (λ coefs. coefs.items ≡ data_coefs K.MODULUS (inverse K.MODULUS) q code.now 0 lost.now) }
{
    let mut coefs = Vec::new(alloc);
    let mut col = 0;
    for is_lost in lost {
        coefs.push(if *is_lost {
            0
        } else {
            K::neg(column_total::<K>(q, code, col))
        })?;
        col += 1;
    }
    Ok(coefs)
}

/// The coefficients with which the symbols of a place add up to a lost data symbol: one for each
/// data column, and then one for each code column.
#[derive(Debug, Drop)]
pub struct Coefs {
    items: Vec<u32>,
}

impl Model for Coefs {
    ghost use Rattle.std.specs.Prelude.{ℕ, List};

    ghost Value = { List ℕ };

    ghost view = { λ a. a.items.items };
}

impl Coefs {
    /// The coefficient of symbol `i`, where the symbols are numbered from 0, data columns first.
    pub fn get(&self, i: u32) -> u32
        requires { i < length self.now }
        ensures { result ≡ slice_index self.now i }
    {
        self.items[i as usize]
    }
}

/// The coefficients that decode the lost data symbol of column `which`. `lost` tells for each of
/// the `q` data columns, and then for each of the `f` code columns, whether its symbol is lost.
///
/// The coefficients are 0 on lost symbols, and on every code symbol but the first that are not
/// lost, as many as data symbols are lost. No other list of residues decodes and is 0 there.
///
/// # Errors
///
/// Only where memory runs out.
pub fn decode_row<K: Field>(
    alloc: Global,
    q: u32,
    f: u32,
    lost: &[bool],
    which: u32,
) -> Result<Coefs, NoMemory>
    requires columns { q ≤ 16 }
    requires code_columns { f ≤ 4 }
    requires symbols { length lost.now ≡ q + f }
    requires few_lost { count_by (λ b. b) lost.now ≤ f }
    requires data_column { which < q }
    requires which_lost { slice_index_or lost.now which false ≡ true }
    ensures symbols { IfOk result (λ ks. length ks ≡ q + f) }
    ensures decodes { IfOk result (λ ks. IsDecoding K.MODULUS (inverse K.MODULUS) q lost.now which ks) }
    ensures only { IfOk result (λ ks. (other : List ℕ) → IsDecoding K.MODULUS (inverse K.MODULUS) q lost.now which other → other ≡ ks) }
{
    let (data, rest) = lost.split_at(q as usize);
    let columns = columns_but(alloc, data, which)?;
    let code = solve::<K>(alloc, q, rest, &columns, which, 1)?;
    let mut items = live_coefs::<K>(alloc, q, data, &code)?;
    items.extend_from_slice(&code)?;
    Ok(Coefs { items })
}
