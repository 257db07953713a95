// The weights of the code.
ghost use Rattle.std.specs.Prelude.{◌≡◌, ◌+◌, ◌-◌, ◌*◌, ◌%◌, ◌<◌, ◌≤◌};
ghost use Rattle.field_core.specs.Residue.{inverse};
ghost use Rattle.cauchy_code.specs.Cauchy.{weight};

use field_core::Field;

/// The weight of data column `col` at code column `c` in a row of `q` data columns: the inverse of
/// `q + c - col`, as in a Cauchy matrix.
pub fn weight<K: Field>(q: u32, c: u32, col: u32) -> u32
    requires columns { q ≤ 16 }
    requires code_column { c < 4 }
    requires data_column { col < q }
    ensures value { result ≡ weight (inverse K.MODULUS) q c col }
    ensures product { (result * (q + c - col)) % K.MODULUS ≡ 1 }
    ensures residue { result < K.MODULUS }
{
    let distance = q + c - col;
    K::inv(distance)
}
