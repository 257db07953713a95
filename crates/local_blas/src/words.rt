//! The words of a column.

ghost use Rattle.std.specs.Prelude.{◌≡◌, ℕ, ◌+◌, ◌-◌, ◌<◌, ◌≤◌, length, slice_index};
ghost use Rattle.run_data.specs.Matrix.{Matrix, entry, AreWords};
ghost use Rattle.run_data.specs.Parts.{IsWithin};

use run_data::{Mat, Part};

/// The words of a part of one column: they stand side by side.
pub(crate) fn column_words(m: &Mat, at: Part) -> &[u32]
    requires part { IsWithin at m.now }
    requires column { at.c1 ≡ at.c0 + 1 }
    ensures length { length result.now ≡ at.r1 - at.r0 }
    ensures words { (k : ℕ) → k < at.r1 - at.r0 → slice_index result.now k ≡ entry m.now (at.r0 + k) at.c0 }
    ensures small { (p : ℕ) → 0 < p → p ≤ 65537 → AreWords p m.now → (k : ℕ) → slice_index result.now k ≤ 65536 }
{
    let start = at.c0 as usize * m.rows() as usize;
    &m.words()[start + at.r0 as usize..start + at.r1 as usize]
}
