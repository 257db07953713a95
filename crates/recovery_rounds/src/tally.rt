//! How many records a recovery takes.

ghost use Rattle.std.specs.Prelude.{ℕ, ◌+◌, ◌*◌, ◌≤◌, ◌++◌, Bool, false, List, length, if◌then◌else◌, slice_index_or};
ghost use Rattle.field_core.specs.Sums.{sum_to};
ghost use Rattle.blacs_grid.specs.Places.{width};
ghost use Rattle.rank_machine.specs.declared.mark.Mark.{Mark};
ghost use Rattle.rank_machine.specs.declared.layout.Layout.{Layout};
ghost use Rattle.rank_machine.specs.Setting.{Setting};
ghost use Rattle.rank_slots.specs.Stands.{records_of};
ghost use Rattle.recovery_rounds.specs.Mending.{decoding_events, rebuilding_events, row_data_events, row_code_events};

/// A lost data strip.
pub fn a_data_strip_takes_few_records()
    ensures { (s : Setting) (mark : Mark) (line : ℕ) (matrix : Layout) (row group which : ℕ) (lost : List Bool) (coefficients : List ℕ) →
        length (records_of (decoding_events s mark line matrix row group which lost coefficients)) ≤ 3 * matrix.grid.q + 9 * matrix.grid.f + 1 }
{}

/// A lost code column.
pub fn a_code_column_takes_few_records()
    ensures { (s : Setting) (mark : Mark) (line : ℕ) (matrix : Layout) (row group c : ℕ) →
        length (records_of (rebuilding_events s mark line matrix row group c)) ≤ 4 * matrix.grid.q + 3 }
{}

/// A process row of a group, by how many of its columns are lost.
pub fn a_row_takes_few_records()
    ensures { (s : Setting) (mark : Mark) (line : ℕ) (matrix : Layout) (row group : ℕ) (lost : List Bool) (coefficients : ℕ → List ℕ) →
        length (records_of (row_data_events s mark line matrix row group lost coefficients ++ row_code_events s mark line matrix row group lost)) ≤ (9 * matrix.grid.q + 9 * matrix.grid.f + 3) * sum_to (width matrix.grid) (λ col. if slice_index_or lost col false then 1 else 0) }
{}
