//! The factors of a recovery are those that the machine allows.

ghost use Rattle.std.specs.Prelude.{◌≡◌, ℕ, ◌<◌, ◌≤◌, true, false, List, length, count_by, slice_index_or};
ghost use Rattle.cauchy_code.specs.Cauchy.{weight, IsDecoding};
ghost use Rattle.blacs_grid.specs.declared.Grid.{Grid};
ghost use Rattle.blacs_grid.specs.Places.{width, row_of};
ghost use Rattle.rank_machine.specs.Setting.{Setting, grid_of_rank, grid_numbered};
ghost use Rattle.rank_machine.specs.State.{State};
ghost use Rattle.rank_machine.specs.Legal.{lost_columns, IsFactor};
ghost use Rattle.rank_machine.specs.Losses.{lost_in, holds_live, is_beyond_at};

/// Entries of a list that decodes a lost data column of a rank's process row.
pub fn coefficients_are_factors()
    ensures { (s : Setting) (state : State) (rank which : ℕ) (coefficients : List ℕ) (col : ℕ) → (let grid = grid_of_rank s rank in
        which < grid.q → slice_index_or (lost_columns state grid (row_of grid rank)) which false ≡ true → IsDecoding s.modulus s.inverse grid.q (lost_columns state grid (row_of grid rank)) which coefficients → col < width grid →
        IsFactor s state rank (slice_index_or coefficients col 0)) }
{}

/// Weights of the rank's grid.
pub fn weights_are_factors()
    ensures { (s : Setting) (state : State) (rank c col : ℕ) → (let grid = grid_of_rank s rank in
        c < grid.f → col < grid.q → IsFactor s state rank (weight s.inverse grid.q c col)) }
{}

/// The columns that count as lost are those that the machine counts in a row.
pub fn lost_columns_are_counted()
    ensures { (state : State) (grid : Grid) (row : ℕ) → count_by (λ b. b) (lost_columns state grid row) ≡ lost_in state grid row }
{}

/// In a row that is not beyond, at most as many ranks are lost as there are code columns.
pub fn few_are_lost()
    ensures { (s : Setting) (state : State) (number row : ℕ) →
        number < length s.grids → row < (grid_numbered s number).p → holds_live s state number ≡ true → is_beyond_at s state number row ≡ false →
        lost_in state (grid_numbered s number) row ≤ (grid_numbered s number).f }
{}
