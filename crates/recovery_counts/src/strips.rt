//! The rounds of a matrix, row by row and group by group, and the copies of a list, row by row.

ghost use Rattle.std.specs.Prelude.{◌≡◌, ℕ, ◌+◌, ◌*◌, ◌≤◌, ◌++◌, List, length};
ghost use Rattle.rank_run.specs.Rounds.{steps};
ghost use Rattle.rank_machine.specs.declared.slot.Slot.{Slot};
ghost use Rattle.rank_machine.specs.declared.layout.Layout.{Layout};
ghost use Rattle.rank_machine.specs.Setting.{Setting, layout, group_count};
ghost use Rattle.rank_machine.specs.State.{State};
ghost use Rattle.rank_machine.specs.Losses.{lost_in};
ghost use Rattle.rank_machine.specs.Legal.{lost_columns};
ghost use Rattle.rank_slots.specs.Stands.{records_of};
ghost use Rattle.recovery_rounds.specs.Mending.{Events, copy_events};
ghost use Rattle.recovery_rounds.specs.Rows.{row_events};
ghost use Rattle.recovery_code.specs.Copies.{row_copies, grid_copies};
ghost use Rattle.run_laws.specs.Traces.{matrix_most, list_most};
ghost use Rattle.recovery_counts.specs.Counted.{round_most, matrix_so_far, list_so_far, FewAreLost};

/// A round takes as many steps as it has records.
pub fn steps_are_records()
    ensures { (round : Events) → steps round ≡ length (records_of round) }
{}

/// The round of a process row that lost at most as many ranks as there are code columns.
pub fn a_round_takes_few_records()
    ensures { (s : Setting) (last now : State) (line row group : ℕ) (coefficients : ℕ → List ℕ) →
        lost_in now (layout s line).grid row ≤ (layout s line).grid.f →
        length (records_of (row_events s last now line row group coefficients)) ≤ round_most (layout s line) }
{}

/// No round is made yet.
pub fn a_matrix_begins()
    ensures { (matrix : Layout) → matrix_so_far matrix 0 0 ≡ 0 }
{}

/// One more group of a row.
pub fn one_more_group()
    ensures { (s : Setting) (last now : State) (line row group : ℕ) (coefficients : ℕ → List ℕ) →
        lost_in now (layout s line).grid row ≤ (layout s line).grid.f →
        matrix_so_far (layout s line) row group + length (records_of (row_events s last now line row group coefficients)) ≤ matrix_so_far (layout s line) row (group + 1) }
{}

/// After the last group of a row comes the next row.
pub fn a_row_ends()
    ensures { (matrix : Layout) (row : ℕ) → matrix_so_far matrix row (group_count matrix) ≡ matrix_so_far matrix (row + 1) 0 }
{}

/// A row that needs no round.
pub fn a_row_is_passed()
    ensures { (matrix : Layout) (row : ℕ) → matrix_so_far matrix row 0 ≤ matrix_so_far matrix (row + 1) 0 }
{}

/// After the last row.
pub fn a_matrix_ends()
    ensures { (matrix : Layout) → matrix_so_far matrix matrix.grid.p 0 ≡ matrix_most matrix }
{}

/// A copy takes two records: the list is sent, and received.
pub fn copies_take_two_records()
    ensures { (list : Slot) (pairs : List (ℕ × ℕ)) → length (records_of (copy_events list pairs)) ≡ 2 * length pairs }
{}

/// A process row has as many copies as ranks that were lost.
pub fn a_copy_for_each_lost_rank()
    ensures { (now : State) (matrix : Layout) (row : ℕ) → length (row_copies matrix.grid row (lost_columns now matrix.grid row)) ≡ lost_in now matrix.grid row }
{}

/// The copies of one more row.
pub fn one_more_row_of_copies()
    ensures { (now : State) (matrix : Layout) (list : Slot) (row : ℕ) →
        lost_in now matrix.grid row ≤ matrix.grid.f →
        list_so_far matrix row + length (records_of (copy_events list (row_copies matrix.grid row (lost_columns now matrix.grid row)))) ≤ list_so_far matrix (row + 1) }
{}

/// The round of all copies of a list.
pub fn a_list_takes_few_records()
    ensures { (now : State) (matrix : Layout) (list : Slot) →
        FewAreLost now matrix →
        length (records_of (copy_events list (grid_copies now matrix.grid))) ≤ list_most matrix }
{}
