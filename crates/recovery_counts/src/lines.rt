//! The matrices and lists of a grid, line by line, and the grids, one by one.

ghost use Rattle.std.specs.Prelude.{◌≡◌, ℕ, ◌+◌, ◌≤◌, true, List, length, slice_index_or};
ghost use Rattle.rank_machine.specs.declared.mark.Mark.{Mark};
ghost use Rattle.rank_machine.specs.Setting.{Setting, layout, ranks};
ghost use Rattle.rank_machine.specs.Effect.{is_live_matrix, is_live_list};
ghost use Rattle.script_lines.specs.declared.lines.Line.{Line};
ghost use Rattle.script_lines.specs.Lines.{IsTableOf, no_line};
ghost use Rattle.run_laws.specs.Traces.{matrix_most, list_most, recovery_of, recovery_under};
ghost use Rattle.recovery_counts.specs.Counted.{job_at, matrices_so_far, lists_so_far, grid_most, grids_so_far};

/// A table has the jobs of its script, one by one.
pub fn a_table_has_the_jobs()
    ensures { (s : Setting) (table : List Line) → IsTableOf s.jobs table → length table ≡ length s.jobs }
{}

/// What a table's line of a place is, and what it factors.
pub fn lines_are_jobs()
    ensures { (s : Setting) (table : List Line) (i : ℕ) → IsTableOf s.jobs table → ((job_at s i).line ≡ (slice_index_or table i (no_line 0)).line) × ((job_at s i).factors ≡ (slice_index_or table i (no_line 0)).factors) }
{}

/// A line whose matrix is live and lies on the grid.
pub fn one_more_matrix()
    ensures { (s : Setting) (mark : Mark) (number i line : ℕ) → (job_at s i).line ≡ line → is_live_matrix s mark line ≡ true → (layout s line).desc.ctxt ≡ number →
        matrices_so_far s mark number i + matrix_most (layout s line) ≡ matrices_so_far s mark number (i + 1) }
{}

/// A line whose matrix is passed over.
pub fn a_matrix_is_passed()
    ensures { (s : Setting) (mark : Mark) (number i : ℕ) → matrices_so_far s mark number i ≤ matrices_so_far s mark number (i + 1) }
{}

/// A line whose list is live and lies on the grid.
pub fn one_more_list()
    ensures { (s : Setting) (mark : Mark) (number i line factors : ℕ) → (job_at s i).line ≡ line → (job_at s i).factors ≡ factors → is_live_list s mark line ≡ true → (layout s factors).desc.ctxt ≡ number →
        lists_so_far s mark number i + list_most (layout s factors) ≡ lists_so_far s mark number (i + 1) }
{}

/// A line whose list is passed over.
pub fn a_list_is_passed()
    ensures { (s : Setting) (mark : Mark) (number i : ℕ) → lists_so_far s mark number i ≤ lists_so_far s mark number (i + 1) }
{}

/// One more grid.
pub fn one_more_grid()
    ensures { (s : Setting) (mark : Mark) (number : ℕ) → grids_so_far s mark number + grid_most s mark number ≡ grids_so_far s mark (number + 1) }
{}

/// However many grids there are, what is live on them is what is live.
pub fn grids_take_few_records()
    ensures { (s : Setting) (mark : Mark) (n : ℕ) → grids_so_far s mark n ≤ recovery_of s mark s.jobs }
{}

/// The restore, a spawn for each rank that was lost, the rounds, and the healed commit.
pub fn a_recovery_takes_few_records()
    ensures { (s : Setting) (mark : Mark) (n spawned : ℕ) → spawned ≤ ranks s → (1 + spawned) + (grids_so_far s mark n + 1) ≤ recovery_under s mark }
{}
