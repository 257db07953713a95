//! The searches of the ranks: of a pivot by those of a process column, by the kernels `first`,
//! `least` and `push`, and of a zero on the diagonal by all data ranks, by `diag` and `least`.

ghost use Rattle.std.specs.Prelude.{◌≡◌, ◌≢◌, ℕ, ◌+◌, ◌-◌, ◌*◌, ◌/◌, ◌%◌, ◌<◌, ◌≤◌, min};
ghost use Rattle.array_desc.specs.Descriptors.{IsDesc};
ghost use Rattle.blacs_grid.specs.Places.{rank_at};
ghost use Rattle.rank_machine.specs.declared.slot.Slot.{Slot};
ghost use Rattle.rank_machine.specs.declared.slot.Tile.TheVariants.{Index};
ghost use Rattle.rank_machine.specs.declared.slot.Piece.{Piece};
ghost use Rattle.rank_machine.specs.declared.slot.Piece.TheVariants as piece;
ghost use Rattle.rank_machine.specs.declared.kernel.Kernel.TheVariants as k;
ghost use Rattle.rank_machine.specs.declared.layout.Layout.{Layout};
ghost use Rattle.rank_machine.specs.Setting.{Setting, layout};
ghost use Rattle.rank_machine.specs.Effect.{Memory, none_number, numbers_of, first_number, slot_of, least_of, first_row, made_by};
ghost use Rattle.serial_model.specs.Elimination.{Eliminated, eliminate_column, pivot_from, least_zero, diagonal};
ghost use Rattle.elimination.specs.Strips.{Hold};
ghost use Rattle.phase_laws.specs.Columns.{rows_of, strips_in};
ghost use Rattle.phase_laws.specs.Search.{number_found, IsLeastOf, HoldMatrix, zero_found, info_number};

/// Each process row finds the first of its rows, from a row on, whose word in a column is not 0;
/// the least of what they find is the pivot's row in the whole column, or no row where all are 0.
pub fn least_number_is_the_pivot()
    ensures { (s : Setting) (d : Layout) (col : ℕ) (slot : Slot) (mem : ℕ → Memory) (width : ℕ) (f : ℕ → ℕ → ℕ) (j from found : ℕ) →
        IsDesc d.grid.p d.grid.q d.desc → col < d.grid.q + d.grid.f → layout s slot.id ≡ d → Hold (rows_of d) width f (strips_in mem slot) → j < width → from ≤ d.desc.m →
        IsLeastOf d.grid.p (λ row. first_row s (rank_at d.grid row col) (mem row) (piece.Whole slot) j from) found →
        found ≡ number_found (pivot_from (λ i. f i j) from (d.desc.m - from)) }
{}

/// The least of the first numbers, taken one after another, is the least of all.
pub fn smaller_of_two_gives_the_least()
    ensures { (n : ℕ) (f : ℕ → ℕ) → 0 < n → ((k : ℕ) → k < n → f k ≤ none_number) → IsLeastOf n f (least_of n f) }
{}

/// There is one least number, in whatever order the numbers are combined.
pub fn the_least_is_one()
    ensures { (n : ℕ) (f : ℕ → ℕ) (v w : ℕ) → IsLeastOf n f v → IsLeastOf n f w → v ≡ w }
{}

/// A row that was found is the pivot's: it is in the matrix, its word is not 0, and the words
/// above it, from the diagonal on, are 0.
pub fn found_row_is_the_pivot()
    ensures { (c : ℕ → ℕ) (from m found : ℕ) →
        from ≤ m → m < none_number → found ≡ number_found (pivot_from c from (m - from)) → found ≢ none_number →
        (from ≤ found - 1) × (found - 1 < m) × (c (found - 1) ≢ 0) × ((i : ℕ) → from ≤ i → i < found - 1 → c i ≡ 0) }
{}

/// Where none was found there is no pivot: the words from the diagonal on are 0.
pub fn none_found_is_no_pivot()
    ensures { (c : ℕ → ℕ) (from m found : ℕ) →
        from ≤ m → m < none_number → found ≡ number_found (pivot_from c from (m - from)) → found ≡ none_number →
        (i : ℕ) → from ≤ i → i < m → c i ≡ 0 }
{}

/// Pushed on the list of pivots, what was found makes it the list that elimination has after that
/// column.
pub fn push_appends_the_pivot()
    ensures { (s : Setting) (rank : ℕ) (mem : Memory) (to : Slot) (from : Piece) (p : ℕ) (inverse : ℕ → ℕ) (m j : ℕ) (e : Eliminated) →
        j ≤ m → m < none_number → numbers_of (mem to) ≡ e.pivots → first_number (mem (slot_of from)) ≡ number_found (pivot_from (λ i. e.words i j) j (m - j)) →
        made_by s rank mem (k.Push to from j) ≡ Index (eliminate_column p inverse m j e).pivots }
{}

/// By `diag` each data rank finds its first zero among the first `n` words of the diagonal, or among
/// all of them where it has fewer: `count` words. The least of what the ranks find is that of the
/// whole matrix: INFO, or no number where INFO is 0.
pub fn least_zero_is_info()
    ensures { (s : Setting) (to : Slot) (from : Piece) (a : ℕ → ℕ → ℕ) (mem : ℕ → ℕ → Memory) (n count found : ℕ) →
        let d = layout s (slot_of from).id in
        IsDesc d.grid.p d.grid.q d.desc → HoldMatrix d (slot_of from).id a mem → count ≡ min n (min d.desc.m d.desc.n) →
        IsLeastOf (d.grid.p * d.grid.q) (λ k. zero_found s to from mem n (k / d.grid.q) (k % d.grid.q)) found →
        found ≡ info_number (least_zero (diagonal a) count) }
{}
