//! Elimination by panels of columns is elimination by columns.

ghost use Rattle.std.specs.Prelude.{◌≡◌, ◌≢◌, ℕ, ◌+◌, ◌*◌, ◌<◌, ◌≤◌, min, slice_index, List, length};
ghost use Rattle.serial_model.specs.Elimination.{Eliminated, eliminate_columns, untouched, elimination, least_zero, diagonal, pivot_row, exchanged};
ghost use Rattle.elimination.specs.Panels.{IsReady, AgreesOn, IsPanel, carried, eliminate_panel, eliminate_panels, panel_of};

/// Elimination by panels of `nb` columns gives the words, the pivots and the INFO of elimination
/// by columns, also where a column has no pivot, where the last panel is narrow, and where there
/// are fewer rows than columns.
pub fn panels_eliminate()
    ensures { (p : ℕ) (inverse : ℕ → ℕ) (m n nb t : ℕ) (a : ℕ → ℕ → ℕ) →
        IsReady p m 0 (untouched a) → min m n ≤ t * nb → t * nb ≤ min m n + nb →
        eliminate_panels p inverse m (min m n) nb t (untouched a) ≡ elimination p inverse m n a }
{}

/// One panel, eliminated by itself and carried to the columns right of it, does what its columns
/// do one after another.
pub fn panel_eliminates()
    ensures { (p : ℕ) (inverse : ℕ → ℕ) (m first width n : ℕ) (s : Eliminated) →
        n ≤ width → first + n ≤ m → IsReady p m first s →
        eliminate_panel p inverse m first width n s ≡ eliminate_columns p inverse m first n s }
{}

/// Some columns, and then the next ones, are all of them.
pub fn columns_follow_one_another()
    ensures { (p : ℕ) (inverse : ℕ → ℕ) (m first a b : ℕ) (s : Eliminated) → eliminate_columns p inverse m first (a + b) s ≡ eliminate_columns p inverse m (first + a) b (eliminate_columns p inverse m first a s) }
{}

/// A panel's columns are eliminated from themselves and the pivots so far, so a strip that holds
/// them stands for the whole.
pub fn panel_reads_its_columns()
    ensures { (p : ℕ) (inverse : ℕ → ℕ) (m first width : ℕ) (s t : Eliminated) (n : ℕ) →
        n ≤ width → AgreesOn first (first + width) s t →
        AgreesOn first (first + width) (eliminate_columns p inverse m first n s) (eliminate_columns p inverse m first n t) }
{}

/// A column right of a panel becomes what the panel carries it to: the exchanges of rows, the
/// solve by the panel's triangle, and the update of the rows below. It is enough to have the
/// words of the panel's columns and the numbers of its pivots.
pub fn column_is_carried()
    ensures { (p : ℕ) (inverse : ℕ → ℕ) (m first n : ℕ) (s : Eliminated) (l : ℕ → ℕ → ℕ) (v : List ℕ) (i k : ℕ) →
        first + n ≤ m → IsReady p m first s →
        IsPanel first n (eliminate_columns p inverse m first n s) l v → first + n ≤ k →
        (eliminate_columns p inverse m first n s).words i k ≡ carried p inverse l v first n (λ r. s.words r k) i }
{}

/// The list of pivots goes on serving a panel when later columns have added theirs, so a group may
/// wait for it.
pub fn later_pivots_serve()
    ensures { (p : ℕ) (inverse : ℕ → ℕ) (m first n k : ℕ) (s : Eliminated) →
        first + (n + k) ≤ m → IsReady p m first s →
        IsPanel first n (eliminate_columns p inverse m first n s) (eliminate_columns p inverse m first n s).words (eliminate_columns p inverse m first (n + k) s).pivots }
{}

/// A column left of a panel has its rows exchanged, and nothing else.
pub fn column_left_is_exchanged()
    ensures { (p : ℕ) (inverse : ℕ → ℕ) (m first n : ℕ) (s : Eliminated) (l : ℕ → ℕ → ℕ) (v : List ℕ) (i k : ℕ) →
        first + n ≤ m → IsReady p m first s →
        IsPanel first n (eliminate_columns p inverse m first n s) l v → k < first →
        (eliminate_columns p inverse m first n s).words i k ≡ exchanged v first n (λ r. s.words r k) i }
{}

/// After `n` more columns the words are still below the modulus, there are still zeros past the
/// rows, and there are `n` more pivots.
pub fn columns_stay_ready()
    ensures { (p : ℕ) (inverse : ℕ → ℕ) (m first n : ℕ) (s : Eliminated) →
        first + n ≤ m → IsReady p m first s →
        IsReady p m (first + n) (eliminate_columns p inverse m first n s) }
{}

/// A column of zeros right of a panel stays one, as the padding of a strip does.
pub fn zeros_stay()
    ensures { (p : ℕ) (inverse : ℕ → ℕ) (m first n : ℕ) (s : Eliminated) (i k : ℕ) →
        first + n ≤ m → IsReady p m first s → first + n ≤ k → ((i : ℕ) → s.words i k ≡ 0) →
        (eliminate_columns p inverse m first n s).words i k ≡ 0 }
{}

/// INFO is the number of the first zero on the diagonal that elimination leaves.
pub fn info_is_first_zero()
    ensures { (p : ℕ) (inverse : ℕ → ℕ) (m n : ℕ) (a : ℕ → ℕ → ℕ) →
        IsReady p m 0 (untouched a) →
        (elimination p inverse m n a).info ≡ least_zero (diagonal (elimination p inverse m n a).words) (min m n) }
{}

/// A zero with none before it is the first one: the number that a test of a diagonal finds.
pub fn first_zero_is_found()
    ensures { (c : ℕ → ℕ) (n i : ℕ) → i < n → c i ≡ 0 → ((k : ℕ) → k < i → c k ≢ 0) → least_zero c n ≡ i + 1 }
{}

/// Where no word is 0 that number is 0.
pub fn no_zero_is_found()
    ensures { (c : ℕ → ℕ) (n : ℕ) → ((i : ℕ) → i < n → c i ≢ 0) → least_zero c n ≡ 0 }
{}

/// Each pivot's row is at or below the diagonal, and in the matrix.
pub fn pivots_are_rows()
    ensures { (p : ℕ) (inverse : ℕ → ℕ) (m first n : ℕ) (s : Eliminated) (k : ℕ) →
        first + n ≤ m → IsReady p m first s → first ≤ k → k < first + n →
        (k ≤ pivot_row (eliminate_columns p inverse m first n s).pivots k) × (pivot_row (eliminate_columns p inverse m first n s).pivots k < m) }
{}

/// The numbers of the pivots count from 1: that of the k-th is from k to the number of rows, so
/// none is 0. This asks nothing of the words.
pub fn pivots_have_numbers()
    ensures { (p : ℕ) (inverse : ℕ → ℕ) (m first n : ℕ) (s : Eliminated) (k : ℕ) →
        first + n ≤ m → length s.pivots ≡ first → first ≤ k → k < first + n →
        (k + 1 ≤ slice_index (eliminate_columns p inverse m first n s).pivots k) × (slice_index (eliminate_columns p inverse m first n s).pivots k ≤ m) }
{}
