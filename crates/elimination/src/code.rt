//! The code law of one group of columns through an elimination.
//!
//! A code column holds, at each place, sums of the group's columns by weights: in Code, in Low and
//! in Open. Which part of a column stands where follows from its stage: its panel comes later, is
//! open, or is closed.

ghost use Rattle.std.specs.Prelude.{◌≡◌, ℕ, ◌+◌, ◌-◌, ◌*◌, ◌%◌, ◌<◌, ◌≤◌, List};
ghost use Rattle.serial_model.specs.Elimination.{Eliminated, eliminate_columns, exchanged};
ghost use Rattle.elimination.specs.Panels.{IsReady, IsPanel, carried};
ghost use Rattle.elimination.specs.CodeLaw.{IsWeightedSum, upper, lower, IsCoded, Stage, Ahead, Open, Closed, low_part, open_part, stage_at, between, IsOwn, IsOutside};

/// What a panel does to a column keeps weighted sums.
pub fn panel_is_linear()
    ensures { (p : ℕ) (inverse : ℕ → ℕ) (n : ℕ) (w : ℕ → ℕ) (x : ℕ → ℕ → ℕ) (c : ℕ → ℕ) (l : ℕ → ℕ → ℕ) (v : List ℕ) (first count : ℕ) →
        0 < p → IsWeightedSum p n w x c →
        IsWeightedSum p n w (λ q. carried p inverse l v first count (x q)) (carried p inverse l v first count c) }
{}

/// Exchanges of rows keep weighted sums.
pub fn exchanges_are_linear()
    ensures { (p n : ℕ) (w : ℕ → ℕ) (x : ℕ → ℕ → ℕ) (c : ℕ → ℕ) (v : List ℕ) (first count : ℕ) →
        IsWeightedSum p n w x c →
        IsWeightedSum p n w (λ q. exchanged v first count (x q)) (exchanged v first count c) }
{}

/// The making of a factorization: all columns stand in Code, and Low and Open are zero.
pub fn code_begins()
    ensures { (p n : ℕ) (w d : ℕ → ℕ) (x : ℕ → ℕ → ℕ) (code : ℕ → ℕ) →
        IsWeightedSum p n w x code →
        IsCoded p n w (λ q. Ahead) d x code (λ i. 0) (λ i. 0) }
{}

/// The panel phase: Code loses the panel's old column times its weight, and Open gets the new one
/// times its weight.
pub fn panel_keeps_code()
    ensures { (p first width columns at : ℕ) (s t : ℕ → ℕ → ℕ) (w col : ℕ → ℕ) (code low code' open' : ℕ → ℕ) →
        0 < p → IsOwn first width columns at col →
        ((i : ℕ) → code' i % p ≡ (code i + (p - 1) * (w at * s i (col at))) % p) →
        ((i : ℕ) → open' i % p ≡ (w at * t i (col at)) % p) →
        IsCoded p columns w (λ q. stage_at first 0 (col q)) col (λ q i. s i (col q)) code low (λ i. 0) →
        IsCoded p columns w (λ q. stage_at first width (col q)) col (λ q. between first width s t (col q)) code' low open' }
{}

/// The group phase of the panel's own group: Code is carried by the panel, the rows of Low are
/// exchanged, and Open stays.
pub fn group_keeps_code()
    ensures { (p : ℕ) (inverse : ℕ → ℕ) (m first width n : ℕ) (s : Eliminated) (l : ℕ → ℕ → ℕ) (v : List ℕ) (columns : ℕ) (w col : ℕ → ℕ) (code low open_words : ℕ → ℕ) →
        n ≤ width → first + n ≤ m → IsReady p m first s →
        IsPanel first n (eliminate_columns p inverse m first n s) l v →
        IsCoded p columns w (λ q. stage_at first width (col q)) col (λ q. between first width s.words (eliminate_columns p inverse m first n s).words (col q)) code low open_words →
        IsCoded p columns w (λ q. stage_at first width (col q)) col (λ q i. (eliminate_columns p inverse m first n s).words i (col q)) (carried p inverse l v first n code) (exchanged v first n low) open_words }
{}

/// The closing: what Open holds at and above the diagonal goes into Code, and the rest into Low.
pub fn closing_keeps_code()
    ensures { (p first width columns at : ℕ) (t : ℕ → ℕ → ℕ) (w col : ℕ → ℕ) (code low open_words code' low' : ℕ → ℕ) →
        IsOwn first width columns at col →
        ((i : ℕ) → code' i % p ≡ (code i + upper (col at) open_words i) % p) →
        ((i : ℕ) → low' i % p ≡ (low i + lower (col at) open_words i) % p) →
        IsCoded p columns w (λ q. stage_at first width (col q)) col (λ q i. t i (col q)) code low open_words →
        IsCoded p columns w (λ q. stage_at (first + width) 0 (col q)) col (λ q i. t i (col q)) code' low' (λ i. 0) }
{}

/// A group may be carried by a panel at any later time, while further panels are open or closed,
/// as long as none of its columns is in the panel or in one of those. Code is carried, the rows of
/// Low are exchanged, and the law under the mark of that time is kept.
///
/// `closed` is the first column that is not closed, and `opened` the width of the open panel, or
/// 0. In the plain order a panel is closed before it goes over other groups, and no further panel
/// is open: then `closed` is `first + width` and `opened` is 0.
pub fn other_groups_keep_code()
    ensures { (p : ℕ) (inverse : ℕ → ℕ) (m first width n : ℕ) (s : Eliminated) (l : ℕ → ℕ → ℕ) (v : List ℕ) (columns : ℕ) (w col : ℕ → ℕ) (closed opened : ℕ) (code low open_words : ℕ → ℕ) →
        n ≤ width → first + n ≤ m → first + width ≤ closed + opened → first ≤ closed → IsReady p m first s →
        IsPanel first n (eliminate_columns p inverse m first n s) l v →
        IsOutside first (closed + opened) columns col →
        IsCoded p columns w (λ q. stage_at closed opened (col q)) col (λ q i. s.words i (col q)) code low open_words →
        IsCoded p columns w (λ q. stage_at closed opened (col q)) col (λ q i. (eliminate_columns p inverse m first n s).words i (col q)) (carried p inverse l v first n code) (exchanged v first n low) open_words }
{}

/// The law of a group that waits is the same under every mark, from the one under which it was
/// last carried on, until a panel among its own columns is opened: the words that it holds and
/// the law that they keep do not depend on how far it was carried.
pub fn waiting_keeps_code()
    ensures { (p first columns : ℕ) (x : ℕ → ℕ → ℕ) (w col : ℕ → ℕ) (closed opened closed' opened' : ℕ) (code low open_words : ℕ → ℕ) →
        first ≤ closed → first ≤ closed' → IsOutside first (closed + opened) columns col →
        IsOutside first (closed' + opened') columns col →
        IsCoded p columns w (λ q. stage_at closed opened (col q)) col x code low open_words →
        IsCoded p columns w (λ q. stage_at closed' opened' (col q)) col x code low open_words }
{}

/// The merge: with no panel open, Code and Low together are the weighted sum of the columns.
pub fn merge_keeps_code()
    ensures { (p n : ℕ) (w : ℕ → ℕ) (stage : ℕ → Stage) (d : ℕ → ℕ) (x : ℕ → ℕ → ℕ) (code low code' : ℕ → ℕ) →
        ((i : ℕ) → code' i % p ≡ (code i + low i) % p) → IsCoded p n w stage d x code low (λ i. 0) →
        IsWeightedSum p n w x code' }
{}

/// Code, Low and Open together are the weighted sum of the columns, under every mark.
pub fn code_is_whole()
    ensures { (p n : ℕ) (w : ℕ → ℕ) (stage : ℕ → Stage) (d : ℕ → ℕ) (x : ℕ → ℕ → ℕ) (code low open_words : ℕ → ℕ) →
        IsCoded p n w stage d x code low open_words →
        IsWeightedSum p n w x (λ i. code i + low i + open_words i) }
{}

/// The law as a whole sum: it is enough that Code, Low and Open together are the weighted sum of
/// the columns, that Low is the sum of what is below the diagonals of the closed panels, and that
/// Open is the sum of the open panel.
pub fn parts_give_the_code()
    ensures { (p n : ℕ) (w : ℕ → ℕ) (stage : ℕ → Stage) (d : ℕ → ℕ) (x : ℕ → ℕ → ℕ) (code low open_words : ℕ → ℕ) →
        0 < p → IsWeightedSum p n w x (λ i. code i + low i + open_words i) →
        IsWeightedSum p n w (λ q. low_part (stage q) (d q) (x q)) low →
        IsWeightedSum p n w (λ q. open_part (stage q) (d q) (x q)) open_words →
        IsCoded p n w stage d x code low open_words }
{}

/// The stage of a column follows from its block: `k` panels of `nb` columns are closed, and the
/// next one is open or not.
pub fn stages_follow_blocks()
    ensures { (k nb b c : ℕ) →
        c < nb →
        (b < k → (opened : ℕ) → stage_at (k * nb) opened (b * nb + c) ≡ Closed) × (b ≡ k → stage_at (k * nb) nb (b * nb + c) ≡ Open) × (k ≤ b → stage_at (k * nb) 0 (b * nb + c) ≡ Ahead) × (k < b → stage_at (k * nb) nb (b * nb + c) ≡ Ahead) }
{}

/// The negative of a weight times a word takes their product off: so Code loses a column.
pub fn negative_weights_take_off()
    ensures { (p w c x : ℕ) → 0 < p → w ≤ p → (c + (p - w) * x) % p ≡ (c + (p - 1) * (w * x)) % p }
{}

/// Weighted sums at the rows of the matrix are weighted sums of columns that are zero past them,
/// as those are that strips hold.
pub fn rows_give_weighted_sums()
    ensures { (p n m : ℕ) (w : ℕ → ℕ) (x x' : ℕ → ℕ → ℕ) (c c' : ℕ → ℕ) →
        IsWeightedSum p n w x c →
        ((i : ℕ) → i < m → c' i ≡ c i) → ((q i : ℕ) → q < n → i < m → x' q i ≡ x q i) →
        ((i : ℕ) → m ≤ i → c' i ≡ 0) → ((q i : ℕ) → q < n → m ≤ i → x' q i ≡ 0) →
        IsWeightedSum p n w x' c' }
{}

/// The law of a group at the rows of the matrix is the law of columns that are zero past them.
pub fn rows_give_the_code()
    ensures { (p n m : ℕ) (w : ℕ → ℕ) (stage : ℕ → Stage) (d : ℕ → ℕ) (x x' : ℕ → ℕ → ℕ) (code low open_words code' low' open' : ℕ → ℕ) →
        IsCoded p n w stage d x code low open_words →
        ((q i : ℕ) → q < n → i < m → x' q i ≡ x q i) →
        ((i : ℕ) → i < m → (code' i ≡ code i) × (low' i ≡ low i) × (open' i ≡ open_words i)) →
        ((q i : ℕ) → q < n → m ≤ i → x' q i ≡ 0) →
        ((i : ℕ) → m ≤ i → (code' i ≡ 0) × (low' i ≡ 0) × (open' i ≡ 0)) →
        IsCoded p n w stage d x' code' low' open' }
{}
