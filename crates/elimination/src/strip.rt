//! What the strips of a block column say of global words, and what is done to strips as a change
//! of these words.
//!
//! Each process row holds its rows of a block column, of data or of code. The words are functions
//! of the global row and of the strip's column. The same laws serve a panel, an exchange of rows,
//! a block row of a solve and an update, on every process column.

ghost use Rattle.std.specs.Prelude.{◌≡◌, ◌≢◌, ℕ, suc, ◌+◌, ◌-◌, ◌*◌, ◌%◌, ◌<◌, ◌≤◌, Bool, List, [], ◌∷◌, ◌++◌, true};
ghost use Rattle.field_core.specs.Sums.{sum_to};
ghost use Rattle.run_data.specs.declared.matrix.Part.{Part};
ghost use Rattle.run_data.specs.Matrix.{Matrix, cols, entry};
ghost use Rattle.run_data.specs.Parts.{part_entry, with_copy, whole_part};
ghost use Rattle.local_blas.specs.Kernels.{swapped, with_rows_swapped, with_scaled};
ghost use Rattle.array_desc.specs.Maps.{group_of};
ghost use Rattle.serial_model.specs.Elimination.{Eliminated, eliminate_column, pivot_row, exchange, exchanged, eliminate_columns};
ghost use Rattle.elimination.specs.Panels.{reduced, IsReady, IsPanel};
ghost use Rattle.elimination.specs.Solves.{upper_reduced};
ghost use Rattle.elimination.specs.CodeLaw.{IsWeightedSum, IsOwn, IsOutside};
ghost use Rattle.elimination.specs.Strips.{RowMap, IsRowMap, IsBlock, rows_below, row_at, group_column, row_owner, row_place, Hold, held, AreExchanged, solved_rows, upper_solved_rows, gained_rows, span, block_rows, AreSolved, AreUpperSolved, HaveGained, AreEliminated, one_row, HaveAdded, added_words};

/// Strips of the right shape hold the words that are read at their owners.
pub fn strips_hold_their_words()
    ensures { (d : RowMap) (width : ℕ) (strips : ℕ → Matrix) →
        IsRowMap d → ((row : ℕ) → row < d.procs → (strips row).rows ≡ rows_below d d.m row) →
        ((row : ℕ) → row < d.procs → cols (strips row) ≡ width) →
        Hold d width (held d strips) strips }
{}

/// The words that strips hold are no others than those that are read at their owners.
pub fn strips_hold_no_other_words()
    ensures { (d : RowMap) (width : ℕ) (f : ℕ → ℕ → ℕ) (strips : ℕ → Matrix) (i c : ℕ) →
        IsRowMap d → Hold d width f strips → i < d.m → c < width →
        held d strips i c ≡ f i c }
{}

/// A word of the column is what its owner holds.
pub fn owners_hold_the_column()
    ensures { (d : RowMap) (width : ℕ) (f : ℕ → ℕ → ℕ) (strips : ℕ → Matrix) (i c : ℕ) →
        IsRowMap d → Hold d width f strips → i < d.m → c < width →
        entry (strips (row_owner d i)) (row_place d i) c ≡ f i c }
{}

/// The part of a strip with the global rows of a range, in its first columns, has the words of
/// these rows: what is asked of the left side of an update.
pub fn spans_have_their_words()
    ensures { (d : RowMap) (width lo hi n : ℕ) (f : ℕ → ℕ → ℕ) (strips : ℕ → Matrix) (row i k : ℕ) →
        IsRowMap d → Hold d width f strips → hi ≤ d.m → n ≤ width → row < d.procs → rows_below d lo row + i < rows_below d hi row → k < n →
        part_entry (strips row) (span d lo hi n row) i k ≡ f (row_at d row (rows_below d lo row + i)) k }
{}

/// The rows of one block, on their process row, have the words of these rows: what is asked of a
/// triangle, and of the right side of an update.
pub fn block_rows_have_their_words()
    ensures { (d : RowMap) (width first n : ℕ) (f : ℕ → ℕ → ℕ) (strips : ℕ → Matrix) (k c : ℕ) →
        IsRowMap d → IsBlock d first n → Hold d width f strips → k < n → c < width →
        part_entry (strips (row_owner d first)) (block_rows d first n width) k c ≡ f (first + k) c }
{}

/// Where no process row has a word that is not 0 between two global rows of a column, there is
/// none: so the least of what the process rows find is the first of the column.
pub fn process_rows_see_the_column()
    ensures { (d : RowMap) (width : ℕ) (f : ℕ → ℕ → ℕ) (strips : ℕ → Matrix) (lo hi c : ℕ) →
        IsRowMap d → Hold d width f strips → hi ≤ d.m → c < width →
        ((row l : ℕ) → row < d.procs → l < rows_below d d.m row → lo ≤ row_at d row l → row_at d row l < hi → entry (strips row) l c ≡ 0) →
        (i : ℕ) → lo ≤ i → i < hi →
        f i c ≡ 0 }
{}

/// Weighted sums at each place of the strips are weighted sums of the columns.
pub fn strips_give_weighted_sums()
    ensures { (d : RowMap) (p n : ℕ) (w : ℕ → ℕ) (strips : ℕ → ℕ → Matrix) (code : ℕ → Matrix) (c : ℕ) →
        IsRowMap d →
        ((row l : ℕ) → row < d.procs → l < rows_below d d.m row → entry (code row) l c % p ≡ sum_to n (λ q. w q * entry (strips q row) l c) % p) →
        IsWeightedSum p n w (λ q i. held d (strips q) i c) (λ i. held d code i c) }
{}

/// Weighted sums of the columns are weighted sums at each place of the strips.
pub fn weighted_sums_are_in_strips()
    ensures { (d : RowMap) (p n : ℕ) (w : ℕ → ℕ) (strips : ℕ → ℕ → Matrix) (code : ℕ → Matrix) (c : ℕ) →
        IsRowMap d → IsWeightedSum p n w (λ q i. held d (strips q) i c) (λ i. held d code i c) →
        (row l : ℕ) → row < d.procs → l < rows_below d d.m row →
        entry (code row) l c % p ≡ sum_to n (λ q. w q * entry (strips q row) l c) % p }
{}

/// A group has no column in the block columns of other groups: at each column of its strips, its
/// columns are outside a range of blocks that are not its own.
pub fn groups_are_outside()
    ensures { (group nb src procs c first last : ℕ) →
        c < nb → src < procs → ((block : ℕ) → first ≤ block → block < last → group_of block procs ≢ group) →
        IsOutside (first * nb) (last * nb) procs (group_column group nb src procs c) }
{}

/// A panel's own group has, at each column of its strips, one column in the panel: that of the
/// panel's process column.
pub fn own_group_has_the_panel()
    ensures { (block nb src procs c : ℕ) →
        c < nb → src < procs →
        IsOwn (block * nb) nb procs ((src + block) % procs) (group_column (group_of block procs) nb src procs c) }
{}

/// Two rows that change places in the strips change places in the words.
pub fn rows_change_places()
    ensures { (d : RowMap) (width i j : ℕ) (f : ℕ → ℕ → ℕ) (strips strips' : ℕ → Matrix) →
        IsRowMap d → i < d.m → j < d.m → AreExchanged d width i j strips strips' → Hold d width f strips →
        Hold d width (exchange i j f) strips' }
{}

/// One more of the exchanges that a list of pivots gives.
pub fn exchanges_go_on()
    ensures { (d : RowMap) (width : ℕ) (v : List ℕ) (first k : ℕ) (f : ℕ → ℕ → ℕ) (strips strips' : ℕ → Matrix) →
        IsRowMap d → first + k < d.m → pivot_row v (first + k) < d.m →
        AreExchanged d width (first + k) (pivot_row v (first + k)) strips strips' →
        Hold d width (λ i c. exchanged v first k (λ r. f r c) i) strips →
        Hold d width (λ i c. exchanged v first (suc k) (λ r. f r c) i) strips' }
{}

/// A row that changes places with itself: nothing is done.
pub fn a_row_stays_with_itself()
    ensures { (d : RowMap) (width i : ℕ) (strips : ℕ → Matrix) → AreExchanged d width i i strips strips }
{}

/// Rows change places where one process row holds both and exchanges them.
pub fn one_strip_exchanges()
    ensures { (d : RowMap) (width i j : ℕ) (f : ℕ → ℕ → ℕ) (strips strips' : ℕ → Matrix) →
        IsRowMap d → i < d.m → j < d.m → Hold d width f strips → row_owner d j ≡ row_owner d i →
        strips' (row_owner d i) ≡ with_rows_swapped (strips (row_owner d i)) (row_place d i) (row_place d j) →
        ((row : ℕ) → row < d.procs → row ≢ row_owner d i → strips' row ≡ strips row) →
        AreExchanged d width i j strips strips' }
{}

/// Rows change places where two process rows hold them and each gets the other's.
pub fn two_strips_exchange()
    ensures { (d : RowMap) (width i j : ℕ) (f : ℕ → ℕ → ℕ) (m m' : Matrix) (sp sp' : Part) (strips strips' : ℕ → Matrix) →
        IsRowMap d → i < d.m → j < d.m → Hold d width f strips → row_owner d j ≢ row_owner d i →
        strips' (row_owner d i) ≡ with_copy (strips (row_owner d i)) (one_row (row_place d i) width) m sp →
        strips' (row_owner d j) ≡ with_copy (strips (row_owner d j)) (one_row (row_place d j) width) m' sp' →
        ((c : ℕ) → c < width → part_entry m sp 0 c ≡ entry (strips (row_owner d j)) (row_place d j) c) →
        ((c : ℕ) → c < width → part_entry m' sp' 0 c ≡ entry (strips (row_owner d i)) (row_place d i) c) →
        ((row : ℕ) → row < d.procs → row ≢ row_owner d i → row ≢ row_owner d j → strips' row ≡ strips row) →
        AreExchanged d width i j strips strips' }
{}

/// A column of a panel: where its first word at or below the diagonal that is not 0 stands in row
/// `r`, the strips exchange that row with the diagonal's and are eliminated, and then hold what
/// elimination makes of the panel's columns. The pivot's number is `r + 1`.
pub fn strips_eliminate_a_column()
    ensures { (d : RowMap) (width p : ℕ) (inverse : ℕ → ℕ) (first j r : ℕ) (s : Eliminated) (line : ℕ → Matrix) (at : ℕ → Part) (strips swapped_strips strips' : ℕ → Matrix) →
        IsRowMap d → j < width → first + j < d.m → first + j ≤ r → r < d.m → s.words r (first + j) ≢ 0 →
        ((k : ℕ) → first + j ≤ k → k < r → s.words k (first + j) ≡ 0) →
        AreExchanged d width (first + j) r strips swapped_strips →
        AreEliminated d width p inverse (first + j) j (λ i c. s.words (swapped (first + j) r i) (first + c)) line at swapped_strips strips' →
        Hold d width (λ i c. s.words i (first + c)) strips →
        Hold d width (λ i c. (eliminate_column p inverse d.m (first + j) s).words i (first + c)) strips' × ((eliminate_column p inverse d.m (first + j) s).pivots ≡ s.pivots ++ ((r + 1) ∷ [])) }
{}

/// A column with zeros from the diagonal down stays, and its pivot's number is its own.
pub fn column_without_pivot_stays()
    ensures { (p : ℕ) (inverse : ℕ → ℕ) (m j : ℕ) (s : Eliminated) →
        j < m → ((k : ℕ) → j ≤ k → k < m → s.words k j ≡ 0) →
        ((eliminate_column p inverse m j s).words ≡ s.words) × ((eliminate_column p inverse m j s).pivots ≡ s.pivots ++ ((j + 1) ∷ [])) }
{}

/// Strips that gain a multiple of a product in a range of rows: the words of these rows gain it.
pub fn strips_gain_a_product()
    ensures { (d : RowMap) (width p a : ℕ) (l : ℕ → ℕ → ℕ) (n : ℕ) (y f : ℕ → ℕ → ℕ) (lo hi : ℕ) (left : ℕ → Matrix) (lp : ℕ → Part) (right : ℕ → Matrix) (rp : ℕ → Part) (strips strips' : ℕ → Matrix) →
        IsRowMap d → HaveGained d width p a l n y lo hi left lp right rp strips strips' →
        Hold d width f strips →
        Hold d width (gained_rows p a l n y lo hi f) strips' }
{}

/// Strips that gain a multiple of others at the places that pass a test: the words gain it there.
/// So Code loses a panel's column and Open goes into Code and Low by a test of row and column.
pub fn strips_add()
    ensures { (d : RowMap) (width p a : ℕ) (f g : ℕ → ℕ → ℕ) (holds : ℕ → ℕ → Bool) (source : ℕ → Matrix) (sp : ℕ → Part) (test : ℕ → ℕ → ℕ → Bool) (strips strips' : ℕ → Matrix) →
        HaveAdded d width p a g holds source sp test strips strips' → Hold d width f strips →
        Hold d width (added_words p a g holds f) strips' }
{}

/// Strips that are multiplied: the words are.
pub fn strips_scale()
    ensures { (d : RowMap) (width p a : ℕ) (f : ℕ → ℕ → ℕ) (strips strips' : ℕ → Matrix) →
        ((row : ℕ) → row < d.procs → strips' row ≡ with_scaled p (strips row) (whole_part (strips row)) a) →
        Hold d width f strips →
        Hold d width (λ i c. (f i c * a) % p) strips' }
{}

/// A block row of a lower triangle: it is solved on its process row, and then the rows below lose
/// its product. On strips whose rows were exchanged this is what a panel does to a group.
pub fn block_row_solves()
    ensures { (d : RowMap) (width p : ℕ) (inverse : ℕ → ℕ) (unit : Bool) (l f : ℕ → ℕ → ℕ) (first n : ℕ) (block : Matrix) (bp : Part) (left : ℕ → Matrix) (lp : ℕ → Part) (right : ℕ → Matrix) (rp : ℕ → Part) (strips solved_strips strips' : ℕ → Matrix) →
        IsRowMap d → IsBlock d first n →
        AreSolved d width p inverse unit l first n block bp strips solved_strips →
        HaveGained d width p (p - 1) (λ i k. l i (first + k)) n (λ k c. solved_rows p inverse unit l first n f (first + k) c) (first + n) d.m left lp right rp solved_strips strips' →
        Hold d width f strips →
        Hold d width (λ i c. reduced p inverse unit l first n (λ r. f r c) i) strips' }
{}

/// A block row of an upper triangle: it is solved on its process row, and then the rows above lose
/// its product.
pub fn upper_block_row_solves()
    ensures { (d : RowMap) (width p : ℕ) (inverse : ℕ → ℕ) (unit : Bool) (u f : ℕ → ℕ → ℕ) (first n : ℕ) (block : Matrix) (bp : Part) (left : ℕ → Matrix) (lp : ℕ → Part) (right : ℕ → Matrix) (rp : ℕ → Part) (strips solved_strips strips' : ℕ → Matrix) →
        IsRowMap d → IsBlock d first n →
        AreUpperSolved d width p inverse unit u first n block bp strips solved_strips →
        HaveGained d width p (p - 1) (λ i k. u i (first + k)) n (λ k c. upper_solved_rows p inverse unit u first n f (first + k) c) 0 first left lp right rp solved_strips strips' →
        Hold d width f strips →
        Hold d width (λ i c. upper_reduced p inverse unit u first n (λ r. f r c) i) strips' }
{}

/// A panel goes over a block column right of it, whose first column is `start`: after the
/// exchanges and the block row of the solve and update its strips hold what elimination makes of
/// these columns.
pub fn strips_are_carried()
    ensures { (d : RowMap) (width p : ℕ) (inverse : ℕ → ℕ) (first n start : ℕ) (s : Eliminated) (l : ℕ → ℕ → ℕ) (v : List ℕ) (block : Matrix) (bp : Part) (left : ℕ → Matrix) (lp : ℕ → Part) (right : ℕ → Matrix) (rp : ℕ → Part) (exchanged_strips solved_strips strips' : ℕ → Matrix) →
        IsRowMap d → IsBlock d first n → first + n ≤ start → IsReady p d.m first s →
        IsPanel first n (eliminate_columns p inverse d.m first n s) l v →
        Hold d width (λ i c. exchanged v first n (λ r. s.words r (start + c)) i) exchanged_strips →
        AreSolved d width p inverse true l first n block bp exchanged_strips solved_strips →
        HaveGained d width p (p - 1) (λ i k. l i (first + k)) n (λ k c. solved_rows p inverse true l first n (λ i c. exchanged v first n (λ r. s.words r (start + c)) i) (first + k) c) (first + n) d.m left lp right rp solved_strips strips' →
        Hold d width (λ i c. (eliminate_columns p inverse d.m first n s).words i (start + c)) strips' }
{}

/// A panel goes over a block column left of it: after the exchanges its strips hold what
/// elimination makes of these columns.
pub fn strips_are_exchanged()
    ensures { (d : RowMap) (width p : ℕ) (inverse : ℕ → ℕ) (first n start : ℕ) (s : Eliminated) (l : ℕ → ℕ → ℕ) (v : List ℕ) (strips' : ℕ → Matrix) →
        IsRowMap d → first + n ≤ d.m → start + width ≤ first → IsReady p d.m first s →
        IsPanel first n (eliminate_columns p inverse d.m first n s) l v →
        Hold d width (λ i c. exchanged v first n (λ r. s.words r (start + c)) i) strips' →
        Hold d width (λ i c. (eliminate_columns p inverse d.m first n s).words i (start + c)) strips' }
{}
