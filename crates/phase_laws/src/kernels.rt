//! What kernels and messages on the ranks of one process column are to the strips that these
//! ranks hold in a slot. `mem` and `mem'` are what the rank of each process row holds before and
//! after.

ghost use Rattle.std.specs.Prelude.{◌≡◌, ◌≢◌, ℕ, ◌+◌, ◌-◌, ◌*◌, ◌%◌, ◌<◌, ◌≤◌, Bool, true, Some};
ghost use Rattle.run_data.specs.declared.matrix.Part.{Part};
ghost use Rattle.run_data.specs.Matrix.{entry};
ghost use Rattle.run_data.specs.Parts.{part_entry, whole_part};
ghost use Rattle.local_blas.specs.Kernels.{with_scaled};
ghost use Rattle.array_desc.specs.Descriptors.{IsDesc};
ghost use Rattle.blacs_grid.specs.Places.{rank_at};
ghost use Rattle.rank_machine.specs.declared.slot.Slot.{Slot};
ghost use Rattle.rank_machine.specs.declared.slot.Piece.{Piece};
ghost use Rattle.rank_machine.specs.declared.slot.Piece.TheVariants as piece;
ghost use Rattle.rank_machine.specs.declared.kernel.Cut.{Cut};
ghost use Rattle.rank_machine.specs.declared.kernel.Cut.TheVariants as cut;
ghost use Rattle.rank_machine.specs.declared.kernel.Kernel.TheVariants as k;
ghost use Rattle.rank_machine.specs.declared.layout.Layout.{Layout};
ghost use Rattle.rank_machine.specs.Setting.{Setting, layout, global_col};
ghost use Rattle.rank_machine.specs.Effect.{Memory, words_of, is_words, matrix_in, area_in, piece_in, with_piece, reaches, made_by};
ghost use Rattle.elimination.specs.CodeLaw.{upper, lower};
ghost use Rattle.elimination.specs.Strips.{RowMap, rows_below, row_at, row_owner, row_place, Hold, AreExchanged, block_rows, AreSolved, AreUpperSolved, HaveGained, AreEliminated, HaveAdded, added_words, one_row};
ghost use Rattle.phase_laws.specs.Columns.{rows_of, strips_in, cut_test, AreUpdated};

/// `scale` on each process row multiplies the strips of a slot.
pub fn scale_multiplies_strips()
    ensures { (s : Setting) (d : Layout) (col : ℕ) (slot : Slot) (a : ℕ) (mem mem' : ℕ → Memory) →
        ((row : ℕ) → row < d.grid.p → mem' row slot ≡ Some (made_by s (rank_at d.grid row col) (mem row) (k.Scale (piece.Whole slot) a))) →
        (row : ℕ) →
        row < d.grid.p →
        strips_in mem' slot row ≡ with_scaled s.modulus (strips_in mem slot row) (whole_part (strips_in mem slot row)) a }
{}

/// `muladd` on the process rows that have rows in a range adds a multiple of a product there: what
/// is asked of strips that gain a product. It may write a part of the strip or all of it, and may
/// also be run on process rows that have no rows in the range.
pub fn muladd_adds_products()
    ensures { (s : Setting) (d : Layout) (col width : ℕ) (slot : Slot) (a : ℕ) (l : ℕ → ℕ → ℕ) (n : ℕ) (y : ℕ → ℕ → ℕ) (lo hi : ℕ) (target left right : ℕ → Piece) (mem mem' : ℕ → Memory) →
        AreUpdated s d col width slot a lo hi target left right mem mem' →
        ((row : ℕ) → row < d.grid.p → rows_below (rows_of d) lo row < rows_below (rows_of d) hi row → (area_in (mem row) (left row)).c1 - (area_in (mem row) (left row)).c0 ≡ n) →
        ((row i q : ℕ) → row < d.grid.p → rows_below (rows_of d) lo row + i < rows_below (rows_of d) hi row → q < n → part_entry (matrix_in (mem row) (left row)) (area_in (mem row) (left row)) i q ≡ l (row_at (rows_of d) row (rows_below (rows_of d) lo row + i)) q) →
        ((row q c : ℕ) → row < d.grid.p → rows_below (rows_of d) lo row < rows_below (rows_of d) hi row → q < n → c < width → part_entry (matrix_in (mem row) (right row)) (area_in (mem row) (right row)) q c ≡ y q c) →
        HaveGained (rows_of d) width s.modulus a l n y lo hi (λ row. matrix_in (mem row) (left row)) (λ row. area_in (mem row) (left row)) (λ row. matrix_in (mem row) (right row)) (λ row. area_in (mem row) (right row)) (strips_in mem slot) (strips_in mem' slot) }
{}

/// `lower` on the process row of a block row solves it by a block: what is asked of strips of
/// which a block row is solved.
pub fn lower_solves_a_block_row()
    ensures { (s : Setting) (d : Layout) (col width : ℕ) (slot : Slot) (unit : Bool) (l : ℕ → ℕ → ℕ) (first n : ℕ) (block : Piece) (mem mem' : ℕ → Memory) →
        mem' (row_owner (rows_of d) first) slot ≡ Some (made_by s (rank_at d.grid (row_owner (rows_of d) first) col) (mem (row_owner (rows_of d) first)) (k.Lower (piece.Part slot (block_rows (rows_of d) first n width)) block unit)) →
        ((row : ℕ) → row < d.grid.p → row ≢ row_owner (rows_of d) first → mem' row slot ≡ mem row slot) →
        ((i q : ℕ) → i < n → q < n → part_entry (matrix_in (mem (row_owner (rows_of d) first)) block) (area_in (mem (row_owner (rows_of d) first)) block) i q ≡ l (first + i) (first + q)) →
        AreSolved (rows_of d) width s.modulus s.inverse unit l first n (matrix_in (mem (row_owner (rows_of d) first)) block) (area_in (mem (row_owner (rows_of d) first)) block) (strips_in mem slot) (strips_in mem' slot) }
{}

/// `upper` on the process row of a block row solves it by a block.
pub fn upper_solves_a_block_row()
    ensures { (s : Setting) (d : Layout) (col width : ℕ) (slot : Slot) (unit : Bool) (u : ℕ → ℕ → ℕ) (first n : ℕ) (block : Piece) (mem mem' : ℕ → Memory) →
        mem' (row_owner (rows_of d) first) slot ≡ Some (made_by s (rank_at d.grid (row_owner (rows_of d) first) col) (mem (row_owner (rows_of d) first)) (k.Upper (piece.Part slot (block_rows (rows_of d) first n width)) block unit)) →
        ((row : ℕ) → row < d.grid.p → row ≢ row_owner (rows_of d) first → mem' row slot ≡ mem row slot) →
        ((i q : ℕ) → i < n → q < n → part_entry (matrix_in (mem (row_owner (rows_of d) first)) block) (area_in (mem (row_owner (rows_of d) first)) block) i q ≡ u (first + i) (first + q)) →
        AreUpperSolved (rows_of d) width s.modulus s.inverse unit u first n (matrix_in (mem (row_owner (rows_of d) first)) block) (area_in (mem (row_owner (rows_of d) first)) block) (strips_in mem slot) (strips_in mem' slot) }
{}

/// `elim` on each process row eliminates a column below a global row.
pub fn elim_eliminates_a_column()
    ensures { (s : Setting) (d : Layout) (col width : ℕ) (slot : Slot) (above j : ℕ) (f : ℕ → ℕ → ℕ) (line : ℕ → Piece) (mem mem' : ℕ → Memory) →
        col < d.grid.q + d.grid.f →
        layout s slot.id ≡ d →
        ((row : ℕ) → row < d.grid.p → mem' row slot ≡ Some (made_by s (rank_at d.grid row col) (mem row) (k.Elim slot j above (line row)))) →
        ((row c : ℕ) → row < d.grid.p → c < width → part_entry (matrix_in (mem row) (line row)) (area_in (mem row) (line row)) 0 c ≡ f above c) →
        AreEliminated (rows_of d) width s.modulus s.inverse above j f (λ row. matrix_in (mem row) (line row)) (λ row. area_in (mem row) (line row)) (strips_in mem slot) (strips_in mem' slot) }
{}

/// `add` on each process row adds a multiple of other strips, in all places or in those of a cut.
pub fn add_adds_strips()
    ensures { (s : Setting) (d : Layout) (col width : ℕ) (slot : Slot) (a : ℕ) (g : ℕ → ℕ → ℕ) (at : Cut) (source : ℕ → Piece) (mem mem' : ℕ → Memory) →
        col < d.grid.q + d.grid.f →
        layout s slot.id ≡ d →
        ((row : ℕ) → row < d.grid.p → mem' row slot ≡ Some (made_by s (rank_at d.grid row col) (mem row) (k.Add (piece.Whole slot) a (source row) at))) →
        ((row l c : ℕ) → row < d.grid.p → l < rows_below (rows_of d) d.desc.m row → c < width → part_entry (matrix_in (mem row) (source row)) (area_in (mem row) (source row)) l c ≡ g (row_at (rows_of d) row l) c) →
        HaveAdded (rows_of d) width s.modulus a g (cut_test d at) (λ row. matrix_in (mem row) (source row)) (λ row. area_in (mem row) (source row)) (λ row. reaches s (rank_at d.grid row col) slot at) (strips_in mem slot) (strips_in mem' slot) }
{}

/// `swap` on one process row exchanges two global rows of the strips.
pub fn swap_exchanges_rows()
    ensures { (s : Setting) (d : Layout) (col width i j : ℕ) (slot : Slot) (f : ℕ → ℕ → ℕ) (mem mem' : ℕ → Memory) →
        IsDesc d.grid.p d.grid.q d.desc →
        i < d.desc.m →
        j < d.desc.m →
        Hold (rows_of d) width f (strips_in mem slot) →
        row_owner (rows_of d) j ≡ row_owner (rows_of d) i →
        mem' (row_owner (rows_of d) i) slot ≡ Some (made_by s (rank_at d.grid (row_owner (rows_of d) i) col) (mem (row_owner (rows_of d) i)) (k.Swap slot (row_place (rows_of d) i) (row_place (rows_of d) j))) →
        ((row : ℕ) → row < d.grid.p → row ≢ row_owner (rows_of d) i → mem' row slot ≡ mem row slot) →
        AreExchanged (rows_of d) width i j (strips_in mem slot) (strips_in mem' slot) }
{}

/// Where two process rows hold the rows, each gets the other's by a message into a part of its
/// strip.
pub fn messages_exchange_rows()
    ensures { (d : Layout) (width i j : ℕ) (slot : Slot) (f : ℕ → ℕ → ℕ) (mem mem' : ℕ → Memory) →
        IsDesc d.grid.p d.grid.q d.desc →
        i < d.desc.m →
        j < d.desc.m →
        Hold (rows_of d) width f (strips_in mem slot) →
        row_owner (rows_of d) j ≢ row_owner (rows_of d) i →
        is_words (mem (row_owner (rows_of d) i) slot) ≡ true →
        is_words (mem (row_owner (rows_of d) j) slot) ≡ true →
        mem' (row_owner (rows_of d) i) slot ≡ Some (with_piece (mem (row_owner (rows_of d) i) slot) (piece.Part slot (one_row (row_place (rows_of d) i) width)) (piece_in (mem (row_owner (rows_of d) j)) (piece.Part slot (one_row (row_place (rows_of d) j) width)))) →
        mem' (row_owner (rows_of d) j) slot ≡ Some (with_piece (mem (row_owner (rows_of d) j) slot) (piece.Part slot (one_row (row_place (rows_of d) j) width)) (piece_in (mem (row_owner (rows_of d) i)) (piece.Part slot (one_row (row_place (rows_of d) i) width)))) →
        ((row : ℕ) → row < d.grid.p → row ≢ row_owner (rows_of d) i → row ≢ row_owner (rows_of d) j → mem' row slot ≡ mem row slot) →
        AreExchanged (rows_of d) width i j (strips_in mem slot) (strips_in mem' slot) }
{}

/// Strips that are sent whole hold the same words where they come to.
pub fn sent_strips_have_their_words()
    ensures { (d : RowMap) (width : ℕ) (slot : Slot) (f : ℕ → ℕ → ℕ) (mem : ℕ → Memory) →
        ((row : ℕ) → row < d.procs → is_words (mem row slot) ≡ true) →
        Hold d width f (strips_in mem slot) →
        Hold d width f (λ row. words_of (Some (piece_in (mem row) (piece.Whole slot)))) }
{}

/// A part of a strip that is sent has its words.
pub fn sent_parts_have_their_words()
    ensures { (mem : Memory) (slot : Slot) (at : Part) (i j : ℕ) →
        is_words (mem slot) ≡ true →
        i < at.r1 - at.r0 →
        j < at.c1 - at.c0 →
        entry (words_of (Some (piece_in mem (piece.Part slot at)))) i j ≡ entry (words_of (mem slot)) (at.r0 + i) (at.c0 + j) }
{}

/// Added in the upper part of a block column, a strip adds its words at and above the diagonal: so
/// Open goes into Code.
pub fn upper_part_is_added()
    ensures { (p : ℕ) (d : Layout) (block c : ℕ) (f g : ℕ → ℕ → ℕ) (i : ℕ) →
        added_words p 1 g (cut_test d (cut.Upper block)) f i c % p ≡ (f i c + upper (global_col d block c) (λ r. g r c) i) % p }
{}

/// Added in the lower part, it adds its words below the diagonal: so Open goes into Low.
pub fn lower_part_is_added()
    ensures { (p : ℕ) (d : Layout) (block c : ℕ) (f g : ℕ → ℕ → ℕ) (i : ℕ) →
        added_words p 1 g (cut_test d (cut.Lower block)) f i c % p ≡ (f i c + lower (global_col d block c) (λ r. g r c) i) % p }
{}

/// Added in all places, it adds all its words: so Code loses a panel, and Low goes into Code.
pub fn all_is_added()
    ensures { (p a : ℕ) (d : Layout) (c : ℕ) (f g : ℕ → ℕ → ℕ) (i : ℕ) →
        added_words p a g (cut_test d cut.Whole) f i c % p ≡ (f i c + a * g i c) % p }
{}
