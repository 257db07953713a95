//! Lost data strips.

ghost use Rattle.std.specs.Prelude.{◌≡◌, ℕ, ◌+◌, ◌<◌, ◌≤◌, ◌&&◌, Bool, not, false, Some, List, length, take, drop, count_by, nat_lt, slice_index_or};
ghost use Rattle.cauchy_code.specs.Cauchy.{helpers, IsDecoding};
ghost use Rattle.run_data.specs.Matrix.{Matrix};
ghost use Rattle.blacs_grid.specs.Places.{rank_at};
ghost use Rattle.rank_machine.specs.declared.slot.Slot.{Slot};
ghost use Rattle.rank_machine.specs.declared.slot.SlotKind.TheVariants.{Data};
ghost use Rattle.rank_machine.specs.declared.mark.Mark.{Mark};
ghost use Rattle.rank_machine.specs.declared.layout.Layout.{Layout};
ghost use Rattle.rank_machine.specs.Setting.{Setting, group_count};
ghost use Rattle.rank_machine.specs.State.{State};
ghost use Rattle.rank_machine.specs.CodeLaw.{slot_at};
ghost use Rattle.recovery_laws.specs.Recovery.{decoding_terms, IsCommitted, IsLostIn, HoldTheirs, made_of};

/// Coefficients that decode, times the strips of the symbols of the columns that help, make from
/// zero the tile that the lost data rank held.
pub fn lost_data_is_decoded()
    ensures { (s : Setting) (last : State) (mark : Mark) (line : ℕ) (matrix : Layout) (row group which : ℕ) (lost : List Bool) (coefficients : List ℕ) (held : ℕ → Slot → Matrix) →
        IsCommitted s last mark line matrix → row < matrix.grid.p → group < group_count matrix → IsLostIn matrix lost which → IsDecoding s.modulus s.inverse matrix.grid.q lost which coefficients → HoldTheirs last matrix row lost held →
        Some (made_of s matrix row (decoding_terms s mark line matrix group lost coefficients held)) ≡ last.tiles (rank_at matrix.grid row which) (slot_at Data line group) }
{}

/// The data columns that help are those that are not lost.
pub fn live_data_columns_help()
    ensures { (q col : ℕ) (lost : List Bool) → q ≤ length lost → col < q →
        slice_index_or (helpers q lost) col false ≡ not (slice_index_or lost col false) }
{}

/// The code columns that help are the first that are not lost, as many as data columns are lost.
pub fn first_live_code_columns_help()
    ensures { (q c : ℕ) (lost : List Bool) → q + c < length lost →
        slice_index_or (helpers q lost) (q + c) false ≡ not (slice_index_or lost (q + c) false) && nat_lt (count_by not (take c (drop q lost))) (count_by (λ b. b) (take q lost)) }
{}
