//! Lost code columns.

ghost use Rattle.std.specs.Prelude.{◌≡◌, ℕ, ◌+◌, ◌<◌, ◌&&◌, true, Some};
ghost use Rattle.run_data.specs.Matrix.{Matrix};
ghost use Rattle.array_desc.specs.Descriptors.{IsDesc};
ghost use Rattle.blacs_grid.specs.Places.{rank_at};
ghost use Rattle.rank_machine.specs.declared.slot.SlotKind.TheVariants.{Code, Low, Open};
ghost use Rattle.rank_machine.specs.declared.mark.Mark.{Mark};
ghost use Rattle.rank_machine.specs.declared.layout.Layout.{Layout};
ghost use Rattle.rank_machine.specs.Setting.{Setting, group_count};
ghost use Rattle.rank_machine.specs.State.{State};
ghost use Rattle.rank_machine.specs.CodeLaw.{slot_at, has_low, is_open_group, is_open_column};
ghost use Rattle.recovery_laws.specs.Recovery.{is_open_block, code_terms, low_terms, open_terms, IsCommitted, HoldData, made_of};

/// The data strips of a row, each with its weight, make from zero the tile that was in Code.
pub fn lost_code_is_made_anew()
    ensures { (s : Setting) (last : State) (mark : Mark) (line : ℕ) (matrix : Layout) (row group c : ℕ) (held : ℕ → Matrix) →
        IsCommitted s last mark line matrix → row < matrix.grid.p → group < group_count matrix → c < matrix.grid.f → HoldData last line matrix row group held →
        Some (made_of s matrix row (code_terms s mark line matrix row group c held)) ≡ last.tiles (rank_at matrix.grid row (matrix.grid.q + c)) (slot_at Code line group) }
{}

/// The same for Low, in a group that is not merged.
pub fn lost_low_is_made_anew()
    ensures { (s : Setting) (last : State) (mark : Mark) (line : ℕ) (matrix : Layout) (row group c : ℕ) (held : ℕ → Matrix) →
        IsCommitted s last mark line matrix → row < matrix.grid.p → group < group_count matrix → c < matrix.grid.f → HoldData last line matrix row group held →
        has_low s mark line group ≡ true →
        Some (made_of s matrix row (low_terms s mark line matrix row group c held)) ≡ last.tiles (rank_at matrix.grid row (matrix.grid.q + c)) (slot_at Low line group) }
{}

/// The same for Open, from the group of the open panel.
pub fn lost_open_is_made_anew()
    ensures { (s : Setting) (last : State) (mark : Mark) (line : ℕ) (matrix : Layout) (row group c : ℕ) (held : ℕ → Matrix) →
        IsCommitted s last mark line matrix → row < matrix.grid.p → group < group_count matrix → c < matrix.grid.f → HoldData last line matrix row group held →
        is_open_group s mark line matrix group ≡ true →
        Some (made_of s matrix row (open_terms s mark line matrix group c held)) ≡ last.tiles (rank_at matrix.grid row (matrix.grid.q + c)) (slot_at Open line 0) }
{}

/// The open panel is that block column of its group that lies on its process column.
pub fn open_block_is_the_open_panel()
    ensures { (s : Setting) (mark : Mark) (line : ℕ) (matrix : Layout) (group col : ℕ) → IsDesc matrix.grid.p matrix.grid.q matrix.desc → col < matrix.grid.q →
        is_open_block s mark line matrix group col ≡ is_open_group s mark line matrix group && is_open_column mark matrix col }
{}
