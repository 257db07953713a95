//! The code law of the machine and that of elimination, which say the same.

ghost use Rattle.std.specs.Prelude.{◌≡◌, ℕ, ◌+◌, ◌%◌, ◌<◌, true, false, IsTrue};
ghost use Rattle.array_desc.specs.Descriptors.{IsDesc};
ghost use Rattle.blacs_grid.specs.Places.{rank_at};
ghost use Rattle.rank_machine.specs.declared.slot.Slot.{Slot};
ghost use Rattle.rank_machine.specs.declared.slot.SlotKind.TheVariants.{Code};
ghost use Rattle.rank_machine.specs.declared.mark.Mark.{Mark};
ghost use Rattle.rank_machine.specs.declared.layout.Layout.{Layout};
ghost use Rattle.rank_machine.specs.Setting.{Setting, group_count};
ghost use Rattle.rank_machine.specs.State.{State};
ghost use Rattle.rank_machine.specs.CodeLaw.{has_low, is_open_group, is_strip_of, MatrixLaw};
ghost use Rattle.elimination.specs.CodeLaw.{IsWeightedSum};
ghost use Rattle.elimination.specs.Strips.{Hold, held};
ghost use Rattle.phase_laws.specs.Columns.{rows_of, column_memory, strips_in, data_columns, code_column, low_column, open_column, weights, IsGroupCoded, IsGroupSummed, AreStrips, AreCoded};

/// The slots that the law speaks of are strips, which hold the words that are read at their
/// owners.
pub fn slots_hold_their_words()
    ensures { (st : State) (d : Layout) (col : ℕ) (slot : Slot) →
        IsDesc d.grid.p d.grid.q d.desc →
        ((row : ℕ) → row < d.grid.p → IsTrue (is_strip_of d row (st.tiles (rank_at d.grid row col) slot))) →
        Hold (rows_of d) d.desc.nb (held (rows_of d) (strips_in (column_memory st d col) slot)) (strips_in (column_memory st d col) slot) }
{}

/// Under the machine's law Code, Low and Open together are the weighted sum of the data columns.
pub fn law_gives_the_whole_sum()
    ensures { (s : Setting) (st : State) (mark : Mark) (line : ℕ) (d : Layout) (group c j : ℕ) →
        IsDesc d.grid.p d.grid.q d.desc → MatrixLaw s st mark line d → group < group_count d → c < d.grid.f → j < d.desc.nb →
        IsWeightedSum s.modulus d.grid.q (weights s d c) (data_columns st line d group j) (λ i. code_column st Code line d group c j i + low_column s st mark line d group c j i + open_column s st mark line d group c j i) }
{}

/// In a group of a factorization that is not merged, the machine's law is that of elimination,
/// with the stages that the mark gives its columns.
pub fn law_gives_the_code()
    ensures { (s : Setting) (st : State) (mark : Mark) (line : ℕ) (d : Layout) (group c j : ℕ) →
        0 < s.modulus → IsDesc d.grid.p d.grid.q d.desc → MatrixLaw s st mark line d → group < group_count d → c < d.grid.f → j < d.desc.nb →
        has_low s mark line group ≡ true →
        IsGroupCoded s st mark line d group c j }
{}

/// Where neither Low nor an open panel counts, Code alone is the weighted sum: for products,
/// solves, exchanges of rows outside a factorization, and merged groups.
pub fn law_gives_the_sum()
    ensures { (s : Setting) (st : State) (mark : Mark) (line : ℕ) (d : Layout) (group c j : ℕ) →
        IsDesc d.grid.p d.grid.q d.desc → MatrixLaw s st mark line d → group < group_count d → c < d.grid.f → j < d.desc.nb →
        has_low s mark line group ≡ false → is_open_group s mark line d group ≡ false →
        IsGroupSummed s st line d group c j }
{}

/// The making of a factorization: no panel is closed or open, and Low is zero.
pub fn making_gives_the_code()
    ensures { (s : Setting) (st : State) (mark : Mark) (line : ℕ) (d : Layout) (group c j : ℕ) →
        0 < s.modulus → mark.closed ≡ 0 → mark.opened ≡ false → IsGroupSummed s st line d group c j →
        ((i : ℕ) → low_column s st mark line d group c j i ≡ 0) →
        IsGroupCoded s st mark line d group c j }
{}

/// The merge of a group in which no panel is open: Low goes into Code, and Data stays.
pub fn merge_gives_the_sum()
    ensures { (s : Setting) (st st' : State) (mark : Mark) (line : ℕ) (d : Layout) (group c j : ℕ) →
        is_open_group s mark line d group ≡ false → IsGroupCoded s st mark line d group c j →
        ((q i : ℕ) → q < d.grid.q → data_columns st' line d group j q i ≡ data_columns st line d group j q i) →
        ((i : ℕ) → code_column st' Code line d group c j i % s.modulus ≡ (code_column st Code line d group c j i + low_column s st mark line d group c j i) % s.modulus) →
        IsGroupSummed s st' line d group c j }
{}

/// The other way round, for the commit at the end of a phase: strips of the right shape whose
/// columns obey the laws of elimination obey the law of the machine.
pub fn columns_give_the_law()
    ensures { (s : Setting) (st : State) (mark : Mark) (line : ℕ) (d : Layout) →
        IsDesc d.grid.p d.grid.q d.desc → AreStrips s st mark line d → AreCoded s st mark line d →
        MatrixLaw s st mark line d }
{}
