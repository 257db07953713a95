//! What all strips of a matrix are together, and what the events that make code strips do, as laws that a caller may cite.
//! Nothing is computed here.

ghost use Rattle.std.specs.Prelude.{◌≡◌, ℕ, ◌<◌, List};
ghost use Rattle.run_data.specs.Matrix.{Matrix, IsShaped};
ghost use Rattle.rank_machine.specs.declared.layout.Layout.{Layout};
ghost use Rattle.rank_machine.specs.Setting.{Setting};
ghost use Rattle.rank_machine.specs.State.{State};
ghost use Rattle.rank_machine.specs.Legal.{IsLegalFrom};
ghost use Rattle.rank_slots.specs.Stands.{records_of};
ghost use Rattle.dist_matrix.specs.Encode.{group_events, CanEncode, with_code, HasCodeStrips, KeepsElse, KeepsRun};
ghost use Rattle.dist_matrix.specs.Strips.{HasShape, LiesInOneStrip, HasEveryStrip, with_strips, all_strips};
ghost use Rattle.script_lines.specs.Layouts.{IsLayout};

/// The strips of a matrix make up the matrix.
///
/// Each entry lies in exactly one strip. The strips of all data ranks and groups, placed in any order in which none is
/// missing, make the matrix, whatever stood there before. One such order goes over the groups by rising number, and in
/// each over the data ranks row by row.
pub fn strips_make_matrix()
    ensures one_strip { (d : Layout) (i j : ℕ) → IsLayout d → i < d.desc.m → j < d.desc.n → LiesInOneStrip d i j }
    ensures any_order { (d : Layout) (m out : Matrix) (strips : List (ℕ × ℕ)) → IsLayout d → IsShaped m → HasShape d m
        → IsShaped out → HasShape d out → HasEveryStrip d strips → with_strips d m out strips ≡ m }
    ensures in_order { (d : Layout) → IsLayout d → HasEveryStrip d (all_strips d) }
{}

/// The events of `encode_group` make the code strips of a group, and change nothing else but the work slot.
///
/// They are legal in list order from any state in which the data strips of the group are there, and each code rank may write its
/// code strip. After them each code strip is the sum of the data strips of its process row, each times its weight.
pub fn events_make_code_strips()
    ensures legal { (s : Setting) (st : State) (d : Layout) (line group : ℕ) → CanEncode s st d line group
        → IsLegalFrom s st (records_of (group_events s.inverse d line group)) }
    ensures sums { (s : Setting) (st : State) (d : Layout) (line group : ℕ) → CanEncode s st d line group
        → HasCodeStrips s (with_code s st d line group) d line group }
    ensures else_kept { (s : Setting) (st : State) (d : Layout) (line group : ℕ) → CanEncode s st d line group
        → KeepsElse s st (with_code s st d line group) d line group }
    ensures run_kept { (s : Setting) (st : State) (d : Layout) (line group : ℕ) → CanEncode s st d line group
        → KeepsRun st (with_code s st d line group) }
{}
