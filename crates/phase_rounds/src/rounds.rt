//! What a round of broadcasts and updates, a round of exchanges of rows, and a pivot search do.

ghost use Rattle.std.specs.Prelude.{◌≡◌, ℕ, ◌-◌, ◌<◌, Some, [], ◌∷◌};
ghost use Rattle.blacs_grid.specs.Places.{width};
ghost use Rattle.rank_machine.specs.declared.slot.Slot.{Slot};
ghost use Rattle.rank_machine.specs.declared.slot.Tile.TheVariants.{Index};
ghost use Rattle.rank_machine.specs.declared.layout.Layout.{Layout};
ghost use Rattle.rank_machine.specs.Setting.{Setting};
ghost use Rattle.rank_machine.specs.State.{State};
ghost use Rattle.rank_machine.specs.Effect.{replay};
ghost use Rattle.rank_machine.specs.Legal.{IsLegalFrom};
ghost use Rattle.rank_slots.specs.Stands.{records_of};
ghost use Rattle.serial_model.specs.Elimination.{exchange, pivot_from};
ghost use Rattle.phase_laws.specs.Search.{number_found};
ghost use Rattle.round_laws.specs.Holdings.{Holding};
ghost use Rattle.round_laws.specs.Turns.{IsQuiet, held_on};
ghost use Rattle.round_laws.specs.Changes.{TurnsColumn, TurnsGrid, ChangesGrid};
ghost use Rattle.round_laws.specs.Searches.{Search, search_events, search_slots};
ghost use Rattle.phase_rounds.specs.Strips.{HoldsWords};
ghost use Rattle.phase_rounds.specs.Products.{BlockProduct, product_events, MayMultiply, CanMultiply, product_slots, product_words};
ghost use Rattle.phase_rounds.specs.Exchanges.{exchange_round, MayExchange, CanExchange, swap_slots};
ghost use Rattle.phase_rounds.specs.Searches.{MaySearch, CanSearch};

/// The round of a product for one block column adds its product to the strips.
///
/// Its events turn the holdings of the grid into ones in which, on each data and code column, the
/// strips hold the words that gained `alpha` times the product. So from a quiet state its records
/// are legal in list order, the state after them holds these words, and but for the strips and two
/// work slots nothing has changed.
pub fn product_rounds_add_products()
    ensures turns { (s : Setting) (st : State) (x : BlockProduct) (l : ℕ → ℕ → ℕ) (n : ℕ) (y words : ℕ → ℕ → ℕ → ℕ) (f : ℕ → ℕ → Holding) →
        MayMultiply s st x → CanMultiply x l n y words f →
        (h : TurnsGrid s st x.at.grid (product_slots x) (product_events x) f) × ((col : ℕ) → col < width x.at.grid → HoldsWords x.at (x.c col) (product_words s x l n y words col) (λ row. h.after row col)) }
    ensures legal { (s : Setting) (st : State) (x : BlockProduct) (l : ℕ → ℕ → ℕ) (n : ℕ) (y words : ℕ → ℕ → ℕ → ℕ) →
        IsQuiet s st → MayMultiply s st x → CanMultiply x l n y words (held_on st x.at.grid) →
        IsLegalFrom s st (records_of (product_events x)) }
    ensures words { (s : Setting) (st : State) (x : BlockProduct) (l : ℕ → ℕ → ℕ) (n : ℕ) (y words : ℕ → ℕ → ℕ → ℕ) →
        IsQuiet s st → MayMultiply s st x → CanMultiply x l n y words (held_on st x.at.grid) →
        (col : ℕ) → col < width x.at.grid → HoldsWords x.at (x.c col) (product_words s x l n y words col) (λ row. held_on (replay s st (records_of (product_events x))) x.at.grid row col) }
    ensures else_kept { (s : Setting) (st : State) (x : BlockProduct) (l : ℕ → ℕ → ℕ) (n : ℕ) (y words : ℕ → ℕ → ℕ → ℕ) →
        IsQuiet s st → MayMultiply s st x → CanMultiply x l n y words (held_on st x.at.grid) →
        ChangesGrid s x.at.grid (product_slots x) st (replay s st (records_of (product_events x))) }
{}

/// The round in which two rows of a matrix change places exchanges these rows of the words.
///
/// A row stays with itself, one rank exchanges both, or two ranks send each other theirs, on each
/// process column in its slot. From a quiet state the records are legal in list order, the state
/// after them holds the exchanged words, and but for the strips and a work slot nothing has changed.
pub fn exchange_rounds_exchange_rows()
    ensures turns { (s : Setting) (st : State) (d : Layout) (slot : ℕ → Slot) (i j : ℕ) (words : ℕ → ℕ → ℕ → ℕ) (f : ℕ → ℕ → Holding) →
        MayExchange s st d slot i j → CanExchange d slot words f →
        (h : TurnsGrid s st d.grid (λ col. swap_slots (slot col)) (exchange_round d slot i j) f) × ((col : ℕ) → col < width d.grid → HoldsWords d (slot col) (exchange i j (words col)) (λ row. h.after row col)) }
    ensures legal { (s : Setting) (st : State) (d : Layout) (slot : ℕ → Slot) (i j : ℕ) (words : ℕ → ℕ → ℕ → ℕ) →
        IsQuiet s st → MayExchange s st d slot i j → CanExchange d slot words (held_on st d.grid) →
        IsLegalFrom s st (records_of (exchange_round d slot i j)) }
    ensures words { (s : Setting) (st : State) (d : Layout) (slot : ℕ → Slot) (i j : ℕ) (words : ℕ → ℕ → ℕ → ℕ) →
        IsQuiet s st → MayExchange s st d slot i j → CanExchange d slot words (held_on st d.grid) →
        (col : ℕ) → col < width d.grid → HoldsWords d (slot col) (exchange i j (words col)) (λ row. held_on (replay s st (records_of (exchange_round d slot i j))) d.grid row col) }
    ensures else_kept { (s : Setting) (st : State) (d : Layout) (slot : ℕ → Slot) (i j : ℕ) (words : ℕ → ℕ → ℕ → ℕ) →
        IsQuiet s st → MayExchange s st d slot i j → CanExchange d slot words (held_on st d.grid) →
        ChangesGrid s d.grid (λ col. swap_slots (slot col)) st (replay s st (records_of (exchange_round d slot i j))) }
{}

/// A pivot search gives every rank of the process column the number of the pivot's row.
///
/// Each rank finds its first row, the least of these is combined at one rank and goes to all; it
/// is that of the first row, at or below a row of the whole column, whose word is not 0, or the
/// number that means none. But for two work slots nothing has changed.
pub fn searches_find_pivots()
    ensures { (s : Setting) (st : State) (d : Layout) (x : Search) (words : ℕ → ℕ → ℕ) (f : ℕ → ℕ → Holding) →
        MaySearch s st d x → CanSearch s d x words f →
        (h : TurnsColumn s st x.grid x.col (search_slots x) (search_events x) f)
        × ((row : ℕ) → row < d.grid.p → (h.after row x.col).tiles x.first ≡ Some (Index (number_found (pivot_from (λ i. words i x.j) x.above (d.desc.m - x.above)) ∷ []))) }
{}
