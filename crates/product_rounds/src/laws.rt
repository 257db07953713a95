//! What the round of a group of a product does. Each law is the contract of a function that does nothing.
ghost use Rattle.std.specs.Prelude.{◌≡◌, ◌+◌, ◌*◌, ◌%◌, ◌<◌, ℕ};
ghost use Rattle.field_core.specs.Sums.{sum_to};
ghost use Rattle.blacs_grid.specs.Places.{width};
ghost use Rattle.rank_machine.specs.Setting.{Setting};
ghost use Rattle.rank_machine.specs.State.{State};
ghost use Rattle.rank_machine.specs.Effect.{replay};
ghost use Rattle.rank_machine.specs.Legal.{IsLegalFrom};
ghost use Rattle.rank_slots.specs.Stands.{records_of};
ghost use Rattle.round_laws.specs.Turns.{IsQuiet, held_on};
ghost use Rattle.round_laws.specs.Changes.{ChangesGrid};
ghost use Rattle.phase_rounds.specs.Strips.{HoldsWords};
ghost use Rattle.product_rounds.specs.declared.rounds.GroupProduct.{GroupProduct};
ghost use Rattle.product_rounds.specs.Rounds.{strip_slot, block_width, group_events};
ghost use Rattle.product_rounds.specs.Standing.{left_words, right_words};
ghost use Rattle.product_rounds.specs.Groups.{MayMultiplyGroup, CanMultiplyGroup, group_slots, product_group_words};

/// From a quiet state the records of a group's round are legal in list order. The state after them holds, on each data and code
/// column, the words of the group, multiplied by BETA, with ALPHA times the products of all block columns; and but for these strips
/// and two work slots nothing has changed.
pub fn group_rounds_multiply()
    ensures legal { (s : Setting) (st : State) (x : GroupProduct) (l : ℕ → ℕ → ℕ → ℕ) (n : ℕ → ℕ) (y : ℕ → ℕ → ℕ → ℕ → ℕ) (words : ℕ → ℕ → ℕ → ℕ) →
        IsQuiet s st → MayMultiplyGroup s st x → CanMultiplyGroup x l n y words (held_on st x.grid) →
        IsLegalFrom s st (records_of (group_events x)) }
    ensures words { (s : Setting) (st : State) (x : GroupProduct) (l : ℕ → ℕ → ℕ → ℕ) (n : ℕ → ℕ) (y : ℕ → ℕ → ℕ → ℕ → ℕ) (words : ℕ → ℕ → ℕ → ℕ) →
        IsQuiet s st → MayMultiplyGroup s st x → CanMultiplyGroup x l n y words (held_on st x.grid) →
        (col : ℕ) → col < width x.grid → HoldsWords (record { grid = x.grid; desc = x.c }) (strip_slot x x.line_c col) (product_group_words s x l n y words col) (λ row. held_on (replay s st (records_of (group_events x))) x.grid row col) }
    ensures else_kept { (s : Setting) (st : State) (x : GroupProduct) (l : ℕ → ℕ → ℕ → ℕ) (n : ℕ → ℕ) (y : ℕ → ℕ → ℕ → ℕ → ℕ) (words : ℕ → ℕ → ℕ → ℕ) →
        IsQuiet s st → MayMultiplyGroup s st x → CanMultiplyGroup x l n y words (held_on st x.grid) →
        ChangesGrid s x.grid (group_slots x) st (replay s st (records_of (group_events x))) }
{}

/// The products of all block columns are the whole product: each word of the group becomes BETA times what it was, and ALPHA times
/// the sum over all columns of A.
pub fn blocks_make_the_product()
    ensures { (s : Setting) (x : GroupProduct) (a : ℕ → ℕ → ℕ) (b words : ℕ → ℕ → ℕ → ℕ) →
        0 < s.modulus → 0 < x.a.nb → (col i c : ℕ) → i < x.c.m →
        product_group_words s x (left_words x a) (block_width x) (right_words x b) words col i c ≡ (x.alpha * sum_to x.a.n (λ q. a i q * b col q c) + x.beta * words col i c) % s.modulus }
{}
