//! What the calculus of rounds rests on: parts of a round go one after another, and a round that turns what ranks hold is legal.

ghost use Rattle.std.specs.Prelude.{ℕ, suc, ◌<◌, Bool, List, ◌++◌};
ghost use Rattle.rank_run.specs.declared.round.Event.{Event};
ghost use Rattle.rank_machine.specs.declared.slot.Tile.{Tile};
ghost use Rattle.rank_machine.specs.declared.slot.Piece.{Piece};
ghost use Rattle.rank_machine.specs.declared.kernel.Kernel.{Kernel};
ghost use Rattle.rank_machine.specs.Setting.{Setting};
ghost use Rattle.rank_machine.specs.State.{State};
ghost use Rattle.rank_slots.specs.Rank.{Rank};
ghost use Rattle.round_laws.specs.Holdings.{Holding, holding};
ghost use Rattle.round_laws.specs.Turns.{IsQuiet, Turns, Replays, each_below};

/// Two parts of a round, of which the second begins with what the first made, are one part.
pub fn parts_follow_parts()
    ensures { (s : Setting) (st : State) (among : ℕ → Bool) (es es' : List (Event Rank Kernel Piece Tile)) (f g h : ℕ → Holding) →
        Turns s st among es f g → Turns s st among es' g h → Turns s st among (es ++ es') f h }
{}

/// Parts numbered from 0, of which each begins with what the one before made, are one part.
pub fn parts_make_rounds()
    ensures { (s : Setting) (st : State) (among : ℕ → Bool) (n : ℕ) (es : ℕ → List (Event Rank Kernel Piece Tile)) (at : ℕ → ℕ → Holding) →
        ((i : ℕ) → i < n → Turns s st among (es i) (at i) (at (suc i))) → Turns s st among (each_below n es) (at 0) (at n) }
{}

/// From a state in which every rank is live and nothing is on its way, events that turn what some ranks hold are legal records in list
/// order. They lead to a state in which these ranks hold what was made and all others what they held; nothing is on its way, and what no
/// step changes is as it was.
pub fn rounds_that_turn_are_legal()
    ensures { (s : Setting) (st : State) (among : ℕ → Bool) (es : List (Event Rank Kernel Piece Tile)) (g : ℕ → Holding) →
        IsQuiet s st → Turns s st among es (holding st) g → Replays s st among es g }
{}
