//! A memory of one word on which everything is allowed, and a notary that keeps the steps.
ghost use Rattle.std.specs.Prelude.{◌≡◌, ◌++◌, ◌∷◌, [], length, IfOk, OnOk};

use rank_run::{NoMemory, Notary, Step, Store};
use std::alloc::Global;
use std::marker::Model;

/// One word. An operation sets it, and every piece is the word.
#[derive(Clone, Copy)]
pub struct Word {
    pub value: u32,
}

impl Store for Word {
    ghost use Rattle.std.specs.Prelude.{None, refl};

    type Op = u32;

    type Piece = u32;

    type Msg = u32;

    ghost memory = { record {
      can_apply = λ x op. Unit {0};
      applied = λ x op. record { value = op };
      can_read = λ x p. Unit {0};
      read = λ x p. x.value;
      can_write = λ x p w. Unit {0};
      written = λ x p w. record { value = w };
    } };

    ghost base = { λ x p. None };

    ghost blank = { λ x. record { value = 0 } };

    ghost keeps_base = { record { applied = λ x op h. refl; written = λ x p w h. refl } };

    ghost reads_back = { record { can = λ x p w h. tt; same = λ x p w h. refl } };

    fn apply(&mut self, op: &u32) -> Result<(), NoMemory> {
        self.value = *op;
        Ok(())
    }

    fn read_out(&self, _piece: &u32) -> Result<u32, NoMemory> {
        Ok(self.value)
    }

    fn write_in(&mut self, _piece: &u32, msg: u32) -> Result<(), NoMemory> {
        self.value = msg;
        Ok(())
    }
}

/// A step: 0 for an operation, 1 for a send, 2 for a receive; the rank that takes it; the other rank, or the same one.
#[derive(Clone, Copy, PartialEq, Eq)]
pub struct Row {
    pub kind: u32,
    pub rank: u32,
    pub other: u32,
}

/// Keeps the steps, and is never due.
#[derive(Drop)]
pub struct Rows {
    rows: Vec<Row>,
}

impl Model for Rows {
    ghost use Rattle.std.specs.Prelude.{List};
    ghost use Rattle.ranks_tests.specs.declared.rounds.word.Row.{Row};

    ghost Value = { List Row };

    ghost view = { λ a. a.rows.items };
}

impl Rows {
    pub fn new(alloc: Global) -> Self
        ensures { result ≡ [] }
    {
        Rows {
            rows: Vec::new(alloc),
        }
    }

    pub fn rows(&self) -> &[Row]
        ensures { result.now ≡ self.now }
    {
        self.rows.as_slice()
    }
}

impl Notary<Word> for Rows {
    ghost use Rattle.std.specs.Prelude.{false, ◌++◌, ◌∷◌, []};
    ghost use Rattle.rank_run.specs.Schedule.{rank_of};
    ghost use Rattle.rank_run.specs.Rows.{kind_of, other_of};

    ghost noting = { λ rows t. rows ++ record { kind = kind_of t; rank = rank_of t; other = other_of t } ∷ [] };

    ghost is_due = { λ rows. false };

    ghost unheard = { λ rows. [] };

    fn due(&self) -> bool {
        false
    }

    fn note(&mut self, step: &Step<'_, Word>) -> Result<(), NoMemory> {
        let row = match step {
            Step::Local(rank, _) => Row {
                kind: 0,
                rank: *rank,
                other: *rank,
            },
            Step::Send(from, to, _) => Row {
                kind: 1,
                rank: *from,
                other: *to,
            },
            Step::Recv(to, from, _) => Row {
                kind: 2,
                rank: *to,
                other: *from,
            },
        };
        self.rows.push(row)?;
        Ok(())
    }
}
