//! A memory of two words, and a notary that keeps the steps.
ghost use Rattle.std.specs.Prelude.{◌≡◌, ◌++◌, ◌∷◌, [], length, IfOk, OnOk};

use rank_run::{NoMemory, Notary, Step, Store};
use std::alloc::Global;
use std::marker::Model;

/// Which word of a cell.
#[derive(Clone, Copy)]
pub enum Slot {
    Own,
    Work,
}

/// What joins `work` into `own`: the sum, at most 4,294,967,295, or the lesser of both.
#[derive(Clone, Copy)]
pub enum Join {
    Add,
    Least,
}

/// Two words.
#[derive(Clone, Copy, PartialEq, Eq)]
pub struct Cell {
    pub own: u32,
    pub work: u32,
}

impl Store for Cell {
    ghost use Rattle.std.specs.Prelude.{None, refl, min, ◌+◌};
    ghost use Rattle.ranks_tests.specs.declared.moves.cell.Join.TheVariants.{Add, Least};
    ghost use Rattle.ranks_tests.specs.declared.moves.cell.Slot.TheVariants.{Own, Work};

    type Op = Join;

    type Piece = Slot;

    type Msg = u32;

    ghost memory = { record {
      can_apply = λ x op. Unit {0};
      applied = λ x op. record { own = elim op [ Add ↦ min (x.own + x.work) 4294967295 | Least ↦ min x.own x.work ]; work = x.work };
      can_read = λ x p. Unit {0};
      read = λ x p. elim p [ Own ↦ x.own | Work ↦ x.work ];
      can_write = λ x p w. Unit {0};
      written = λ x p w. elim p [ Own ↦ record { own = w; work = x.work } | Work ↦ record { own = x.own; work = w } ];
    } };

    ghost base = { λ x p. None };

    ghost blank = { λ x. record { own = 0; work = 0 } };

    ghost keeps_base = { record { applied = λ x op h. refl; written = λ x p w h. refl } };

    ghost reads_back = { record { can = λ x p w h. tt; same = λ x. elim [ Own ↦ λ w h. refl | Work ↦ λ w h. refl ] } };

    fn apply(&mut self, op: &Join) -> Result<(), NoMemory> {
        self.own = match op {
            Join::Add => self.own.saturating_add(self.work),
            Join::Least => self.own.min(self.work),
        };
        Ok(())
    }

    fn read_out(&self, piece: &Slot) -> Result<u32, NoMemory> {
        match piece {
            Slot::Own => Ok(self.own),
            Slot::Work => Ok(self.work),
        }
    }

    fn write_in(&mut self, piece: &Slot, msg: u32) -> Result<(), NoMemory> {
        match piece {
            Slot::Own => self.own = msg,
            Slot::Work => self.work = msg,
        }
        Ok(())
    }
}

/// A step: 0 for an operation, 1 for a send, 2 for a receive; the rank that takes it; the other rank, or the same one.
#[derive(Clone, Copy)]
pub struct Row {
    pub kind: u32,
    pub rank: u32,
    pub other: u32,
}

/// Keeps the steps, and is never due.
#[derive(Drop)]
pub struct Rows {
    rows: Vec<Row>,
}

impl Model for Rows {
    ghost use Rattle.std.specs.Prelude.{List};
    ghost use Rattle.ranks_tests.specs.declared.moves.cell.Row.{Row};

    ghost Value = { List Row };

    ghost view = { λ a. a.rows.items };
}

impl Rows {
    pub fn new(alloc: Global) -> Self
        ensures { result ≡ [] }
    {
        Rows {
            rows: Vec::new(alloc),
        }
    }

    pub fn rows(&self) -> &[Row]
        ensures { result.now ≡ self.now }
    {
        self.rows.as_slice()
    }

    /// The steps of a kind, each as 100 times its rank and the other one, by rising number.
    pub fn codes(&self, alloc: Global, kind: u32) -> Result<Vec<u32>, NoMemory> {
        let mut made = Vec::new(alloc);
        for row in &self.rows {
            if row.kind == kind {
                made.push((row.rank % 100) * 100 + row.other % 100)?;
            }
        }
        made.sort_unstable();
        Ok(made)
    }
}

impl Notary<Cell> for Rows {
    ghost use Rattle.std.specs.Prelude.{false, ◌++◌, ◌∷◌, []};
    ghost use Rattle.rank_run.specs.Schedule.{rank_of};
    ghost use Rattle.rank_run.specs.Rows.{kind_of, other_of};

    ghost noting = { λ rows t. rows ++ record { kind = kind_of t; rank = rank_of t; other = other_of t } ∷ [] };

    ghost is_due = { λ rows. false };

    ghost unheard = { λ rows. [] };

    fn due(&self) -> bool {
        false
    }

    fn note(&mut self, step: &Step<'_, Cell>) -> Result<(), NoMemory> {
        let row = match step {
            Step::Local(rank, _) => Row {
                kind: 0,
                rank: *rank,
                other: *rank,
            },
            Step::Send(from, to, _) => Row {
                kind: 1,
                rank: *from,
                other: *to,
            },
            Step::Recv(to, from, _) => Row {
                kind: 2,
                rank: *to,
                other: *from,
            },
        };
        self.rows.push(row)?;
        Ok(())
    }
}
