//! `RankMem`, the memory of one rank.
ghost use Rattle.std.specs.Prelude.{◌≡◌, ◌-◌, ◌^◌, [], true, min, IsSome, IfOk, OnOk, OnErr};
ghost use Rattle.std.specs.Option.{option_copied};
ghost use Rattle.rank_machine.specs.Effect as effect;
ghost use Rattle.script_lines.specs.Lines.{setting_on, AreSound};
ghost use Rattle.rank_slots.specs.Cells.{tiles_in, AreOrdered, kept_in, words_of_cells, IsTileOf};

use crate::applied::{apply_to, write_part};
use crate::made::copied;
use field_core::Field;
use rank_machine::{Kernel, Mark, Piece, Slot, Tile};
use rank_run::Store;
use rank_slots::{Cells, clear, find_tile, keep, put, save, undo, words};
use script_lines::Line;
use std::alloc::{AllocError, Global};
use std::marker::{Model, PhantomData};

/// The memory of one rank. A contract sees the lines of the script that ask something of a rank, the rank's number, whether it
/// is live, and its cells; all words that it holds are residues.
#[derive(Drop)]
pub struct RankMem<K: Field> {
    alloc: Global,
    table: Vec<Line>,
    number: u32,
    live: bool,
    cells: Cells,
    of: PhantomData<K>,
}

impl<K: Field> Model for RankMem<K> {
    ghost use Rattle.rank_slots.specs.Rank.{Rank, IsRank};

    ghost Value = { Rank };

    ghost view = { λ a. record { table = a.table.items; number = a.number; live = a.live; cells = a.cells } };

    ghost invariant = { λ a. IsRank K.MODULUS a.table.items a.cells };
}

impl<K: Field> RankMem<K> {
    ghost use Rattle.rank_slots.specs.Rank.{with_cells, with_tile, with_save};
    ghost use Rattle.rank_slots.specs.Lost.{lost_rank, restored, spawned};

    /// A live rank of that number that holds nothing, with a copy of the table.
    pub fn new(alloc: Global, table: &[Line], number: u32) -> Result<RankMem<K>, AllocError>
        requires sound { AreSound table.now }
        ensures { IfOk result (λ m. m ≡ record { table = table.now; number = number; live = true; cells = [] }) }
    {
        let table = table.to_vec(alloc)?;
        Ok(RankMem {
            alloc,
            table,
            number,
            live: true,
            cells: Cells::new(alloc),
            of: PhantomData,
        })
    }

    /// Whether the rank is live.
    pub fn is_live(&self) -> bool
        ensures { result ≡ self.now.live }
    {
        self.live
    }

    /// The tile of a slot.
    pub fn tile(&self, slot: Slot) -> Option<&Tile>
        ensures { option_copied result ≡ tiles_in self.now.cells slot }
    {
        find_tile(&self.cells, slot)
    }

    /// A slot gets a tile; a new slot is fresh. After an error nothing has changed.
    pub fn put(&mut self, slot: Slot, tile: Tile) -> Result<(), AllocError>
        requires { IsTileOf K.MODULUS tile }
        ensures done { OnOk result (self.new ≡ with_tile self.old slot tile) }
        ensures kept { OnErr result (self.new ≡ self.old) }
    {
        put(&mut self.cells, slot, tile)
    }

    /// Saves a copy of the tile of a slot. After an error nothing has changed.
    pub fn save(&mut self, slot: Slot) -> Result<(), AllocError>
        requires { IsSome (tiles_in self.old.cells slot) }
        ensures done { OnOk result (self.new ≡ with_save self.old slot) }
        ensures kept { OnErr result (self.new ≡ self.old) }
    {
        save(self.alloc, &mut self.cells, slot)
    }

    /// Keeps the slots that are live under a mark, with nothing saved and none fresh, and lets the others go.
    pub fn commit(&mut self, mark: Mark)
        ensures { self.new ≡ with_cells self.old (kept_in (effect.is_live (setting_on 0 self.old.table) mark self.old.number) self.old.cells) }
    {
        keep(&mut self.cells, &self.table, mark, self.number);
    }

    /// What was saved goes back, and what is fresh goes. Each slot has one cell, since they are in the order of their slots.
    pub fn restore(&mut self)
        ensures ordered { AreOrdered self.old.cells }
        ensures restored { self.new ≡ restored self.old }
    {
        undo(&mut self.cells);
    }

    /// The rank is lost, with its memory.
    pub fn lose(&mut self)
        ensures { self.new ≡ lost_rank self.old }
    {
        clear(&mut self.cells);
        self.live = false;
    }

    /// The rank is live.
    pub fn spawn(&mut self)
        ensures { self.new ≡ spawned self.old }
    {
        self.live = true;
    }

    /// Is live and holds nothing.
    pub fn restart(&mut self)
        ensures { self.new ≡ record { table = self.old.table; number = self.old.number; live = true; cells = [] } }
    {
        clear(&mut self.cells);
        self.live = true;
    }

    /// How many words the rank holds, with what was saved. A number that does not fit counts as the greatest that does. Each slot
    /// has one cell, since they are in the order of their slots.
    pub fn words(&self) -> u64
        ensures ordered { AreOrdered self.now.cells }
        ensures count { result ≡ min (words_of_cells self.now.cells) (2 ^ 64 - 1) }
    {
        words(&self.cells)
    }
}

impl<K: Field> Store for RankMem<K> {
    type Op = Kernel;

    type Piece = Piece;

    type Msg = Tile;

    ghost use Rattle.std.specs.Prelude.{true, []};
    ghost use Rattle.rank_slots.specs.Rank.{memory, base_in};

    ghost memory = { memory K.MODULUS };

    ghost base = { base_in };

    ghost blank = { λ m. record { table = m.table; number = m.number; live = true; cells = [] } };

    ghost use Rattle.rank_slots.proofs.StoreLaws.{keeps_base, reads_back};

    ghost keeps_base = { keeps_base K.MODULUS };

    ghost reads_back = { reads_back K.MODULUS };

    fn apply(&mut self, op: &Kernel) -> Result<(), AllocError> {
        apply_to::<K>(self.alloc, &self.table, self.number, &mut self.cells, op)
    }

    fn read_out(&self, piece: &Piece) -> Result<Tile, AllocError> {
        copied(self.alloc, &self.cells, *piece)
    }

    fn write_in(&mut self, piece: &Piece, msg: Tile) -> Result<(), AllocError> {
        match *piece {
            Piece::Whole(slot) => put(&mut self.cells, slot, msg),
            Piece::Part(slot, at) => match msg {
                Tile::Words(words) => {
                    write_part::<K>(self.alloc, &mut self.cells, slot, at, &words)
                }
                Tile::Index(_) => unreachable!(),
            },
        }
    }
}
