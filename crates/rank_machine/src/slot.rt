//! Slots, pieces of them, and what they hold.
ghost use Rattle.std.specs.Prelude.{◌≡◌, IfOk};
ghost use Rattle.rank_machine.specs.State.{kind_number, same_slot};
ghost use Rattle.rank_machine.specs.Effect.{slot_of};

use run_data::{IndexList, Mat, Part};
use std::alloc::{AllocError, Global};

/// What a slot is for. In journals its letter is the first of its name, and `v` for pivots.
#[derive(Clone, Copy)]
pub enum SlotKind {
    /// A strip of a matrix on a data rank.
    Data,
    /// The weighted sum of the strips of a process row, on a code rank.
    Code,
    /// The same sum over the multipliers of closed panels, inside a factorization.
    Low,
    /// The open panel's term of that sum, inside a factorization.
    Open,
    /// A list of pivot rows.
    Pivots,
    /// What a phase works with.
    Work,
}

impl SlotKind {
    /// The kind's place in the order Data, Code, Low, Open, Pivots, Work, from 0.
    pub fn number(self) -> u8
        ensures { result ≡ kind_number self }
    {
        match self {
            SlotKind::Data => 0,
            SlotKind::Code => 1,
            SlotKind::Low => 2,
            SlotKind::Open => 3,
            SlotKind::Pivots => 4,
            SlotKind::Work => 5,
        }
    }
}

/// A place in a rank's memory: what it is for, the script line or number that it belongs to, and a group of block columns.
#[derive(Clone, Copy)]
pub struct Slot {
    pub kind: SlotKind,
    pub id: u32,
    pub group: u32,
}

impl Slot {
    /// Whether it is the same slot.
    pub fn is(self, other: Slot) -> bool
        ensures { result ≡ same_slot self other }
    {
        self.kind.number() == other.kind.number()
            && self.id == other.id
            && self.group == other.group
    }
}

/// What a slot holds: residues, or row numbers, counted from 1.
#[derive(Drop)]
pub enum Tile {
    Words(Mat),
    Index(IndexList),
}

impl Tile {
    /// A tile that holds the same.
    pub fn copy(&self, alloc: Global) -> Result<Tile, AllocError>
        ensures { IfOk result (λ t. t ≡ self.now) }
    {
        match self {
            Tile::Words(m) => Ok(Tile::Words(m.copy(alloc)?)),
            Tile::Index(numbers) => Ok(Tile::Index(numbers.copy(alloc)?)),
        }
    }
}

/// A whole slot, or a rectangle of one in local rows and columns.
#[derive(Clone, Copy)]
pub enum Piece {
    Whole(Slot),
    Part(Slot, Part),
}

impl Piece {
    /// Its slot.
    pub fn slot(self) -> Slot
        ensures { result ≡ slot_of self }
    {
        match self {
            Piece::Whole(slot) => slot,
            Piece::Part(slot, _) => slot,
        }
    }
}
