//! The slots that a rank holds.
ghost use Rattle.std.specs.Prelude.{◌≡◌, ◌-◌, ◌*◌, ◌^◌, [], map, min, Some, None, IsSome, IsNone, IsOk, IfOk, IfErr, OnOk, OnErr};
ghost use Rattle.std.specs.Option.{option_copied};
ghost use Rattle.rank_machine.specs.Held.{size_of};
ghost use Rattle.rank_machine.specs.Effect as effect;
ghost use Rattle.script_lines.specs.Lines.{setting_on, AreSound};
ghost use Rattle.rank_slots.specs.Cells.{cell_in, tiles_in, is_before, AreOrdered, place_in, with_tile_in, with_saved_in, judged, kept_in, words_of_cells, empty_tile};
ghost use Rattle.rank_slots.specs.Undone.{undone, undone_in};

use rank_machine::{Mark, Slot, SlotKind, Tile};
use run_data::IndexList;
use script_lines::{Line, is_live_beside, live_groups};
use std::alloc::{AllocError, Global};
use std::marker::Model;
use std::mem;

/// A slot, the tile that it holds, what was saved of it, and whether it was made since the last commit.
#[derive(Drop)]
pub struct Cell {
    pub slot: Slot,
    pub tile: Tile,
    pub saved: Option<Tile>,
    pub fresh: bool,
}

/// The cells of a rank, in the order of their slots. A slot is found by halving.
#[derive(Drop)]
pub struct Cells {
    items: Vec<Cell>,
}

impl Model for Cells {
    ghost use Rattle.std.specs.Prelude.{List};
    ghost use Rattle.rank_slots.specs.declared.cells.Cell.{Cell};
    ghost use Rattle.rank_slots.specs.Cells.{AreOrdered};

    ghost Value = { List Cell };

    ghost view = { λ a. a.items.items };

    ghost invariant = { λ a. AreOrdered a.items.items };
}

impl Cells {
    /// No cells.
    pub fn new(alloc: Global) -> Cells
        ensures { result ≡ [] }
    {
        Cells {
            items: Vec::new(alloc),
        }
    }
}

// Whether a slot comes before another: by their kinds, then by line or number, then by group.
fn comes_before(slot: Slot, other: Slot) -> bool
    ensures { result ≡ is_before slot other }
{
    let (kind, other_kind) = (slot.kind.number(), other.kind.number());
    kind < other_kind
        || (kind == other_kind
            && (slot.id < other.id || (slot.id == other.id && slot.group < other.group)))
}

// How many cells come before a slot.
fn place_of(items: &[Cell], slot: Slot) -> usize
    requires { AreOrdered items.now }
    ensures { result ≡ place_in items.now slot }
{
    items.partition_point(|cell| comes_before(cell.slot, slot))
}

// The place of a slot's cell, or the place that it would have.
fn search(items: &[Cell], slot: Slot) -> Result<usize, usize>
    requires { AreOrdered items.now }
    ensures found { IfOk result (λ at. (at ≡ place_in items.now slot) × IsSome (cell_in items.now slot)) }
    ensures missing { IfErr result (λ at. (at ≡ place_in items.now slot) × IsNone (cell_in items.now slot)) }
{
    let at = place_of(items, slot);
    if at < items.len() && slot.is(items[at].slot) {
        Ok(at)
    } else {
        Err(at)
    }
}

/// The cell of a slot.
pub fn find_cell(cells: &Cells, slot: Slot) -> Option<&Cell>
    ensures { option_copied result ≡ cell_in cells.now slot }
{
    match search(&cells.items, slot) {
        Ok(at) => Some(&cells.items[at]),
        Err(_) => None,
    }
}

/// The tile of a slot.
pub fn find_tile(cells: &Cells, slot: Slot) -> Option<&Tile>
    ensures { option_copied result ≡ tiles_in cells.now slot }
{
    match find_cell(cells, slot) {
        Some(cell) => Some(&cell.tile),
        None => None,
    }
}

/// A slot gets a tile: in its cell, or in a new one, which is fresh. It wants no memory where the slot is there.
pub fn put(cells: &mut Cells, slot: Slot, tile: Tile) -> Result<(), AllocError>
    ensures done { OnOk result (cells.new ≡ with_tile_in cells.old slot tile) }
    ensures kept { OnErr result (cells.new ≡ cells.old) }
    ensures memory { IsSome (tiles_in cells.old slot) → IsOk result }
{
    match search(&cells.items, slot) {
        Ok(at) => {
            let cell = &mut cells.items[at];
            cell.tile = tile;
            Ok(())
        }
        Err(at) => {
            let cell = Cell {
                slot,
                tile,
                saved: None,
                fresh: true,
            };
            cells.items.insert(at, cell)?;
            Ok(())
        }
    }
}

/// Takes the tile of a slot out, and leaves an empty one.
pub fn take_out(alloc: Global, cells: &mut Cells, slot: Slot) -> Tile
    requires { IsSome (tiles_in cells.old slot) }
    ensures tile { tiles_in cells.old slot ≡ Some result }
    ensures left { cells.new ≡ with_tile_in cells.old slot empty_tile }
{
    let at = place_of(&cells.items, slot);
    let cell = &mut cells.items[at];
    mem::replace(&mut cell.tile, Tile::Index(IndexList::new(alloc)))
}

/// Saves a copy of the tile of a slot.
pub fn save(alloc: Global, cells: &mut Cells, slot: Slot) -> Result<(), AllocError>
    requires { IsSome (tiles_in cells.old slot) }
    ensures done { OnOk result (cells.new ≡ with_saved_in cells.old slot) }
    ensures kept { OnErr result (cells.new ≡ cells.old) }
{
    let at = place_of(&cells.items, slot);
    let cell = &mut cells.items[at];
    cell.saved = Some(cell.tile.copy(alloc)?);
    Ok(())
}

// Drops what was saved of each cell, and marks as fresh those whose slots are not live on a rank under a mark.
fn judge(items: &mut [Cell], table: &[Line], mark: Mark, rank: u32)
    requires sound { AreSound table.now }
    ensures { items.new ≡ map (judged (effect.is_live (setting_on 0 table.now) mark rank)) items.old }
{
    let mut groups = live_groups(table, mark, rank, SlotKind::Work, 0);
    for cell in items.iter_mut() {
        cell.saved = None;
        cell.fresh = !is_live_beside(&mut groups, table, mark, rank, cell.slot);
    }
}

/// Keeps the slots of a rank that are live under a mark, with nothing saved and none fresh, and lets the others go.
pub fn keep(cells: &mut Cells, table: &[Line], mark: Mark, rank: u32)
    requires sound { AreSound table.now }
    ensures { cells.new ≡ kept_in (effect.is_live (setting_on 0 table.now) mark rank) cells.old }
{
    judge(&mut cells.items, table, mark, rank);
    cells.items.retain(|cell| !cell.fresh);
}

// How many words a tile has.
fn size(tile: &Tile) -> u64
    ensures { result ≡ size_of (Some tile.now) }
{
    match tile {
        Tile::Words(m) => u64::from(m.rows()) * u64::from(m.cols()),
        Tile::Index(numbers) => u64::from(numbers.len()),
    }
}

// How many words a tile has that may be missing.
fn size_if_some(tile: &Option<Tile>) -> u64
    ensures { result ≡ size_of tile.now }
{
    match tile {
        Some(tile) => size(tile),
        None => 0,
    }
}

// A cell gets back what was saved of it.
fn put_back(cell: &mut Cell)
    ensures { cell.new ≡ undone cell.old }
{
    if let Some(saved) = cell.saved.take() {
        cell.tile = saved;
    }
    cell.fresh = false;
}

/// What was saved goes back, and what is fresh goes. The cells are in the order of their slots.
pub fn undo(cells: &mut Cells)
    ensures ordered { AreOrdered cells.old }
    ensures undone { cells.new ≡ undone_in cells.old }
{
    cells
        .items
        .retain(|cell| !cell.fresh || cell.saved.is_some());
    for cell in cells.items.iter_mut() {
        put_back(cell);
    }
}

/// Lets all cells go.
pub fn clear(cells: &mut Cells)
    ensures { cells.new ≡ [] }
{
    cells.items.clear();
}

/// How many words the cells hold, with what was saved. A number that does not fit counts as the greatest that does. Each slot
/// has one cell, since they are in the order of their slots.
pub fn words(cells: &Cells) -> u64
    ensures ordered { AreOrdered cells.now }
    ensures count { result ≡ min (words_of_cells cells.now) (2 ^ 64 - 1) }
{
    let mut count: u64 = 0;
    for cell in &cells.items {
        count = count
            .saturating_add(size(&cell.tile))
            .saturating_add(size_if_some(&cell.saved));
    }
    count
}
