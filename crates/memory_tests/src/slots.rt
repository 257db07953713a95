//! Slots that are put in any order, saved, taken out, kept and counted (rank_slots).
ghost use Rattle.std.specs.Prelude.{◌∷◌, [], IsSome};
ghost use Rattle.script_lines.specs.Lines.{AreSound};
ghost use Rattle.rank_slots.specs.Cells.{tiles_in};

use array_desc::Desc;
use blacs_grid::Grid;
use rank_machine::{Mark, Slot, SlotKind, Tile};
use rank_slots::{Cells, find_cell, find_tile, keep, put, save, take_out, words};
use run_data::{IndexList, Mat};
use script_lines::{Layout, Line};
use std::alloc::Global;
use std::process::Abort;

/// What a slot has: the number of its list, the number that was saved of it, and whether it is fresh.
type Held = (Option<u32>, Option<u32>, bool);

/// A slot that isn't there.
const NOTHING: Held = (None, None, false);

/// A hundred slots of all kinds, four ids and five groups.
fn slot_of(number: u32) -> Slot {
    let kind = match number % 6 {
        0 => SlotKind::Data,
        1 => SlotKind::Code,
        2 => SlotKind::Low,
        3 => SlotKind::Open,
        4 => SlotKind::Pivots,
        _ => SlotKind::Work,
    };
    Slot {
        kind,
        id: number / 6 % 4,
        group: number / 24,
    }
}

/// A strip of a matrix.
fn strip_slot(id: u32, group: u32) -> Slot {
    Slot {
        kind: SlotKind::Data,
        id,
        group,
    }
}

/// The list of one number.
fn list_of(rt: &impl Abort, alloc: Global, number: u32) -> Tile {
    let mut list = IndexList::new(alloc);
    list.push(number).expect(rt, "memory");
    Tile::Index(list)
}

/// A slot gets the list of one number.
fn put_number(rt: &impl Abort, alloc: Global, cells: &mut Cells, slot: Slot, number: u32) {
    let tile = list_of(rt, alloc, number);
    put(cells, slot, tile).expect(rt, "memory");
}

/// Stops where a slot is not there.
fn check_there(rt: &impl Abort, cells: &Cells, slot: Slot)
    ensures { IsSome (tiles_in cells.now slot) }
{
    assert!(rt; find_tile(cells, slot).is_some());
}

/// Saves a slot that must be there.
fn save_there(rt: &impl Abort, alloc: Global, cells: &mut Cells, slot: Slot) {
    check_there(rt, cells, slot);
    save(alloc, cells, slot).expect(rt, "memory");
}

/// Takes out a slot that must be there.
fn take_there(rt: &impl Abort, alloc: Global, cells: &mut Cells, slot: Slot) -> Tile {
    check_there(rt, cells, slot);
    take_out(alloc, cells, slot)
}

/// The number of a list of one number.
fn number_in(tile: &Tile) -> Option<u32> {
    match tile {
        Tile::Index(list) => {
            if list.len() == 1 {
                Some(list.get(0))
            } else {
                None
            }
        }
        Tile::Words(_) => None,
    }
}

/// What a slot has.
fn held(cells: &Cells, slot: Slot) -> Held {
    match find_cell(cells, slot) {
        Some(cell) => {
            let saved = match &cell.saved {
                Some(tile) => number_in(tile),
                None => None,
            };
            (number_in(&cell.tile), saved, cell.fresh)
        }
        None => NOTHING,
    }
}

/// Stops where a slot has something else.
fn check_held(rt: &impl Abort, cells: &Cells, slot: Slot, want: Held) {
    let (id, group) = (slot.id, slot.group);
    assert_eq!(rt; held(cells, slot), want, "slot {id}.{group}");
}

/// Stops where the cells hold another number of words.
fn check_words(rt: &impl Abort, cells: &Cells, want: u64) {
    assert_eq!(rt; words(cells), want);
}

/// Line 1 makes a matrix of 2 by 2 words in single words, on one data column and a code column from rank 0 on.
#[tactic(auto, using(script_lines::proofs::Lookups::one_sound))]
fn matrix_line(rt: &impl Abort) -> Line
    ensures { AreSound (result ∷ []) }
{
    let grid = Grid::new(1, 1, 1, 0).expect(rt, "a grid");
    let desc = Desc::new(0, 1, 1, 2, 2, 1, 1, 0, 0).expect(rt, "a descriptor");
    Line {
        line: 1,
        makes: Some(Layout { grid, desc }),
        factors: 0,
        drops: 0,
        dropped: None,
    }
}

#[test]
fn slots_are_found_after_any_order(rt: HostRuntime) {
    let mut cells = Cells::new(rt.alloc());
    for i in 0..100 {
        let number = i * 37 % 100;
        put_number(&rt, rt.alloc(), &mut cells, slot_of(number), number);
        check_held(&rt, &cells, slot_of(number), (Some(number), None, true));
    }
    for number in 0..100 {
        check_held(&rt, &cells, slot_of(number), (Some(number), None, true));
    }
    check_held(&rt, &cells, slot_of(100), NOTHING);
    check_words(&rt, &cells, 100);
}

#[test]
fn what_was_saved_stays(rt: HostRuntime) {
    let (slot, other) = (slot_of(7), slot_of(8));
    let mut cells = Cells::new(rt.alloc());
    put_number(&rt, rt.alloc(), &mut cells, slot, 1);
    put_number(&rt, rt.alloc(), &mut cells, other, 2);
    save_there(&rt, rt.alloc(), &mut cells, slot);
    put_number(&rt, rt.alloc(), &mut cells, slot, 3);
    check_held(&rt, &cells, slot, (Some(3), Some(1), true));
    check_held(&rt, &cells, other, (Some(2), None, true));
    let taken = take_there(&rt, rt.alloc(), &mut cells, slot);
    put(&mut cells, slot_of(9), taken).expect(&rt, "memory");
    check_held(&rt, &cells, slot_of(9), (Some(3), None, true));
    check_held(&rt, &cells, slot, (None, Some(1), true));
    check_there(&rt, &cells, slot);
}

#[test]
fn live_slots_are_kept(rt: HostRuntime) {
    let mut cells = Cells::new(rt.alloc());
    for id in [1, 2] {
        for group in [0, 1, 2] {
            let slot = strip_slot(id, group);
            put_number(&rt, rt.alloc(), &mut cells, slot, id * 10 + group);
            save_there(&rt, rt.alloc(), &mut cells, slot);
        }
    }
    check_words(&rt, &cells, 12);
    let table = [matrix_line(&rt)];
    keep(&mut cells, &table, Mark::end_of(1), 0);
    for group in [0, 1] {
        check_held(
            &rt,
            &cells,
            strip_slot(1, group),
            (Some(10 + group), None, false),
        );
    }
    check_words(&rt, &cells, 2);
    keep(&mut cells, &table, Mark::first(), 0);
    check_words(&rt, &cells, 0);
    check_held(&rt, &cells, strip_slot(1, 0), NOTHING);
}

#[test]
fn words_count_what_was_saved(rt: HostRuntime) {
    let mut cells = Cells::new(rt.alloc());
    check_words(&rt, &cells, 0);
    let zeros = Mat::zeros(rt.alloc(), 2, 3).expect(&rt, "memory");
    put(&mut cells, slot_of(0), Tile::Words(zeros)).expect(&rt, "memory");
    put_number(&rt, rt.alloc(), &mut cells, slot_of(4), 9);
    check_words(&rt, &cells, 7);
    save_there(&rt, rt.alloc(), &mut cells, slot_of(0));
    check_words(&rt, &cells, 13);
}
