//! Slots, pieces, marks and records, each on its happy path (rank_machine).
use rank_machine::{Mark, Part, Piece, Rec, Slot, SlotKind, Tile};
use run_data::{IndexList, Mat};
use std::process::Abort;

const KINDS: [SlotKind; 6] = [
    SlotKind::Data,
    SlotKind::Code,
    SlotKind::Low,
    SlotKind::Open,
    SlotKind::Pivots,
    SlotKind::Work,
];

/// The number of a kind; and whether a slot of that kind, line 3 and group 1 is that of a part of it, the one of another group, that of
/// another line, and the one of line 3 and group 1 that holds L.
fn told_apart(kind: SlotKind) -> (u8, [bool; 4]) {
    let slot = Slot {
        kind,
        id: 3,
        group: 1,
    };
    let other_group = Slot {
        kind,
        id: 3,
        group: 0,
    };
    let other_line = Slot {
        kind,
        id: 4,
        group: 1,
    };
    let low = Slot {
        kind: SlotKind::Low,
        id: 3,
        group: 1,
    };
    let at = Part {
        r0: 0,
        r1: 1,
        c0: 0,
        c1: 1,
    };
    let answers = [
        Piece::Part(slot, at).slot().is(slot),
        slot.is(other_group),
        slot.is(other_line),
        Piece::Whole(slot).slot().is(low),
    ];
    (kind.number(), answers)
}

/// Stops where a kind has another number, or its slots are taken for others.
fn check_kind(rt: &impl Abort, kind: SlotKind, number: u8) {
    let want = (number, [true, false, false, number == 2]);
    assert_eq!(rt; told_apart(kind), want);
}

#[test]
fn tells_slots_apart(rt: HostRuntime) {
    for (i, kind) in KINDS.iter().enumerate() {
        check_kind(&rt, *kind, (i % 6) as u8);
    }
}

/// Stops where answers are others.
fn check_answers(rt: &impl Abort, found: &[bool], want: &[bool]) {
    assert_eq!(rt; found, want);
}

#[test]
fn tells_what_has_ended(rt: HostRuntime) {
    let mark = Mark::end_of(3);
    let ended = [
        Mark::first().has_ended(1),
        mark.has_ended(2),
        mark.has_ended(3),
        mark.has_ended(4),
    ];
    let numbered = [
        Rec::Restore.is_numbered(),
        Rec::Commit(mark, true).is_numbered(),
        Rec::Lose(0).is_numbered(),
    ];
    check_answers(&rt, &ended, &[false, true, true, false]);
    check_answers(&rt, &numbered, &[true, true, false]);
}

/// The rows and columns of a tile of words, or the length of a list of numbers.
fn size_of(tile: &Tile) -> (Option<(u32, u32)>, Option<u32>) {
    match tile {
        Tile::Words(m) => (Some((m.rows(), m.cols())), None),
        Tile::Index(numbers) => (None, Some(numbers.len())),
    }
}

/// Stops where a tile is of another kind or size.
fn check_tile(rt: &impl Abort, tile: &Tile, words: Option<(u32, u32)>, numbers: Option<u32>) {
    assert_eq!(rt; size_of(tile), (words, numbers));
}

#[test]
fn copies_tiles(rt: HostRuntime) {
    let alloc = rt.alloc();
    let words = Tile::Words(Mat::zeros(alloc, 1, 2).expect(&rt, "memory"));
    let mut list = IndexList::new(alloc);
    list.push(2048).expect(&rt, "memory");
    let numbers = Tile::Index(list);
    let words = words.copy(alloc).expect(&rt, "memory");
    let numbers = numbers.copy(alloc).expect(&rt, "memory");
    check_tile(&rt, &words, Some((1, 2)), None);
    check_tile(&rt, &numbers, None, Some(1));
}
