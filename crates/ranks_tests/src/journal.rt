//! The words of transposes in a journal, against lines that were written by hand (journal_text).
use journal_text::journal_text;
use rank_machine::{Kernel, Part, Piece, Rec, Slot, SlotKind};
use std::alloc::Global;
use std::process::Abort;

/// Stops where a journal has another text.
fn check_text(rt: &impl Abort, alloc: Global, journal: &[Rec], want: &[u8]) {
    let text = journal_text(alloc, journal).expect(rt, "memory");
    assert_eq!(rt; text.as_slice(), want);
}

#[test]
fn writes_transposes(rt: HostRuntime) {
    let to = Slot {
        kind: SlotKind::Work,
        id: 12,
        group: 0,
    };
    let strip = Slot {
        kind: SlotKind::Data,
        id: 9,
        group: 1,
    };
    let corner = Part {
        r0: 0,
        r1: 4,
        c0: 1,
        c1: 20,
    };
    let journal = [
        Rec::Kernel(63, Kernel::Trans(to, Piece::Whole(strip))),
        Rec::Kernel(0, Kernel::Trans(to, Piece::Part(strip, corner))),
    ];
    let wanted = b"0 trans 63 w12.0 d9.1\n1 trans 0 w12.0 d9.1[0:4,1:20]\n";
    check_text(&rt, rt.alloc(), &journal, wanted);
}
