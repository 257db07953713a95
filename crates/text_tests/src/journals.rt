//! The texts of journals against lines that were written by hand, and what journals count.
ghost use Rattle.std.specs.Prelude.{◌<◌, ◌^◌, length};

use crate::checks::check_is;
use journal_text::{counts, journal_text};
use rank_machine::{Cut, Kernel, Mark, Part, Piece, Rec, Slot, SlotKind};
use std::alloc::Global;
use std::panic::Expect;
use std::process::Abort;

/// A slot of a kind.
fn slot(kind: SlotKind, id: u32, group: u32) -> Slot {
    Slot { kind, id, group }
}

/// A part of the slot.
fn part(slot: Slot, r0: u32, r1: u32, c0: u32, c1: u32) -> Piece {
    Piece::Part(slot, Part { r0, r1, c0, c1 })
}

/// A whole work slot.
fn work(id: u32) -> Piece {
    Piece::Whole(slot(SlotKind::Work, id, 0))
}

// Stops where the text of a journal is not this one.
fn check_text(rt: &impl Abort, alloc: Global, journal: &[Rec], want: &[u8]) {
    let text = journal_text(alloc, journal).expect(rt, "memory");
    check_is(rt, &text, want);
}

// Stops where a journal has other counts than these: its records with a number, its messages, its losses, its commits that end a recovery,
// and all its commits.
fn check_counts(rt: &impl Abort, journal: &[Rec], want: [u32; 5])
    requires { length journal.now < 2 ^ 32 }
{
    let found = counts(journal);
    assert_eq!(rt;
        [
            found.records,
            found.sends,
            found.losses,
            found.healed,
            found.commits
        ],
        want
    );
}

#[test]
fn writes_the_journal_of_one_matrix(rt: HostRuntime) {
    let strip = slot(SlotKind::Data, 2, 0);
    let journal = [
        Rec::Feed(0, strip),
        Rec::Commit(Mark::end_of(2), false),
        Rec::Take(0, strip),
        Rec::Commit(Mark::end_of(3), false),
    ];
    let wanted = b"0 feed 0 d2.0\n\
        1 commit 2 end 0 0 0 plain\n\
        2 take 0 d2.0\n\
        3 commit 3 end 0 0 0 plain\n";
    check_text(&rt, rt.alloc(), &journal, wanted);
}

#[test]
fn writes_each_kernel(rt: HostRuntime) {
    let strip = slot(SlotKind::Data, 2, 1);
    let number = slot(SlotKind::Work, 12, 0);
    let code = Piece::Whole(slot(SlotKind::Code, 3, 10));
    let low = Piece::Whole(slot(SlotKind::Low, 3, 0));
    let open = Piece::Whole(slot(SlotKind::Open, 3, 0));
    let corner = part(strip, 0, 4, 1, 20);
    let journal = [
        Rec::Kernel(0, Kernel::Zero(number, 64, 0)),
        Rec::Kernel(1, Kernel::Copy(work(5), corner)),
        Rec::Kernel(2, Kernel::Scale(code, 65536)),
        Rec::Kernel(3, Kernel::Add(code, 65535, work(5), Cut::Whole)),
        Rec::Kernel(4, Kernel::Add(code, 1, open, Cut::Upper(7))),
        Rec::Kernel(5, Kernel::Add(low, 1, open, Cut::Lower(8))),
        Rec::Kernel(6, Kernel::MulAdd(corner, 40000, work(5), work(6))),
        Rec::Kernel(7, Kernel::Lower(corner, work(5), true)),
        Rec::Kernel(8, Kernel::Upper(corner, work(6), false)),
        Rec::Kernel(9, Kernel::Swap(strip, 3, 31)),
        Rec::Kernel(10, Kernel::First(number, corner, 2, 1023)),
        Rec::Kernel(11, Kernel::Diag(number, corner, 512)),
        Rec::Kernel(12, Kernel::Least(number, work(6))),
        Rec::Kernel(13, Kernel::Elim(strip, 2, 40, work(5))),
        Rec::Kernel(63, Kernel::Push(slot(SlotKind::Pivots, 9, 0), work(12), 41)),
    ];
    let wanted = b"0 zero 0 w12.0 64 0\n\
        1 copy 1 w5.0 d2.1[0:4,1:20]\n\
        2 scale 2 c3.10 65536\n\
        3 add 3 c3.10 65535 w5.0 whole\n\
        4 add 4 c3.10 1 o3.0 upper 7\n\
        5 add 5 l3.0 1 o3.0 lower 8\n\
        6 muladd 6 d2.1[0:4,1:20] 40000 w5.0 w6.0\n\
        7 lower 7 d2.1[0:4,1:20] w5.0 U\n\
        8 upper 8 d2.1[0:4,1:20] w6.0 N\n\
        9 swap 9 d2.1 3 31\n\
        10 first 10 w12.0 d2.1[0:4,1:20] 2 1023\n\
        11 diag 11 w12.0 d2.1[0:4,1:20] 512\n\
        12 least 12 w12.0 w6.0\n\
        13 elim 13 d2.1 2 40 w5.0\n\
        14 push 63 v9.0 w12.0 41\n";
    check_text(&rt, rt.alloc(), &journal, wanted);
}

#[test]
fn writes_and_counts_a_recovery(rt: HostRuntime) {
    let strip = slot(SlotKind::Data, 2, 0);
    let mark = Mark {
        line: 4294967295,
        ended: false,
        closed: 3,
        opened: true,
        merged: 2,
    };
    let journal = [
        Rec::Lose(4),
        Rec::Feed(10, strip),
        Rec::Save(10, strip),
        Rec::Send(0, 10, part(strip, 2, 4, 0, 1)),
        Rec::Lose(5),
        Rec::Lose(63),
        Rec::Restore,
        Rec::Spawn(5),
        Rec::Send(10, 5, work(0)),
        Rec::Recv(5, 10, work(1)),
        Rec::Commit(mark, true),
        Rec::Take(0, strip),
        Rec::Commit(mark, false),
    ];
    let wanted = b"lose 4\n\
        0 feed 10 d2.0\n\
        1 save 10 d2.0\n\
        2 send 0 10 d2.0[2:4,0:1]\n\
        lose 5\n\
        lose 63\n\
        3 restore\n\
        4 spawn 5\n\
        5 send 10 5 w0.0\n\
        6 recv 5 10 w1.0\n\
        7 commit 4294967295 part 3 1 2 healed\n\
        8 take 0 d2.0\n\
        9 commit 4294967295 part 3 1 2 plain\n";
    check_text(&rt, rt.alloc(), &journal, wanted);
    check_counts(&rt, &journal, [10, 2, 3, 1, 2]);
}
