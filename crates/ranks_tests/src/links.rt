//! Links: their order, their capacity, and taking messages away (rank_link).
ghost use Rattle.std.specs.Prelude.{◌<◌};

use rank_link::Links;
use std::alloc::Global;
use std::process::Abort;

/// A call on links.
#[derive(Clone, Copy)]
enum Call {
    /// From a rank to a rank, and the message. The answer is the message that comes back.
    Send(u32, u32, u32),
    /// To a rank from a rank.
    Receive(u32, u32),
    /// From a rank to a rank.
    Len(u32, u32),
    /// From a rank to a rank.
    Drain(u32, u32),
    Clear,
    Ranks,
    Capacity,
}

/// Links among ranks.
fn made(rt: &impl Abort, alloc: Global, ranks: u32, capacity: u32) -> Links<u32> {
    assert!(rt; ranks <= 64 && 1 <= capacity && capacity <= 64);
    Links::new(alloc, ranks, capacity).expect(rt, "memory")
}

/// Stops where the links lack a rank.
fn check_ranks(rt: &impl Abort, links: &Links<u32>, from: u32, to: u32)
    ensures from { from < links.now.ranks }
    ensures to { to < links.now.ranks }
{
    let ranks = links.ranks();
    assert!(rt; from < ranks && to < ranks);
}

/// What a call answers.
fn answer(rt: &impl Abort, links: &mut Links<u32>, call: Call) -> Option<u32> {
    match call {
        Call::Send(from, to, message) => {
            check_ranks(rt, links, from, to);
            links.send(from, to, message).err()
        }
        Call::Receive(to, from) => {
            check_ranks(rt, links, from, to);
            links.receive(to, from)
        }
        Call::Len(from, to) => {
            check_ranks(rt, links, from, to);
            Some(links.len(from, to))
        }
        Call::Drain(from, to) => {
            check_ranks(rt, links, from, to);
            links.drain(from, to);
            None
        }
        Call::Clear => {
            links.clear();
            None
        }
        Call::Ranks => Some(links.ranks()),
        Call::Capacity => Some(links.capacity()),
    }
}

/// Makes calls one after another, and stops where one has another answer.
fn check_calls(rt: &impl Abort, links: &mut Links<u32>, calls: &[(Call, Option<u32>)]) {
    for (row, (call, want)) in calls.iter().enumerate() {
        let got = answer(rt, links, *call);
        assert!(rt; got == *want, "call {row}");
    }
}

#[test]
fn full_link_gives_the_message_back(rt: HostRuntime) {
    let mut links = made(&rt, rt.alloc(), 2, 1);
    let calls = [
        (Call::Send(0, 1, 11), None),
        (Call::Send(0, 1, 12), Some(12)),
        (Call::Len(0, 1), Some(1)),
        (Call::Receive(1, 0), Some(11)),
        (Call::Receive(1, 0), None),
    ];
    check_calls(&rt, &mut links, &calls);
}

#[test]
fn messages_come_in_the_order_of_their_sends(rt: HostRuntime) {
    let mut links = made(&rt, rt.alloc(), 3, 2);
    let calls = [
        (Call::Send(2, 0, 5), None),
        (Call::Send(0, 2, 7), None),
        (Call::Send(2, 0, 6), None),
        (Call::Send(1, 0, 9), None),
        (Call::Len(2, 0), Some(2)),
        (Call::Len(0, 2), Some(1)),
        (Call::Len(1, 0), Some(1)),
        (Call::Len(0, 1), Some(0)),
        (Call::Receive(0, 2), Some(5)),
        (Call::Send(2, 0, 8), None),
        (Call::Receive(0, 2), Some(6)),
        (Call::Receive(0, 2), Some(8)),
        (Call::Receive(2, 0), Some(7)),
        (Call::Receive(0, 1), Some(9)),
        (Call::Receive(1, 0), None),
    ];
    check_calls(&rt, &mut links, &calls);
}

#[test]
fn drain_takes_one_link_and_clear_takes_all(rt: HostRuntime) {
    let mut links = made(&rt, rt.alloc(), 2, 64);
    let calls = [
        (Call::Ranks, Some(2)),
        (Call::Capacity, Some(64)),
        (Call::Send(0, 1, 1), None),
        (Call::Send(0, 1, 2), None),
        (Call::Send(1, 0, 3), None),
        (Call::Drain(0, 1), None),
        (Call::Len(0, 1), Some(0)),
        (Call::Len(1, 0), Some(1)),
        (Call::Send(0, 1, 4), None),
        (Call::Clear, None),
        (Call::Len(0, 1), Some(0)),
        (Call::Len(1, 0), Some(0)),
        (Call::Ranks, Some(2)),
        (Call::Capacity, Some(64)),
    ];
    check_calls(&rt, &mut links, &calls);
}
