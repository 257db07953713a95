//! A memory with a limit and a saved word, and a notary that is due after a number of steps.
ghost use Rattle.std.specs.Prelude.{◌≡◌, ◌+◌, ◌≤◌, ◌==◌, [], ◌∷◌, length, true, IfOk, OnOk, IsTrue};
ghost use Rattle.rank_link.specs.Traffic.{empty_traffic};
ghost use Rattle.rank_run.specs.Rounds.{MayRun};

use rank_link::Links;
use rank_run::{Event, NoMemory, Notary, Order, Ran, Round, Step, Store, run_round};
use std::alloc::Global;
use std::process::Abort;

/// A count of at most 1000, and the count that undo brings back. Of the two pieces, true is the count, false the saved one,
/// which is never written.
#[derive(Clone, Copy, PartialEq, Eq)]
struct Counter {
    now: u32,
    saved: u32,
}

impl Store for Counter {
    ghost use Rattle.std.specs.Prelude.{◌+◌, ◌≤◌, Some, refl, IsTrue, if◌then◌else◌};
    ghost use Rattle.std.proofs.Common.{ap};

    type Op = u32;

    type Piece = bool;

    type Msg = u32;

    ghost memory = { record {
      can_apply = λ x op. x.now + op ≤ 1000;
      applied = λ x op. record x { now = x.now + op };
      can_read = λ x p. Unit {0};
      read = λ x p. (if p then x.now else x.saved);
      can_write = λ x p w. IsTrue p;
      written = λ x p w. record x { now = w };
    } };

    ghost base = { λ x p. Some x.saved };

    ghost blank = { λ x. record x { now = 0 } };

    ghost keeps_base = { record { applied = λ x op h. refl; written = λ x p w h. refl } };

    ghost reads_back = { record { can = λ x p w h. tt; same = λ x p w h. ap (λ b. if b then w else x.saved) h } };

    fn apply(&mut self, op: &u32) -> Result<(), NoMemory> {
        self.now += *op;
        Ok(())
    }

    fn read_out(&self, piece: &bool) -> Result<u32, NoMemory> {
        Ok(if *piece { self.now } else { self.saved })
    }

    fn write_in(&mut self, _piece: &bool, msg: u32) -> Result<(), NoMemory> {
        self.now = msg;
        Ok(())
    }
}

/// Counts the steps, and is due once it has heard of `stop`.
#[derive(Clone, Copy)]
struct Bell {
    heard: u32,
    stop: u32,
}

impl Notary<Counter> for Bell {
    ghost use Rattle.std.specs.Prelude.{◌+◌, ◌==◌};

    ghost noting = { λ x t. record x { heard = x.heard + 1 } };

    ghost is_due = { λ x. x.heard == x.stop };

    ghost unheard = { λ x. record x { heard = 0 } };

    fn due(&self) -> bool {
        self.heard == self.stop
    }

    fn note(&mut self, _step: &Step<'_, Counter>) -> Result<(), NoMemory> {
        if self.heard == u32::MAX {
            return Err(NoMemory);
        }
        self.heard += 1;
        Ok(())
    }
}

/// An operation on rank 0, a move of its count to rank 1, and an operation there.
fn three_events(alloc: Global) -> Result<Round<Counter>, NoMemory>
    ensures { IfOk result (λ round. round ≡ Event.Local 0 10 ∷ Event.Move 0 1 true true ∷ Event.Local 1 1 ∷ []) }
{
    let mut round = Round::new(alloc);
    round.push(Event::Local(0, 10))?;
    round.push(Event::Move(0, 1, true, true))?;
    round.push(Event::Local(1, 1))?;
    Ok(round)
}

/// What a run left: how it ended, the counters, the messages from rank 0 to rank 1, and the steps heard of.
#[derive(Clone, Copy, PartialEq, Eq)]
struct Left {
    ran: Ran,
    first: Counter,
    second: Counter,
    messages: u32,
    heard: u32,
}

/// Runs the three events on the counts 5 and 7, to be stopped after `stop` steps.
fn run_three(alloc: Global, stop: u32) -> Result<Left, NoMemory> {
    let mut counters = [Counter { now: 5, saved: 50 }, Counter { now: 7, saved: 70 }];
    let mut links = Links::new(alloc, 2, 1)?;
    let round = three_events(alloc)?;
    let mut order = Order::new(alloc);
    let mut bell = Bell { heard: 0, stop };
    let ran = run_round(
        alloc,
        &mut counters,
        &mut links,
        &round,
        &mut order,
        &mut bell,
    )?;
    Ok(Left {
        ran,
        first: counters[0],
        second: counters[1],
        messages: links.len(0, 1),
        heard: bell.heard,
    })
}

/// Stops where a run that is stopped after `stop` steps leaves something else.
fn check_left(rt: &impl Abort, alloc: Global, stop: u32, want: Left) {
    let left = run_three(alloc, stop).expect(rt, "memory");
    assert!(rt; left == want, "stopped after {stop}");
}

#[test]
fn runs_to_the_end_or_to_the_step_that_is_due(rt: HostRuntime) {
    let whole = Left {
        ran: Ran::Whole,
        first: Counter { now: 15, saved: 50 },
        second: Counter { now: 16, saved: 70 },
        messages: 0,
        heard: 4,
    };
    check_left(&rt, rt.alloc(), 9, whole);
    // A stop after the last step is none.
    check_left(&rt, rt.alloc(), 4, whole);
    let sent = Left {
        ran: Ran::Hit,
        first: Counter { now: 15, saved: 50 },
        second: Counter { now: 7, saved: 70 },
        messages: 1,
        heard: 2,
    };
    check_left(&rt, rt.alloc(), 2, sent);
    let none = Left {
        ran: Ran::Hit,
        first: Counter { now: 5, saved: 50 },
        second: Counter { now: 7, saved: 70 },
        messages: 0,
        heard: 0,
    };
    check_left(&rt, rt.alloc(), 0, none);
}
