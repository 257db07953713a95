//! Rounds on words: the worked schedules, and generated rounds against the plain scheduler.
ghost use Rattle.std.specs.Prelude.{◌≡◌, ◌<◌, ◌≤◌, All, length, IfOk, OnOk};
ghost use Rattle.rank_link.specs.Traffic.{empty_traffic};
ghost use Rattle.rank_run.specs.Parts.{IsWithin};

use super::plain::{Pair, schedule, value_of, words_after};
use super::word::{Row, Rows, Word};
use rank_link::Links;
use rank_run::{Event, NoMemory, Order, Ran, Round, run_round};
use std::alloc::Global;
use std::process::Abort;
use std::test::Fail;

/// The event of a pair of ranks: an operation where they are the same.
fn event_of(pair: &Pair, place: usize, count: u32) -> Event<Word>
    requires from { pair.now.0 < count }
    requires to { pair.now.1 < count }
    ensures { IsWithin count result }
{
    let (from, to) = *pair;
    if from == to {
        Event::Local(from, value_of(place))
    } else {
        Event::Move(from, to, 0, 1)
    }
}

fn push_event(round: &mut Round<Word>, event: Event<Word>, count: u32) -> Result<(), NoMemory>
    requires old { All (IsWithin count) round.old }
    requires new { IsWithin count event }
    ensures { OnOk result (All (IsWithin count) round.new) }
{
    round.push(event)
}

/// A round of the pairs whose ranks are there.
fn make_round(alloc: Global, pairs: &[Pair], count: u32) -> Result<Round<Word>, NoMemory>
    ensures { IfOk result (λ round. All (IsWithin count) round) }
{
    let mut round = Round::new(alloc);
    for (place, pair) in pairs.iter().enumerate() {
        if pair.0 < count && pair.1 < count {
            push_event(&mut round, event_of(pair, place, count), count)?;
        }
    }
    Ok(round)
}

fn run_words(
    alloc: Global,
    words: &mut [Word],
    links: &mut Links<u32>,
    round: &Round<Word>,
    order: &mut Order,
    rows: &mut Rows,
) -> Result<Ran, NoMemory>
    requires words { length words.old ≡ links.old.ranks }
    requires empty { links.old ≡ empty_traffic links.old.ranks links.old.capacity }
    requires within { All (IsWithin links.old.ranks) round.now }
{
    run_round(alloc, words, links, round, order, rows)
}

/// What a round did: its words, its steps, and how many numbers of the order are left.
#[derive(Drop)]
struct Done {
    words: Vec<u32>,
    rows: Rows,
    whole: bool,
}

/// Runs the pairs as a round of `count` ranks.
fn run_pairs(
    alloc: Global,
    pairs: &[Pair],
    count: u32,
    capacity: u32,
    numbers: &[u32],
) -> Result<Done, NoMemory>
    requires count { count ≤ 64 }
    requires some { 1 ≤ capacity }
    requires most { capacity ≤ 64 }
{
    let mut words = vec![in alloc; Word { value: 0 }; count as usize]?;
    let mut links = Links::new(alloc, count, capacity)?;
    let round = make_round(alloc, pairs, count)?;
    let mut order = Order::new(alloc);
    for number in numbers {
        order.push(*number)?;
    }
    let mut rows = Rows::new(alloc);
    let ran = run_words(
        alloc,
        words.as_mut_slice(),
        &mut links,
        &round,
        &mut order,
        &mut rows,
    )?;
    let mut values = Vec::new(alloc);
    for word in &words {
        values.push(word.value)?;
    }
    Ok(Done {
        words: values,
        rows,
        whole: ran == Ran::Whole,
    })
}

const SEND: Row = Row {
    kind: 1,
    rank: 0,
    other: 1,
};

const RECEIVE: Row = Row {
    kind: 2,
    rank: 1,
    other: 0,
};

/// Stops where two messages from rank 0 to rank 1 take other steps.
fn check_schedule(rt: &impl Abort, alloc: Global, capacity: u32, order: &[u32], want: &[Row])
    requires some { 1 ≤ capacity }
    requires most { capacity ≤ 64 }
{
    let done = run_pairs(alloc, &[(0, 1), (0, 1)], 2, capacity, order).expect(rt, "memory");
    assert!(rt; done.rows.rows() == want);
}

#[test]
fn worked_schedules(rt: HostRuntime) {
    let alloc = rt.alloc();
    let turns = [SEND, RECEIVE, SEND, RECEIVE];
    let sends_first = [SEND, SEND, RECEIVE, RECEIVE];
    check_schedule(&rt, alloc, 1, &[], &turns);
    check_schedule(&rt, alloc, 2, &[], &sends_first);
    check_schedule(&rt, alloc, 2, &[0, 1], &turns);
    check_schedule(&rt, alloc, 2, &[0, 2, 0], &sends_first);
}

/// The next of a row of numbers that look random.
fn next_number(x: u32) -> u32 {
    x.wrapping_mul(1664525).wrapping_add(1013904223)
}

/// Numbers below `bound`.
fn numbers(alloc: Global, seed: u32, count: u32, bound: u32) -> Result<Vec<u32>, NoMemory>
    requires { 1 ≤ bound }
{
    let mut made = Vec::new(alloc);
    let mut x = seed;
    for _ in 0..count {
        x = next_number(x);
        made.push((x >> 9) % bound)?;
    }
    Ok(made)
}

fn pairs_of(alloc: Global, seed: u32, events: u32, count: u32) -> Result<Vec<Pair>, NoMemory>
    requires { 1 ≤ count }
{
    let froms = numbers(alloc, seed, events, count)?;
    let tos = numbers(alloc, next_number(seed ^ 77), events, count)?;
    let mut pairs = Vec::new(alloc);
    for (from, to) in froms.iter().zip(tos.iter()) {
        pairs.push((*from, *to))?;
    }
    Ok(pairs)
}

/// Runs one round under one order and compares its steps with the plain scheduler's, and its words with those of the events
/// in list order.
fn compare(
    rt: &impl Abort,
    alloc: Global,
    count: u32,
    capacity: u32,
    seed: u32,
) -> Result<(), NoMemory>
    requires some_ranks { 1 ≤ count }
    requires count { count ≤ 64 }
    requires some { 1 ≤ capacity }
    requires most { capacity ≤ 64 }
{
    let pairs = pairs_of(alloc, seed, 40, count)?;
    let order = numbers(alloc, seed ^ 5, seed % 7 * 15, 4096)?;
    let done = run_pairs(alloc, pairs.as_slice(), count, capacity, order.as_slice())?;
    let rows = schedule(
        alloc,
        pairs.as_slice(),
        count,
        capacity as usize,
        order.as_slice(),
    )?;
    let words = words_after(alloc, pairs.as_slice(), count)?;
    assert!(rt; done.whole);
    assert!(rt; done.rows.rows() == rows.as_slice());
    assert_eq!(rt; done.words, words);
    Ok(())
}

#[test]
fn steps_are_the_plain_schedulers(rt: HostRuntime) -> Result<(), Fail> {
    for count in 3..6u32 {
        for seed in 0..20u32 {
            compare(&rt, rt.alloc(), count, 1, seed)?;
            compare(&rt, rt.alloc(), count, 2, seed)?;
            compare(&rt, rt.alloc(), count, 64, seed)?;
        }
    }
    Ok(())
}
