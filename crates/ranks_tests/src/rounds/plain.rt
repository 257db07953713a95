//! A plain scheduler: it keeps how far each event is, and looks for each rank's next step from the first event on.

use super::word::Row;
use rank_run::NoMemory;
use std::alloc::Global;

/// From a rank to a rank, or an operation on one rank.
pub type Pair = (u32, u32);

/// The step that a rank has in an event of which `taken` steps are taken, if it has one.
fn step_in(pair: &Pair, taken: u32, rank: u32) -> Option<Row> {
    let (from, to) = *pair;
    if from == to {
        return (from == rank && taken == 0).then_some(Row {
            kind: 0,
            rank,
            other: rank,
        });
    }
    if from == rank && taken == 0 {
        return Some(Row {
            kind: 1,
            rank,
            other: to,
        });
    }
    (to == rank && taken < 2).then_some(Row {
        kind: 2,
        rank,
        other: from,
    })
}

/// How many messages are on their way from a rank to another.
fn on_the_way(pairs: &[Pair], taken: &[u32], from: u32, to: u32) -> usize {
    pairs
        .iter()
        .zip(taken.iter())
        .filter(|(pair, steps)| **pair == (from, to) && **steps == 1)
        .count()
}

/// The event of a rank's next step, and the step.
fn next_of(pairs: &[Pair], taken: &[u32], rank: u32) -> Option<(usize, Row)> {
    for (i, pair) in pairs.iter().enumerate() {
        let steps = taken.get(i).copied().unwrap_or(2);
        if let Some(row) = step_in(pair, steps, rank) {
            return Some((i, row));
        }
    }
    None
}

/// The ranks that may take their next step, by rising number, each with its event and its step.
fn ready_steps(
    alloc: Global,
    pairs: &[Pair],
    taken: &[u32],
    ranks: u32,
    capacity: usize,
) -> Result<Vec<(usize, Row)>, NoMemory> {
    let mut ready = Vec::new(alloc);
    for rank in 0..ranks {
        if let Some((i, row)) = next_of(pairs, taken, rank) {
            let free = match row.kind {
                0 => true,
                1 => on_the_way(pairs, taken, rank, row.other) < capacity,
                _ => on_the_way(pairs, taken, row.other, rank) > 0,
            };
            if free {
                ready.push((i, row))?;
            }
        }
    }
    Ok(ready)
}

/// The steps of a round under an order.
pub fn schedule(
    alloc: Global,
    pairs: &[Pair],
    ranks: u32,
    capacity: usize,
    order: &[u32],
) -> Result<Vec<Row>, NoMemory> {
    let mut rows = Vec::new(alloc);
    let mut taken = vec![in alloc; 0u32; pairs.len()]?;
    for turn in 0..u32::MAX {
        let ready = ready_steps(alloc, pairs, taken.as_slice(), ranks, capacity)?;
        if ready.is_empty() {
            break;
        }
        let number = order.get(turn as usize).copied().unwrap_or(0) as usize;
        let (i, row) = ready[number % ready.len()];
        rows.push(row)?;
        if let Some(steps) = taken.get_mut(i) {
            *steps = steps.saturating_add(if row.kind == 0 { 2 } else { 1 });
        }
    }
    Ok(rows)
}

/// The words of the ranks after the events in list order; the operation of event i sets the word to i + 1.
pub fn words_after(alloc: Global, pairs: &[Pair], ranks: u32) -> Result<Vec<u32>, NoMemory> {
    let mut words = vec![in alloc; 0u32; ranks as usize]?;
    for (i, (from, to)) in pairs.iter().enumerate() {
        let word = if from == to {
            value_of(i)
        } else {
            words.get(*from as usize).copied().unwrap_or(0)
        };
        if let Some(place) = words.get_mut(*to as usize) {
            *place = word;
        }
    }
    Ok(words)
}

/// The word that the operation of an event sets.
pub fn value_of(place: usize) -> u32 {
    (place % 1000) as u32 + 1
}
