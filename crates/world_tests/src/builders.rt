//! A round of each builder on four ranks: what the calculus of rounds says that its ranks hold is what they hold in a `World` that ran it.
//! The matrix has a row of 0 on rank 0 and a row of 7 on rank 2, so a rank finds the number of its first row, from 1, or 2048.
use crate::fed_strips::{
    W0, W1, along_row, encoded, exchanged, gathered, least_of_both, number_after, up_column,
};
use std::process::Abort;
use std::test::Fail;

const NONE: u32 = 2048;

fn check_number(rt: &impl Abort, found: u32, expected: u32) {
    assert_eq!(rt; found, expected);
}

// Each rank of a process row holds in the work slot what the root held.
#[test]
fn a_broadcast_along_a_row(rt: HostRuntime) -> Result<(), Fail> {
    let round = along_row(rt.alloc())?;
    let found = number_after(rt.alloc(), &round, 3, W1)?;
    check_number(&rt, found, 2);
    Ok(())
}

#[test]
fn a_broadcast_up_a_column(rt: HostRuntime) -> Result<(), Fail> {
    let round = up_column(rt.alloc())?;
    let found = number_after(rt.alloc(), &round, 0, W1)?;
    check_number(&rt, found, 2);
    Ok(())
}

// Rank 0 found none, rank 2 its row: both hold the least.
#[test]
fn a_combine(rt: HostRuntime) -> Result<(), Fail> {
    let round = least_of_both(rt.alloc())?;
    let first = number_after(rt.alloc(), &round, 0, W0)?;
    let second = number_after(rt.alloc(), &round, 2, W0)?;
    check_number(&rt, first, 2);
    check_number(&rt, second, 2);
    Ok(())
}

// The rows changed places: the row of 7 is the first one now.
#[test]
fn an_exchange(rt: HostRuntime) -> Result<(), Fail> {
    let one = exchanged(rt.alloc(), 0)?;
    let other = exchanged(rt.alloc(), 2)?;
    let first = number_after(rt.alloc(), &one, 0, W0)?;
    let second = number_after(rt.alloc(), &other, 2, W0)?;
    check_number(&rt, first, 1);
    check_number(&rt, second, NONE);
    Ok(())
}

#[test]
fn a_gather(rt: HostRuntime) -> Result<(), Fail> {
    let round = gathered(rt.alloc())?;
    let found = number_after(rt.alloc(), &round, 3, W1)?;
    check_number(&rt, found, 2);
    Ok(())
}

// The code strip of the first process row is 0, that of the second is not.
#[test]
fn code_strips(rt: HostRuntime) -> Result<(), Fail> {
    let one = encoded(rt.alloc(), 1)?;
    let other = encoded(rt.alloc(), 3)?;
    let first = number_after(rt.alloc(), &one, 1, W1)?;
    let second = number_after(rt.alloc(), &other, 3, W1)?;
    check_number(&rt, first, NONE);
    check_number(&rt, second, 2);
    Ok(())
}
