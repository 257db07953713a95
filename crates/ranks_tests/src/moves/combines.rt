//! Combines by a sum and by a least index.
ghost use Rattle.std.specs.Prelude.{◌≤◌};
ghost use Rattle.blacs_grid.specs.Limits.{IsGrid};

use super::cases::{
    Case, first_cells, fold, grid_for, may_be_called, member_number, moves, own_of, rank_of,
};
use super::cell::{Cell, Join, Rows};
use blacs_comm::{NoMemory, Topology};
use blacs_grid::Scope;
use std::alloc::Global;
use std::process::Abort;
use std::test::Fail;

/// The sum or the least of the members' own words.
fn total(join: Join, scope: Scope, n: u32) -> u32
    requires some { 1 ≤ n }
    requires few { n ≤ 6 }
{
    let mut sum: u32 = 0;
    let mut least = u32::MAX;
    for i in 0..n {
        let own = own_of(rank_of(scope, n, i));
        sum = sum.wrapping_add(own);
        if own < least {
            least = own;
        }
    }
    match join {
        Join::Add => sum,
        Join::Least => least,
    }
}

/// Compares what is in the cells with the fold, and with what was there outside the scope.
fn compare_cells(rt: &impl Abort, case: &Case, n: u32, join: Join, to_all: bool, cells: &[Cell; 64])
    requires some { 1 ≤ n }
    requires few { n ≤ 6 }
{
    let wanted = total(join, case.scope, n);
    let before = first_cells();
    let root = case.root;
    for (rank, (cell, old)) in cells.iter().zip(before.iter()).enumerate() {
        match member_number(case.scope, n, (rank % 64) as u32) {
            Some(i) => {
                if to_all || i == case.root {
                    assert!(rt; cell.own == wanted, "rank {rank}, root {root} of {n}");
                }
            }
            None => assert!(rt; *cell == *old, "rank {rank}, root {root} of {n}"),
        }
    }
}

/// Compares the steps with the moves of a broadcast the other way round, each with a join where it ends, and with `to_all`
/// those of a broadcast besides.
fn compare_steps(
    rt: &impl Abort,
    alloc: Global,
    case: &Case,
    n: u32,
    to_all: bool,
    rows: &Rows,
) -> Result<(), NoMemory>
    requires some { 1 ≤ n }
    requires few { n ≤ 6 }
{
    let mut sends = Vec::new(alloc);
    let mut joins = Vec::new(alloc);
    for [from, to] in &moves(alloc, case, n)? {
        sends.push((*to % 100) * 100 + *from % 100)?;
        joins.push((*from % 100) * 100 + *from % 100)?;
        if to_all {
            sends.push((*from % 100) * 100 + *to % 100)?;
        }
    }
    sends.sort_unstable();
    joins.sort_unstable();
    let root = case.root;
    assert_eq!(rt; rows.codes(alloc, 1)?, sends, "root {root} of {n}");
    assert_eq!(rt; rows.codes(alloc, 0)?, joins, "root {root} of {n}");
    Ok(())
}

/// Runs a combine each way, and compares.
fn compare(rt: &impl Abort, alloc: Global, case: &Case, n: u32) -> Result<(), NoMemory>
    requires grid { IsGrid case.now.grid }
    requires some { 1 ≤ n }
    requires few { n ≤ 6 }
{
    assert!(rt; may_be_called(case));
    for (join, to_all) in [
        (Join::Add, false),
        (Join::Add, true),
        (Join::Least, false),
        (Join::Least, true),
    ] {
        let mut cells = first_cells();
        let rows = fold(alloc, case, join, to_all, &mut cells)?;
        compare_cells(rt, case, n, join, to_all, &cells);
        compare_steps(rt, alloc, case, n, to_all, &rows)?;
    }
    Ok(())
}

/// Compares the combines of a scope for 1 to 6 members and every root.
fn compare_scope(rt: &impl Abort, alloc: Global, scope: Scope) -> Result<(), NoMemory> {
    for n in 1..7u32 {
        let grid = grid_for(rt, scope, n);
        for root in 0..n {
            for topology in [Topology::I, Topology::D, Topology::T] {
                let case = Case {
                    grid,
                    scope,
                    topology,
                    root,
                };
                compare(rt, alloc, &case, n)?;
            }
        }
    }
    Ok(())
}

#[test]
fn rows_combine_to_each_root_and_to_all(rt: HostRuntime) -> Result<(), Fail> {
    compare_scope(&rt, rt.alloc(), Scope::Row(1))?;
    Ok(())
}

#[test]
fn columns_combine_to_each_root_and_to_all(rt: HostRuntime) -> Result<(), Fail> {
    compare_scope(&rt, rt.alloc(), Scope::Column(1))?;
    Ok(())
}

#[test]
fn data_ranks_combine_to_each_root_and_to_all(rt: HostRuntime) -> Result<(), Fail> {
    compare_scope(&rt, rt.alloc(), Scope::All)?;
    Ok(())
}

/// Stops where a combine in a scope of one member makes a step, or changes something.
fn check_one_member(rt: &impl Abort, alloc: Global, scope: Scope) {
    let case = Case {
        grid: grid_for(rt, scope, 1),
        scope,
        topology: Topology::T,
        root: 0,
    };
    assert!(rt; may_be_called(&case));
    let mut cells = first_cells();
    let rows = fold(alloc, &case, Join::Add, true, &mut cells).expect(rt, "memory");
    assert!(rt; rows.rows().is_empty());
    let before = first_cells();
    assert!(rt; cells.as_slice() == before.as_slice());
}

#[test]
fn one_member_makes_no_steps(rt: HostRuntime) {
    check_one_member(&rt, rt.alloc(), Scope::Row(1));
    check_one_member(&rt, rt.alloc(), Scope::Column(1));
    check_one_member(&rt, rt.alloc(), Scope::All);
}
