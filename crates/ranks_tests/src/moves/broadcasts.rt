//! Broadcasts of each root's word.
ghost use Rattle.std.specs.Prelude.{◌≤◌};
ghost use Rattle.blacs_grid.specs.Limits.{IsGrid};

use super::cases::{
    Case, first_cells, grid_for, may_be_called, member_number, moves, own_of, rank_of, spread,
};
use super::cell::{Cell, Rows};
use blacs_comm::{NoMemory, Topology};
use blacs_grid::{Grid, Scope};
use std::alloc::Global;
use std::process::Abort;
use std::test::Fail;

/// Compares what is in the cells: the root's own word in the work of each other member, and all else as it was.
fn compare_cells(rt: &impl Abort, case: &Case, n: u32, cells: &[Cell; 64])
    requires some { 1 ≤ n }
    requires few { n ≤ 6 }
{
    let word = own_of(rank_of(case.scope, n, case.root % n));
    let before = first_cells();
    for (rank, (cell, old)) in cells.iter().zip(before.iter()).enumerate() {
        let number = member_number(case.scope, n, (rank % 64) as u32);
        let work = match number {
            Some(i) if i != case.root => word,
            _ => old.work,
        };
        let want = Cell { own: old.own, work };
        let root = case.root;
        assert!(rt; *cell == want, "rank {rank}, root {root} of {n}");
    }
}

/// Compares the sends.
fn compare_sends(
    rt: &impl Abort,
    alloc: Global,
    case: &Case,
    n: u32,
    rows: &Rows,
) -> Result<(), NoMemory>
    requires some { 1 ≤ n }
    requires few { n ≤ 6 }
{
    let mut sends = Vec::new(alloc);
    for [from, to] in &moves(alloc, case, n)? {
        sends.push((*from % 100) * 100 + *to % 100)?;
    }
    sends.sort_unstable();
    let root = case.root;
    assert_eq!(rt; rows.codes(alloc, 1)?, sends, "root {root} of {n}");
    Ok(())
}

fn compare(rt: &impl Abort, alloc: Global, case: &Case, n: u32) -> Result<(), NoMemory>
    requires grid { IsGrid case.now.grid }
    requires some { 1 ≤ n }
    requires few { n ≤ 6 }
{
    assert!(rt; may_be_called(case));
    let mut cells = first_cells();
    let rows = spread(alloc, case, &mut cells)?;
    compare_cells(rt, case, n, &cells);
    compare_sends(rt, alloc, case, n, &rows)
}

#[test]
fn every_member_gets_the_word_of_each_root(rt: HostRuntime) -> Result<(), Fail> {
    for scope in [Scope::Row(1), Scope::Column(1), Scope::All] {
        for n in 1..7u32 {
            let grid = grid_for(&rt, scope, n);
            for root in 0..n {
                for topology in [Topology::I, Topology::D, Topology::T] {
                    let case = Case {
                        grid,
                        scope,
                        topology,
                        root,
                    };
                    compare(&rt, rt.alloc(), &case, n)?;
                }
            }
        }
    }
    Ok(())
}

/// Stops where a broadcast in a topology makes other sends. Members 0 to 3 are ranks 0 to 3; the root is member 1.
fn check_four(rt: &impl Abort, alloc: Global, topology: Topology, want: &[u32]) {
    let case = Case {
        grid: Grid::new(1, 4, 0, 0).expect(rt, "within the limits"),
        scope: Scope::Row(0),
        topology,
        root: 1,
    };
    assert!(rt; may_be_called(&case));
    let rows = spread(alloc, &case, &mut first_cells()).expect(rt, "memory");
    let sends = rows.codes(alloc, 1).expect(rt, "memory");
    assert_eq!(rt; sends.as_slice(), want);
}

#[test]
fn moves_of_four_members(rt: HostRuntime) {
    let alloc = rt.alloc();
    check_four(&rt, alloc, Topology::I, &[102, 203, 300]);
    check_four(&rt, alloc, Topology::D, &[3, 100, 302]);
    check_four(&rt, alloc, Topology::T, &[102, 103, 200]);
}
