//! Scopes of 1 to 6 members in a grid whose first rank is 3, and the moves among them, by hand.
ghost use Rattle.std.specs.Prelude.{◌≡◌, ◌≢◌, ◌⊎◌, ℕ, ◌+◌, ◌-◌, ◌<◌, ◌≤◌, min, true, length, Some, slice_get, slice_index_or, OnOk};
ghost use Rattle.std.specs.Option.{IsSomeAnd};
ghost use Rattle.blacs_grid.specs.Places.{IsScopeOf, members, member};
ghost use Rattle.blacs_grid.specs.Limits.{IsGrid};
ghost use Rattle.rank_link.specs.Traffic.{empty_traffic};
ghost use Rattle.blacs_comm.specs.Moves.{folded};
ghost use Rattle.ranks_tests.specs.declared.moves.cell.Join.TheVariants.{Add, Least};

use super::cell::{Cell, Join, Rows, Slot};
use blacs_comm::{NoMemory, Topology, broadcast, combine};
use blacs_grid::{Grid, Scope};
use rank_link::Links;
use rank_run::{Order, Round, run_round};
use std::alloc::Global;
use std::process::Abort;

/// The members of the scope `All`, by how many there are. Process rows and data columns of their grids, which have one code
/// column: 1 by 1, 2 by 1, 1 by 3, 2 by 2, 1 by 5, 2 by 3.
const ALL_MEMBERS: [[u32; 6]; 6] = [
    [3, 0, 0, 0, 0, 0],
    [3, 5, 0, 0, 0, 0],
    [3, 4, 5, 0, 0, 0],
    [3, 4, 6, 7, 0, 0],
    [3, 4, 5, 6, 7, 0],
    [3, 4, 5, 7, 8, 9],
];

/// The moves of a broadcast whose root is member 0, from a member to a member: the increasing ring, of up to 6 members.
const INCREASING: [[u32; 2]; 5] = [[0, 1], [1, 2], [2, 3], [3, 4], [4, 5]];

/// The tree, of up to 6 members.
const TREE: [[u32; 2]; 5] = [[0, 1], [0, 2], [1, 3], [1, 4], [2, 5]];

/// The decreasing ring, by how many members there are; the rest of each row counts for nothing.
const DECREASING: [[[u32; 2]; 5]; 6] = [
    [[0, 0], [0, 0], [0, 0], [0, 0], [0, 0]],
    [[0, 1], [0, 0], [0, 0], [0, 0], [0, 0]],
    [[0, 2], [2, 1], [0, 0], [0, 0], [0, 0]],
    [[0, 3], [3, 2], [2, 1], [0, 0], [0, 0]],
    [[0, 4], [4, 3], [3, 2], [2, 1], [0, 0]],
    [[0, 5], [5, 4], [4, 3], [3, 2], [2, 1]],
];

/// A call of `broadcast` or `combine`.
#[derive(Clone, Copy)]
pub struct Case {
    pub grid: Grid,
    pub scope: Scope,
    pub topology: Topology,
    pub root: u32,
}

/// The grid in which row 1, its code column too, or column 1, or all data columns have `n` members.
pub fn grid_for(rt: &impl Abort, scope: Scope, n: u32) -> Grid
    requires some { 1 ≤ n }
    requires few { n ≤ 6 }
    ensures { IsGrid result }
{
    let even = n % 2 == 0;
    let (p, q, f) = match scope {
        Scope::Row(_) => { if n == 1 { (2, 1, 0) } else { (2, n - 1, 1) } }
        Scope::Column(_) => (n, 2, 1),
        Scope::All => { if even { (2, n / 2, 1) } else { (1, n, 1) } }
    };
    Grid::new(p, q, f, 3).expect(rt, "within the limits")
}

/// Whether the case's scope is one of its grid's, and its root a member.
pub fn may_be_called(case: &Case) -> bool
    requires { IsGrid case.now.grid }
    ensures scope_in { result ≡ true → IsScopeOf case.now.grid case.now.scope }
    ensures root { result ≡ true → case.now.root < members case.now.grid case.now.scope }
{
    let scope = case.scope;
    match scope {
        Scope::Row(row) => row < case.grid.p && case.root < case.grid.members(scope),
        Scope::Column(col) => col < case.grid.width() && case.root < case.grid.members(scope),
        Scope::All => case.root < case.grid.members(scope),
    }
}

/// The rank of member `i` of `n`.
pub fn rank_of(scope: Scope, n: u32, i: u32) -> u32
    requires some { 1 ≤ n }
    requires few { n ≤ 6 }
    requires member { i < n }
{
    match scope {
        Scope::Row(_) => 3 + n + i,
        Scope::Column(_) => 4 + 3 * i,
        Scope::All => ALL_MEMBERS[(n - 1) as usize][i as usize],
    }
}

/// The number of a rank among the `n` members.
pub fn member_number(scope: Scope, n: u32, rank: u32) -> Option<u32>
    requires some { 1 ≤ n }
    requires few { n ≤ 6 }
{
    for i in 0..n {
        if rank_of(scope, n, i) == rank {
            return Some(i);
        }
    }
    None
}

/// The moves of a broadcast whose root is member 0; the first `n - 1` count.
fn moves_from_first(topology: Topology, n: u32) -> [[u32; 2]; 5]
    requires some { 1 ≤ n }
    requires few { n ≤ 6 }
{
    match topology {
        Topology::I => INCREASING,
        Topology::D => DECREASING[(n - 1) as usize],
        Topology::T => TREE,
    }
}

/// The moves of a broadcast, from a rank to a rank. With another root they go among the members that stand as far from it.
pub fn moves(alloc: Global, case: &Case, n: u32) -> Result<Vec<[u32; 2]>, NoMemory>
    requires some { 1 ≤ n }
    requires few { n ≤ 6 }
{
    let mut made = Vec::new(alloc);
    let from_first = moves_from_first(case.topology, n);
    let root = case.root % n;
    for [from, to] in from_first.iter().take((n - 1) as usize) {
        made.push([
            rank_of(case.scope, n, (*from % n + root) % n),
            rank_of(case.scope, n, (*to % n + root) % n),
        ])?;
    }
    Ok(made)
}

/// The first own word of a rank.
pub fn own_of(rank: u32) -> u32 {
    rank % 64 * 29 % 61 + 7
}

/// The memories before a round.
pub fn first_cells() -> [Cell; 64] {
    let mut cells = [Cell { own: 0, work: 0 }; 64];
    for (rank, cell) in cells.iter_mut().enumerate() {
        let number = (rank % 64) as u32;
        cell.own = own_of(number);
        cell.work = number + 1000;
    }
    cells
}

/// Runs a broadcast of the root's own word into the others' work. Its contract follows from those of `broadcast` and
/// `run_round`, as a phase's does.
pub fn spread(alloc: Global, case: &Case, cells: &mut [Cell]) -> Result<Rows, NoMemory>
    requires grid { IsGrid case.now.grid }
    requires scope_in { IsScopeOf case.now.grid case.now.scope }
    requires root { case.now.root < members case.now.grid case.now.scope }
    requires ranks { length cells.old ≡ 64 }
    ensures { OnOk result ((j : ℕ) → j < members case.now.grid case.now.scope → j ≢ case.now.root →
        slice_get cells.new (member case.now.grid case.now.scope j)
        ≡ Some (record {
          own = (slice_index_or cells.old (member case.now.grid case.now.scope j) (record { own = 0; work = 0 })).own;
          work = (slice_index_or cells.old (member case.now.grid case.now.scope case.now.root) (record { own = 0; work = 0 })).own;
        })) }
{
    let mut round = Round::new(alloc);
    broadcast(
        &mut round,
        &case.grid,
        case.scope,
        case.topology,
        case.root,
        Slot::Own,
        Slot::Work,
    )?;
    let mut links = Links::new(alloc, 64, 1)?;
    let mut order = Order::new(alloc);
    let mut rows = Rows::new(alloc);
    let _ = run_round(alloc, cells, &mut links, &round, &mut order, &mut rows)?;
    Ok(rows)
}

/// Runs a combine of the own words. Its contract follows from those of `combine` and `run_round`.
pub fn fold(
    alloc: Global,
    case: &Case,
    join: Join,
    to_all: bool,
    cells: &mut [Cell],
) -> Result<Rows, NoMemory>
    requires grid { IsGrid case.now.grid }
    requires scope_in { IsScopeOf case.now.grid case.now.scope }
    requires root { case.now.root < members case.now.grid case.now.scope }
    requires ranks { length cells.old ≡ 64 }
    ensures { OnOk result ((j : ℕ) → j < members case.now.grid case.now.scope → (to_all ≡ true) ⊎ (j ≡ case.now.root) →
        IsSomeAnd (slice_get cells.new (member case.now.grid case.now.scope j)) (λ cell.
        cell.own ≡ folded (λ a b. elim join [ Add ↦ min (a + b) 4294967295 | Least ↦ min a b ])
        (λ i. (slice_index_or cells.old (member case.now.grid case.now.scope i) (record { own = 0; work = 0 })).own)
        (members case.now.grid case.now.scope - 1))) }
{
    let mut round = Round::new(alloc);
    combine(
        &mut round,
        &case.grid,
        case.scope,
        case.topology,
        case.root,
        Slot::Own,
        Slot::Work,
        join,
        to_all,
    )?;
    let mut links = Links::new(alloc, 64, 1)?;
    let mut order = Order::new(alloc);
    let mut rows = Rows::new(alloc);
    let _ = run_round(alloc, cells, &mut links, &round, &mut order, &mut rows)?;
    Ok(rows)
}
