//! Process grids.
ghost use Rattle.std.specs.Prelude.{◌≡◌};
ghost use Rattle.blacs_grid.specs.Limits.{IsGrid};

use crate::checks::check_numbers;
use blacs_grid::{Grid, GridFault, Scope};
use std::process::Abort;

/// p, q, f, first, and the first broken limit: 0 for none, then rows, columns, code columns, ranks.
const LIMITS: [[u32; 5]; 19] = [
    [1, 1, 0, 0, 0],
    [16, 1, 3, 0, 0],
    [1, 16, 4, 44, 0],
    [0, 1, 0, 0, 1],
    [17, 1, 0, 0, 1],
    [1, 0, 0, 0, 2],
    [1, 17, 0, 0, 2],
    [1, 1, 5, 0, 3],
    [16, 4, 1, 0, 4],
    [1, 1, 0, 64, 4],
    [1, 16, 4, 45, 4],
    [1, 1, 0, 4294967295, 4],
    [0, 0, 0, 0, 1],
    [17, 1, 5, 0, 1],
    [17, 4, 0, 0, 1],
    [1, 0, 5, 0, 2],
    [16, 17, 0, 0, 2],
    [1, 1, 5, 64, 3],
    [0, 1, 0, 65, 1],
];

/// Compares the answer of `Grid::new` with a row of `LIMITS`.
fn compare_limits(rt: &impl Abort, row: &[u32; 5]) {
    let [p, q, f, first, fault] = *row;
    let answer = match Grid::new(p, q, f, first) {
        Ok(_) => 0,
        Err(GridFault::Rows) => 1,
        Err(GridFault::Cols) => 2,
        Err(GridFault::Code) => 3,
        Err(GridFault::Ranks) => 4,
    };
    assert_eq!(rt; answer, fault, "{row:?}");
}

#[test]
fn names_first_broken_limit(rt: HostRuntime) {
    for row in &LIMITS {
        compare_limits(&rt, row);
    }
}

/// A grid of 2 by 3 with 1 code column after 5 ranks of other grids:
///    5  6  7 |  8
///    9 10 11 | 12
fn grid(rt: &impl Abort) -> Grid
    ensures limits { IsGrid result }
    ensures made { result ≡ record { p = 2; q = 3; f = 1; first = 5 } }
{
    Grid::new(2, 3, 1, 5).expect(rt, "within the limits")
}

#[test]
fn places_ranks(rt: HostRuntime) {
    let grid = grid(&rt);
    let found = [
        grid.width(),
        grid.size(),
        grid.rank(1, 2),
        grid.members(Scope::Row(1)),
        grid.member(Scope::Row(1), 3),
        grid.members(Scope::Column(3)),
        grid.member(Scope::Column(3), 1),
        grid.members(Scope::All),
        grid.member(Scope::All, 3),
    ];
    check_numbers(&rt, &found, &[4, 8, 11, 4, 12, 2, 12, 6, 9]);
    let places = [grid.coords(8), grid.coords(4), grid.coords(13)];
    assert_eq!(rt; places, [Some((0, 3)), None, None]);
}
