//! The round of a group of a product, by the number of its steps (product_rounds).
ghost use Rattle.std.specs.Prelude.{◌≡◌};
ghost use Rattle.array_desc.specs.Descriptors.{IsDesc};
ghost use Rattle.blacs_grid.specs.Limits.{IsGrid};
ghost use Rattle.product_rounds.specs.Rounds.{IsOnGrid};

use array_desc::Desc;
use blacs_comm::Topology;
use blacs_grid::Grid;
use block_world::{RankMem, Round};
use field_core::F65537;
use product_rounds::{GroupProduct, multiply_group};
use std::alloc::Global;
use std::process::Abort;

/// The descriptor of a matrix on two process rows and two data columns.
fn desc(rt: &impl Abort, m: u32, n: u32, mb: u32, nb: u32, rsrc: u32, csrc: u32) -> Desc
    ensures { IsDesc 2 2 result }
{
    Desc::new(0, 2, 2, m, n, mb, nb, rsrc, csrc).expect(rt, "within the limits")
}

/// The first group of a product of 3 by 5 and 5 by 4, with a code column.
fn product(rt: &impl Abort, topology: Topology) -> GroupProduct
    ensures { IsOnGrid result }
{
    let grid = Grid::new(2, 2, 1, 0).expect(rt, "within the limits");
    GroupProduct {
        grid,
        a: desc(rt, 3, 5, 1, 2, 1, 1),
        b: desc(rt, 5, 4, 2, 1, 0, 0),
        c: desc(rt, 3, 4, 1, 1, 1, 1),
        line_a: 2,
        line_b: 3,
        line_c: 4,
        group: 0,
        alpha: 3,
        beta: 5,
        topology,
    }
}

/// How many steps the round takes.
fn steps_of(rt: &impl Abort, alloc: Global, topology: Topology) -> u32 {
    let mut round = Round::<RankMem<F65537>>::new(alloc);
    multiply_group(&mut round, &product(rt, topology)).expect(rt, "memory");
    round.steps()
}

/// Stops where the numbers are others.
fn check_steps(rt: &impl Abort, found: &[u32], want: &[u32]) {
    assert_eq!(rt; found, want);
}

/// Six ranks scale their strips. For each of the three block columns there are two sends along each of the two process rows, one down
/// each of the three columns, of two steps each, and six products.
#[test]
fn a_product_takes_its_steps_in_each_topology(rt: HostRuntime) {
    let alloc = rt.alloc();
    let found = [
        steps_of(&rt, alloc, Topology::I),
        steps_of(&rt, alloc, Topology::D),
        steps_of(&rt, alloc, Topology::T),
    ];
    check_steps(&rt, &found, &[66, 66, 66]);
}
