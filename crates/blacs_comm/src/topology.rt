//! `Topology`, the way of a message among the members of a scope.
ghost use Rattle.std.specs.Prelude.{◌≡◌, ◌<◌, ◌≤◌};
ghost use Rattle.blacs_grid.specs.Places.{IsScopeOf, members, member};
ghost use Rattle.blacs_grid.specs.Limits.{IsGrid};
ghost use Rattle.blacs_comm.specs.Positions.{place_of, sender_of, rank_at};

use blacs_grid::{Grid, Scope};

/// Which way a message goes among the members of a scope. The members have positions, of which the root's is 0.
#[derive(Clone, Copy, Debug, PartialEq, Eq)]
pub enum Topology {
    /// The increasing ring: position i is that of member root + i, modulo their number, and sends to position i + 1.
    I,
    /// The decreasing ring: position i is that of member root - i, modulo their number, and sends to position i + 1.
    D,
    /// The tree: positions as in the increasing ring, and position i sends to positions 2i + 1 and 2i + 2.
    T,
}

/// Returns the number of the member at a position.
fn place(topology: Topology, n: u32, root: u32, i: u32) -> u32
    requires few { n ≤ 64 }
    requires root { root < n }
    requires position { i < n }
    ensures { result ≡ place_of topology n root i }
{
    match topology {
        Topology::I | Topology::T => (root + i) % n,
        Topology::D => (root + (n - i)) % n,
    }
}

/// Returns the position that sends to a position.
pub(crate) fn sender(topology: Topology, i: u32) -> u32
    requires { 1 ≤ i }
    ensures value { result ≡ sender_of topology i }
    ensures below { result < i }
{
    match topology {
        Topology::I | Topology::D => i - 1,
        Topology::T => (i - 1) / 2,
    }
}

/// Returns the rank at a position.
#[tactic(auto, using(crate::proofs::Scopes::members_few, crate::proofs::Places::place_in))]
pub(crate) fn rank(grid: &Grid, scope: Scope, topology: Topology, root: u32, i: u32) -> u32
    requires grid { IsGrid grid.now }
    requires scope_in { IsScopeOf grid.now scope }
    requires root { root < members grid.now scope }
    requires position { i < members grid.now scope }
    ensures { result ≡ rank_at (member grid.now scope) (members grid.now scope) topology root i }
{
    grid.member(scope, place(topology, grid.members(scope), root, i))
}
