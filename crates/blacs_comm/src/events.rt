//! The calls that append events.
ghost use Rattle.std.specs.Prelude.{◌≡◌, ◌≢◌, ℕ, ◌+◌, ◌-◌, ◌*◌, ◌<◌, ◌≤◌, ◌++◌, ◌∷◌, [], OnOk, OnErr, length, if◌then◌else◌, MatchBool};
ghost use Rattle.blacs_grid.specs.Places.{IsScopeOf, members, member};
ghost use Rattle.blacs_grid.specs.Limits.{IsGrid};
ghost use Rattle.rank_run.specs.Rounds.{steps};
ghost use Rattle.rank_run.specs.declared.round.Event.TheVariants.{Local, Move};
ghost use Rattle.blacs_comm.specs.Leads.{Extends, CanMove, moved, CanWork, worked};
ghost use Rattle.blacs_comm.specs.Positions.{sender_of, rank_at};
ghost use Rattle.blacs_comm.specs.Moves.{broadcast_moves, broadcast_to, CanBroadcast, join_moves, joined_at, combine_moves, sharing_moves, Combines, CombinesAll};
ghost use Rattle.blacs_comm.specs.Works.{AreApart, work_events, CanWorkEach, worked_each};

use crate::topology::{Topology, rank, sender};
use blacs_grid::{Grid, Scope};
use rank_run::{Event, NoMemory, Round, Store};

/// Appends the move of piece `a` of rank `from` into piece `b` of rank `to`, another rank.
pub fn send_piece<S: Store>(
    round: &mut Round<S>,
    from: u32,
    a: S::Piece,
    to: u32,
    b: S::Piece,
) -> Result<(), NoMemory>
    requires { from ≢ to }
    ensures moves { OnOk result (round.new ≡ round.old ++ Move from to a b ∷ []) }
    ensures leads { OnOk result (Extends S.memory round.old round.new (CanMove S.memory from a to b) (moved S.memory from a to b)) }
    ensures err { OnErr result (round.new ≡ round.old) }
{
    round.push(Event::Move(from, to, a, b))
}

/// Appends an operation on one rank.
pub fn work_at<S: Store>(round: &mut Round<S>, rank: u32, op: S::Op) -> Result<(), NoMemory>
    ensures events { OnOk result (round.new ≡ round.old ++ Local rank op ∷ []) }
    ensures leads { OnOk result (Extends S.memory round.old round.new (CanWork S.memory rank op) (worked S.memory rank op)) }
    ensures err { OnErr result (round.new ≡ round.old) }
{
    round.push(Event::Local(rank, op))
}

/// Appends one operation on each of some ranks, which are different ranks.
pub fn work_each<S: Store>(
    round: &mut Round<S>,
    ranks: &[u32],
    ops: &[S::Op],
) -> Result<(), NoMemory>
    requires same_length { length ranks.now ≡ length ops.now }
    requires apart { AreApart ranks.now }
    ensures events { OnOk result (round.new ≡ round.old ++ work_events ranks.now ops.now) }
    ensures leads { OnOk result
        (Extends S.memory round.old round.new (CanWorkEach S.memory ranks.now ops.now)
        (worked_each S.memory ranks.now ops.now)) }
{
    for i in 0..ranks.len() {
        round.push(Event::Local(ranks[i], ops[i]))?;
    }
    Ok(())
}

/// Appends the moves that bring what `source` holds at the root, a member by its number, into `work` of each other member.
/// Each member that sends on reads it out of its own `work`.
pub fn broadcast<S: Store>(
    round: &mut Round<S>,
    grid: &Grid,
    scope: Scope,
    topology: Topology,
    root: u32,
    source: S::Piece,
    work: S::Piece,
) -> Result<(), NoMemory>
    requires grid { IsGrid grid.now }
    requires scope_in { IsScopeOf grid.now scope }
    requires root { root < members grid.now scope }
    ensures moves { OnOk result
        (round.new ≡ round.old
        ++ broadcast_moves (rank_at (member grid.now scope) (members grid.now scope) topology root)
        (sender_of topology) source work (members grid.now scope - 1)) }
    ensures steps { OnOk result (steps round.new ≡ steps round.old + 2 * (members grid.now scope - 1)) }
    ensures leads { OnOk result
        (Extends S.memory round.old round.new
        (CanBroadcast S.memory (member grid.now scope) (members grid.now scope) root source work)
        (broadcast_to S.memory (member grid.now scope) (members grid.now scope) root source work)) }
{
    let n = grid.members(scope);
    for i in 1..n {
        let up = sender(topology, i);
        let piece = if up == 0 { source } else { work };
        let from = rank(grid, scope, topology, root, up);
        let to = rank(grid, scope, topology, root, i);
        round.push(Event::Move(from, to, piece, work))?;
    }
    Ok(())
}

/// The joins of a combine: the scope that it goes over, the pieces, and the operation that folds `work` into `own`.
#[derive(Drop)]
struct Joins<S: Store> {
    grid: Grid,
    scope: Scope,
    topology: Topology,
    root: u32,
    own: S::Piece,
    work: S::Piece,
    join: S::Op,
}

/// Appends the move of a position's own piece to another position, and the join there, if the first has a member.
fn join_from<S: Store>(
    round: &mut Round<S>,
    joins: &Joins<S>,
    child: u32,
    parent: u32,
) -> Result<(), NoMemory>
    requires grid { IsGrid joins.now.grid }
    requires scope_in { IsScopeOf joins.now.grid joins.now.scope }
    requires root { joins.now.root < members joins.now.grid joins.now.scope }
    requires parent { parent < members joins.now.grid joins.now.scope }
    ensures { OnOk result
        (round.new ≡ round.old
        ++ join_moves (rank_at (member joins.now.grid joins.now.scope) (members joins.now.grid joins.now.scope) joins.now.topology joins.now.root)
        (members joins.now.grid joins.now.scope) joins.now.own joins.now.work joins.now.join parent (child ∷ [])) }
{
    if child < joins.grid.members(joins.scope) {
        let from = rank(&joins.grid, joins.scope, joins.topology, joins.root, child);
        let to = rank(&joins.grid, joins.scope, joins.topology, joins.root, parent);
        round.push(Event::Move(from, to, joins.own, joins.work))?;
        round.push(Event::Local(to, joins.join))?;
    }
    Ok(())
}

/// Appends the joins of one position.
fn join_all<S: Store>(round: &mut Round<S>, joins: &Joins<S>, parent: u32) -> Result<(), NoMemory>
    requires grid { IsGrid joins.now.grid }
    requires scope_in { IsScopeOf joins.now.grid joins.now.scope }
    requires root { joins.now.root < members joins.now.grid joins.now.scope }
    requires parent { parent < members joins.now.grid joins.now.scope }
    ensures { OnOk result
        (round.new ≡ round.old
        ++ join_moves (rank_at (member joins.now.grid joins.now.scope) (members joins.now.grid joins.now.scope) joins.now.topology joins.now.root)
        (members joins.now.grid joins.now.scope) joins.now.own joins.now.work joins.now.join parent (joined_at joins.now.topology parent)) }
{
    match joins.topology {
        Topology::I | Topology::D => join_from(round, joins, parent + 1, parent),
        Topology::T => {
            let left = 2 * parent + 1;
            join_from(round, joins, left, parent)?;
            join_from(round, joins, left + 1, parent)
        }
    }
}

/// Appends the moves and joins that fold the members' own pieces into the root's.
fn combine_to_root<S: Store>(round: &mut Round<S>, joins: &Joins<S>) -> Result<(), NoMemory>
    requires grid { IsGrid joins.now.grid }
    requires scope_in { IsScopeOf joins.now.grid joins.now.scope }
    requires root { joins.now.root < members joins.now.grid joins.now.scope }
    ensures moves { OnOk result
        (round.new ≡ round.old
        ++ combine_moves (rank_at (member joins.now.grid joins.now.scope) (members joins.now.grid joins.now.scope) joins.now.topology joins.now.root)
        (joined_at joins.now.topology) (members joins.now.grid joins.now.scope) joins.now.own joins.now.work joins.now.join
        (members joins.now.grid joins.now.scope)) }
    ensures steps { OnOk result (steps round.new ≡ steps round.old + 3 * (members joins.now.grid joins.now.scope - 1)) }
    ensures leads { OnOk result
        (Combines S.memory round.old round.new (member joins.now.grid joins.now.scope) (members joins.now.grid joins.now.scope)
        joins.now.root joins.now.own joins.now.work joins.now.join) }
{
    let mut parent = joins.grid.members(joins.scope);
    while 0 < parent {
        parent -= 1;
        join_all(round, joins, parent)?;
    }
    Ok(())
}

/// Appends the moves and joins of a combine: `join` folds `work` into `own`. After it the root, a member by its number, holds
/// in `own` the fold over all members' own, in member order, and with `to_all` each member does. `work` of members is
/// overwritten on the way.
///
/// The fold is by any function that is associative and commutative, whatever the topology: the contract says for which
/// functions, memories and messages (`IsJoin`).
pub fn combine<S: Store>(
    round: &mut Round<S>,
    grid: &Grid,
    scope: Scope,
    topology: Topology,
    root: u32,
    own: S::Piece,
    work: S::Piece,
    join: S::Op,
    to_all: bool,
) -> Result<(), NoMemory>
    requires grid { IsGrid grid.now }
    requires scope_in { IsScopeOf grid.now scope }
    requires root { root < members grid.now scope }
    ensures moves { OnOk result
        (round.new ≡ (round.old
        ++ combine_moves (rank_at (member grid.now scope) (members grid.now scope) topology root)
        (joined_at topology) (members grid.now scope) own work join (members grid.now scope))
        ++ sharing_moves to_all (rank_at (member grid.now scope) (members grid.now scope) topology root)
        (sender_of topology) own (members grid.now scope - 1)) }
    ensures steps { OnOk result
        (steps round.new ≡ steps round.old + (if to_all then 5 else 3) * (members grid.now scope - 1)) }
    ensures leads { OnOk result
        (MatchBool to_all
        (CombinesAll S.memory round.old round.new (member grid.now scope) (members grid.now scope) root own work join)
        (Combines S.memory round.old round.new (member grid.now scope) (members grid.now scope) root own work join)) }
{
    let joins = Joins {
        grid: *grid,
        scope,
        topology,
        root,
        own,
        work,
        join,
    };
    combine_to_root(round, &joins)?;
    if !to_all {
        return Ok(());
    }
    broadcast(round, grid, scope, topology, root, own, own)
}
