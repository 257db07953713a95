//! The copies of a pivot list to the ranks that were lost.
ghost use Rattle.std.specs.Prelude.{◌≡◌, ◌≢◌, ℕ, ◌<◌, ◌≤◌, ◌++◌, true, length, OnOk, if◌then◌else◌, [], ◌∷◌};
ghost use Rattle.blacs_grid.specs.declared.Grid as grids;
ghost use Rattle.rank_machine.specs.State.{State};
ghost use Rattle.rank_machine.specs.Legal.{lost_columns};
ghost use Rattle.rank_machine.specs.Losses.{lost_in};
ghost use Rattle.recovery_rounds.specs.Rows.{ReachAllLost};
ghost use Rattle.blacs_grid.specs.Limits.{IsGrid};
ghost use Rattle.blacs_grid.specs.Places.{width};
ghost use Rattle.recovery_rounds.specs.Mending as mending;
ghost use Rattle.recovery_code.specs.Copies as copies;

use blacs_comm::send_piece;
use blacs_grid::Grid;
use field_core::Field;
use rank_machine::{Piece, Slot};
use rank_memory::RankMem;
use rank_run::Round;
use std::alloc::AllocError as NoMemory;

// The first column that was not lost, or how many there are where all were.
fn first_kept(lost: &[bool]) -> usize
    ensures value { result ≡ copies.first_kept lost.now }
    ensures few { result ≤ length lost.now }
{
    for i in 0..lost.len() {
        if !lost[i] {
            return i;
        }
    }
    lost.len()
}

// Appends the copy of a list from one rank to another, where it is wanted.
fn copy_if<K: Field>(
    round: &mut Round<RankMem<K>>,
    list: Slot,
    from: u32,
    to: u32,
    wanted: bool,
) -> Result<(), NoMemory>
    requires { wanted ≡ true → from ≢ to }
    ensures { OnOk result (round.new ≡ round.old ++ mending.copy_events list (if wanted then (from, to) ∷ [] else [])) }
{
    if wanted {
        send_piece(round, from, Piece::Whole(list), to, Piece::Whole(list))
    } else {
        Ok(())
    }
}

/// Appends the copies of a list in a process row: from the first rank that was not lost to each one that was.
pub fn copy_row<K: Field>(
    round: &mut Round<RankMem<K>>,
    list: Slot,
    grid: &Grid,
    row: u32,
    lost: &[bool],
) -> Result<(), NoMemory>
    requires grid { IsGrid grid.now }
    requires row_in { row < grid.now.p }
    requires columns { length lost.now ≡ width grid.now }
    requires some_kept { copies.first_kept lost.now < width grid.now }
    ensures { OnOk result (round.new ≡ round.old ++ mending.copy_events list (copies.row_copies grid.now row lost.now)) }
{
    let first = first_kept(lost) as u32;
    let from = grid.rank(row, first);
    for col in 0..grid.width() {
        let to = grid.rank(row, col);
        copy_if(round, list, from, to, lost[col as usize])?;
    }
    Ok(())
}

/// A process row that lost at most as many ranks as it has code columns kept one.
pub fn some_rank_is_kept()
    ensures { (state : State) (grid : grids.Grid) (row : ℕ) → IsGrid grid → lost_in state grid row ≤ grid.f → copies.first_kept (lost_columns state grid row) < width grid }
{}

/// Where each row of a grid kept one, the copies in all its rows reach all ranks that were lost.
pub fn copies_reach_all_lost()
    ensures { (now : State) (grid : grids.Grid) → IsGrid grid → ((row : ℕ) → row < grid.p → copies.first_kept (lost_columns now grid row) < width grid) → ReachAllLost now grid (copies.grid_copies now grid) }
{}
