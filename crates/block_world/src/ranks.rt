//! The memories of the ranks of a script.
ghost use Rattle.std.specs.Prelude.{◌≡◌, ◌<◌, ◌≤◌, ◌-◌, ◌^◌, ℕ, true, false, map, min, length, replicate, List, All, IsSome, IfOk, OnOk, OnErr};
ghost use Rattle.std.specs.Option.{option_copied};
ghost use Rattle.run_data.specs.Script.{commands_of};
ghost use Rattle.rank_machine.specs.Scripts.{grids_from};
ghost use Rattle.rank_machine.specs.Setting.{sizes};
ghost use Rattle.rank_run.specs.Rounds.{on_rank};
ghost use Rattle.script_lines.specs.Layouts.{AreGrids, IsLayout, jobs_of, makes_matrix, layout_in};
ghost use Rattle.script_lines.specs.Lines.{IsTableOf, AreSound};
ghost use Rattle.script_lines.specs.declared.lines.Line.{Line};
ghost use Rattle.rank_slots.specs.Cells.{AreOrdered, words_of_cells, IsTileOf};
ghost use Rattle.rank_slots.specs.Rank.{with_tile, with_save};
ghost use Rattle.rank_slots.specs.Stands.{tiles_at, live_at};
ghost use Rattle.rank_slots.specs.Lost.{lost_rank, restored, spawned};
ghost use Rattle.block_world.specs.Ranks.{empty_ranks, restarted, committed, cells_at, cut_off, mems_after, links_after, flags_after, some_flag, lowered};
ghost use Rattle.block_world.specs.Replay.{flag_at};

use field_core::Field;
use rank_link::Links;
use rank_machine::{Loss, Mark, Slot, Tile};
use rank_memory::RankMem;
use run_data::{Command, Script};
use script_lines::{Line, lines_of};
use std::alloc::{AllocError, Global};

/// How many ranks all grids have together.
pub fn ranks_of(script: &Script) -> u32
    requires { AreGrids (grids_from 0 (commands_of script.now)) }
    ensures count { result ≡ sizes (grids_from 0 (commands_of script.now)) }
    ensures few { result ≤ 64 }
{
    let lines = script.as_slice();
    let mut ranks = 0;
    for i in 0..lines.len() {
        if let Some(Command::Grid { p, q, f, .. }) = &lines[i] {
            ranks += p * (q + f);
        }
    }
    ranks
}

// So many live ranks that hold nothing.
fn memories_of<K: Field>(
    alloc: Global,
    table: &[Line],
    count: u32,
) -> Result<Vec<RankMem<K>>, AllocError>
    requires { AreSound table.now }
    ensures { IfOk result (λ v. v.items ≡ empty_ranks table.now count) }
{
    let mut mems = Vec::new(alloc);
    for rank in 0..count {
        mems.push(RankMem::new(alloc, table, rank)?)?;
    }
    Ok(mems)
}

/// The ranks of a script, all live, which hold nothing.
pub fn opened_ranks<K: Field>(alloc: Global, script: &Script) -> Result<Vec<RankMem<K>>, AllocError>
    requires grids { AreGrids (grids_from 0 (commands_of script.now)) }
    requires laid_out { (line : ℕ) → makes_matrix script.now line ≡ true → IsLayout (layout_in script.now line) }
    ensures { IfOk result (λ v. (table : List Line) × IsTableOf (jobs_of script.now) table × (v.items ≡ empty_ranks table (sizes (grids_from 0 (commands_of script.now))))) }
{
    let table = lines_of(alloc, script)?;
    memories_of(alloc, &table, ranks_of(script))
}

/// The tile of a slot on a rank.
pub fn tile_on<K: Field>(mems: &[RankMem<K>], rank: u32, slot: Slot) -> Option<&Tile>
    ensures { option_copied result ≡ tiles_at mems.now rank slot }
{
    match mems.get(rank as usize) {
        Some(mem) => mem.tile(slot),
        None => None,
    }
}

/// Whether a rank is live.
pub fn is_live_on<K: Field>(mems: &[RankMem<K>], rank: u32) -> bool
    ensures { result ≡ live_at mems.now rank }
{
    match mems.get(rank as usize) {
        Some(mem) => mem.is_live(),
        None => false,
    }
}

/// How many words a rank holds, with what was saved. A number that does not fit counts as the greatest that does. Each slot has
/// one cell, since they are in the order of their slots.
pub fn words_on<K: Field>(mems: &[RankMem<K>], rank: u32) -> u64
    ensures ordered { AreOrdered (cells_at mems.now rank) }
    ensures count { result ≡ min (words_of_cells (cells_at mems.now rank)) (2 ^ 64 - 1) }
{
    match mems.get(rank as usize) {
        Some(mem) => mem.words(),
        None => 0,
    }
}

/// A slot of a rank gets a tile. After an error nothing has changed.
pub fn put_on<K: Field>(
    mems: &mut [RankMem<K>],
    rank: u32,
    slot: Slot,
    tile: Tile,
) -> Result<(), AllocError>
    requires rank { rank < length mems.old }
    requires words { IsTileOf K.MODULUS tile }
    ensures done { OnOk result (mems.new ≡ on_rank mems.old rank (λ m. with_tile m slot tile)) }
    ensures kept { OnErr result (mems.new ≡ mems.old) }
{
    mems[rank as usize].put(slot, tile)
}

/// A copy of a rank's tile is saved. After an error nothing has changed.
pub fn save_on<K: Field>(mems: &mut [RankMem<K>], rank: u32, slot: Slot) -> Result<(), AllocError>
    requires rank { rank < length mems.old }
    requires there { IsSome (tiles_at mems.old rank slot) }
    ensures done { OnOk result (mems.new ≡ on_rank mems.old rank (λ m. with_save m slot)) }
    ensures kept { OnErr result (mems.new ≡ mems.old) }
{
    mems[rank as usize].save(slot)
}

/// Every rank keeps what is live under a mark.
pub fn commit_all<K: Field>(mems: &mut [RankMem<K>], mark: Mark)
    ensures { mems.new ≡ map (committed mark) mems.old }
{
    for mem in mems.iter_mut() {
        mem.commit(mark);
    }
}

/// Every rank falls back: what was saved goes back, and what is fresh goes.
pub fn restore_all<K: Field>(mems: &mut [RankMem<K>])
    ensures ordered { All (λ m. AreOrdered m.cells) mems.old }
    ensures restored { mems.new ≡ map restored mems.old }
{
    for mem in mems.iter_mut() {
        mem.restore();
    }
}

/// A rank that was lost is live.
pub fn spawn_on<K: Field>(mems: &mut [RankMem<K>], rank: u32)
    requires { rank < length mems.old }
    ensures { mems.new ≡ on_rank mems.old rank spawned }
{
    mems[rank as usize].spawn();
}

/// A rank is lost, with its memory.
pub fn lose_on<K: Field>(mems: &mut [RankMem<K>], rank: u32)
    requires { rank < length mems.old }
    ensures { mems.new ≡ on_rank mems.old rank lost_rank }
{
    mems[rank as usize].lose();
}

/// All messages from and to a rank go.
pub fn cut(links: &mut Links<Tile>, rank: u32)
    requires { rank < links.old.ranks }
    ensures { links.new ≡ cut_off rank links.old }
{
    for other in 0..links.ranks() {
        links.drain(rank, other);
        links.drain(other, rank);
    }
}

/// The ranks whose losses fall at a number are lost, each with its memory and its messages, and flagged.
pub fn lose_ranks<K: Field>(
    mems: &mut [RankMem<K>],
    links: &mut Links<Tile>,
    lost: &mut [bool],
    losses: &[Loss],
    at: u32,
)
    requires mems { length mems.old ≡ links.old.ranks }
    requires flags { length lost.old ≡ links.old.ranks }
    requires ranks { All (λ l. l.rank < links.old.ranks) losses.now }
    ensures mems { mems.new ≡ mems_after losses.now at mems.old }
    ensures links { links.new ≡ links_after losses.now at links.old }
    ensures flags { lost.new ≡ flags_after losses.now at lost.old }
{
    for loss in losses {
        if loss.at == at {
            lose_on(mems, loss.rank);
            cut(links, loss.rank);
            lost[loss.rank as usize] = true;
        }
    }
}

/// A flag for each of so many ranks, all of them down.
pub fn no_flags(alloc: Global, count: u32) -> Result<Vec<bool>, AllocError>
    ensures { IfOk result (λ v. v.items ≡ replicate count false) }
{
    vec![in alloc; false; count as usize]
}

/// Whether some flag is up.
pub fn has_flag(lost: &[bool]) -> bool
    ensures { result ≡ some_flag lost.now }
{
    let mut some = false;
    for flag in lost {
        some = some || *flag;
    }
    some
}

/// Whether a rank is flagged.
pub fn flag_on(lost: &[bool], rank: u32) -> bool
    ensures { result ≡ flag_at lost.now rank }
{
    match lost.get(rank as usize) {
        Some(flag) => *flag,
        None => false,
    }
}

/// All flags go down.
pub fn lower_all(lost: &mut [bool])
    ensures { lost.new ≡ map lowered lost.old }
{
    for flag in lost.iter_mut() {
        *flag = false;
    }
}

/// Every rank is live and holds nothing.
pub fn restart_all<K: Field>(mems: &mut [RankMem<K>])
    ensures { mems.new ≡ map restarted mems.old }
{
    for mem in mems.iter_mut() {
        mem.restart();
    }
}
