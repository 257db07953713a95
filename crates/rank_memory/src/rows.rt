//! Which rows of a matrix a rank has.
ghost use Rattle.std.specs.Prelude.{◌≡◌, ℕ, ◌≤◌, ◌<◌, IsTrue};
ghost use Rattle.array_desc.specs.Maps.{global};
ghost use Rattle.blacs_grid.specs.Places.{is_member, row_of};
ghost use Rattle.rank_machine.specs.Setting.{global_row};
ghost use Rattle.script_lines.specs.Layouts.{IsLayout};

use rank_machine::Layout;

/// The global row of a local row on a process row.
pub fn global_of(placed: &Layout, row: u32, i: u32) -> u64
    requires sound { IsLayout placed.now }
    requires row { row < placed.now.grid.p }
    ensures { result ≡ global i placed.now.desc.mb row placed.now.desc.rsrc placed.now.grid.p }
{
    let procs = placed.grid.p;
    let distance = (procs + row - placed.desc.rsrc) % procs;
    let block = u64::from(i / placed.desc.mb) * u64::from(procs) + u64::from(distance);
    block * u64::from(placed.desc.mb) + u64::from(i % placed.desc.mb)
}

/// The process row of a rank.
pub fn row_on(placed: &Layout, rank: u32) -> u32
    requires sound { IsLayout placed.now }
    requires member { IsTrue (is_member placed.now.grid rank) }
    ensures value { result ≡ row_of placed.now.grid rank }
    ensures in_grid { result < placed.now.grid.p }
{
    match placed.grid.coords(rank) {
        Some((row, _)) => row,
        None => unreachable!(),
    }
}

/// How many of the first rows of a rank have a global row below a limit. Global rows rise with local ones.
pub fn rows_below(placed: &Layout, rank: u32, rows: u32, limit: u64) -> u32
    requires sound { IsLayout placed.now }
    requires member { IsTrue (is_member placed.now.grid rank) }
    ensures most { result ≤ rows }
    ensures below { (i : ℕ) → i < result → global_row placed.now rank i < limit }
    ensures above { (i : ℕ) → result ≤ i → i < rows → limit ≤ global_row placed.now rank i }
{
    let row = row_on(placed, rank);
    let mut count = 0;
    while count < rows && global_of(placed, row, count) < limit {
        count += 1;
    }
    count
}
