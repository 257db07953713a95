//! The events that make the code strips of a group anew.
ghost use Rattle.std.specs.Prelude.{◌≡◌, ◌<◌, ◌++◌, OnOk};
ghost use Rattle.field_core.specs.Residue.{inverse};
ghost use Rattle.rank_machine.specs.Setting.{layout};
ghost use Rattle.rank_machine.specs.CodeLaw.{slot_at};
ghost use Rattle.script_lines.specs.Layouts.{IsLayout};
ghost use Rattle.dist_matrix.specs.Site.{setting_in};
ghost use Rattle.dist_matrix.specs.Encode.{adding_events, summing_events, row_events, group_events};

use crate::Site;
use array_desc::numroc;
use blacs_comm::{send_piece, work_at};
use cauchy_code::weight;
use field_core::Field;
use rank_machine::{Cut, Kernel, Piece, Slot, SlotKind};
use rank_memory::RankMem;
use rank_run::{NoMemory, Round};
use script_lines::Layout;

/// Appends the events that make all code strips of a group of the matrix of a line anew.
///
/// Each code rank sets its code strip to zeros, then gets the data strips of its process row one after another into a work slot,
/// and adds each, times its weight. A line that makes no matrix has no events. It fails only where memory runs out.
pub fn encode_group<K: Field>(
    round: &mut Round<RankMem<K>>,
    site: &Site,
    line: u32,
    group: u32,
) -> Result<(), NoMemory>
    ensures events { OnOk result (round.new ≡ round.old ++ group_events (inverse K.MODULUS) (layout (setting_in site.now) line) line group) }
{
    encode_group_on(round, site.layout(line), line, group)
}

/// Appends the same events for a matrix that lies by a layout.
///
/// For a caller that has the layout and no site at hand. It fails only where memory runs out.
pub fn encode_group_on<K: Field>(
    round: &mut Round<RankMem<K>>,
    at: Layout,
    line: u32,
    group: u32,
) -> Result<(), NoMemory>
    requires laid_out { IsLayout at }
    ensures events { OnOk result (round.new ≡ round.old ++ group_events (inverse K.MODULUS) at line group) }
{
    for row in 0..at.grid.p {
        encode_row(round, at, line, group, row)?;
    }
    Ok(())
}

// The code ranks of a process row make their code strips.
fn encode_row<K: Field>(
    round: &mut Round<RankMem<K>>,
    at: Layout,
    line: u32,
    group: u32,
    row: u32,
) -> Result<(), NoMemory>
    requires laid_out { IsLayout at }
    requires row_in { row < at.grid.p }
    ensures { OnOk result (round.new ≡ round.old ++ row_events (inverse K.MODULUS) at line group row) }
{
    for column in 0..at.grid.f {
        sum_strips(round, at, line, group, row, column)?;
    }
    Ok(())
}

// The code rank of a process row and a code column sums the strips of its row.
fn sum_strips<K: Field>(
    round: &mut Round<RankMem<K>>,
    at: Layout,
    line: u32,
    group: u32,
    row: u32,
    column: u32,
) -> Result<(), NoMemory>
    requires laid_out { IsLayout at }
    requires row_in { row < at.grid.p }
    requires code_column { column < at.grid.f }
    ensures { OnOk result (round.new ≡ round.old ++ summing_events (inverse K.MODULUS) at line group row column) }
{
    let rank = at.grid.rank(row, at.grid.q + column);
    let strip = slot_at(SlotKind::Code, line, group);
    let rows = numroc(at.desc.m, at.desc.mb, row, at.desc.rsrc, at.grid.p);
    work_at(round, rank, Kernel::Zero(strip, rows, at.desc.nb))?;
    for source in 0..at.grid.q {
        add_strip(round, at, line, group, row, column, source)?;
    }
    Ok(())
}

// The code rank of a process row and a code column adds the strip of the data rank at the column `source`.
fn add_strip<K: Field>(
    round: &mut Round<RankMem<K>>,
    at: Layout,
    line: u32,
    group: u32,
    row: u32,
    column: u32,
    source: u32,
) -> Result<(), NoMemory>
    requires laid_out { IsLayout at }
    requires row_in { row < at.grid.p }
    requires code_column { column < at.grid.f }
    requires data_column { source < at.grid.q }
    ensures { OnOk result (round.new ≡ round.old ++ adding_events (inverse K.MODULUS) at line group row column source) }
{
    let from = at.grid.rank(row, source);
    let to = at.grid.rank(row, at.grid.q + column);
    let strip = slot_at(SlotKind::Data, line, group);
    let sum = slot_at(SlotKind::Code, line, group);
    let work = slot_at(SlotKind::Work, 0, 0);
    send_piece(round, from, Piece::Whole(strip), to, Piece::Whole(work))?;
    let factor = weight::<K>(at.grid.q, column, source);
    let add = Kernel::Add(Piece::Whole(sum), factor, Piece::Whole(work), Cut::Whole);
    work_at(round, to, add)
}

// The slot of a kind, of a line or a number, and of a group.
fn slot_at(kind: SlotKind, id: u32, group: u32) -> Slot
    ensures { result ≡ slot_at kind id group }
{
    Slot { kind, id, group }
}
