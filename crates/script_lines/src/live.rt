//! Which slots are live under a mark.
ghost use Rattle.std.specs.Prelude.{◌≡◌, ◌&&◌, ◌==◌, nat_lt, nat_le, map};
ghost use Rattle.blacs_grid.specs.Limits.{IsGrid};
ghost use Rattle.blacs_grid.specs.Places.{is_member, is_data_rank, is_code_rank};
ghost use Rattle.rank_machine.specs.Setting as machine;
ghost use Rattle.rank_machine.specs.Effect as effect;
ghost use Rattle.script_lines.specs.Layouts.{IsLayout};
ghost use Rattle.script_lines.specs.Lines.{job_seen, setting_on, line_in, is_dropped_by, AreSound};
ghost use Rattle.script_lines.specs.Live.{is_live_line, first_live, end_of_live, AreLive};

use crate::lines::Line;
use array_desc::{Desc, groups};
use blacs_grid::Grid;
use rank_machine::{Layout, Mark, Slot, SlotKind};

/// What a line asks; a line that isn't in the table asks nothing. It is found by halving.
pub fn find(table: &[Line], line: u32) -> Line
    requires sound { AreSound table.now }
    ensures line { result ≡ line_in table.now line }
    ensures job { job_seen result ≡ machine.job_in (map job_seen table.now) line }
{
    let at = table.partition_point(|asked| asked.line < line);
    if at < table.len() && table[at].line == line {
        return table[at];
    }
    Line {
        line,
        makes: None,
        factors: 0,
        drops: 0,
        dropped: None,
    }
}

/// Where the matrix of a line lies; where the line makes none, as a matrix of one word on one rank.
pub fn layout_at(table: &[Line], line: u32) -> Layout
    requires sound { AreSound table.now }
    ensures value { result ≡ machine.layout (setting_on 0 table.now) line }
    ensures sound { IsLayout result }
{
    match find(table, line).makes {
        Some(layout) => layout,
        None => Layout {
            grid: Grid {
                p: 1,
                q: 1,
                f: 0,
                first: 0,
            },
            desc: Desc {
                dtype: 1,
                ctxt: 0,
                m: 1,
                n: 1,
                mb: 1,
                nb: 1,
                rsrc: 0,
                csrc: 0,
                lld: 1,
            },
        },
    }
}

// Whether a rank is one of a grid's on a data column.
fn is_data_rank(grid: &Grid, rank: u32) -> bool
    requires { IsGrid grid.now }
    ensures { result ≡ is_data_rank grid.now rank }
{
    match grid.coords(rank) {
        Some((_, col)) => col < grid.q,
        None => false,
    }
}

// Whether a rank is one of a grid's on a code column.
fn is_code_rank(grid: &Grid, rank: u32) -> bool
    requires { IsGrid grid.now }
    ensures { result ≡ is_code_rank grid.now rank }
{
    match grid.coords(rank) {
        Some((_, col)) => grid.q <= col,
        None => false,
    }
}

// Whether what a line made has been dropped under a mark.
fn is_dropped(asked: &Line, mark: Mark) -> bool
    ensures { result ≡ is_dropped_by mark asked.now.dropped }
{
    match asked.dropped {
        Some(line) => mark.has_ended(line),
        None => false,
    }
}

/// Whether a line made a matrix that is there under a mark.
#[tactic(auto, using(crate::proofs::Lookups::matrix_unless_dropped))]
pub fn is_live_matrix(table: &[Line], mark: Mark, line: u32) -> bool
    requires sound { AreSound table.now }
    ensures { result ≡ effect.is_live_matrix (setting_on 0 table.now) mark line }
{
    let asked = find(table, line);
    asked.makes.is_some() && mark.has_ended(line) && !is_dropped(&asked, mark)
}

/// Whether a line made a list of pivots that is there under a mark.
#[tactic(auto, using(crate::proofs::Lookups::list_unless_dropped))]
pub fn is_live_list(table: &[Line], mark: Mark, line: u32) -> bool
    requires sound { AreSound table.now }
    ensures { result ≡ effect.is_live_list (setting_on 0 table.now) mark line }
{
    let asked = find(table, line);
    0 < asked.factors && line <= mark.line && !is_dropped(&asked, mark)
}

/// The line of the matrix that is being factored under a mark, or 0.
pub fn factoring(table: &[Line], mark: Mark) -> u32
    requires sound { AreSound table.now }
    ensures { result ≡ effect.factoring (setting_on 0 table.now) mark }
{
    if mark.ended {
        0
    } else {
        find(table, mark.line).factors
    }
}

// Whether a line made the matrix that is being factored under a mark.
fn is_factored(table: &[Line], mark: Mark, line: u32) -> bool
    requires sound { AreSound table.now }
    ensures { result ≡ (nat_lt 0 line && (effect.factoring (setting_on 0 table.now) mark == line)) }
{
    0 < line && factoring(table, mark) == line
}

// How many groups of block columns a matrix has.
fn group_count(layout: &Layout) -> u32
    requires { IsLayout layout.now }
    ensures { result ≡ machine.group_count layout.now }
{
    groups(layout.desc.n, layout.desc.nb, layout.grid.q)
}

/// The groups of the slots of one kind and one line, from a first one on to before an end.
#[derive(Clone, Copy)]
pub struct Groups {
    pub kind: SlotKind,
    pub id: u32,
    pub from: u32,
    pub to: u32,
}

// Whether a group is one of these.
fn has_group(groups: Groups, group: u32) -> bool
    ensures { result ≡ (nat_le groups.from group && nat_lt group groups.to) }
{
    groups.from <= group && group < groups.to
}

// Whether some slots of a kind and a line may be live on a rank.
fn is_live_line(table: &[Line], mark: Mark, rank: u32, kind: SlotKind, id: u32) -> bool
    requires sound { AreSound table.now }
    ensures { result ≡ is_live_line (setting_on 0 table.now) mark rank id kind }
{
    match kind {
        SlotKind::Data => {
            is_data_rank(&layout_at(table, id).grid, rank) && is_live_matrix(table, mark, id)
        }
        SlotKind::Code => {
            is_code_rank(&layout_at(table, id).grid, rank) && is_live_matrix(table, mark, id)
        }
        SlotKind::Low => {
            is_code_rank(&layout_at(table, id).grid, rank) && is_factored(table, mark, id)
        }
        SlotKind::Open => {
            is_code_rank(&layout_at(table, id).grid, rank)
                && is_factored(table, mark, id)
                && mark.opened
        }
        SlotKind::Pivots => {
            let factored = layout_at(table, find(table, id).factors);
            factored.grid.coords(rank).is_some() && is_live_list(table, mark, id)
        }
        SlotKind::Work => false,
    }
}

// The first group that is live where some are.
fn first_live(mark: Mark, kind: SlotKind) -> u32
    ensures { result ≡ first_live mark kind }
{
    match kind {
        SlotKind::Low => mark.merged,
        SlotKind::Data | SlotKind::Code | SlotKind::Open | SlotKind::Pivots | SlotKind::Work => 0,
    }
}

// The group after the last that is live where some are.
fn end_of_live(table: &[Line], kind: SlotKind, id: u32) -> u32
    requires sound { AreSound table.now }
    ensures { result ≡ end_of_live (setting_on 0 table.now) id kind }
{
    match kind {
        SlotKind::Data | SlotKind::Code | SlotKind::Low => group_count(&layout_at(table, id)),
        SlotKind::Open | SlotKind::Pivots => 1,
        SlotKind::Work => 0,
    }
}

/// Which groups of the slots of a kind and a line are live on a rank under a mark.
pub fn live_groups(table: &[Line], mark: Mark, rank: u32, kind: SlotKind, id: u32) -> Groups
    requires sound { AreSound table.now }
    ensures kind { result.kind ≡ kind }
    ensures id { result.id ≡ id }
    ensures live { AreLive (setting_on 0 table.now) mark rank result }
{
    let (from, to) = if is_live_line(table, mark, rank, kind, id) {
        (first_live(mark, kind), end_of_live(table, kind, id))
    } else {
        (0, 0)
    };
    Groups { kind, id, from, to }
}

/// Whether a slot of a rank is live under a mark.
pub fn is_live(table: &[Line], mark: Mark, rank: u32, slot: Slot) -> bool
    requires sound { AreSound table.now }
    ensures { result ≡ effect.is_live (setting_on 0 table.now) mark rank slot }
{
    has_group(
        live_groups(table, mark, rank, slot.kind, slot.id),
        slot.group,
    )
}

/// Whether a slot of a rank is live under a mark, where live groups are known: those of its kind and its line take their place
/// if they are others, so that slots that stand in order ask the table once a line.
pub fn is_live_beside(
    groups: &mut Groups,
    table: &[Line],
    mark: Mark,
    rank: u32,
    slot: Slot,
) -> bool
    requires sound { AreSound table.now }
    requires known { AreLive (setting_on 0 table.now) mark rank groups.old }
    ensures live { result ≡ effect.is_live (setting_on 0 table.now) mark rank slot }
    ensures known { AreLive (setting_on 0 table.now) mark rank groups.new }
{
    let beside = Slot {
        kind: groups.kind,
        id: groups.id,
        group: slot.group,
    };
    if beside.is(slot) {
        return has_group(*groups, slot.group);
    }
    *groups = live_groups(table, mark, rank, slot.kind, slot.id);
    has_group(*groups, slot.group)
}
