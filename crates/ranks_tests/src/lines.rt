//! The grids of a script, where its matrices lie, its table of lines, and what is live under a mark (script_lines). Of the two
//! matrices the first is factored and dropped, and then its list of pivots.
ghost use Rattle.std.specs.Prelude.{◌≡◌, [], ◌∷◌, ◌++◌, Some};
ghost use Rattle.rank_machine.specs.Scripts.{grids_from};
ghost use Rattle.run_data.specs.Script.{commands_of};
ghost use Rattle.script_lines.specs.Lines.{AreSound};
ghost use Rattle.ranks_tests.specs.Factored as factored;

use array_desc::Desc;
use blacs_grid::Grid;
use rank_machine::{Mark, Slot, SlotKind};
use run_data::{Command, Script, Word};
use script_lines::{Layout, Line, grids_of, is_live, layout_in, lines_of};
use std::alloc::Global;
use std::process::Abort;

fn push(rt: &impl Abort, script: &mut Script, line: Option<Command>)
    ensures { script.new ≡ script.old ++ line ∷ [] }
{
    script.push(line).expect(rt, "memory");
}

fn word(rt: &impl Abort, alloc: Global, bytes: &[u8]) -> Word
    ensures { result ≡ bytes.now }
{
    Word::new(alloc, bytes).expect(rt, "memory")
}

fn grid(rt: &impl Abort, alloc: Global, name: &[u8], p: u32, q: u32, f: u32) -> Command
    ensures { result ≡ Command.Grid name.now p q f }
{
    let name = word(rt, alloc, name);
    Command::Grid { name, p, q, f }
}

// A matrix in blocks of 2 rows and 1 column, the first of them on row and column 0.
fn matrix(rt: &impl Abort, alloc: Global, name: &[u8], grid: &[u8], m: u32, n: u32) -> Command
    ensures { result ≡ Command.Matrix name.now grid.now m n 2 1 0 0 name.now }
{
    let file = word(rt, alloc, name);
    let name = word(rt, alloc, name);
    let grid = word(rt, alloc, grid);
    Command::Matrix {
        name,
        grid,
        m,
        n,
        mb: 2,
        nb: 1,
        rsrc: 0,
        csrc: 0,
        file,
    }
}

fn factorization(rt: &impl Abort, alloc: Global, m: u32, n: u32, a: &[u8], v: &[u8]) -> Command
    ensures { result ≡ Command.Pgetrf m n a.now 1 1 v.now }
{
    let a = word(rt, alloc, a);
    let v = word(rt, alloc, v);
    Command::Pgetrf {
        m,
        n,
        a,
        ia: 1,
        ja: 1,
        v,
    }
}

fn discard(rt: &impl Abort, alloc: Global, name: &[u8]) -> Command
    ensures { result ≡ Command.Discard name.now }
{
    let name = word(rt, alloc, name);
    Command::Discard { name }
}

// 1 grid g 1 2 1, 2 grid h 2 1 0, 3 matrix A g 4 5, 4 without words, 5 pgetrf 4 5 A 1 1 V, 6 matrix B h 5 3, 7 drop A, 8 drop V
#[tactic(auto, unfolding(crate::specs::Factored::lines))]
fn script_of(rt: &impl Abort, alloc: Global) -> Script
    ensures { result ≡ factored.lines }
{
    let mut script = Script::new(alloc);
    push(rt, &mut script, Some(grid(rt, alloc, b"g", 1, 2, 1)));
    push(rt, &mut script, Some(grid(rt, alloc, b"h", 2, 1, 0)));
    push(rt, &mut script, Some(matrix(rt, alloc, b"A", b"g", 4, 5)));
    push(rt, &mut script, None);
    push(
        rt,
        &mut script,
        Some(factorization(rt, alloc, 4, 5, b"A", b"V")),
    );
    push(rt, &mut script, Some(matrix(rt, alloc, b"B", b"h", 5, 3)));
    push(rt, &mut script, Some(discard(rt, alloc, b"A")));
    push(rt, &mut script, Some(discard(rt, alloc, b"V")));
    script
}

// The grids of the script.
fn grids(rt: &impl Abort, alloc: Global, script: &Script) -> Vec<Grid>
    requires { script.now ≡ factored.lines }
    ensures { result.items ≡ grids_from 0 (commands_of script.now) }
{
    match grids_of(alloc, script) {
        Ok(grids) => grids,
        Err(_) => panic!(rt; "no memory"),
    }
}

// Where the matrix of line 6 lies.
fn second_layout(rt: &impl Abort, alloc: Global) -> Layout {
    let script = script_of(rt, alloc);
    let grids = grids(rt, alloc, &script);
    layout_in(grids.as_slice(), &script, 6)
}

// The table of the script's lines.
fn table_of(rt: &impl Abort, alloc: Global) -> Vec<Line>
    ensures { AreSound result.items }
{
    let script = script_of(rt, alloc);
    match lines_of(alloc, &script) {
        Ok(table) => table,
        Err(_) => panic!(rt; "no memory"),
    }
}

fn check_grids(rt: &impl Abort, grids: &[Grid], want: &[Grid]) {
    assert_eq!(rt; grids, want);
}

fn check_layout(rt: &impl Abort, layout: Layout, grid: Grid, desc: Desc) {
    assert_eq!(rt; (layout.grid, layout.desc), (grid, desc));
}

const FIRST: Grid = Grid {
    p: 1,
    q: 2,
    f: 1,
    first: 0,
};

const SECOND: Grid = Grid {
    p: 2,
    q: 1,
    f: 0,
    first: 3,
};

// Of five rows in blocks of two, row 0 of two has the first and the third block.
const DESC: Desc = Desc {
    dtype: 1,
    ctxt: 1,
    m: 5,
    n: 3,
    mb: 2,
    nb: 1,
    rsrc: 0,
    csrc: 0,
    lld: 3,
};

#[test]
fn places_grids_and_matrices(rt: HostRuntime) {
    let script = script_of(&rt, rt.alloc());
    let grids = grids(&rt, rt.alloc(), &script);
    let layout = second_layout(&rt, rt.alloc());
    check_grids(&rt, grids.as_slice(), &[FIRST, SECOND]);
    check_layout(&rt, layout, SECOND, DESC);
}

// The line, the rows of the matrix that it makes or 0, what it factors, what it drops, and by what it is dropped.
type Asked = (u32, u32, u32, u32, Option<u32>);

fn asked_by(line: &Line) -> Asked {
    let rows = match line.makes {
        Some(layout) => layout.desc.m,
        None => 0,
    };
    (line.line, rows, line.factors, line.drops, line.dropped)
}

// Stops where a table has other lines.
fn check_table(rt: &impl Abort, table: &[Line], want: &[Asked]) {
    assert!(rt; table.len() == want.len());
    for (line, want) in table.iter().zip(want) {
        assert_eq!(rt; asked_by(line), *want);
    }
}

#[test]
fn lists_lines_that_make_records(rt: HostRuntime) {
    let table = table_of(&rt, rt.alloc());
    let want = [
        (3, 4, 0, 0, Some(7)),
        (5, 0, 3, 0, Some(8)),
        (6, 5, 0, 0, None),
        (7, 0, 0, 3, None),
        (8, 0, 0, 5, None),
    ];
    check_table(&rt, table.as_slice(), &want);
}

// Inside the factorization of line 5: two panels are closed, the third is open, and one group is merged.
const INSIDE: Mark = Mark {
    line: 5,
    ended: false,
    closed: 2,
    opened: true,
    merged: 1,
};

// A slot of a rank, and whether it is live: its kind, its rank, its line and its group.
type Live = (SlotKind, u32, u32, u32, bool);

// Stops where a slot is live under a mark and should not be, or the other way round.
fn check_live(rt: &impl Abort, alloc: Global, mark: Mark, rows: &[Live]) {
    let table = table_of(rt, alloc);
    let lines = table.as_slice();
    for &(kind, rank, id, group, want) in rows {
        let found = is_live(lines, mark, rank, Slot { kind, id, group });
        assert!(rt; found == want, "rank {rank}, line {id}, group {group}");
    }
}

// A matrix is live on its data ranks 0 and 1, in three groups, and on the code rank 2, until it is dropped.
#[test]
fn matrices_live_until_dropped(rt: HostRuntime) {
    let first = [(SlotKind::Data, 0, 3, 0, false)];
    let made = [
        (SlotKind::Data, 0, 3, 0, true),
        (SlotKind::Data, 1, 3, 2, true),
        (SlotKind::Data, 1, 3, 3, false),
        (SlotKind::Data, 2, 3, 0, false),
        (SlotKind::Data, 3, 6, 0, false),
        (SlotKind::Code, 2, 3, 2, true),
        (SlotKind::Code, 1, 3, 2, false),
        (SlotKind::Code, 2, 3, 3, false),
    ];
    let dropped = [
        (SlotKind::Data, 0, 3, 0, false),
        (SlotKind::Data, 3, 6, 0, true),
        (SlotKind::Data, 4, 6, 2, true),
    ];
    check_live(&rt, rt.alloc(), Mark::first(), &first);
    check_live(&rt, rt.alloc(), Mark::end_of(3), &made);
    check_live(&rt, rt.alloc(), Mark::end_of(7), &dropped);
}

// Low and Open are live inside a factorization, and its pivots from its first commit to their drop, on all ranks of the grid.
#[test]
fn factorization_has_its_slots(rt: HostRuntime) {
    let inside = [
        (SlotKind::Low, 2, 3, 0, false),
        (SlotKind::Low, 2, 3, 1, true),
        (SlotKind::Low, 0, 3, 1, false),
        (SlotKind::Open, 2, 3, 0, true),
        (SlotKind::Open, 2, 3, 1, false),
        (SlotKind::Open, 2, 6, 0, false),
        (SlotKind::Pivots, 0, 5, 0, true),
        (SlotKind::Pivots, 2, 5, 0, true),
        (SlotKind::Pivots, 3, 5, 0, false),
        (SlotKind::Work, 0, 1, 0, false),
    ];
    let ended = [
        (SlotKind::Low, 2, 3, 0, false),
        (SlotKind::Low, 2, 3, 1, false),
        (SlotKind::Open, 2, 3, 0, false),
        (SlotKind::Open, 2, 3, 1, false),
    ];
    let matrix_dropped = [
        (SlotKind::Pivots, 0, 5, 0, true),
        (SlotKind::Pivots, 2, 5, 0, true),
        (SlotKind::Pivots, 3, 5, 0, false),
    ];
    let dropped = [(SlotKind::Pivots, 0, 5, 0, false)];
    check_live(&rt, rt.alloc(), INSIDE, &inside);
    check_live(&rt, rt.alloc(), Mark::end_of(5), &ended);
    check_live(&rt, rt.alloc(), Mark::end_of(7), &matrix_dropped);
    check_live(&rt, rt.alloc(), Mark::end_of(8), &dropped);
}
