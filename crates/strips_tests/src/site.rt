//! A site of a script with two grids, a matrix on the second, its factors, and drops of both; and the rounds that make the code strips of
//! that matrix, by the number of their steps (dist_matrix).
ghost use Rattle.std.specs.Prelude.{◌≡◌, [], ◌∷◌, ◌++◌, Some};
ghost use Rattle.rank_machine.specs.State.{first_mark};
ghost use Rattle.strips_tests.specs.FactoredScript as factored;

use array_desc::Desc;
use blacs_grid::Grid;
use block_world::{Command, Mark, RankMem, Round, Script, Word};
use dist_matrix::{Site, encode_group};
use field_core::F65537;
use std::alloc::Global;
use std::process::Abort;

fn push(rt: &impl Abort, script: &mut Script, line: Option<Command>)
    ensures { script.new ≡ script.old ++ line ∷ [] }
{
    script.push(line).expect(rt, "memory");
}

fn word(rt: &impl Abort, alloc: Global, bytes: &[u8]) -> Word
    ensures { result ≡ bytes.now }
{
    Word::new(alloc, bytes).expect(rt, "memory")
}

fn grid(rt: &impl Abort, alloc: Global, name: &[u8], p: u32, q: u32, f: u32) -> Command
    ensures { result ≡ Command.Grid name.now p q f }
{
    let name = word(rt, alloc, name);
    Command::Grid { name, p, q, f }
}

/// A matrix of 3 by 2 in single words.
fn matrix(rt: &impl Abort, alloc: Global, name: &[u8], grid: &[u8], file: &[u8]) -> Command
    ensures { result ≡ Command.Matrix name.now grid.now 3 2 1 1 0 0 file.now }
{
    let name = word(rt, alloc, name);
    let grid = word(rt, alloc, grid);
    let file = word(rt, alloc, file);
    Command::Matrix {
        name,
        grid,
        m: 3,
        n: 2,
        mb: 1,
        nb: 1,
        rsrc: 0,
        csrc: 0,
        file,
    }
}

fn factorization(rt: &impl Abort, alloc: Global, a: &[u8], v: &[u8]) -> Command
    ensures { result ≡ Command.Pgetrf 3 2 a.now 1 1 v.now }
{
    let a = word(rt, alloc, a);
    let v = word(rt, alloc, v);
    Command::Pgetrf {
        m: 3,
        n: 2,
        a,
        ia: 1,
        ja: 1,
        v,
    }
}

fn discard(rt: &impl Abort, alloc: Global, name: &[u8]) -> Command
    ensures { result ≡ Command.Discard name.now }
{
    let name = word(rt, alloc, name);
    Command::Discard { name }
}

/// Lines 1 and 2 make the grids g and h, line 3 the matrix A on h, line 4 its factors and the pivots v, and lines 6 and 7 drop A
/// and v. Line 5 has no words.
#[tactic(auto, unfolding(crate::specs::FactoredScript::lines))]
fn script_of(rt: &impl Abort, alloc: Global) -> Script
    ensures { result ≡ factored.lines }
{
    let mut script = Script::new(alloc);
    push(rt, &mut script, Some(grid(rt, alloc, b"g", 3, 1, 0)));
    push(rt, &mut script, Some(grid(rt, alloc, b"h", 1, 2, 2)));
    push(rt, &mut script, Some(matrix(rt, alloc, b"A", b"h", b"a")));
    push(rt, &mut script, Some(factorization(rt, alloc, b"A", b"v")));
    push(rt, &mut script, None);
    push(rt, &mut script, Some(discard(rt, alloc, b"A")));
    push(rt, &mut script, Some(discard(rt, alloc, b"v")));
    script
}

/// The site of the script before its first commit.
fn site_of<'a>(rt: &impl Abort, alloc: Global, script: &'a Script) -> Site<'a>
    requires { script.now ≡ factored.lines }
    ensures { result ≡ record { script = script.now; mark = first_mark } }
{
    match Site::new(alloc, script) {
        Ok(site) => site,
        Err(_) => panic!(rt; "no memory"),
    }
}

/// The second grid, if there are two.
fn second_grid(rt: &impl Abort, site: &Site<'_>) -> Grid {
    assert!(rt; site.grids() == 2);
    site.grid(1)
}

fn check_numbers(rt: &impl Abort, found: &[u32], want: &[u32]) {
    assert_eq!(rt; found, want);
}

fn check_desc(rt: &impl Abort, found: Option<Desc>, want: Option<Desc>) {
    assert_eq!(rt; found, want);
}

/// Stops where one of these lines makes a matrix.
fn check_no_shape(rt: &impl Abort, site: &Site<'_>, lines: &[u32]) {
    for line in lines {
        assert!(rt; site.shape(*line).is_none(), "line {line}");
    }
}

#[test]
fn names_grids_and_shapes(rt: HostRuntime) {
    let script = script_of(&rt, rt.alloc());
    let site = site_of(&rt, rt.alloc(), &script);
    let grid = second_grid(&rt, &site);
    let counts = [site.lines(), site.grids()];
    let shape = site.shape(3);
    let want = Desc::new(1, 1, 2, 3, 2, 1, 1, 0, 0).ok();
    check_numbers(&rt, &counts, &[7, 2]);
    check_numbers(&rt, &[grid.p, grid.q, grid.f, grid.first], &[1, 2, 2, 3]);
    check_desc(&rt, shape, want);
    check_no_shape(&rt, &site, &[0, 1, 2, 4, 5, 6, 7, 8]);
}

/// Whether the matrix of line 3 is there, and the list of line 4; what is being factored; whether there is a matrix of line 4 or a list
/// of line 3.
type Live = (bool, bool, Option<(u32, u32)>, bool);

fn live(site: &Site<'_>) -> Live {
    let elsewhere = site.desc(4).is_some() || site.list(3).is_some();
    (
        site.desc(3).is_some(),
        site.list(4).is_some(),
        site.factoring(),
        elsewhere,
    )
}

/// Goes on to a mark, and stops where something else is live under it.
fn check_under(rt: &impl Abort, site: &mut Site<'_>, script: &Script, mark: Mark, want: Live)
    requires { script.now ≡ site.old.script }
    ensures { site.new.script ≡ site.old.script }
{
    site.set(mark, script);
    let line = mark.line;
    assert_eq!(rt;
        (site.mark().line, live(site)),
        (line, want),
        "under line {line}"
    );
}

/// The mark inside a factorization with one panel closed.
fn inside(line: u32) -> Mark {
    Mark {
        line,
        ended: false,
        closed: 1,
        opened: false,
        merged: 0,
    }
}

#[test]
fn says_what_is_live(rt: HostRuntime) {
    let script = script_of(&rt, rt.alloc());
    let mut site = site_of(&rt, rt.alloc(), &script);
    check_numbers(&rt, &[site.mark().line], &[0]);
    for (mark, want) in [
        (Mark::first(), (false, false, None, false)),
        (Mark::end_of(3), (true, false, None, false)),
        (inside(4), (true, true, Some((3, 4)), false)),
        (Mark::end_of(4), (true, true, None, false)),
        (Mark::end_of(6), (false, true, None, false)),
        (Mark::end_of(7), (false, false, None, false)),
    ] {
        check_under(&rt, &mut site, &script, mark, want);
    }
}

/// The site once line 4 has ended.
fn factored_site<'a>(rt: &impl Abort, alloc: Global, script: &'a Script) -> Site<'a>
    requires { script.now ≡ factored.lines }
{
    let mut site = site_of(rt, alloc, script);
    site.set(Mark::end_of(4), script);
    site
}

#[test]
fn a_list_lies_where_its_matrix_does(rt: HostRuntime) {
    let script = script_of(&rt, rt.alloc());
    let site = factored_site(&rt, rt.alloc(), &script);
    let list = site.list(4).expect(&rt, "a list");
    let (desc, shape) = (site.desc(3), site.shape(3));
    check_numbers(&rt, &[list.grid, list.n], &[1, 2]);
    check_desc(&rt, desc, shape);
}

/// How many steps it takes to make the code strips of the first group of the matrix of a line.
fn steps_of(rt: &impl Abort, alloc: Global, site: &Site<'_>, line: u32) -> u32 {
    let mut round = Round::<RankMem<F65537>>::new(alloc);
    encode_group(&mut round, site, line, 0).expect(rt, "memory");
    round.steps()
}

/// The matrix of line 3 lies on two data ranks and two code ranks: each code rank takes a step for its zeros, and three for each
/// strip that it adds. Lines without a matrix have no events.
#[test]
fn a_code_strip_takes_a_step_and_three_for_each_data_strip(rt: HostRuntime) {
    let script = script_of(&rt, rt.alloc());
    let site = site_of(&rt, rt.alloc(), &script);
    let steps = [
        steps_of(&rt, rt.alloc(), &site, 2),
        steps_of(&rt, rt.alloc(), &site, 3),
        steps_of(&rt, rt.alloc(), &site, 4),
    ];
    check_numbers(&rt, &steps, &[0, 14, 0]);
}
