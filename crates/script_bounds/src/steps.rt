//! How many records the lines of the routines make.
ghost use Rattle.std.specs.Prelude.{◌≡◌, ◌≤◌, ◌<◌, ◌^◌, ◌+◌, ◌*◌, max};
ghost use Rattle.array_desc.specs.Maps.{ceil_div};
ghost use Rattle.script_bounds.specs.Steps.{IsInRange, one_phase, groups_in, row_ranks, diagonal_test, sweep, turned_sweep, right_sweep, pgemm_steps, solve_phase, ptrsm_steps, start_phase, panel_phase, update_phase, merge_phase, pgetrf_steps, exchange_phase, factor_phase, pgetrs_steps, unit_phase, pgetri_steps, cuts, rectangles, copied_group, pgemr2d_steps, whole_cuts, turned_rectangles, turned_group, ptran_steps, verified_group, pverify_steps, matrix_recovery, list_recovery};

use array_desc::groups;
use script_rules::{Distribution, is_option};

/// The records of the longest phase of a line, and of all its phases, at most.
#[derive(Clone, Copy)]
pub struct Steps {
    pub phase: u64,
    pub count: u64,
}

/// A line of one phase.
pub fn one_phase(count: u64) -> Steps
    ensures { result ≡ one_phase count }
{
    Steps {
        phase: count,
        count,
    }
}

// a / b, rounded up.
fn ceil_div(a: u32, b: u32) -> u64
    requires small { a ≤ 1024 }
    requires some { 1 ≤ b }
    ensures value { result ≡ ceil_div a b }
    ensures few { result ≤ 1024 }
{
    (u64::from(a) + u64::from(b) - 1) / u64::from(b)
}

// The groups of a matrix.
fn groups_in(a: Distribution) -> u64
    requires { IsInRange a }
    ensures value { result ≡ groups_in a }
    ensures few { result ≤ 1024 }
{
    u64::from(groups(a.n, a.nb, a.q))
}

// The ranks of a process row.
fn row_ranks(a: Distribution) -> u64
    requires { IsInRange a }
    ensures value { result ≡ row_ranks a }
    ensures few { result ≤ 20 }
{
    u64::from(a.q) + u64::from(a.f)
}

fn diagonal_test(a: Distribution) -> u64
    requires { IsInRange a }
    ensures value { result ≡ diagonal_test a }
    ensures few { result ≤ 1026 }
{
    4 * u64::from(a.p) * u64::from(a.q) + 2
}

fn sweep(a: Distribution, blocks: u64) -> u64
    requires in_range { IsInRange a }
    requires few { blocks ≤ 1024 }
    ensures value { result ≡ sweep a blocks }
    ensures few { result ≤ 1966721 }
{
    1 + u64::from(a.p) * row_ranks(a) * (2 + 6 * blocks)
}

/// The records of `pgemm` with inner size `k`.
pub fn pgemm_steps(k: u32, a: Distribution, c: Distribution) -> Steps
    requires in_range { IsInRange a }
    requires other_in_range { IsInRange c }
    requires small { k ≤ 1024 }
    ensures value { result ≡ pgemm_steps k a c }
    ensures few { result.count < 2 ^ 40 }
    ensures few_in_phase { result.phase < 2 ^ 40 }
{
    let phase = sweep(c, ceil_div(k, a.nb));
    Steps {
        phase,
        count: groups_in(c) * phase,
    }
}

// The records of a pair of blocks in each of so many block columns.
fn pairs(blocks: u64, width: u64) -> u64
    requires few { blocks ≤ 1024 }
    requires narrow { width ≤ 20 }
    ensures value { result ≡ blocks * blocks * (3 + 3 * width) }
    ensures few { result ≤ 66060288 }
{
    blocks * blocks * (3 + 3 * width)
}

fn turned_sweep(a: Distribution, blocks: u64) -> u64
    requires in_range { IsInRange a }
    requires few { blocks ≤ 1024 }
    ensures value { result ≡ turned_sweep a blocks }
    ensures few { result ≤ 70000000 }
{
    let width = row_ranks(a);
    let both = 2 * u64::from(a.p) * width;
    1 + both + blocks * (1 + 3 * width + both) + pairs(blocks, width)
}

fn right_sweep(a: Distribution, blocks: u64) -> u64
    requires in_range { IsInRange a }
    requires few { blocks ≤ 1024 }
    ensures value { result ≡ right_sweep a blocks }
    ensures few { result ≤ 1966721 }
{
    let p = u64::from(a.p);
    let q = u64::from(a.q);
    1 + 2 * p * row_ranks(a) + p * u64::from(a.f) * (1 + 3 * q) + 6 * p * q * (blocks + 2)
}

// The records of a group of B that a triangle solves.
fn solve_phase(side: &[u8], transa: &[u8], m: u32, n: u32, a: Distribution) -> u64
    requires in_range { IsInRange a }
    requires small { m ≤ 1024 }
    requires small_columns { n ≤ 1024 }
    ensures value { result ≡ solve_phase side.now transa.now m n a }
    ensures few { result ≤ 70000000 }
{
    if !is_option(b"L", b"l", side) {
        return right_sweep(a, ceil_div(n, a.nb));
    }
    if is_option(b"N", b"n", transa) {
        sweep(a, ceil_div(m, a.mb))
    } else {
        turned_sweep(a, ceil_div(m, a.mb))
    }
}

/// The records of `ptrsm` with a right-hand side of `m` rows and `n` columns.
pub fn ptrsm_steps(
    side: &[u8],
    transa: &[u8],
    m: u32,
    n: u32,
    a: Distribution,
    b: Distribution,
) -> Steps
    requires in_range { IsInRange a }
    requires other_in_range { IsInRange b }
    requires small { m ≤ 1024 }
    requires small_columns { n ≤ 1024 }
    ensures value { result ≡ ptrsm_steps side.now transa.now m n a b }
    ensures few { result.count < 2 ^ 40 }
    ensures few_in_phase { result.phase < 2 ^ 40 }
{
    let test = diagonal_test(a);
    let solve = solve_phase(side, transa, m, n, a);
    Steps {
        phase: test.max(solve),
        count: test + all_of(groups_in(b), solve),
    }
}

fn start_phase(a: Distribution) -> u64
    requires { IsInRange a }
    ensures value { result ≡ start_phase a }
    ensures few { result ≤ 400000 }
{
    1 + u64::from(a.p) * row_ranks(a) * (groups_in(a) + 1)
}

fn panel_phase(a: Distribution) -> u64
    requires { IsInRange a }
    ensures value { result ≡ panel_phase a }
    ensures few { result ≤ 400000 }
{
    let p = u64::from(a.p);
    1 + u64::from(a.nb) * (11 * p + 5) + 12 * p * row_ranks(a)
}

fn update_phase(a: Distribution) -> u64
    requires { IsInRange a }
    ensures value { result ≡ update_phase a }
    ensures few { result ≤ 400000 }
{
    let width = row_ranks(a);
    1 + 10 * u64::from(a.nb) * width + 12 * u64::from(a.p) * width
}

fn merge_phase(a: Distribution) -> u64
    requires { IsInRange a }
    ensures value { result ≡ merge_phase a }
    ensures few { result ≤ 400000 }
{
    1 + 3 * u64::from(a.p) * u64::from(a.f)
}

// The longest phase of `pgetrf`.
fn longest_phase(start: u64, panel: u64, update: u64, merge: u64, test: u64) -> u64
    requires start { start ≤ 400000 }
    requires panel { panel ≤ 400000 }
    requires update { update ≤ 400000 }
    requires merge { merge ≤ 400000 }
    requires test { test ≤ 1026 }
    ensures value { result ≡ max start (max panel (max update (max merge test))) }
    ensures few { result < 2 ^ 40 }
{
    start.max(panel.max(update.max(merge.max(test))))
}

// A panel and the updates of all groups by it.
fn panel_and_updates(panel: u64, groups: u64, update: u64) -> u64
    requires panel { panel ≤ 400000 }
    requires groups { groups ≤ 1024 }
    requires update { update ≤ 400000 }
    ensures value { result ≡ panel + groups * update }
    ensures few { result ≤ 410000000 }
{
    panel + groups * update
}

// So many parts of so many records each.
fn all_of(parts: u64, each: u64) -> u64
    requires parts { parts ≤ 1024 }
    requires each { each ≤ 410000000 }
    ensures value { result ≡ parts * each }
    ensures few { result ≤ 419840000000 }
{
    parts * each
}

/// The records of `pgetrf` of `m` rows and `n` columns.
pub fn pgetrf_steps(m: u32, n: u32, a: Distribution) -> Steps
    requires in_range { IsInRange a }
    requires small { m ≤ 1024 }
    requires small_columns { n ≤ 1024 }
    ensures value { result ≡ pgetrf_steps m n a }
    ensures few { result.count < 2 ^ 40 }
    ensures few_in_phase { result.phase < 2 ^ 40 }
{
    let start = start_phase(a);
    let panel = panel_phase(a);
    let update = update_phase(a);
    let merge = merge_phase(a);
    let test = diagonal_test(a);
    let groups = groups_in(a);
    let each = panel_and_updates(panel, groups, update);
    let panels = all_of(ceil_div(m.min(n), a.nb), each);
    let merges = all_of(groups, merge);
    Steps {
        phase: longest_phase(start, panel, update, merge, test),
        count: start + panels + merges + test,
    }
}

fn exchange_phase(n: u32, a: Distribution) -> u64
    requires in_range { IsInRange a }
    requires small_columns { n ≤ 1024 }
    ensures value { result ≡ exchange_phase n a }
    ensures few { result ≤ 400000 }
{
    let width = row_ranks(a);
    2 + u64::from(a.p) * width + 5 * u64::from(n) * width
}

// The records of a group of B that one of the two factors solves.
fn factor_phase(trans: &[u8], n: u32, a: Distribution) -> u64
    requires in_range { IsInRange a }
    requires small_columns { n ≤ 1024 }
    ensures value { result ≡ factor_phase trans.now n a }
    ensures few { result ≤ 70000000 }
{
    let blocks = ceil_div(n, a.mb);
    if is_option(b"N", b"n", trans) {
        sweep(a, blocks)
    } else {
        turned_sweep(a, blocks)
    }
}

/// The records of `pgetrs` with `n` unknowns.
pub fn pgetrs_steps(trans: &[u8], n: u32, a: Distribution, b: Distribution) -> Steps
    requires in_range { IsInRange a }
    requires other_in_range { IsInRange b }
    requires small_columns { n ≤ 1024 }
    ensures value { result ≡ pgetrs_steps trans.now n a b }
    ensures few { result.count < 2 ^ 40 }
    ensures few_in_phase { result.phase < 2 ^ 40 }
{
    let test = diagonal_test(a);
    let exchange = exchange_phase(n, a);
    let solve = factor_phase(trans, n, a);
    Steps {
        phase: test.max(exchange.max(solve)),
        count: test + all_of(groups_in(b), exchange + 2 * solve),
    }
}

fn unit_phase(a: Distribution, b: Distribution) -> u64
    requires in_range { IsInRange a }
    requires other_in_range { IsInRange b }
    ensures value { result ≡ unit_phase a b }
    ensures few { result ≤ 400000 }
{
    let p = u64::from(a.p);
    let q = u64::from(a.q);
    let code = p * u64::from(a.f) * (1 + 3 * q);
    2 + p * row_ranks(a) + 3 * p * q + q * u64::from(b.nb) + code
}

/// The records of `pgetri` of `n` rows and columns.
pub fn pgetri_steps(n: u32, a: Distribution, b: Distribution) -> Steps
    requires in_range { IsInRange a }
    requires other_in_range { IsInRange b }
    requires small_columns { n ≤ 1024 }
    ensures value { result ≡ pgetri_steps n a b }
    ensures few { result.count < 2 ^ 40 }
    ensures few_in_phase { result.phase < 2 ^ 40 }
{
    let test = diagonal_test(a);
    let unit = unit_phase(a, b);
    let exchange = exchange_phase(n, a);
    let solve = sweep(a, ceil_div(n, a.mb));
    Steps {
        phase: test.max(unit.max(exchange.max(solve))),
        count: test + all_of(groups_in(b), unit + exchange + 2 * solve),
    }
}

// How many parts of so many indices lie in one block of each of two matrices, at most.
fn cuts(count: u32, block: u32, other: u32) -> u64
    requires some { 1 ≤ count }
    requires small { count ≤ 1024 }
    requires some_block { 1 ≤ block }
    requires some_other { 1 ≤ other }
    ensures value { result ≡ cuts count block other }
    ensures few { result ≤ 2050 }
{
    u64::from((count - 1) / block) + u64::from((count - 1) / other) + 3
}

fn rectangles(m: u32, n: u32, a: Distribution, b: Distribution) -> u64
    requires in_range { IsInRange a }
    requires other_in_range { IsInRange b }
    requires rows { 1 ≤ m }
    requires few_rows { m ≤ 1024 }
    requires columns { 1 ≤ n }
    requires few_columns { n ≤ 1024 }
    ensures value { result ≡ rectangles m n a b }
    ensures few { result ≤ 4202500 }
{
    cuts(m, a.mb, b.mb) * cuts(n, a.nb, b.nb)
}

fn copied_group(b: Distribution) -> u64
    requires { IsInRange b }
    ensures value { result ≡ copied_group b }
    ensures few { result ≤ 400000 }
{
    let p = u64::from(b.p);
    1 + p * row_ranks(b) + p * u64::from(b.f) * (1 + 3 * u64::from(b.q))
}

/// The records of `pgemr2d` of a window of `m` rows and `n` columns.
pub fn pgemr2d_steps(m: u32, n: u32, a: Distribution, b: Distribution) -> Steps
    requires in_range { IsInRange a }
    requires other_in_range { IsInRange b }
    requires rows { 1 ≤ m }
    requires few_rows { m ≤ 1024 }
    requires columns { 1 ≤ n }
    requires few_columns { n ≤ 1024 }
    ensures value { result ≡ pgemr2d_steps m n a b }
    ensures few { result.count < 2 ^ 40 }
    ensures few_in_phase { result.phase < 2 ^ 40 }
{
    let moves = 2 * rectangles(m, n, a, b);
    let group = copied_group(b);
    Steps {
        phase: group + moves,
        count: groups_in(b) * group + moves,
    }
}

// How many parts of so many indices lie in one block of each of two matrices.
fn whole_cuts(count: u32, block: u32, other: u32) -> u64
    requires small { count ≤ 1024 }
    requires some_block { 1 ≤ block }
    requires some_other { 1 ≤ other }
    ensures value { result ≡ whole_cuts count block other }
    ensures few { result ≤ 2050 }
{
    let last = count.saturating_sub(1);
    u64::from(last / block) + u64::from(last / other) + 1
}

fn turned_rectangles(m: u32, n: u32, a: Distribution, c: Distribution) -> u64
    requires in_range { IsInRange a }
    requires other_in_range { IsInRange c }
    requires few_rows { m ≤ 1024 }
    requires few_columns { n ≤ 1024 }
    ensures value { result ≡ turned_rectangles m n a c }
    ensures few { result ≤ 4202500 }
{
    whole_cuts(m, c.mb, a.nb) * whole_cuts(n, c.nb, a.mb)
}

fn turned_group(c: Distribution) -> u64
    requires { IsInRange c }
    ensures value { result ≡ turned_group c }
    ensures few { result ≤ 400000 }
{
    let p = u64::from(c.p);
    let q = u64::from(c.q);
    let code = p * u64::from(c.f);
    1 + 2 * p * q + code + code * (1 + 3 * q)
}

/// The records of `ptran` to `m` rows and `n` columns.
pub fn ptran_steps(m: u32, n: u32, a: Distribution, c: Distribution) -> Steps
    requires in_range { IsInRange a }
    requires other_in_range { IsInRange c }
    requires few_rows { m ≤ 1024 }
    requires few_columns { n ≤ 1024 }
    ensures value { result ≡ ptran_steps m n a c }
    ensures few { result.count < 2 ^ 40 }
    ensures few_in_phase { result.phase < 2 ^ 40 }
{
    let moves = 4 * turned_rectangles(m, n, a, c);
    let group = turned_group(c);
    Steps {
        phase: group + moves,
        count: groups_in(c) * group + moves,
    }
}

fn verified_group(a: Distribution) -> u64
    requires { IsInRange a }
    ensures value { result ≡ verified_group a }
    ensures few { result ≤ 400000 }
{
    let p = u64::from(a.p);
    let q = u64::from(a.q);
    1 + p * q + 2 * p * (3 * q + 3)
}

/// The records of `pverify` of a matrix with so many pending flips.
pub fn pverify_steps(a: Distribution, flips: u32) -> Steps
    requires in_range { IsInRange a }
    requires few { flips ≤ 4096 }
    ensures value { result ≡ pverify_steps a flips }
    ensures few { result.count < 2 ^ 40 }
    ensures few_in_phase { result.phase < 2 ^ 40 }
{
    let mends = 4 * u64::from(flips);
    let group = verified_group(a);
    Steps {
        phase: group + mends,
        count: groups_in(a) * group + mends,
    }
}

/// The records that bring back a matrix.
pub fn matrix_recovery(a: Distribution) -> u64
    requires { IsInRange a }
    ensures value { result ≡ matrix_recovery a }
    ensures few { result < 2 ^ 24 }
{
    let code = u64::from(a.f);
    u64::from(a.p) * groups_in(a) * code * (9 * u64::from(a.q) + 9 * code + 3)
}

/// The records that bring back the pivot list of a matrix.
pub fn list_recovery(a: Distribution) -> u64
    requires { IsInRange a }
    ensures value { result ≡ list_recovery a }
    ensures few { result < 2 ^ 24 }
{
    2 * u64::from(a.p) * u64::from(a.f)
}
