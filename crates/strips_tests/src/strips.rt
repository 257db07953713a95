//! Strips that are cut from a matrix, and placed in one (dist_matrix).
ghost use Rattle.array_desc.specs.Descriptors.{IsDesc};
ghost use Rattle.blacs_grid.specs.Limits.{IsGrid};

use array_desc::{Desc, groups, numroc};
use blacs_grid::{Grid, Scope};
use block_world::Mat;
use dist_matrix::{place, strip};
use script_lines::Layout;
use std::alloc::Global;
use std::process::Abort;

/// How a matrix lies on a grid: the process rows, data columns and code columns of the grid; the rows and columns of the matrix and of a
/// block; and the process row and column on which the first block lies.
fn layout(
    rt: &impl Abort,
    grid: [u32; 3],
    size: [u32; 2],
    block: [u32; 2],
    source: [u32; 2],
) -> Layout
    ensures grid { IsGrid result.grid }
    ensures descriptor { IsDesc result.grid.p result.grid.q result.desc }
{
    let [p, q, f] = grid;
    let [m, n] = size;
    let [mb, nb] = block;
    let [rsrc, csrc] = source;
    let grid = Grid::new(p, q, f, 0).expect(rt, "within the limits");
    let desc = Desc::new(0, grid.p, grid.q, m, n, mb, nb, rsrc, csrc).expect(rt, "in range");
    Layout { grid, desc }
}

fn zeros(rt: &impl Abort, alloc: Global, rows: u32, cols: u32) -> Mat {
    Mat::zeros(alloc, rows, cols).expect(rt, "memory")
}

/// The matrix with these words, column by column.
fn matrix(rt: &impl Abort, alloc: Global, rows: u32, cols: u32, words: &[u32]) -> Mat {
    let mut m = zeros(rt, alloc, rows, cols);
    let place = m.words_mut();
    assert!(rt; place.len() == words.len());
    place.copy_from_slice(words);
    m
}

/// A matrix of the words 1, 2, 3, column by column.
fn counted(rt: &impl Abort, alloc: Global, rows: u32, cols: u32) -> Mat {
    let mut m = zeros(rt, alloc, rows, cols);
    let mut last = 0;
    for word in m.words_mut() {
        last = last % 65536 + 1;
        *word = last;
    }
    m
}

/// The strip of a group on the rank at a process row and a data column.
fn cut(rt: &impl Abort, alloc: Global, m: &Mat, on: &Layout, at: (u32, u32), group: u32) -> Mat
    requires grid { IsGrid on.now.grid }
    requires descriptor { IsDesc on.now.grid.p on.now.grid.q on.now.desc }
{
    let (d, grid) = (&on.desc, &on.grid);
    assert!(rt; m.rows() == d.m && m.cols() == d.n);
    assert!(rt; at.0 < grid.p && at.1 < grid.q && group < groups(d.n, d.nb, grid.q));
    let rank = grid.rank(at.0, at.1);
    strip(alloc, m, d, grid, rank, group).expect(rt, "memory")
}

/// Places a strip of a group on the rank at a process row and a data column.
fn put(rt: &impl Abort, out: &mut Mat, on: &Layout, at: (u32, u32), group: u32, strip: &Mat)
    requires grid { IsGrid on.now.grid }
    requires descriptor { IsDesc on.now.grid.p on.now.grid.q on.now.desc }
{
    let (d, grid) = (&on.desc, &on.grid);
    assert!(rt; out.rows() == d.m && out.cols() == d.n);
    assert!(rt; at.0 < grid.p && at.1 < grid.q && group < groups(d.n, d.nb, grid.q));
    assert!(rt; strip.rows() == numroc(d.m, d.mb, at.0, d.rsrc, grid.p) && strip.cols() == d.nb);
    let rank = grid.rank(at.0, at.1);
    place(out, d, grid, rank, group, strip);
}

/// Stops where a strip has other rows, columns or words.
fn check_strip(rt: &impl Abort, strip: &Mat, rows: u32, cols: u32, words: &[u32]) {
    assert_eq!(rt; (strip.rows(), strip.cols()), (rows, cols));
    assert_eq!(rt; strip.words(), words);
}

/// Stops where a matrix has other words.
fn check_words(rt: &impl Abort, m: &Mat, words: &[u32]) {
    assert_eq!(rt; m.words(), words);
}

// Rows 0 and 1 lie on process row 1, row 2 on process row 0; columns 0 and 1 lie on process column 2, columns 2 and 3 on
// process column 0, and process column 1 has none:
//    11 12 13 14
//    21 22 23 24
//    31 32 33 34
#[test]
fn cuts_strips(rt: HostRuntime) {
    let words = [11, 21, 31, 12, 22, 32, 13, 23, 33, 14, 24, 34];
    let m = matrix(&rt, rt.alloc(), 3, 4, &words);
    let on = layout(&rt, [2, 3, 1], [3, 4], [2, 2], [1, 2]);
    let expected: [((u32, u32), u32, &[u32]); 6] = [
        ((0, 0), 1, &[33, 34]),
        ((0, 1), 1, &[0, 0]),
        ((0, 2), 1, &[31, 32]),
        ((1, 0), 2, &[13, 23, 14, 24]),
        ((1, 1), 2, &[0, 0, 0, 0]),
        ((1, 2), 2, &[11, 21, 12, 22]),
    ];
    for (at, rows, words) in expected {
        let strip = cut(&rt, rt.alloc(), &m, &on, at, 0);
        check_strip(&rt, &strip, rows, 2, words);
    }
}

// Blocks of two columns on one rank: the second group has one column of the matrix, and one of padding.
#[test]
fn pads_last_strip(rt: HostRuntime) {
    let m = matrix(&rt, rt.alloc(), 2, 3, &[1, 2, 3, 4, 5, 6]);
    let on = layout(&rt, [1, 1, 0], [2, 3], [2, 2], [0, 0]);
    let last = cut(&rt, rt.alloc(), &m, &on, (0, 0), 1);
    check_words(&rt, &last, &[5, 6, 0, 0]);
}

#[test]
fn cuts_strips_of_no_rows(rt: HostRuntime) {
    let m = matrix(&rt, rt.alloc(), 1, 2, &[7, 8]);
    let on = layout(&rt, [2, 1, 0], [1, 2], [1, 1], [1, 0]);
    let none = cut(&rt, rt.alloc(), &m, &on, (0, 0), 1);
    let held = cut(&rt, rt.alloc(), &m, &on, (1, 0), 1);
    check_strip(&rt, &none, 0, 1, &[]);
    check_words(&rt, &held, &[8]);
}

// The strip of process row 1, process column 0 goes to rows 0 and 1, columns 2 and 3; nothing else changes.
#[test]
fn places_strip(rt: HostRuntime) {
    let mut out = matrix(&rt, rt.alloc(), 3, 4, &[9; 12]);
    let on = layout(&rt, [2, 3, 1], [3, 4], [2, 2], [1, 2]);
    let strip = matrix(&rt, rt.alloc(), 2, 2, &[13, 23, 33, 43]);
    put(&rt, &mut out, &on, (1, 0), 0, &strip);
    check_words(&rt, &out, &[9, 9, 9, 9, 9, 9, 13, 23, 9, 33, 43, 9]);
}

/// Process rows and columns of grids, with the sources of a matrix on each.
const GRIDS: [[u32; 4]; 6] = [
    [1, 1, 0, 0],
    [2, 3, 1, 2],
    [1, 16, 0, 5],
    [16, 1, 11, 0],
    [4, 4, 3, 1],
    [4, 4, 0, 0],
];

const BLOCKS: [u32; 3] = [1, 3, 128];

const SIZES: [u32; 3] = [1, 7, 40];

/// Places the strip of a group on data rank `i` of one matrix in another.
fn copy_strip(
    rt: &impl Abort,
    alloc: Global,
    m: &Mat,
    out: &mut Mat,
    on: &Layout,
    i: u32,
    group: u32,
)
    requires grid { IsGrid on.now.grid }
    requires descriptor { IsDesc on.now.grid.p on.now.grid.q on.now.desc }
{
    let (row, column) = (i / on.grid.q, i % on.grid.q);
    let strip = cut(rt, alloc, m, on, (row, column), group);
    put(rt, out, on, (row, column), group, &strip);
}

/// Places the strips of all groups and data ranks of one matrix in another.
fn copy_all(rt: &impl Abort, alloc: Global, m: &Mat, out: &mut Mat, on: &Layout)
    requires grid { IsGrid on.now.grid }
    requires descriptor { IsDesc on.now.grid.p on.now.grid.q on.now.desc }
{
    let ranks = on.grid.members(Scope::All);
    for group in 0..groups(on.desc.n, on.desc.nb, on.grid.q) {
        for i in 0..ranks {
            copy_strip(rt, alloc, m, out, on, i, group);
        }
    }
}

/// Cuts a matrix into all its strips and places them in a matrix of zeros.
fn check_whole(rt: &impl Abort, alloc: Global, at: [u32; 4], size: [u32; 2], block: [u32; 2]) {
    let [p, q, row, column] = at;
    let on = layout(rt, [p, q, 1], size, block, [row, column]);
    let m = counted(rt, alloc, size[0], size[1]);
    let mut out = zeros(rt, alloc, size[0], size[1]);
    copy_all(rt, alloc, &m, &mut out, &on);
    assert_eq!(rt; out.words(), m.words(), "{at:?} {size:?} {block:?}");
}

/// Does so for each number of rows and each width of a block.
fn check_sizes(rt: &impl Abort, alloc: Global, at: [u32; 4], j: usize) {
    let j = j % 3;
    for rows in SIZES {
        for b in 0..3usize {
            let block = [BLOCKS[b], BLOCKS[(b + j) % 3]];
            check_whole(rt, alloc, at, [rows, SIZES[j]], block);
        }
    }
}

#[test]
fn strips_make_whole(rt: HostRuntime) {
    for at in GRIDS {
        for j in 0..3usize {
            check_sizes(&rt, rt.alloc(), at, j);
        }
    }
}
