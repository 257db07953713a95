//! Each kernel on small ranks, messages to them, what they save and what a commit keeps (rank_memory). The words are a Python
//! computation's.
ghost use Rattle.std.specs.Prelude.{◌≡◌, ◌∷◌, [], true, IsTrue};
ghost use Rattle.run_data.specs.Matrix.{with_entry, zero_matrix};
ghost use Rattle.rank_machine.specs.declared.slot.Tile.TheVariants.{Words, Index};
ghost use Rattle.rank_machine.specs.Legal.{fits};
ghost use Rattle.script_lines.specs.Layouts.{IsLayout};
ghost use Rattle.rank_slots.specs.Cells.{IsMatrixOf, IsTileOf};
ghost use Rattle.rank_slots.specs.Rank.{Rank, state_in, with_tile, MayApply, MayRead};
ghost use Rattle.memory_tests.specs.Example as example;

use array_desc::Desc;
use blacs_grid::Grid;
use field_core::F65537;
use rank_machine::{Cut, Kernel, Mark, Piece, Slot, SlotKind, Tile};
use rank_memory::RankMem;
use rank_run::Store;
use run_data::{IndexList, Mat, Part};
use script_lines::{Layout, Line};
use std::alloc::Global;
use std::process::Abort;

/// The strip of the matrix of line 3.
const STRIP: Slot = Slot {
    kind: SlotKind::Data,
    id: 3,
    group: 0,
};

/// A square.
const SQUARE: Slot = Slot {
    kind: SlotKind::Work,
    id: 1,
    group: 0,
};

/// The list of one pivot, 1.
const PIVOTS: Slot = Slot {
    kind: SlotKind::Pivots,
    id: 3,
    group: 0,
};

/// The number 5.
const FIVE: Slot = Slot {
    kind: SlotKind::Work,
    id: 2,
    group: 0,
};

/// The number 3.
const THREE: Slot = Slot {
    kind: SlotKind::Work,
    id: 3,
    group: 0,
};

/// The number that means none.
const NONE: Slot = Slot {
    kind: SlotKind::Work,
    id: 4,
    group: 0,
};

/// A matrix of 2 by 3 words.
const WIDE: Slot = Slot {
    kind: SlotKind::Work,
    id: 5,
    group: 0,
};

/// Words of the matrix of line 3 of which few are not zero.
const SPARSE: Slot = Slot {
    kind: SlotKind::Code,
    id: 3,
    group: 0,
};

/// A slot that holds nothing.
const NEW: Slot = Slot {
    kind: SlotKind::Work,
    id: 9,
    group: 0,
};

/// The first two rows.
const UPPER: Part = Part {
    r0: 0,
    r1: 2,
    c0: 0,
    c1: 2,
};

/// The second and the third row.
const LOWER: Part = Part {
    r0: 1,
    r1: 3,
    c0: 0,
    c1: 2,
};

/// The second and the third row of the first column.
const LEFT: Part = Part {
    r0: 1,
    r1: 3,
    c0: 0,
    c1: 1,
};

/// The first two rows of the second column.
const RIGHT: Part = Part {
    r0: 0,
    r1: 2,
    c0: 1,
    c1: 2,
};

/// The first row.
const FIRST: Part = Part {
    r0: 0,
    r1: 1,
    c0: 0,
    c1: 2,
};

/// The second and the third column of two rows.
const LAST: Part = Part {
    r0: 0,
    r1: 2,
    c0: 1,
    c1: 3,
};

/// The first two words of the second row.
const SECOND: Part = Part {
    r0: 1,
    r1: 2,
    c0: 0,
    c1: 2,
};

/// A matrix of 5 by 2 words in blocks of 2 by 2, on two process rows and a code column, from process row 1 on.
fn layout(rt: &impl Abort) -> Layout
    ensures value { result ≡ example.layout }
    ensures sound { IsLayout result }
{
    match Grid::new(2, 1, 1, 0) {
        Ok(grid) => match Desc::new(0, 2, 1, 5, 2, 2, 2, 1, 0) {
            Ok(desc) => Layout { grid, desc },
            Err(_) => panic!(rt; "no descriptor"),
        },
        Err(_) => panic!(rt; "no grid"),
    }
}

/// A matrix of zeros.
fn zeros(rt: &impl Abort, alloc: Global, rows: u32, cols: u32) -> Mat
    ensures { result ≡ zero_matrix rows cols }
{
    match Mat::zeros(alloc, rows, cols) {
        Ok(m) => m,
        Err(_) => panic!(rt; "no memory"),
    }
}

/// Writes a word of a matrix.
fn set_word(rt: &impl Abort, m: &mut Mat, i: u32, j: u32, x: u32)
    ensures { m.new ≡ with_entry m.old i j x }
{
    assert!(rt; i < m.rows());
    assert!(rt; j < m.cols());
    m.set(i, j, x);
}

/// The matrix as a tile, all words of which are residues.
fn tile_of(rt: &impl Abort, m: Mat) -> Tile
    ensures value { result ≡ Words m }
    ensures words { IsTileOf 65537 result }
{
    assert!(rt; m.has_words_below(65537));
    let _shaped = m.rows();
    Tile::Words(m)
}

/// Three rows of the matrix: 4 3, 2 0 and 5 6.
fn strip(rt: &impl Abort, alloc: Global) -> Mat
    ensures { result ≡ example.strip }
{
    let mut m = zeros(rt, alloc, 3, 2);
    set_word(rt, &mut m, 0, 0, 4);
    set_word(rt, &mut m, 1, 0, 2);
    set_word(rt, &mut m, 2, 0, 5);
    set_word(rt, &mut m, 0, 1, 3);
    set_word(rt, &mut m, 2, 1, 6);
    m
}

/// A square: 2 1 and 7 3.
fn square(rt: &impl Abort, alloc: Global) -> Mat
    ensures { result ≡ example.square }
{
    let mut m = zeros(rt, alloc, 2, 2);
    set_word(rt, &mut m, 0, 0, 2);
    set_word(rt, &mut m, 1, 0, 7);
    set_word(rt, &mut m, 0, 1, 1);
    set_word(rt, &mut m, 1, 1, 3);
    m
}

/// Two rows: 1 2 3 and 4 5 6.
fn wide(rt: &impl Abort, alloc: Global) -> Mat
    ensures { result ≡ example.wide }
{
    let mut m = zeros(rt, alloc, 2, 3);
    set_word(rt, &mut m, 0, 0, 1);
    set_word(rt, &mut m, 1, 0, 4);
    set_word(rt, &mut m, 0, 1, 2);
    set_word(rt, &mut m, 1, 1, 5);
    set_word(rt, &mut m, 0, 2, 3);
    set_word(rt, &mut m, 1, 2, 6);
    m
}

/// Three rows: 0 5, 0 0 and 0 6.
fn sparse(rt: &impl Abort, alloc: Global) -> Mat
    ensures { result ≡ example.sparse }
{
    let mut m = zeros(rt, alloc, 3, 2);
    set_word(rt, &mut m, 0, 1, 5);
    set_word(rt, &mut m, 2, 1, 6);
    m
}

/// The list of one number.
fn list_of(rt: &impl Abort, alloc: Global, n: u32) -> Tile
    ensures { result ≡ Index (n ∷ []) }
{
    let mut numbers = IndexList::new(alloc);
    match numbers.push(n) {
        Ok(()) => Tile::Index(numbers),
        Err(_) => panic!(rt; "no memory"),
    }
}

/// A rank that holds nothing.
#[tactic(auto, using(script_lines::proofs::Lookups::one_sound))]
fn empty(rt: &impl Abort, alloc: Global, number: u32) -> RankMem<F65537>
    ensures { result ≡ record { table = example.table; number = number; live = true; cells = [] } }
{
    let table = [Line {
        line: 3,
        makes: Some(layout(rt)),
        factors: 0,
        drops: 0,
        dropped: None,
    }];
    match RankMem::new(alloc, &table, number) {
        Ok(mem) => mem,
        Err(_) => panic!(rt; "no memory"),
    }
}

/// A slot of a rank gets a matrix.
fn put_words(rt: &impl Abort, mem: &mut RankMem<F65537>, slot: Slot, m: Mat)
    ensures { mem.new ≡ with_tile mem.old slot (Words m) }
{
    match mem.put(slot, tile_of(rt, m)) {
        Ok(()) => {}
        Err(_) => panic!(rt; "no memory"),
    }
}

/// A slot of a rank gets the list of one number.
fn put_number(rt: &impl Abort, alloc: Global, mem: &mut RankMem<F65537>, slot: Slot, n: u32)
    ensures { mem.new ≡ with_tile mem.old slot (Index (n ∷ [])) }
{
    match mem.put(slot, list_of(rt, alloc, n)) {
        Ok(()) => {}
        Err(_) => panic!(rt; "no memory"),
    }
}

/// Rank 2, which holds the strip, the square, the wide matrix, the sparse one, a list of pivots, two numbers and the number that
/// means none.
fn rank(rt: &impl Abort, alloc: Global) -> RankMem<F65537>
    ensures { result ≡ example.example }
{
    let mut mem = empty(rt, alloc, 2);
    put_words(rt, &mut mem, STRIP, strip(rt, alloc));
    put_words(rt, &mut mem, SQUARE, square(rt, alloc));
    put_words(rt, &mut mem, WIDE, wide(rt, alloc));
    put_words(rt, &mut mem, SPARSE, sparse(rt, alloc));
    put_number(rt, alloc, &mut mem, PIVOTS, 1);
    put_number(rt, alloc, &mut mem, FIVE, 5);
    put_number(rt, alloc, &mut mem, THREE, 3);
    put_number(rt, alloc, &mut mem, NONE, 2048);
    mem
}

/// Rank 0, which has the rows 2 and 3 of the matrix: the square is its strip, and a work slot too.
fn upper_rank(rt: &impl Abort, alloc: Global) -> RankMem<F65537>
    ensures { result ≡ example.upper_example }
{
    let mut mem = empty(rt, alloc, 0);
    put_words(rt, &mut mem, STRIP, square(rt, alloc));
    put_words(rt, &mut mem, SQUARE, square(rt, alloc));
    mem
}

/// Stops where a slot holds other words.
fn check_words(rt: &impl Abort, mem: &RankMem<F65537>, slot: Slot, rows: u32, words: &[u32]) {
    match mem.tile(slot) {
        Some(Tile::Words(m)) => {
            assert!(rt; m.rows() == rows);
            assert_eq!(rt; m.words(), words);
        }
        _ => panic!(rt; "no words"),
    }
}

/// Stops where a slot holds another list, by its last number and how many there are.
fn check_list(rt: &impl Abort, mem: &RankMem<F65537>, slot: Slot, number: u32, count: u32) {
    match mem.tile(slot) {
        Some(Tile::Index(numbers)) => {
            assert!(rt; numbers.len() == count && count > 0);
            assert_eq!(rt; numbers.get(count - 1), number);
        }
        _ => panic!(rt; "no numbers"),
    }
}

/// What a kernel makes of rank 2.
fn applied(rt: &impl Abort, alloc: Global, kernel: Kernel) -> RankMem<F65537>
    requires { MayApply 65537 example.example kernel }
{
    let mut mem = rank(rt, alloc);
    match mem.apply(&kernel) {
        Ok(()) => mem,
        Err(_) => panic!(rt; "no memory"),
    }
}

/// What a kernel makes of rank 0.
fn applied_above(rt: &impl Abort, alloc: Global, kernel: Kernel) -> RankMem<F65537>
    requires { MayApply 65537 example.upper_example kernel }
{
    let mut mem = upper_rank(rt, alloc);
    match mem.apply(&kernel) {
        Ok(()) => mem,
        Err(_) => panic!(rt; "no memory"),
    }
}

/// Stops where a kernel leaves other words in a slot of rank 2.
fn check_kernel(rt: &impl Abort, alloc: Global, kernel: Kernel, to: Slot, rows: u32, words: &[u32])
    requires { MayApply 65537 example.example kernel }
{
    let mem = applied(rt, alloc, kernel);
    check_words(rt, &mem, to, rows, words);
}

/// Stops where a kernel leaves another list in a slot of rank 2.
fn check_number(rt: &impl Abort, alloc: Global, kernel: Kernel, to: Slot, number: u32, count: u32)
    requires { MayApply 65537 example.example kernel }
{
    let mem = applied(rt, alloc, kernel);
    check_list(rt, &mem, to, number, count);
}

/// Stops where rank 2 reads other words out of a piece.
fn check_sent(rt: &impl Abort, alloc: Global, from: Piece, words: &[u32])
    requires { MayRead example.example from }
{
    let mem = rank(rt, alloc);
    match mem.read_out(&from) {
        Ok(Tile::Words(m)) => assert_eq!(rt; m.words(), words),
        _ => panic!(rt; "no words"),
    }
}

/// Stops where a slot of rank 2 holds other words once the square was written into a piece.
fn check_received(rt: &impl Abort, alloc: Global, to: Piece, slot: Slot, rows: u32, words: &[u32])
    requires { IsTrue (fits (state_in example.example) 2 to (Words example.square ∷ [])) }
{
    let mut mem = rank(rt, alloc);
    let message = tile_of(rt, square(rt, alloc));
    match mem.write_in(&to, message) {
        Ok(()) => check_words(rt, &mem, slot, rows, words),
        Err(_) => panic!(rt; "no memory"),
    }
}

#[test]
fn zeros_and_copies(rt: HostRuntime) {
    let alloc = rt.alloc();
    check_kernel(&rt, alloc, Kernel::Zero(NEW, 2, 1), NEW, 2, &[0, 0]);
    let left = Piece::Part(STRIP, LEFT);
    let whole = Kernel::Copy(Piece::Whole(NEW), left);
    check_kernel(&rt, alloc, whole, NEW, 2, &[2, 5]);
    let part = Kernel::Copy(Piece::Part(SQUARE, RIGHT), left);
    check_kernel(&rt, alloc, part, SQUARE, 2, &[2, 7, 2, 5]);
}

#[test]
fn transposes(rt: HostRuntime) {
    let alloc = rt.alloc();
    let whole = Kernel::Trans(NEW, Piece::Whole(WIDE));
    check_kernel(&rt, alloc, whole, NEW, 3, &[1, 2, 3, 4, 5, 6]);
    let columns = Kernel::Trans(NEW, Piece::Part(WIDE, LAST));
    check_kernel(&rt, alloc, columns, NEW, 2, &[2, 3, 5, 6]);
    let row = Kernel::Trans(SQUARE, Piece::Part(WIDE, SECOND));
    check_kernel(&rt, alloc, row, SQUARE, 2, &[4, 5]);
}

#[test]
fn multiplies_and_adds(rt: HostRuntime) {
    let alloc = rt.alloc();
    let to = Piece::Part(STRIP, UPPER);
    let square = Piece::Whole(SQUARE);
    let scale = Kernel::Scale(square, 65536);
    check_kernel(&rt, alloc, scale, SQUARE, 2, &[65535, 65530, 65536, 65534]);
    let add = Kernel::Add(to, 3, square, Cut::Whole);
    check_kernel(&rt, alloc, add, STRIP, 3, &[10, 23, 5, 6, 9, 6]);
    let upper = Kernel::Add(to, 3, square, Cut::Upper(0));
    check_kernel(&rt, alloc, upper, STRIP, 3, &[10, 2, 5, 6, 9, 6]);
    let lower = Kernel::Add(to, 3, square, Cut::Lower(0));
    check_kernel(&rt, alloc, lower, STRIP, 3, &[4, 23, 5, 3, 0, 6]);
    let product = Kernel::MulAdd(to, 2, square, square);
    check_kernel(&rt, alloc, product, STRIP, 3, &[26, 72, 5, 13, 32, 6]);
}

#[test]
fn solves(rt: HostRuntime) {
    let alloc = rt.alloc();
    let to = Piece::Part(STRIP, UPPER);
    let square = Piece::Whole(SQUARE);
    let lower = Kernel::Lower(to, square, false);
    check_kernel(&rt, alloc, lower, STRIP, 3, &[2, 65533, 5, 32770, 32765, 6]);
    let upper = Kernel::Upper(to, square, false);
    check_kernel(&rt, alloc, upper, STRIP, 3, &[43693, 43692, 5, 32770, 0, 6]);
    let unit = Kernel::Upper(to, square, true);
    check_kernel(&rt, alloc, unit, STRIP, 3, &[2, 2, 5, 3, 0, 6]);
}

#[test]
fn exchanges_and_eliminates(rt: HostRuntime) {
    let alloc = rt.alloc();
    let swap = Kernel::Swap(STRIP, 0, 2);
    check_kernel(&rt, alloc, swap, STRIP, 3, &[5, 2, 4, 6, 0, 3]);
    // The first block lies on process row 1, so rank 2 has the rows 0, 1 and 4.
    let row = Piece::Part(SQUARE, FIRST);
    let from_one = Kernel::Elim(STRIP, 0, 0, row);
    check_kernel(
        &rt,
        alloc,
        from_one,
        STRIP,
        3,
        &[4, 1, 32771, 3, 65536, 32772],
    );
    let from_four = Kernel::Elim(STRIP, 0, 3, row);
    check_kernel(&rt, alloc, from_four, STRIP, 3, &[4, 2, 32771, 3, 0, 32772]);
    let none = Kernel::Elim(STRIP, 0, 4, row);
    check_kernel(&rt, alloc, none, STRIP, 3, &[4, 2, 5, 3, 0, 6]);
}

#[test]
fn eliminates_on_another_process_row(rt: HostRuntime) {
    // Rank 0 has the rows 2 and 3.
    let alloc = rt.alloc();
    let row = Piece::Part(SQUARE, FIRST);
    let both = applied_above(&rt, alloc, Kernel::Elim(STRIP, 0, 1, row));
    check_words(&rt, &both, STRIP, 2, &[1, 32772, 0, 32768]);
    let second = applied_above(&rt, alloc, Kernel::Elim(STRIP, 0, 2, row));
    check_words(&rt, &second, STRIP, 2, &[2, 32772, 1, 32768]);
    let none = applied_above(&rt, alloc, Kernel::Elim(STRIP, 0, 3, row));
    check_words(&rt, &none, STRIP, 2, &[2, 7, 1, 3]);
    // The diagonal of the matrix lies on rank 2.
    let diagonal = applied_above(&rt, alloc, Kernel::Diag(NEW, Piece::Whole(STRIP), 9));
    check_list(&rt, &diagonal, NEW, 2048, 1);
}

#[test]
fn finds_rows(rt: HostRuntime) {
    let alloc = rt.alloc();
    let strip = Piece::Whole(STRIP);
    check_number(&rt, alloc, Kernel::First(NEW, strip, 1, 0), NEW, 1, 1);
    check_number(&rt, alloc, Kernel::First(NEW, strip, 1, 1), NEW, 5, 1);
    let sparse = Piece::Whole(SPARSE);
    check_number(&rt, alloc, Kernel::First(NEW, sparse, 1, 0), NEW, 1, 1);
    check_number(&rt, alloc, Kernel::First(NEW, sparse, 1, 1), NEW, 5, 1);
    check_number(&rt, alloc, Kernel::First(NEW, sparse, 1, 5), NEW, 2048, 1);
    check_number(&rt, alloc, Kernel::First(NEW, sparse, 0, 0), NEW, 2048, 1);
    check_number(&rt, alloc, Kernel::Diag(NEW, strip, 1), NEW, 2048, 1);
    check_number(&rt, alloc, Kernel::Diag(NEW, strip, 2), NEW, 2, 1);
    check_number(&rt, alloc, Kernel::Diag(NEW, strip, 9), NEW, 2, 1);
}

#[test]
fn lists_numbers(rt: HostRuntime) {
    let alloc = rt.alloc();
    let least = Kernel::Least(FIVE, Piece::Whole(THREE));
    check_number(&rt, alloc, least, FIVE, 3, 1);
    let push = Kernel::Push(PIVOTS, Piece::Whole(THREE), 6);
    check_number(&rt, alloc, push, PIVOTS, 3, 2);
    let push_none = Kernel::Push(PIVOTS, Piece::Whole(NONE), 6);
    check_number(&rt, alloc, push_none, PIVOTS, 7, 2);
}

#[test]
fn sends_pieces(rt: HostRuntime) {
    let alloc = rt.alloc();
    check_sent(&rt, alloc, Piece::Whole(STRIP), &[4, 2, 5, 3, 0, 6]);
    check_sent(&rt, alloc, Piece::Part(STRIP, LOWER), &[2, 5, 0, 6]);
}

#[test]
fn receives_pieces(rt: HostRuntime) {
    let alloc = rt.alloc();
    check_received(&rt, alloc, Piece::Whole(NEW), NEW, 2, &[2, 7, 1, 3]);
    check_received(&rt, alloc, Piece::Whole(STRIP), STRIP, 2, &[2, 7, 1, 3]);
    let part = Piece::Part(STRIP, LOWER);
    check_received(&rt, alloc, part, STRIP, 3, &[4, 2, 7, 3, 1, 3]);
}

/// Rank 2 after the strip was saved.
fn saved(rt: &impl Abort, alloc: Global) -> RankMem<F65537> {
    let mut mem = rank(rt, alloc);
    assert!(rt; mem.tile(STRIP).is_some());
    match mem.save(STRIP) {
        Ok(()) => mem,
        Err(_) => panic!(rt; "no memory"),
    }
}

/// Stops where a rank holds another number of words, or where it is not live.
fn check_size(rt: &impl Abort, mem: &RankMem<F65537>, words: u64) {
    assert!(rt; mem.is_live());
    assert_eq!(rt; mem.words(), words);
}

#[test]
fn saves_and_commits(rt: HostRuntime) {
    check_size(&rt, &rank(&rt, rt.alloc()), 26);
    let mut mem = saved(&rt, rt.alloc());
    check_size(&rt, &mem, 32);
    // Line 3 has ended: its matrix is live, and no list is.
    mem.commit(Mark::end_of(3));
    check_size(&rt, &mem, 6);
    check_words(&rt, &mem, STRIP, 3, &[4, 2, 5, 3, 0, 6]);
    assert!(rt; mem.tile(PIVOTS).is_none());
}
