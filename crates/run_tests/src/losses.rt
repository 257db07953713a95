//! Scripts whose ranks are lost: what is printed, how the run ends, and the journal of some.
use crate::runs::{Ran, Wanted, check_ran, done, joined, run};
use itoa::Buffer;
use scalapack_top::Status;
use std::alloc::Global;
use std::panic::Expect;
use std::process::Abort;

const RANKS: &[&str] = &["s.txt"];

const SERIALLY: &[&str] = &["s.txt", "--serial"];

// Runs the script that a text spells, over one matrix file.
fn run_text(
    rt: &impl Abort,
    alloc: Global,
    words: &'static [&'static str],
    text: &[u8],
    matrix: &[u8],
) -> Ran {
    let files = [("s.txt", text), ("a.txt", matrix)];
    run(rt, alloc, words, &files)
}

// The same for a script with some lines after it.
fn run_script(
    rt: &impl Abort,
    alloc: Global,
    words: &'static [&'static str],
    script: &[u8],
    lines: &[u8],
    matrix: &[u8],
) -> Ran {
    let text = joined(rt, alloc, &[script, lines]);
    run_text(rt, alloc, words, &text, matrix)
}

// Lines after a script, how its run ends then, what it prints and what stands on err.
type Row<'a> = (&'a [u8], Status, &'a [u8], &'a [u8]);

// Stops where a run ends in another way or prints something else, by the row of a table; journals are not compared.
fn check_rows(rt: &impl Abort, alloc: Global, script: &[u8], matrix: &[u8], table: &[Row<'_>]) {
    for (row, (lines, status, out, err)) in table.iter().enumerate() {
        let ran = run_script(rt, alloc, RANKS, script, lines, matrix);
        let want = Wanted {
            status: *status,
            out,
            err,
            journal: &ran.journal,
        };
        check_ran(rt, row, &ran, want);
    }
}

const ONE_CODE_COLUMN: &[u8] = b"grid g 1 2 1\nmatrix A g 1 2 1 1 0 0 a.txt\nprint A\n";

const TWO_CODE_COLUMNS: &[u8] = b"grid g 1 2 2\nmatrix A g 1 2 1 1 0 0 a.txt\nprint A\n";

const FIVE_SEVEN: &[u8] = b"A 1 2\n5 7\n";

// One data rank, then one code rank; and no spare for a lost one, one, and two for one that is lost twice.
#[test]
fn survives_one_loss(rt: HostRuntime) {
    check_rows(
        &rt,
        rt.alloc(),
        ONE_CODE_COLUMN,
        b"5 7\n",
        &[
            (b"lose 10 0\n", Status::Done, FIVE_SEVEN, b""),
            (b"lose 10 2\n", Status::Done, FIVE_SEVEN, b""),
            (
                b"lose 10 0\nspares 0\n",
                Status::NoSpare { rank: 0 },
                b"",
                b"no spare rank 0\n",
            ),
            (b"lose 10 0\nspares 1\n", Status::Done, FIVE_SEVEN, b""),
            (
                b"lose 10 0\nlose 11 0\nspares 2\n",
                Status::Done,
                FIVE_SEVEN,
                b"",
            ),
            (
                b"lose 10 0\nlose 10 1\n",
                Status::Beyond { grid: 0, row: 0 },
                b"",
                b"beyond grid 0 row 0\n",
            ),
        ],
    );
}

#[test]
fn survives_two_losses(rt: HostRuntime) {
    check_rows(
        &rt,
        rt.alloc(),
        TWO_CODE_COLUMNS,
        b"5 7\n",
        &[
            (b"lose 17 0\nlose 17 2\n", Status::Done, FIVE_SEVEN, b""),
            (b"lose 17 0\nlose 17 1\n", Status::Done, FIVE_SEVEN, b""),
        ],
    );
}

const TWO_PRINTS: &[u8] = b"grid g 2 2 1\nmatrix A g 2 2 1 1 0 0 a.txt\nprint A\nprint A\n";

const ONCE: &[u8] = b"A 2 2\n1 2\n3 4\n";

const TWICE: &[u8] = b"A 2 2\n1 2\n3 4\nA 2 2\n1 2\n3 4\n";

const BEYOND: &[u8] = b"beyond grid 0 row 0\n";

// The matrix line makes records 0 to 18, the first print 19 to 23. A second loss comes in another row, in another row while the first is mended, of
// the new rank itself, in the same row while the first is mended, and together with the first.
#[test]
fn second_losses(rt: HostRuntime) {
    check_rows(
        &rt,
        rt.alloc(),
        TWO_PRINTS,
        b"1 2\n3 4\n",
        &[
            (b"lose 19 0\nlose 19 3\n", Status::Done, TWICE, b""),
            (b"lose 19 0\nlose 21 3\n", Status::Done, TWICE, b""),
            (b"lose 19 0\nlose 21 0\n", Status::Done, TWICE, b""),
            (
                b"lose 19 0\nlose 21 1\n",
                Status::Beyond { grid: 0, row: 0 },
                b"",
                BEYOND,
            ),
            (
                b"lose 24 0\nlose 24 1\n",
                Status::Beyond { grid: 0, row: 0 },
                ONCE,
                BEYOND,
            ),
            (
                b"lose 19 0\nlose 21 0\nspares 1\n",
                Status::NoSpare { rank: 0 },
                b"",
                b"no spare rank 0\n",
            ),
            (
                b"lose 24 0\nlose 24 1\nspares 0\n",
                Status::Beyond { grid: 0, row: 0 },
                ONCE,
                BEYOND,
            ),
            (b"lose 19 0\n", Status::Done, TWICE, b""),
            (b"lose 19 1\n", Status::Done, TWICE, b""),
            (b"lose 19 2\n", Status::Done, TWICE, b""),
            (b"lose 19 3\n", Status::Done, TWICE, b""),
            (b"lose 19 4\n", Status::Done, TWICE, b""),
            (b"lose 19 5\n", Status::Done, TWICE, b""),
            (
                b"lose 19 0\nlose 19 1\nlose 19 3\nlose 19 4\n",
                Status::Beyond { grid: 0, row: 0 },
                b"",
                BEYOND,
            ),
        ],
    );
}

const IN_ANOTHER_FIELD: &[u8] =
    b"field 65521\ngrid g 1 2 1\nmatrix A g 1 2 1 1 0 0 a.txt\nprint A\n";

const LARGEST_AND_SEVEN: &[u8] = b"A 1 2\n65520 7\n";

// Modulo 65521 the code column has other words, from which each lost rank's word comes back.
#[test]
fn survives_one_loss_in_another_field(rt: HostRuntime) {
    check_rows(
        &rt,
        rt.alloc(),
        IN_ANOTHER_FIELD,
        b"65520 7\n",
        &[
            (b"", Status::Done, LARGEST_AND_SEVEN, b""),
            (b"lose 10 0\n", Status::Done, LARGEST_AND_SEVEN, b""),
            (b"lose 10 1\n", Status::Done, LARGEST_AND_SEVEN, b""),
            (b"lose 10 2\n", Status::Done, LARGEST_AND_SEVEN, b""),
        ],
    );
}

const ALONE: &[u8] = b"grid g 1 1 0\nmatrix A g 1 1 1 1 0 0 a.txt\nprint A\n";

const STARTED_AGAIN: &[u8] =
    b"0 feed 0 d2.0\nlose 0\n1 restore\n2 spawn 0\n3 commit 0 part 0 0 0 healed\n4 feed 0 d2.0\n5 commit 2 end 0 0 0 plain\n6 take 0 d2.0\n7 commit 3 end 0 0 0 plain\n";

// Without code columns a loss after the matrix line is beyond repair; before its commit nothing is lost that the line doesn't feed again.
#[test]
fn without_code_columns(rt: HostRuntime) {
    let again = run_script(&rt, rt.alloc(), RANKS, ALONE, b"lose 1 0\n", b"7\n");
    check_ran(&rt, 0, &again, done(b"A 1 1\n7\n", STARTED_AGAIN));
    let ended = run_script(&rt, rt.alloc(), RANKS, ALONE, b"lose 2 0\n", b"7\n");
    let want = Wanted {
        status: Status::Beyond { grid: 0, row: 0 },
        out: b"",
        err: BEYOND,
        journal: b"0 feed 0 d2.0\n1 commit 2 end 0 0 0 plain\nlose 0\n",
    };
    check_ran(&rt, 1, &ended, want);
}

const ALONE_WITHOUT_LOSSES: &[u8] =
    b"0 feed 0 d2.0\n1 commit 2 end 0 0 0 plain\n2 take 0 d2.0\n3 commit 3 end 0 0 0 plain\n";

const LOST_TWICE_AT_ONCE: &[u8] =
    b"0 feed 0 d2.0\nlose 0\nlose 0\n1 restore\n2 spawn 0\n3 commit 0 part 0 0 0 healed\n4 feed 0 d2.0\n5 commit 2 end 0 0 0 plain\n6 take 0 d2.0\n7 commit 3 end 0 0 0 plain\n";

const LOST_AFTER_THE_RESTORE: &[u8] =
    b"0 feed 0 d2.0\nlose 0\n1 restore\nlose 0\n2 restore\n3 spawn 0\n4 commit 0 part 0 0 0 healed\n5 feed 0 d2.0\n6 commit 2 end 0 0 0 plain\n7 take 0 d2.0\n8 commit 3 end 0 0 0 plain\n";

// A loss past the last record is not reached; a rank that is lost already is lost again; and a loss comes while the rank is brought back.
#[test]
fn losses_at_the_edges(rt: HostRuntime) {
    let rows: [(&[u8], &[u8]); 3] = [
        (b"lose 4 0\n", ALONE_WITHOUT_LOSSES),
        (b"lose 1 0\nlose 1 0\n", LOST_TWICE_AT_ONCE),
        (b"lose 1 0\nlose 2 0\n", LOST_AFTER_THE_RESTORE),
    ];
    for (row, (losses, journal)) in rows.iter().enumerate() {
        let ran = run_script(&rt, rt.alloc(), RANKS, ALONE, losses, b"7\n");
        check_ran(&rt, row, &ran, done(b"A 1 1\n7\n", journal));
    }
}

// A line by which a rank is lost directly before a record, and after it some bytes.
fn loss_line(rt: &impl Abort, alloc: Global, at: u32, rank: u32) -> Vec<u8> {
    let mut before = Buffer::new();
    let mut lost = Buffer::new();
    joined(
        rt,
        alloc,
        &[
            b"lose ",
            before.format(at as usize).as_bytes(),
            b" ",
            lost.format(rank as usize).as_bytes(),
            b"\n",
        ],
    )
}

// Matrices on two grids, printed, dropped and made again.
const TWO_GRIDS: &[u8] =
    b"grid g 1 2 1\ngrid h 2 1 1\nmatrix A g 3 4 2 1 0 1 a.txt\nprint A\nmatrix B h 3 4 1 2 1 0 a.txt\nprint B\ndrop A\nmatrix A h 3 4 2 2 0 0 a.txt\nprint A\n";

const THREE_ROWS: &[u8] = b"1 2 3 4\n5 6 7 8\n9 10 11 65536\n";

// Stops where a run with losses prints something else than the serial run of the script.
fn check_survives(rt: &impl Abort, alloc: Global, row: usize, losses: &[u8], serial: &Ran) {
    let ran = run_script(rt, alloc, RANKS, TWO_GRIDS, losses, THREE_ROWS);
    check_ran(rt, row, &ran, done(&serial.out, &ran.journal));
}

// Each of the seven ranks is lost before each record, up to one past the last, and once more three records later.
#[test]
fn survives_a_loss_at_every_step(rt: HostRuntime) {
    let alloc = rt.alloc();
    let serial = run_script(&rt, alloc, SERIALLY, TWO_GRIDS, b"", THREE_ROWS);
    for at in 0..150u32 {
        for rank in 0..7 {
            let once = loss_line(&rt, alloc, at, rank);
            check_survives(&rt, alloc, at as usize, &once, &serial);
            let again = loss_line(&rt, alloc, at + 3, rank);
            let twice = joined(&rt, alloc, &[&once, &again]);
            check_survives(&rt, alloc, at as usize, &twice, &serial);
        }
    }
}

// The same with two code columns on each grid.
const TWO_CODED_GRIDS: &[u8] =
    b"grid g 1 2 2\ngrid h 2 1 2\nmatrix A g 3 4 2 1 0 1 a.txt\nprint A\nmatrix B h 3 4 1 2 1 0 a.txt\nprint B\ndrop A\nmatrix A h 3 4 2 2 0 0 a.txt\nprint A\n";

const FOUR_CODE_COLUMNS: &[u8] = b"grid g 1 2 4\nmatrix A g 3 4 2 1 0 1 a.txt\nprint A\n";

// Stops where a run with losses on one grid prints something else than the serial run of its script.
fn check_mended(
    rt: &impl Abort,
    alloc: Global,
    row: usize,
    script: &[u8],
    losses: &[u8],
    serial: &Ran,
) {
    let ran = run_script(rt, alloc, RANKS, script, losses, THREE_ROWS);
    check_ran(rt, row, &ran, done(&serial.out, &ran.journal));
}

const TWO_CODE_COLUMNS_WIDE: &[u8] = b"grid g 1 2 2\nmatrix A g 3 4 2 1 0 1 a.txt\nprint A\n";

// Each pair of ranks of a row with two code columns, the second lost up to eleven records after the first, so also while the first is mended.
#[test]
fn survives_each_pair(rt: HostRuntime) {
    let alloc = rt.alloc();
    let serial = run_script(&rt, alloc, SERIALLY, TWO_CODE_COLUMNS_WIDE, b"", THREE_ROWS);
    for at in 0..60u32 {
        for pair in 0..16 {
            let first = loss_line(&rt, alloc, at, pair / 4);
            for later in 0..12 {
                let second = loss_line(&rt, alloc, at + later, pair % 4);
                let both = joined(&rt, alloc, &[&first, &second]);
                check_mended(
                    &rt,
                    alloc,
                    at as usize,
                    TWO_CODE_COLUMNS_WIDE,
                    &both,
                    &serial,
                );
            }
        }
    }
}

// Each of the ten ranks is lost before each record, together with the next one.
#[test]
fn survives_two_losses_at_every_step(rt: HostRuntime) {
    let alloc = rt.alloc();
    let serial = run_script(&rt, alloc, SERIALLY, TWO_CODED_GRIDS, b"", THREE_ROWS);
    for at in 0..260u32 {
        for rank in 0..10u32 {
            let one = loss_line(&rt, alloc, at, rank);
            let next = loss_line(&rt, alloc, at, (rank + 1) % 10);
            let both = joined(&rt, alloc, &[&one, &next]);
            check_mended(&rt, alloc, at as usize, TWO_CODED_GRIDS, &both, &serial);
        }
    }
}

// With four code columns the two data ranks and two code ranks are lost at once, before each record.
#[test]
fn survives_four_at_once(rt: HostRuntime) {
    let alloc = rt.alloc();
    let serial = run_script(&rt, alloc, SERIALLY, FOUR_CODE_COLUMNS, b"", THREE_ROWS);
    for at in 0..110u32 {
        let data = joined(
            &rt,
            alloc,
            &[&loss_line(&rt, alloc, at, 0), &loss_line(&rt, alloc, at, 1)],
        );
        let code = joined(
            &rt,
            alloc,
            &[&loss_line(&rt, alloc, at, 3), &loss_line(&rt, alloc, at, 5)],
        );
        let all = joined(&rt, alloc, &[&data, &code]);
        check_mended(&rt, alloc, at as usize, FOUR_CODE_COLUMNS, &all, &serial);
    }
}

const DROPPED: &[u8] =
    b"grid g 1 1 0\nmatrix A g 1 1 1 1 0 0 a.txt\nprint A\ndrop A\nmatrix B g 1 1 1 1 0 0 a.txt\n";

const SEVEN: &[u8] = b"A 1 1\n7\n";

// Without code columns: the matrix is made by records 0 and 1, printed by 2 and 3, dropped by 4, and another one is made by 5 and 6. A loss is beyond repair while
// the grid holds something at the last commit, and no loss falls after the end.
#[test]
fn beyond_while_something_is_live(rt: HostRuntime) {
    let first = Status::Beyond { grid: 0, row: 0 };
    check_rows(
        &rt,
        rt.alloc(),
        DROPPED,
        b"7\n",
        &[
            (b"lose 0 0\n", Status::Done, SEVEN, b""),
            (b"lose 1 0\n", Status::Done, SEVEN, b""),
            (b"lose 2 0\n", first, b"", BEYOND),
            (b"lose 3 0\n", first, b"", BEYOND),
            (b"lose 4 0\n", first, SEVEN, BEYOND),
            (b"lose 5 0\n", Status::Done, SEVEN, b""),
            (b"lose 6 0\n", Status::Done, SEVEN, b""),
            (b"lose 7 0\n", Status::Done, SEVEN, b""),
        ],
    );
}
