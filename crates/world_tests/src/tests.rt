//! What a world's journal is, and what its ranks hold, where losses fall.
use crate::fixture::{A, Left, played};
use crate::word::played_word;
use block_world::{Loss, Mark, Rec};
use std::process::Abort;
use std::test::Fail;

const NEVER: Loss = Loss { at: 100, rank: 0 };

const FIRST: Mark = Mark {
    line: 0,
    ended: false,
    closed: 0,
    opened: false,
    merged: 0,
};

const FED: Mark = Mark {
    line: 2,
    ended: true,
    closed: 0,
    opened: false,
    merged: 0,
};

const PRINTED: Mark = Mark {
    line: 3,
    ended: true,
    closed: 0,
    opened: false,
    merged: 0,
};

const FEED: Rec = Rec::Feed(0, A);

const COMMIT_FED: Rec = Rec::Commit(FED, false);

const TAKE: Rec = Rec::Take(0, A);

const COMMIT_PRINTED: Rec = Rec::Commit(PRINTED, false);

const HEALED: Rec = Rec::Commit(FIRST, true);

// The journal, which ranks are live, how many words each holds, and how many ranks were replaced.
fn check_is(
    rt: &impl Abort,
    left: &Left,
    text: &[u8],
    live: [bool; 2],
    words: [u64; 2],
    spawns: u32,
) {
    assert_eq!(rt; left.text.as_slice(), text);
    assert_eq!(rt; (left.live, left.words, left.spawns), (live, words, spawns));
}

// How many ranks the script lets be replaced.
fn check_spares(rt: &impl Abort, left: &Left, spares: Option<u32>) {
    assert_eq!(rt; left.spares, spares);
}

#[test]
fn without_losses(rt: HostRuntime) -> Result<(), Fail> {
    let run = played(
        rt.alloc(),
        NEVER,
        NEVER,
        None,
        &[FEED, COMMIT_FED, TAKE, COMMIT_PRINTED],
    )?;
    check_is(
        &rt,
        &run,
        b"0 feed 0 d2.0\n1 commit 2 end 0 0 0 plain\n2 take 0 d2.0\n3 commit 3 end 0 0 0 plain\n",
        [true, true],
        [6, 0],
        0,
    );
    Ok(())
}

// A loss at a number that the run does not reach does not show.
#[test]
fn a_loss_after_the_end(rt: HostRuntime) -> Result<(), Fail> {
    let run = played(
        rt.alloc(),
        Loss { at: 5, rank: 0 },
        NEVER,
        None,
        &[FEED, COMMIT_FED, TAKE, COMMIT_PRINTED],
    )?;
    check_is(
        &rt,
        &run,
        b"0 feed 0 d2.0\n1 commit 2 end 0 0 0 plain\n2 take 0 d2.0\n3 commit 3 end 0 0 0 plain\n",
        [true, true],
        [6, 0],
        0,
    );
    Ok(())
}

// The fed strip goes with its rank, which comes again, and the line is run anew.
#[test]
fn a_loss_before_the_first_commit(rt: HostRuntime) -> Result<(), Fail> {
    let run = played(
        rt.alloc(),
        Loss { at: 1, rank: 0 },
        NEVER,
        None,
        &[
            FEED,
            Rec::Restore,
            Rec::Spawn(0),
            HEALED,
            FEED,
            COMMIT_FED,
            TAKE,
            COMMIT_PRINTED,
        ],
    )?;
    check_is(
        &rt,
        &run,
        b"0 feed 0 d2.0\nlose 0\n1 restore\n2 spawn 0\n3 commit 0 part 0 0 0 healed\n4 feed 0 d2.0\n5 commit 2 end 0 0 0 plain\n6 take 0 d2.0\n7 commit 3 end 0 0 0 plain\n",
        [true, true],
        [6, 0],
        1,
    );
    Ok(())
}

#[test]
fn a_rank_lost_twice_at_once(rt: HostRuntime) -> Result<(), Fail> {
    let run = played(
        rt.alloc(),
        Loss { at: 1, rank: 0 },
        Loss { at: 1, rank: 0 },
        None,
        &[
            FEED,
            Rec::Restore,
            Rec::Spawn(0),
            HEALED,
            FEED,
            COMMIT_FED,
            TAKE,
            COMMIT_PRINTED,
        ],
    )?;
    check_is(
        &rt,
        &run,
        b"0 feed 0 d2.0\nlose 0\nlose 0\n1 restore\n2 spawn 0\n3 commit 0 part 0 0 0 healed\n4 feed 0 d2.0\n5 commit 2 end 0 0 0 plain\n6 take 0 d2.0\n7 commit 3 end 0 0 0 plain\n",
        [true, true],
        [6, 0],
        1,
    );
    Ok(())
}

// A loss after a restore wants another; those of the script are told in another order.
#[test]
fn a_loss_after_a_restore(rt: HostRuntime) -> Result<(), Fail> {
    let run = played(
        rt.alloc(),
        Loss { at: 2, rank: 0 },
        Loss { at: 1, rank: 0 },
        None,
        &[
            FEED,
            Rec::Restore,
            Rec::Restore,
            Rec::Spawn(0),
            HEALED,
            FEED,
            COMMIT_FED,
            TAKE,
            COMMIT_PRINTED,
        ],
    )?;
    check_is(
        &rt,
        &run,
        b"0 feed 0 d2.0\nlose 0\n1 restore\nlose 0\n2 restore\n3 spawn 0\n4 commit 0 part 0 0 0 healed\n5 feed 0 d2.0\n6 commit 2 end 0 0 0 plain\n7 take 0 d2.0\n8 commit 3 end 0 0 0 plain\n",
        [true, true],
        [6, 0],
        1,
    );
    Ok(())
}

// What only the lost rank held is gone.
#[test]
fn a_loss_after_a_commit(rt: HostRuntime) -> Result<(), Fail> {
    let run = played(
        rt.alloc(),
        Loss { at: 2, rank: 0 },
        NEVER,
        None,
        &[FEED, COMMIT_FED],
    )?;
    check_is(
        &rt,
        &run,
        b"0 feed 0 d2.0\n1 commit 2 end 0 0 0 plain\nlose 0\n",
        [false, true],
        [0, 0],
        0,
    );
    Ok(())
}

#[test]
fn a_loss_after_the_last_spare(rt: HostRuntime) -> Result<(), Fail> {
    let run = played(
        rt.alloc(),
        Loss { at: 1, rank: 0 },
        Loss { at: 3, rank: 0 },
        Some(1),
        &[FEED, Rec::Restore, Rec::Spawn(0), Rec::Restore],
    )?;
    check_is(
        &rt,
        &run,
        b"0 feed 0 d2.0\nlose 0\n1 restore\n2 spawn 0\nlose 0\n3 restore\n",
        [false, true],
        [0, 0],
        1,
    );
    check_spares(&rt, &run, Some(1));
    Ok(())
}

// Losses fall in the script's order; ranks come again by rising number.
#[test]
fn losses_on_two_grids(rt: HostRuntime) -> Result<(), Fail> {
    let run = played(
        rt.alloc(),
        Loss { at: 0, rank: 1 },
        Loss { at: 0, rank: 0 },
        None,
        &[Rec::Restore, Rec::Spawn(0), Rec::Spawn(1), HEALED],
    )?;
    check_is(
        &rt,
        &run,
        b"lose 1\nlose 0\n0 restore\n1 spawn 0\n2 spawn 1\n3 commit 0 part 0 0 0 healed\n",
        [true, true],
        [0, 0],
        2,
    );
    Ok(())
}

// What another grid's rank held is kept.
#[test]
fn a_loss_on_the_other_grid(rt: HostRuntime) -> Result<(), Fail> {
    let run = played(
        rt.alloc(),
        Loss { at: 2, rank: 1 },
        NEVER,
        None,
        &[
            FEED,
            COMMIT_FED,
            Rec::Restore,
            Rec::Spawn(1),
            Rec::Commit(FED, true),
            TAKE,
            COMMIT_PRINTED,
        ],
    )?;
    check_is(
        &rt,
        &run,
        b"0 feed 0 d2.0\n1 commit 2 end 0 0 0 plain\nlose 1\n2 restore\n3 spawn 1\n4 commit 2 end 0 0 0 healed\n5 take 0 d2.0\n6 commit 3 end 0 0 0 plain\n",
        [true, true],
        [6, 0],
        1,
    );
    Ok(())
}

// A restore takes what is fresh away.
#[test]
fn a_fresh_slot_restored(rt: HostRuntime) -> Result<(), Fail> {
    let run = played(rt.alloc(), NEVER, NEVER, None, &[FEED, Rec::Restore])?;
    check_is(
        &rt,
        &run,
        b"0 feed 0 d2.0\n1 restore\n",
        [true, true],
        [0, 0],
        0,
    );
    Ok(())
}

// What is saved is held twice.
#[test]
fn a_slot_saved(rt: HostRuntime) -> Result<(), Fail> {
    let run = played(
        rt.alloc(),
        NEVER,
        NEVER,
        None,
        &[FEED, COMMIT_FED, Rec::Save(0, A)],
    )?;
    check_is(
        &rt,
        &run,
        b"0 feed 0 d2.0\n1 commit 2 end 0 0 0 plain\n2 save 0 d2.0\n",
        [true, true],
        [12, 0],
        0,
    );
    Ok(())
}

#[test]
fn a_saved_slot_restored(rt: HostRuntime) -> Result<(), Fail> {
    let run = played(
        rt.alloc(),
        NEVER,
        NEVER,
        None,
        &[FEED, COMMIT_FED, Rec::Save(0, A), Rec::Restore],
    )?;
    check_is(
        &rt,
        &run,
        b"0 feed 0 d2.0\n1 commit 2 end 0 0 0 plain\n2 save 0 d2.0\n3 restore\n",
        [true, true],
        [6, 0],
        0,
    );
    Ok(())
}

// Whether rank 0 holds the matrix, how many records were made, for how many more there is room, and what was taken.
fn check_rest(rt: &impl Abort, left: &Left, holds: bool, steps: u32, room: u32, taken: &[u32]) {
    assert_eq!(rt; (left.holds, left.steps, left.room), (holds, steps, room));
    assert_eq!(rt; left.taken.as_slice(), taken);
}

// One word on the only rank: it is held twice once it is saved, and once again after the next commit. The room for five is used up.
#[test]
fn one_word(rt: HostRuntime) -> Result<(), Fail> {
    let alloc = rt.alloc();
    let save = Rec::Save(0, A);
    let saved = played_word(alloc, &[FEED, COMMIT_FED, save])?;
    let printed = played_word(alloc, &[FEED, COMMIT_FED, save, TAKE, COMMIT_PRINTED])?;
    check_is(
        &rt,
        &saved,
        b"0 feed 0 d2.0\n1 commit 2 end 0 0 0 plain\n2 save 0 d2.0\n",
        [true, false],
        [2, 0],
        0,
    );
    check_rest(&rt, &saved, true, 3, 2, &[]);
    check_is(
        &rt,
        &printed,
        b"0 feed 0 d2.0\n1 commit 2 end 0 0 0 plain\n2 save 0 d2.0\n3 take 0 d2.0\n4 commit 3 end 0 0 0 plain\n",
        [true, false],
        [1, 0],
        0,
    );
    check_rest(&rt, &printed, true, 5, 0, &[7]);
    Ok(())
}
