//! Rounds on four ranks, under several orders and capacities of the links.
ghost use Rattle.std.specs.Prelude.{◌≡◌, ◌++◌, ◌∷◌, [], Some};
ghost use Rattle.rank_machine.specs.Scripts.{setting_of};
ghost use Rattle.script_lines.specs.Sound.{IsSound};
ghost use Rattle.world_tests.specs.FourRanks as four;
ghost use Rattle.world_tests.specs.FourRanks.{CanRunRound};

use block_world::{
    Command, Event, Files, Kernel, Order, Piece, RankMem, Rec, Round, Script, Slot, SlotKind, Word,
    World,
};
use field_core::F65537;
use std::alloc::Global;
use std::process::Abort;

/// What a run of a round leaves: a letter for each record of the journal, and how many words each of the four ranks holds.
#[derive(Drop)]
struct Left {
    letters: Vec<u8>,
    words: [u64; 4],
}

fn push_line(rt: &impl Abort, script: &mut Script, line: Command)
    ensures { script.new ≡ script.old ++ Some line ∷ [] }
{
    script.push(Some(line)).expect(rt, "memory");
}

/// Four ranks, whose links hold so many messages.
#[tactic(auto, unfolding(crate::specs::FourRanks::lines))]
fn four_ranks(rt: &impl Abort, alloc: Global, capacity: u32) -> Script
    ensures { result ≡ four.lines capacity }
{
    let mut script = Script::new(alloc);
    let name = Word::new(alloc, b"g").expect(rt, "memory");
    push_line(
        rt,
        &mut script,
        Command::Grid {
            name,
            p: 2,
            q: 2,
            f: 0,
        },
    );
    push_line(rt, &mut script, Command::Links { n: capacity });
    script
}

/// A slot of no line.
fn work(id: u32) -> Slot
    ensures { result ≡ four.work id }
{
    Slot {
        kind: SlotKind::Work,
        id,
        group: 0,
    }
}

/// A whole slot of no line.
fn piece(id: u32) -> Piece
    ensures { result ≡ Piece.Whole (four.work id) }
{
    Piece::Whole(work(id))
}

fn push(rt: &impl Abort, round: &mut Round<RankMem<F65537>>, event: Event<RankMem<F65537>>)
    ensures { round.new ≡ round.old ++ event ∷ [] }
{
    round.push(event).expect(rt, "memory");
}

/// A tile of a zero on rank 0 goes to rank 1 twice.
#[tactic(auto, unfolding(crate::specs::FourRanks::two_moves))]
fn two_moves(rt: &impl Abort, alloc: Global) -> Round<RankMem<F65537>>
    ensures { result ≡ four.two_moves }
{
    let mut round = Round::new(alloc);
    push(rt, &mut round, Event::Local(0, Kernel::Zero(work(1), 1, 1)));
    push(rt, &mut round, Event::Move(0, 1, piece(1), piece(1)));
    push(rt, &mut round, Event::Move(0, 1, piece(1), piece(1)));
    round
}

/// A tile of two zeros goes round four ranks, and one of them copies it.
#[tactic(auto, unfolding(crate::specs::FourRanks::round_trip))]
fn round_trip(rt: &impl Abort, alloc: Global) -> Round<RankMem<F65537>>
    ensures { result ≡ four.round_trip }
{
    let mut round = Round::new(alloc);
    push(rt, &mut round, Event::Local(0, Kernel::Zero(work(1), 2, 1)));
    push(rt, &mut round, Event::Move(0, 1, piece(1), piece(1)));
    push(
        rt,
        &mut round,
        Event::Local(1, Kernel::Copy(piece(2), piece(1))),
    );
    push(rt, &mut round, Event::Move(1, 2, piece(2), piece(1)));
    push(rt, &mut round, Event::Move(2, 3, piece(1), piece(1)));
    push(rt, &mut round, Event::Move(3, 0, piece(1), piece(2)));
    round
}

fn order_of(rt: &impl Abort, alloc: Global, numbers: &[u32]) -> Order {
    let mut order = Order::new(alloc);
    for number in numbers {
        order.push(*number).expect(rt, "memory");
    }
    order
}

/// A letter for each record: a kernel, a send, a receive, or another.
fn letters_of(rt: &impl Abort, alloc: Global, journal: &[Rec]) -> Vec<u8> {
    let mut letters = Vec::new(alloc);
    for record in journal {
        let letter = match record {
            Rec::Kernel(_, _) => b'k',
            Rec::Send(_, _, _) => b's',
            Rec::Recv(_, _, _) => b'r',
            _ => b'?',
        };
        letters.push(letter).expect(rt, "memory");
    }
    letters
}

fn left_of(rt: &impl Abort, alloc: Global, world: &World<'_, F65537>) -> Left {
    let words = [
        world.words_held(0),
        world.words_held(1),
        world.words_held(2),
        world.words_held(3),
    ];
    let letters = letters_of(rt, alloc, world.journal());
    Left { letters, words }
}

/// A world in which nothing has happened.
fn opened<'a>(
    rt: &impl Abort,
    alloc: Global,
    script: &'a Script,
    files: &'a Files,
) -> World<'a, F65537>
    requires sound { IsSound 65537 (setting_of script.now files.now) }
    requires losses { (setting_of script.now files.now).losses ≡ [] }
    ensures { result ≡ record { script = script.now; files = files.now; journal = []; room = 0 } }
{
    match World::open(alloc, script, files, &[], 0) {
        Ok(world) => world,
        Err(_) => panic!(rt; "no memory"),
    }
}

/// Runs a round in a new world.
fn run_of(
    rt: &impl Abort,
    alloc: Global,
    script: &Script,
    files: &Files,
    round: &Round<RankMem<F65537>>,
    numbers: &[u32],
) -> Left
    requires { CanRunRound script.now files.now round.now }
{
    let mut order = order_of(rt, alloc, numbers);
    let mut world = opened(rt, alloc, script, files);
    match world.run(round, &mut order) {
        Ok(_) => left_of(rt, alloc, &world),
        Err(_) => panic!(rt; "no memory"),
    }
}

/// Stops where a run left another journal, or other words.
fn check_run(rt: &impl Abort, left: &Left, letters: &[u8], words: [u64; 4]) {
    assert_eq!(rt; left.letters.as_slice(), letters);
    assert_eq!(rt; left.words, words);
}

/// Stops where a run left a journal of another length, or other words.
fn check_length(rt: &impl Abort, left: &Left, length: usize, words: [u64; 4]) {
    assert_eq!(rt; (left.letters.len(), left.words), (length, words));
}

/// Two moves under an order, over links of one message.
fn moved_one(rt: &impl Abort, alloc: Global, numbers: &[u32]) -> Left {
    let files = Files::new(alloc);
    let script = four_ranks(rt, alloc, 1);
    let round = two_moves(rt, alloc);
    run_of(rt, alloc, &script, &files, &round, numbers)
}

/// Two moves under an order, over links of two messages.
fn moved_two(rt: &impl Abort, alloc: Global, numbers: &[u32]) -> Left {
    let files = Files::new(alloc);
    let script = four_ranks(rt, alloc, 2);
    let round = two_moves(rt, alloc);
    run_of(rt, alloc, &script, &files, &round, numbers)
}

/// A round trip under an order, over links of one message.
fn went_round_one(rt: &impl Abort, alloc: Global, numbers: &[u32]) -> Left {
    let files = Files::new(alloc);
    let script = four_ranks(rt, alloc, 1);
    let round = round_trip(rt, alloc);
    run_of(rt, alloc, &script, &files, &round, numbers)
}

/// A round trip under an order, over links of three messages.
fn went_round_three(rt: &impl Abort, alloc: Global, numbers: &[u32]) -> Left {
    let files = Files::new(alloc);
    let script = four_ranks(rt, alloc, 3);
    let round = round_trip(rt, alloc);
    run_of(rt, alloc, &script, &files, &round, numbers)
}

#[test]
fn schedules(rt: HostRuntime) {
    let alloc = rt.alloc();
    let narrow = moved_one(&rt, alloc, &[]);
    let wide = moved_two(&rt, alloc, &[]);
    let turns = moved_two(&rt, alloc, &[0, 0, 1]);
    let ordered = moved_two(&rt, alloc, &[0, 0, 2, 0]);
    check_run(&rt, &narrow, b"ksrsr", [1, 1, 0, 0]);
    check_run(&rt, &wide, b"kssrr", [1, 1, 0, 0]);
    check_run(&rt, &turns, b"ksrsr", [1, 1, 0, 0]);
    check_run(&rt, &ordered, b"kssrr", [1, 1, 0, 0]);
}

#[test]
fn any_order(rt: HostRuntime) {
    let narrow = went_round_one(&rt, rt.alloc(), &[]);
    let wide = went_round_three(&rt, rt.alloc(), &[5, 3, 1, 7]);
    check_length(&rt, &narrow, 10, [4, 4, 2, 2]);
    check_length(&rt, &wide, 10, [4, 4, 2, 2]);
}
