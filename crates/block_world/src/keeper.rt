//! The journal, the room that is left in it, and the losses that fall in it.
ghost use Rattle.std.specs.Prelude.{◌≡◌, ◌<◌, ◌≤◌, ◌+◌, ◌-◌, ◌^◌, ◌&&◌, ◌++◌, ◌∷◌, [], true, false, nat_le, if◌then◌else◌, Some, length, take, OnOk, OnErr, IfOk, IsOk, vec_len, vec_capacity};
ghost use Rattle.rank_machine.specs.declared.record.Rec.{Rec};
ghost use Rattle.rank_machine.specs.Losses.{falls, is_numbered};
ghost use Rattle.run_laws.specs.Due.{numbered, has_fallen, is_due_in};
ghost use Rattle.run_laws.specs.Spares.{spawns};
ghost use Rattle.block_world.specs.Log.{Log, recorded, is_due_next, with_falls_next, empty_log};
ghost use Rattle.block_world.specs.Kept.{IsNextAt, comes_first};

use field_core::Field;
use rank_link::NoMemory;
use rank_machine::{Loss, Rec};
use rank_memory::RankMem;
use rank_run::{Notary, Step};
use std::alloc::{AllocError, Global};
use std::marker::Model;

/// Keeps the journal, the room that is left for more numbered records, and the losses that fall in it.
#[derive(Drop)]
pub struct Keeper {
    losses: Vec<Loss>,
    journal: Vec<Rec>,
    steps: u32,
    next: Option<u32>,
    room: u32,
}

impl Model for Keeper {
    ghost use Rattle.block_world.specs.Log.{Log};

    ghost Value = { Log };

    ghost use Rattle.block_world.specs.Kept.{log_of, IsKept};

    ghost view = { log_of };

    ghost invariant = { IsKept };
}

// The earlier of a number and the earliest so far, where the number is not below `from`.
fn earlier(at: u32, from: u64, earliest: Option<u32>) -> Option<u32>
    ensures { result ≡ (if nat_le from at && comes_first at earliest then Some at else earliest) }
{
    if u64::from(at) < from {
        return earliest;
    }
    match earliest {
        Some(other) if other <= at => Some(other),
        _ => Some(at),
    }
}

// The least number, from one on, at which a loss falls.
fn next_at(losses: &[Loss], from: u64) -> Option<u32>
    ensures { IsNextAt losses.now from result }
{
    let mut next = None;
    for loss in losses {
        next = earlier(loss.at, from, next);
    }
    next
}

// Makes room for one more record and so many losses, where there is none. It never wants memory while there is room.
fn make_room(journal: &mut Vec<Rec>, steps: u32, room: u32, losses: usize) -> Result<(), AllocError>
    requires few { steps + room < 2 ^ 32 }
    requires losses { losses < 2 ^ 60 }
    ensures items { journal.new.items ≡ journal.old.items }
    ensures len { vec_len journal.new ≡ vec_len journal.old }
    ensures capacity { vec_capacity journal.old ≤ vec_capacity journal.new }
    ensures ok { OnOk result (room ≡ 0 → vec_len journal.new + losses < vec_capacity journal.new) }
    ensures few { OnOk result (steps + 1 < 2 ^ 32) }
    ensures memory { 0 < room → IsOk result }
{
    if room == 0 {
        if steps == u32::MAX {
            return Err(AllocError);
        }
        journal.reserve(losses + 1)?;
    }
    Ok(())
}

// Adds a record, for which there is room.
fn push(journal: &mut Vec<Rec>, added: Rec)
    requires { vec_len journal.old < vec_capacity journal.old }
    ensures items { journal.new.items ≡ journal.old.items ++ added ∷ [] }
    ensures len { vec_len journal.new ≡ vec_len journal.old + 1 }
    ensures capacity { vec_capacity journal.old ≤ vec_capacity journal.new }
{
    let _ = journal.push(added);
}

// Adds the losses of a number, for which there is room.
fn push_losses(journal: &mut Vec<Rec>, losses: &[Loss], at: u32)
    requires { vec_len journal.old + length (falls losses.now at) ≤ vec_capacity journal.old }
    ensures items { journal.new.items ≡ journal.old.items ++ falls losses.now at }
    ensures len { vec_len journal.new ≡ vec_len journal.old + length (falls losses.now at) }
    ensures capacity { vec_capacity journal.old ≤ vec_capacity journal.new }
{
    for loss in losses {
        if loss.at == at {
            push(journal, Rec::Lose(loss.rank));
        }
    }
}

// How many of some records spawn a rank.
fn spawns_in(journal: &[Rec]) -> u32
    requires few { numbered journal.now < 2 ^ 32 }
    ensures { result ≡ spawns journal.now }
{
    let mut count = 0;
    for i in 0..journal.len() {
        if let Rec::Spawn(_) = journal[i] {
            count += 1;
        }
    }
    count
}

impl Keeper {
    /// An empty journal with room for so many numbered records and all these losses.
    pub fn new(alloc: Global, losses: &[Loss], room: u32) -> Result<Keeper, AllocError>
        ensures { IfOk result (λ k. k ≡ empty_log losses.now room) }
    {
        let losses = losses.to_vec(alloc)?;
        let journal = Vec::with_capacity(alloc, room as usize + losses.len())?;
        let next = next_at(&losses, 0);
        Ok(Keeper {
            losses,
            journal,
            steps: 0,
            next,
            room,
        })
    }

    /// Whether a loss is due before the next record.
    pub fn due(&self) -> bool
        ensures { result ≡ is_due_next self.now }
    {
        match self.next {
            Some(at) => at == self.steps,
            None => false,
        }
    }

    /// Puts a numbered record last. It never wants memory while there is room. After an error the journal is what it was.
    pub fn note(&mut self, added: Rec) -> Result<(), AllocError>
        requires numbered { is_numbered added ≡ true }
        requires due { is_due_next self.old ≡ false }
        ensures noted { OnOk result (self.new ≡ recorded self.old added) }
        ensures kept { OnErr result (self.new ≡ self.old) }
        ensures memory { 0 < self.old.room → IsOk result }
    {
        make_room(&mut self.journal, self.steps, self.room, self.losses.len())?;
        push(&mut self.journal, added);
        self.steps += 1;
        self.room = self.room.saturating_sub(1);
        Ok(())
    }

    /// Takes the last record back, where the room was that before it was put, and no loss was due then.
    pub fn take_back(&mut self, room: u32)
        requires some { 0 < length self.old.journal }
        requires numbered { has_fallen self.old.journal ≡ false }
        requires due { is_due_in self.old.losses (take (length self.old.journal - 1) self.old.journal) ≡ false }
        requires room { room ≤ self.old.room + 1 }
        ensures { (log : Log) (last : Rec) → self.old ≡ recorded log last → room ≡ log.room → self.new ≡ log }
    {
        let _ = self.journal.pop();
        self.steps = self.steps.saturating_sub(1);
        self.room = room;
    }

    /// Puts the losses of the next record last.
    pub fn fall(&mut self)
        requires { is_due_next self.old ≡ true }
        ensures { self.new ≡ with_falls_next self.old }
    {
        push_losses(&mut self.journal, &self.losses, self.steps);
        self.next = next_at(&self.losses, u64::from(self.steps) + 1);
    }

    /// Forgets all records, and has no room.
    pub fn restart(&mut self)
        ensures { self.new ≡ empty_log self.old.losses 0 }
    {
        self.journal.clear();
        self.steps = 0;
        self.next = next_at(&self.losses, 0);
        self.room = 0;
    }

    /// The losses, in the order of the script.
    pub fn losses(&self) -> &[Loss]
        ensures { result.now ≡ self.now.losses }
    {
        &self.losses
    }

    /// The records.
    pub fn journal(&self) -> &[Rec]
        ensures { result.now ≡ self.now.journal }
    {
        &self.journal
    }

    /// How many of the records spawn a rank.
    pub fn spawns(&self) -> u32
        ensures { result ≡ spawns self.now.journal }
    {
        spawns_in(&self.journal)
    }

    /// How many numbered records there are.
    pub fn steps(&self) -> u32
        ensures { result ≡ numbered self.now.journal }
    {
        self.steps
    }

    /// For how many more numbered records there is room.
    pub fn room(&self) -> u32
        ensures { result ≡ self.now.room }
    {
        self.room
    }
}

impl<K: Field> Notary<RankMem<K>> for Keeper {
    ghost use Rattle.rank_slots.specs.Stands.{rec_of};

    ghost noting = { λ log step. recorded log (rec_of step) };

    ghost is_due = { λ log. is_due_next log };

    ghost unheard = { λ log. empty_log log.losses 0 };

    fn due(&self) -> bool {
        self.due()
    }

    fn note(&mut self, step: &Step<'_, RankMem<K>>) -> Result<(), NoMemory> {
        self.note(match *step {
            Step::Local(rank, kernel) => Rec::Kernel(rank, *kernel),
            Step::Send(from, to, piece) => Rec::Send(from, to, *piece),
            Step::Recv(to, from, piece) => Rec::Recv(to, from, *piece),
        })
    }
}
