//! `Links`, one ring for each ordered pair of ranks.
ghost use Rattle.std.specs.Prelude.{◌≡◌, ◌+◌, ◌*◌, ◌<◌, ◌≤◌, ◌↔◌, [], ◌∷◌, ◌++◌, length, slice_get, IsSome, IfNone, IsOk, IfOk, OnOk, OnErr, IfErr, drop};
ghost use Rattle.rank_link.specs.Traffic.{empty_traffic, messages, with_messages};

use circular_buffer::HeapCircularBuffer;
pub use std::alloc::AllocError as NoMemory;
use std::alloc::Global;
use std::marker::Model;

/// The links among some ranks: for each ordered pair of ranks a list of messages, the first one first, of which there are
/// never more than the capacity. A contract sees the links as these lists.
///
/// Ranks count from 0. A rank has a link to itself too.
#[derive(Drop)]
pub struct Links<M> {
    ranks: u32,
    capacity: u32,
    rings: Vec<HeapCircularBuffer<M>>,
}

impl<M> Model for Links<M> {
    ghost use Rattle.rank_link.specs.Traffic.{Traffic, traffic_code};

    ghost Value = { Traffic M };

    ghost coded = { traffic_code M.code };

    ghost use Rattle.rank_link.specs.Rings.{traffic_of, AreRings};

    ghost view = { λ a. traffic_of a.ranks a.capacity a.rings.items };

    ghost invariant = { λ a. AreRings a.ranks a.capacity a.rings.items };
}

impl<M> Links<M> {
    /// Makes the links among `ranks` ranks, at most 64, each of which holds up to `capacity` messages, 1 to 64. All of them
    /// are empty.
    pub fn new(alloc: Global, ranks: u32, capacity: u32) -> Result<Self, NoMemory>
    where
        M: Drop,
        requires ranks { ranks ≤ 64 }
        requires some { 1 ≤ capacity }
        requires most { capacity ≤ 64 }
        ensures { IfOk result (λ links. links ≡ empty_traffic ranks capacity) }
    {
        let mut rings = Vec::new(alloc);
        for _ in 0..ranks * ranks {
            rings.push(HeapCircularBuffer::with_capacity(alloc, capacity as usize)?)?;
        }
        Ok(Links {
            ranks,
            capacity,
            rings,
        })
    }

    /// Returns the number of ranks.
    pub fn ranks(&self) -> u32
        ensures ranks { result ≡ self.now.ranks }
        ensures most { result ≤ 64 }
        ensures room { 1 ≤ self.now.capacity }
    {
        self.ranks
    }

    /// Returns the most messages that one link holds.
    pub fn capacity(&self) -> u32
        ensures capacity { result ≡ self.now.capacity }
        ensures within { (1 ≤ result) × (result ≤ 64) }
    {
        self.capacity
    }

    /// Returns the number of messages on one link.
    pub fn len(&self, from: u32, to: u32) -> u32
        requires from { from < self.now.ranks }
        requires to { to < self.now.ranks }
        ensures len { result ≡ length (messages self.now from to) }
        ensures within { result ≤ self.now.capacity }
    {
        let ring = &self.rings[(from * self.ranks + to) as usize];
        ring.len() as u32
    }

    /// Puts a message last on a link. It comes back, and nothing changes, exactly where the link holds as many messages as
    /// its capacity.
    pub fn send(&mut self, from: u32, to: u32, msg: M) -> Result<(), M>
        requires from { from < self.old.ranks }
        requires to { to < self.old.ranks }
        ensures room { IsOk result ↔ (length (messages self.old from to) < self.old.capacity) }
        ensures ok { OnOk result (self.new ≡ with_messages self.old from to (messages self.old from to ++ msg ∷ [])) }
        ensures back { IfErr result (λ back. back ≡ msg) }
        ensures err { OnErr result (self.new ≡ self.old) }
    {
        let place = (from * self.ranks + to) as usize;
        let ring = &mut self.rings[place];
        ring.try_push_back(msg)
    }

    /// Takes the first message of a link. The answer is None, and nothing changes, exactly where the link is empty.
    pub fn receive(&mut self, to: u32, from: u32) -> Option<M>
        requires from { from < self.old.ranks }
        requires to { to < self.old.ranks }
        ensures some { IsSome result ↔ (0 < length (messages self.old from to)) }
        ensures first { result ≡ slice_get (messages self.old from to) 0 }
        ensures rest { self.new ≡ with_messages self.old from to (drop 1 (messages self.old from to)) }
        ensures none { IfNone result (self.new ≡ self.old) }
    {
        let place = (from * self.ranks + to) as usize;
        let ring = &mut self.rings[place];
        ring.pop_front()
    }

    /// Takes all messages of one link away.
    pub fn drain(&mut self, from: u32, to: u32)
    where
        M: Drop,
        requires from { from < self.old.ranks }
        requires to { to < self.old.ranks }
        ensures { self.new ≡ with_messages self.old from to [] }
    {
        let place = (from * self.ranks + to) as usize;
        let ring = &mut self.rings[place];
        ring.clear();
    }

    /// Takes all messages of every link away.
    pub fn clear(&mut self)
    where
        M: Drop,
        ensures { self.new ≡ empty_traffic self.old.ranks self.old.capacity }
    {
        for ring in self.rings.iter_mut() {
            ring.clear();
        }
    }
}
