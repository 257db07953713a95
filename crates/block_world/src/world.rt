//! The world of ranks.
ghost use Rattle.std.specs.Prelude.{◌≡◌, ◌<◌, ◌-◌, ◌^◌, ℕ, [], true, false, All, is_some, min, IfOk, OnOk, OnErr, IsOk, List};
ghost use Rattle.rank_run.specs.Action.{Action};
ghost use Rattle.rank_run.specs.Parts.{IsWithin};
ghost use Rattle.rank_machine.specs.declared.kernel.Kernel.{Kernel};
ghost use Rattle.rank_machine.specs.declared.slot.Piece.{Piece};
ghost use Rattle.run_data.specs.Script.{commands_of, spares_of};
ghost use Rattle.rank_machine.specs.Scripts.{capacity_from, setting_of};
ghost use Rattle.rank_machine.specs.Setting.{ranks, is_matrix};
ghost use Rattle.rank_machine.specs.declared.slot.Slot.{Slot};
ghost use Rattle.rank_machine.specs.Effect.{strip};
ghost use Rattle.rank_machine.specs.Legal.{IsLegal, IsLegalRec, IsLegalFrom};
ghost use Rattle.rank_machine.specs.declared.record.Rec.TheVariants.{Feed, Save, Take, Restore, Spawn, Commit};
ghost use Rattle.rank_slots.specs.Stands.{records_of};
ghost use Rattle.rank_slots.specs.Cells.{IsSomeTileOf};
ghost use Rattle.script_lines.specs.Sound.{IsSound};
ghost use Rattle.run_laws.specs.Due.{AreInPlace};
ghost use Rattle.run_laws.specs.Spares.{spawns};
ghost use Rattle.block_world.specs.Rounds.{IsRoundOf, AreWordsHeld};

use crate::keeper::Keeper;
use crate::ranks::{
    commit_all, flag_on, has_flag, is_live_on, lose_ranks, lower_all, no_flags, opened_ranks,
    put_on, ranks_of, restart_all, restore_all, save_on, spawn_on, tile_on, words_on,
};
use field_core::Field;
use rank_link::Links;
use rank_machine::{Loss, Mark, Rec, Slot, Tile};
use rank_memory::RankMem;
use rank_run::{Order, Ran, Round, run_round};
use run_data::{Command, Files, Mat, Script};
use std::alloc::{AllocError, Global};
use std::marker::Model;

/// What became of a step: it was made, or a loss is due before it and nothing has changed.
#[derive(Clone, Copy)]
pub enum Did {
    Done,
    Hit,
}

/// What became of a take: the tile that the slot holds, or a loss is due before it and nothing has changed.
#[derive(Drop)]
pub enum Taken {
    Tile(Tile),
    Hit,
}

/// What the ranks hold and what is on its way, and the journal of the records that made it so. Clauses see a world as its
/// script, its files, its journal and the room that is left; what the ranks hold is the replay of the journal, which is legal.
#[derive(Drop)]
pub struct World<'a, K: Field> {
    alloc: Global,
    script: &'a Script,
    files: &'a Files,
    mems: Vec<RankMem<K>>,
    links: Links<Tile>,
    mark: Mark,
    lost: Vec<bool>,
    keeper: Keeper,
}

impl<'a, K: Field> Model for World<'a, K> {
    ghost use Rattle.std.specs.Coded.{codes};
    ghost use Rattle.rank_run.specs.Machine.{machine};
    ghost use Rattle.block_world.specs.World.{WorldView, files_code};

    ghost Value = { WorldView };

    ghost coded = { Prim.hlevel (codes, files_code) };

    ghost use Rattle.block_world.specs.Replay.{view_of, IsReplay};

    ghost view = { λ w. view_of w.script.now w.files.now w.keeper };

    ghost invariant = { λ w. IsReplay K.MODULUS (view_of w.script.now w.files.now w.keeper) w.keeper.losses (machine w.mems.items w.links) w.mark w.lost.items };
}

// How many messages a link holds: what the `links` line says, and 1 where there is none.
fn capacity_of(script: &Script) -> u32
    ensures { result ≡ capacity_from 1 (commands_of script.now) }
{
    let lines = script.as_slice();
    let mut capacity = 1;
    for i in 0..lines.len() {
        if let Some(Command::Links { n }) = &lines[i] {
            capacity = *n;
        }
    }
    capacity
}

impl<'a, K: Field> World<'a, K> {
    ghost use Rattle.block_world.specs.World.{setting_in, state_of, steps_of, is_due, is_hurt, fallen};
    ghost use Rattle.block_world.specs.Did.{IsDid, IsTaken};

    /// A world in which nothing has happened yet, with room for so many numbered records and all losses. The losses are those of the
    /// script, in its order.
    pub fn open(
        alloc: Global,
        script: &'a Script,
        files: &'a Files,
        losses: &[Loss],
        room: u32,
    ) -> Result<World<'a, K>, AllocError>
        requires sound { IsSound K.MODULUS (setting_of script.now files.now) }
        requires losses { losses.now ≡ (setting_of script.now files.now).losses }
        ensures { IfOk result (λ w. w ≡ record { script = script.now; files = files.now; journal = []; room = room }) }
    {
        let mems = opened_ranks(alloc, script)?;
        let links = Links::new(alloc, ranks_of(script), capacity_of(script))?;
        let lost = no_flags(alloc, ranks_of(script))?;
        let keeper = Keeper::new(alloc, losses, room)?;
        Ok(World {
            alloc,
            script,
            files,
            mems,
            links,
            mark: Mark::first(),
            lost,
            keeper,
        })
    }

    /// Whether a loss is due: one that is to fall directly before the next record, and has not fallen.
    pub fn due(&self) -> bool
        ensures { result ≡ is_due self.now }
    {
        self.keeper.due()
    }

    /// The losses that are due fall, in the order of the script: each of their ranks is lost, with its memory and its messages. It takes
    /// no memory.
    pub fn fall(&mut self)
        requires { is_due self.old ≡ true }
        ensures { self.new ≡ fallen self.old }
    {
        lose_ranks(
            &mut self.mems,
            &mut self.links,
            &mut self.lost,
            self.keeper.losses(),
            self.keeper.steps(),
        );
        self.keeper.fall();
    }

    /// Feeds the file's padded strip to a slot. After an error nothing has changed.
    pub fn feed(&mut self, rank: u32, slot: Slot, m: Mat) -> Result<Did, AllocError>
        requires legal { IsLegalRec (setting_in self.old) (state_of self.old) (Feed rank slot) }
        requires brings { strip (setting_in self.old) rank slot ≡ Tile.Words m }
        ensures did { IfOk result (λ d. IsDid d self.old self.new (Feed rank slot)) }
        ensures kept { OnErr result (self.new ≡ self.old) }
    {
        if self.keeper.due() {
            return Ok(Did::Hit);
        }
        let room = self.keeper.room();
        self.keeper.note(Rec::Feed(rank, slot))?;
        match put_on(&mut self.mems, rank, slot, Tile::Words(m)) {
            Ok(()) => Ok(Did::Done),
            Err(error) => {
                self.keeper.take_back(room);
                Err(error)
            }
        }
    }

    /// Saves a copy of a slot that is not fresh. After an error nothing has changed.
    pub fn save(&mut self, rank: u32, slot: Slot) -> Result<Did, AllocError>
        requires legal { IsLegalRec (setting_in self.old) (state_of self.old) (Save rank slot) }
        ensures did { IfOk result (λ d. IsDid d self.old self.new (Save rank slot)) }
        ensures kept { OnErr result (self.new ≡ self.old) }
    {
        if self.keeper.due() {
            return Ok(Did::Hit);
        }
        let room = self.keeper.room();
        self.keeper.note(Rec::Save(rank, slot))?;
        match save_on(&mut self.mems, rank, slot) {
            Ok(()) => Ok(Did::Done),
            Err(error) => {
                self.keeper.take_back(room);
                Err(error)
            }
        }
    }

    /// Takes a copy of the tile that a slot holds. After an error nothing has changed.
    pub fn take(&mut self, rank: u32, slot: Slot) -> Result<Taken, AllocError>
        requires legal { IsLegalRec (setting_in self.old) (state_of self.old) (Take rank slot) }
        ensures taken { IfOk result (λ t. IsTaken t self.old self.new rank slot) }
        ensures kept { OnErr result (self.new ≡ self.old) }
    {
        if self.keeper.due() {
            return Ok(Taken::Hit);
        }
        let tile = match tile_on(&self.mems, rank, slot) {
            Some(tile) => tile.copy(self.alloc)?,
            None => unreachable!(),
        };
        self.keeper.note(Rec::Take(rank, slot))?;
        Ok(Taken::Tile(tile))
    }

    /// Commits under a mark: what is not live under it goes, and no rank counts as lost any more. The record says that it ends a
    /// recovery exactly where a rank was lost since the last commit. It never wants memory while there is room. After an error
    /// nothing has changed.
    pub fn commit(&mut self, mark: Mark) -> Result<Did, AllocError>
        requires legal { IsLegalRec (setting_in self.old) (state_of self.old) (Commit mark (is_hurt self.old)) }
        ensures did { IfOk result (λ d. IsDid d self.old self.new (Commit mark (is_hurt self.old))) }
        ensures kept { OnErr result (self.new ≡ self.old) }
        ensures memory { 0 < self.old.room → IsOk result }
    {
        if self.keeper.due() {
            return Ok(Did::Hit);
        }
        let healed = has_flag(&self.lost);
        self.keeper.note(Rec::Commit(mark, healed))?;
        commit_all(&mut self.mems, mark);
        lower_all(&mut self.lost);
        self.mark = mark;
        Ok(Did::Done)
    }

    /// Every live rank falls back: what was saved goes back, and what is fresh goes; nothing is on its way any more. It never wants
    /// memory while there is room. After an error nothing has changed.
    pub fn restore(&mut self) -> Result<Did, AllocError>
        ensures did { IfOk result (λ d. IsDid d self.old self.new Restore) }
        ensures kept { OnErr result (self.new ≡ self.old) }
        ensures memory { 0 < self.old.room → IsOk result }
    {
        if self.keeper.due() {
            return Ok(Did::Hit);
        }
        self.keeper.note(Rec::Restore)?;
        restore_all(&mut self.mems);
        self.links.clear();
        Ok(Did::Done)
    }

    /// A lost rank is replaced by one that holds nothing. It never wants memory while there is room. After an error nothing has changed.
    pub fn spawn(&mut self, rank: u32) -> Result<Did, AllocError>
        requires legal { IsLegalRec (setting_in self.old) (state_of self.old) (Spawn rank) }
        ensures did { IfOk result (λ d. IsDid d self.old self.new (Spawn rank)) }
        ensures kept { OnErr result (self.new ≡ self.old) }
        ensures memory { 0 < self.old.room → IsOk result }
    {
        if self.keeper.due() {
            return Ok(Did::Hit);
        }
        self.keeper.note(Rec::Spawn(rank))?;
        spawn_on(&mut self.mems, rank);
        Ok(Did::Done)
    }

    /// Runs a round on empty links, under an order: each step adds its record. Taken in the order of the list the records of the round's
    /// events are legal here, and what they lead to is the state after a whole round. It is hit exactly where a loss was due before
    /// one of its steps. After any number of the steps each rank holds what some first events of the round give it, one after the
    /// other in list order.
    /// After an error the world is one that has just been opened, without room.
    pub fn run(&mut self, round: &Round<RankMem<K>>, order: &mut Order) -> Result<Ran, AllocError>
        requires links { (from to : ℕ) → (state_of self.old).links from to ≡ [] }
        requires ranks { All (IsWithin (ranks (setting_in self.old))) round.now }
        requires legal { IsLegalFrom (setting_in self.old) (state_of self.old) (records_of round.now) }
        ensures { IfOk result (λ ended. (noted : List (Action Kernel Piece)) × IsRoundOf self.old self.new round.now order.old order.new ended noted) }
    {
        match run_round(
            self.alloc,
            &mut self.mems,
            &mut self.links,
            round,
            order,
            &mut self.keeper,
        ) {
            Ok(ended) => Ok(ended),
            Err(error) => {
                restart_all(&mut self.mems);
                self.links.clear();
                lower_all(&mut self.lost);
                self.keeper.restart();
                self.mark = Mark::first();
                Err(error)
            }
        }
    }

    /// How many numbered records the journal has.
    pub fn steps(&self) -> u32
        ensures { result ≡ steps_of self.now }
    {
        self.keeper.steps()
    }

    /// For how many more numbered records there is room.
    pub fn room(&self) -> u32
        ensures { result ≡ self.now.room }
    {
        self.keeper.room()
    }

    /// The mark of the last commit, or that before the first one.
    pub fn mark(&self) -> Mark
        ensures { result ≡ (state_of self.now).mark }
    {
        self.mark
    }

    /// Whether a rank is live.
    pub fn is_live(&self, rank: u32) -> bool
        ensures { result ≡ (state_of self.now).live rank }
    {
        is_live_on(&self.mems, rank)
    }

    /// Whether a rank was lost since the last commit.
    pub fn was_lost(&self, rank: u32) -> bool
        ensures { result ≡ (state_of self.now).lost rank }
    {
        flag_on(&self.lost, rank)
    }

    /// How many lost ranks have been replaced.
    pub fn spawns(&self) -> u32
        ensures { result ≡ spawns self.now.journal }
    {
        self.keeper.spawns()
    }

    /// How many lost ranks can be replaced in the whole run: what the `spares` line of the script says. None exactly where there is no
    /// such line: there is no limit then.
    pub fn spares(&self) -> Option<u32>
        ensures { result ≡ spares_of (commands_of self.now.script) }
    {
        self.script.spares()
    }

    /// Whether a rank holds a slot.
    pub fn holds(&self, rank: u32, slot: Slot) -> bool
        ensures { result ≡ is_some ((state_of self.now).tiles rank slot) }
    {
        tile_on(&self.mems, rank, slot).is_some()
    }

    /// How many words a rank holds, and was saved of them: those of its tiles, and one for each number of a list. A number that
    /// does not fit counts as the greatest that does.
    pub fn words_held(&self, rank: u32) -> u64
        ensures { (n : ℕ) × AreWordsHeld (state_of self.now) rank n × (result ≡ min n (2 ^ 64 - 1)) }
    {
        words_on(&self.mems, rank)
    }

    /// The journal. It is legal for the world's script and files, and every word that a rank holds after it is a residue. The losses of each number below the next one stand directly before
    /// its record, in the order of the script; those of the next number stand at its end where they have fallen; no others stand
    /// anywhere.
    pub fn journal(&self) -> &[Rec]
        ensures value { result.now ≡ self.now.journal }
        ensures legal { IsLegal (setting_in self.now) self.now.journal }
        ensures in_place { AreInPlace (setting_in self.now) self.now.journal }
        ensures sound { IsSound K.MODULUS (setting_in self.now) }
        ensures residues { (rank : ℕ) (slot : Slot) → IsSomeTileOf K.MODULUS ((state_of self.now).tiles rank slot) }
        ensures no_line { is_matrix (setting_in self.now) 0 ≡ false }
    {
        self.keeper.journal()
    }
}
