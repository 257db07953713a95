//! `FeedPhase`, a matrix from a file.
ghost use Rattle.std.specs.Prelude.{◌≡◌, ◌<◌, ◌≤◌, ◌*◌, IfOk};
ghost use Rattle.field_core.specs.Residue.{inverse};
ghost use Rattle.rank_machine.specs.Setting.{layout, group_count};
ghost use Rattle.dist_matrix.specs.Strips.{HasShape};
ghost use Rattle.dist_matrix.specs.Site.{setting_in};
ghost use Rattle.feed_laws.specs.Feeding.{feeds, rounds, feed_at, code_of, answer_of};

use array_desc::groups;
use block_world::{Mark, Mat, Round, Slot, Tile};
use dist_matrix::{Site, encode_group_on, strip};
use field_core::Field;
use phases::{Next, Phase};
use rank_machine::SlotKind;
use script_lines::Layout;
use std::alloc::{AllocError as NoMemory, Global};
use std::marker::Model;

/// Feeds the strips of a file's matrix, group by group and in each the data ranks row by row; then makes the code strips of each
/// group, where the grid has code columns; and commits.
#[derive(Drop)]
pub struct FeedPhase<'a> {
    alloc: Global,
    file: &'a Mat,
    layout: Layout,
    line: u32,
    calls: u32,
}

impl<'a> Model for FeedPhase<'a> {
    ghost use Rattle.feed_laws.specs.Feeding.{FeedView, IsFeedable};

    ghost Value = { FeedView };

    ghost view = { λ x. record { file = x.file.now; layout = x.layout; line = x.line; calls = x.calls } };

    ghost invariant = { λ x. IsFeedable x.layout x.file.now };
}

impl<'a> FeedPhase<'a> {
    /// The phase of a line of a site: its matrix comes from a file, which is to have the matrix's shape.
    pub fn new(alloc: Global, site: &Site, file: &'a Mat, line: u32) -> FeedPhase<'a>
        requires whole { HasShape (layout (setting_in site.now) line) file.now }
        ensures { result ≡ record { file = file.now; layout = layout (setting_in site.now) line; line = line; calls = 0 } }
    {
        FeedPhase {
            alloc,
            file,
            layout: site.layout(line),
            line,
            calls: 0,
        }
    }

    // How many groups the matrix has.
    fn groups(&self) -> u32
        ensures value { result ≡ group_count self.now.layout }
        ensures few { result ≤ 1024 }
    {
        groups(self.layout.desc.n, self.layout.desc.nb, self.layout.grid.q)
    }

    // How many strips are fed.
    fn feeds(&self) -> u32
        ensures value { result ≡ feeds self.now.layout }
        ensures few { result ≤ 262144 }
    {
        self.groups() * self.layout.grid.p * self.layout.grid.q
    }

    // How many rounds make the code strips.
    fn rounds(&self) -> u32
        ensures value { result ≡ rounds self.now.layout }
        ensures few { result ≤ 1024 }
    {
        if self.layout.grid.f == 0 {
            0
        } else {
            self.groups()
        }
    }

    // The strip of a number.
    fn fed<K: Field>(&self, i: u32) -> Result<Next<K>, NoMemory>
        requires { i < feeds self.now.layout }
        ensures { IfOk result (λ next. next ≡ feed_at self.now.layout self.now.file self.now.line i) }
    {
        let grid = self.layout.grid;
        let rank = grid.rank(i / grid.q % grid.p, i % grid.q);
        let slot = Slot {
            kind: SlotKind::Data,
            id: self.line,
            group: i / grid.q / grid.p,
        };
        let m = strip(
            self.alloc,
            self.file,
            &self.layout.desc,
            &grid,
            rank,
            slot.group,
        )?;
        Ok(Next::Feed(rank, slot, m))
    }

    // The round of a group.
    fn coded<K: Field>(&self, group: u32) -> Result<Next<K>, NoMemory>
        ensures { IfOk result (λ next. next ≡ code_of (inverse K.MODULUS) self.now.layout self.now.line group) }
    {
        let mut round = Round::new(self.alloc);
        encode_group_on::<K>(&mut round, self.layout, self.line, group)?;
        Ok(Next::Round(round))
    }

    // What is to be done next.
    fn answer<K: Field>(&self) -> Result<Next<K>, NoMemory>
        ensures { IfOk result (λ next. next ≡ answer_of (inverse K.MODULUS) self.now.layout self.now.file self.now.line self.now.calls) }
    {
        let feeds = self.feeds();
        if self.calls < feeds {
            return self.fed(self.calls);
        }
        if self.calls - feeds < self.rounds() {
            return self.coded(self.calls - feeds);
        }
        Ok(Next::End)
    }
}

impl<'a, K: Field> Phase<K> for FeedPhase<'a> {
    ghost use Rattle.field_core.specs.Residue.{inverse};
    ghost use Rattle.feed_laws.specs.Feeding.{FeedTask, feed_task, feed_plan, feed_progress, FeedStands, feed_ignores_spawns};
    ghost use Rattle.feed_laws.specs.Begins.{feed_can_save, feed_few_saved, feed_follows, feed_some_next, feed_enough, feed_saves_fit, feed_has_room};

    ghost Task = { FeedTask };

    ghost task = { λ x. feed_task (inverse K.MODULUS) x.file x.layout x.line };

    ghost plan = { feed_plan };

    ghost progress = { λ x. feed_progress x.layout x.calls };

    ghost stands = { λ x. FeedStands (feed_task (inverse K.MODULUS) x.file x.layout x.line) x.calls };

    ghost ignores_spawns = { feed_ignores_spawns };

    ghost can_save = { feed_can_save };

    ghost few_saved = { feed_few_saved };

    ghost mark_follows = { feed_follows };

    ghost some_next = { feed_some_next };

    ghost enough = { feed_enough };

    ghost saves_fit = { feed_saves_fit };

    ghost has_room = { feed_has_room };

    fn start(&mut self) {
        self.calls = 0;
    }

    fn save_at(&self, _i: u32) -> Option<(u32, Slot)> {
        None
    }

    fn next(&mut self, _taken: Option<Tile>) -> Result<Next<K>, NoMemory> {
        let next = self.answer::<K>()?;
        self.calls += 1;
        Ok(next)
    }

    fn mark(&self) -> Mark {
        Mark::end_of(self.line)
    }
}
