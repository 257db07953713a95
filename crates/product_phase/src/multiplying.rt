//! `ProductPhase`, one group of a product.
ghost use Rattle.std.specs.Prelude.{◌≡◌, ◌≤◌, ◌*◌, IfOk};
ghost use Rattle.blacs_grid.specs.Places.{width};
ghost use Rattle.phases.specs.declared.phase.Next.TheVariants as n;
ghost use Rattle.product_rounds.specs.Rounds.{IsOnGrid, group_events};
ghost use Rattle.product_laws.specs.Multiplying.{product_answer};

use block_world::{Mark, Round, Slot, Tile};
use field_core::Field;
use phases::{Next, Phase};
use product_rounds::{GroupProduct, multiply_group, strip_slot};
use std::alloc::{AllocError as NoMemory, Global};
use std::marker::Model;

/// Saves the strips of a group of C, multiplies them by BETA and adds ALPHA times the products of all block columns of A with the block rows of B, on data
/// and code columns alike, and commits under a mark.
#[derive(Drop)]
pub struct ProductPhase {
    alloc: Global,
    product: GroupProduct,
    mark: Mark,
    calls: u32,
}

impl Model for ProductPhase {
    ghost use Rattle.product_rounds.specs.Rounds.{IsOnGrid};
    ghost use Rattle.product_laws.specs.Multiplying.{ProductView};

    ghost Value = { ProductView };

    ghost view = { λ x. record { x = x.product; mark = x.mark; calls = x.calls } };

    ghost invariant = { λ x. IsOnGrid x.product };
}

impl ProductPhase {
    /// The phase of a group of a product, which commits under a mark.
    pub fn new(alloc: Global, product: GroupProduct, mark: Mark) -> ProductPhase
        requires on_grid { IsOnGrid product }
        ensures { result ≡ record { x = product; mark = mark; calls = 0 } }
    {
        ProductPhase {
            alloc,
            product,
            mark,
            calls: 0,
        }
    }

    // The round of the group.
    fn multiplied<K: Field>(&self) -> Result<Next<K>, NoMemory>
        ensures { IfOk result (λ next. next ≡ n.Round (group_events self.now.x)) }
    {
        let mut round = Round::new(self.alloc);
        multiply_group::<K>(&mut round, &self.product)?;
        Ok(Next::Round(round))
    }

    // What is to be done next.
    fn answer<K: Field>(&self) -> Result<Next<K>, NoMemory>
        ensures { IfOk result (λ next. next ≡ product_answer self.now.x self.now.calls) }
    {
        if self.calls == 0 {
            return self.multiplied();
        }
        Ok(Next::End)
    }

    // How many strips are saved.
    fn saves(&self) -> u32
        ensures value { result ≡ self.now.x.grid.p * width self.now.x.grid }
        ensures few { result ≤ 64 }
    {
        self.product.grid.p * self.product.grid.width()
    }
}

impl<K: Field> Phase<K> for ProductPhase {
    ghost use Rattle.product_laws.specs.Multiplying.{ProductTask, product_task, product_plan, product_progress, ProductStands};
    ghost use Rattle.product_laws.proofs.Begins.{product_ignores_spawns, product_can_save, product_few_saved, product_follows, product_some_next, product_enough, product_saves_fit, product_has_room};

    ghost Task = { ProductTask };

    ghost task = { λ x. product_task x.x x.mark };

    ghost plan = { product_plan };

    ghost progress = { λ x. product_progress x.x x.calls };

    ghost stands = { λ x. ProductStands (product_task x.x x.mark) x.calls };

    ghost ignores_spawns = { product_ignores_spawns };

    ghost can_save = { product_can_save };

    ghost few_saved = { product_few_saved };

    ghost mark_follows = { product_follows };

    ghost some_next = { product_some_next };

    ghost enough = { product_enough };

    ghost saves_fit = { product_saves_fit };

    ghost has_room = { product_has_room };

    fn start(&mut self) {
        self.calls = 0;
    }

    fn save_at(&self, i: u32) -> Option<(u32, Slot)> {
        if self.saves() <= i {
            return None;
        }
        let grid = self.product.grid;
        let col = i % grid.width();
        let rank = grid.rank(i / grid.width(), col);
        Some((rank, strip_slot(&self.product, self.product.line_c, col)))
    }

    fn next(&mut self, _taken: Option<Tile>) -> Result<Next<K>, NoMemory> {
        let next = self.answer::<K>()?;
        self.calls += 1;
        Ok(next)
    }

    fn mark(&self) -> Mark {
        self.mark
    }
}
