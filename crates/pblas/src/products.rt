//! `pgemm`, a product of matrices.
ghost use Rattle.std.specs.Prelude.{◌≡◌, ◌+◌, ◌<◌, ◌==◌, suc, nat_lt, IfOk, OnOk};
ghost use Rattle.run_data.specs.Script.{commands_of, command_at, modulus_of};
ghost use Rattle.rank_machine.specs.Setting.{job};
ghost use Rattle.rank_machine.specs.Scripts.{setting_of};
ghost use Rattle.script_lines.specs.Sound.{IsSound};
ghost use Rattle.script_bounds.specs.Accepted.{KeepsRules};
ghost use Rattle.dist_matrix.specs.Site.{setting_in};
ghost use Rattle.world_heal.specs.Outcomes.{IfDrove};
ghost use Rattle.loss_recovery.specs.Driven.{site_at};
ghost use Rattle.whole_run.specs.Between.{HasRun};
ghost use Rattle.whole_run.specs.Inside.{IsStopped};
ghost use Rattle.product_lines.specs.Lines.{topology_of, line_product};
ghost use Rattle.product_laws.specs.Multiplying.{ProductView};
ghost use Rattle.pblas.specs.Groups.{IsProduct, groups_of, IsAtGroup, UpToGroup};

use array_desc::groups;
use blacs_comm::Topology;
use block_world::{Mark, Order, World};
use dist_matrix::Site;
use field_core::Field;
use loss_recovery::{Drove, drive};
use product_phase::ProductPhase;
use product_rounds::GroupProduct;
use run_data::{Command, Script};
use std::alloc::{AllocError as NoMemory, Global};

// The product of a line's matrices, for the first group.
fn product_on(site: &Site<'_>, script: &Script, line: u32, topology: Topology) -> GroupProduct
    requires line { IsProduct (command_at (commands_of script.now) line) }
    requires topology { topology ≡ topology_of (job (setting_in site.now) line).path }
    ensures { (words : IsProduct (command_at (commands_of script.now) line)) → result ≡ line_product script.now (setting_in site.now) line words.alpha words.beta 0 }
{
    let Some(Command::Pgemm { alpha, beta, .. }) = script.command(line) else {
        unreachable!();
    };
    let line_a = script.operand(line, 7).unwrap_or(0);
    let line_b = script.operand(line, 10).unwrap_or(0);
    let line_c = script.operand(line, 14).unwrap_or(0);
    let layout = site.layout(line_c);
    GroupProduct {
        grid: layout.grid,
        a: site.layout(line_a).desc,
        b: site.layout(line_b).desc,
        c: layout.desc,
        line_a,
        line_b,
        line_c,
        group: 0,
        alpha: *alpha,
        beta: *beta,
        topology,
    }
}

// Drives the phase of the next group; `_out` is what was printed so far.
fn multiply_next<K: Field>(
    alloc: Global,
    world: &mut World<'_, K>,
    site: &mut Site<'_>,
    script: &Script,
    order: &mut Order,
    product: &GroupProduct,
    group: u32,
    done: u32,
    _out: &[u8],
) -> Result<Drove, NoMemory>
    requires field { K.MODULUS ≡ modulus_of (commands_of script.now) }
    requires rules { KeepsRules script.now }
    requires sound { IsSound (modulus_of (commands_of script.now)) (setting_of script.now world.old.files) }
    requires before { IsAtGroup script.now world.old.files done group world.old _out.now }
    requires inside { group < groups_of script.now world.old.files done }
    requires product { (words : IsProduct (command_at (commands_of script.now) (suc done))) → product.now ≡ line_product script.now (setting_of script.now world.old.files) (suc done) words.alpha words.beta 0 }
    requires site_is { site.old ≡ site_at world.old }
    ensures site_is { OnOk result (site.new ≡ site_at world.new) }
    ensures ran { IfOk result (IfDrove (UpToGroup (nat_lt (suc group) (groups_of script.now world.old.files done)) script.now world.old.files done (suc group) world.new _out.now) (IsStopped script.now world.old.files done world.new _out.now)) }
{
    let mark = Mark {
        line: done + 1,
        ended: group + 1 == groups(product.c.n, product.c.nb, product.grid.q),
        closed: 0,
        opened: false,
        merged: 0,
    };
    let mut phase = ProductPhase::new(alloc, GroupProduct { group, ..*product }, mark);
    let _running = world.journal();
    let drove = drive(alloc, world, site, script, order, &mut phase)?;
    let _still_running = world.journal();
    Ok(drove)
}

/// Runs the `pgemm` line that comes next, where so many are done: `C := BETA * C + ALPHA * A * B` on the ranks, group by group of C, each from one commit to the
/// next, over losses. Broadcasts go the way of the topology, which is to be the one that holds for the line.
///
/// Done: the line has run: the data strips of C stand for the product of the whole matrices, and all else is what it was. Beyond and NoSpare: the run was cut short
/// in it.
pub fn pgemm<K: Field>(
    alloc: Global,
    world: &mut World<'_, K>,
    site: &mut Site<'_>,
    script: &Script,
    order: &mut Order,
    topology: Topology,
    done: u32,
    out: &[u8],
) -> Result<Drove, NoMemory>
    requires field { K.MODULUS ≡ modulus_of (commands_of script.now) }
    requires rules { KeepsRules script.now }
    requires sound { IsSound (modulus_of (commands_of script.now)) (setting_of script.now world.old.files) }
    requires before { HasRun script.now world.old.files done world.old out.now }
    requires line { IsProduct (command_at (commands_of script.now) (suc done)) }
    requires topology { topology ≡ topology_of (job (setting_of script.now world.old.files) (suc done)).path }
    requires site_is { site.old ≡ site_at world.old }
    ensures site_is { OnOk result (site.new ≡ site_at world.new) }
    ensures ran { IfOk result (IfDrove (HasRun script.now world.old.files (suc done) world.new out.now) (IsStopped script.now world.old.files done world.new out.now)) }
{
    let product = product_on(site, script, done + 1, topology);
    for group in 0..groups(product.c.n, product.c.nb, product.grid.q) {
        match multiply_next(
            alloc, world, site, script, order, &product, group, done, out,
        )? {
            Drove::Done => {}
            cut => return Ok(cut),
        }
    }
    Ok(Drove::Done)
}
