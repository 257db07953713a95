//! The world in which a script is run.
ghost use Rattle.std.specs.Prelude.{◌≡◌, ◌++◌, IfOk, OnOk};
ghost use Rattle.run_data.specs.Script.{commands_of, modulus_of};
ghost use Rattle.rank_machine.specs.Scripts.{losses_in, loss_made};
ghost use Rattle.script_bounds.specs.Bounds.{bound};
ghost use Rattle.whole_run.proofs.Opening.{fresh_world};
ghost use Rattle.script_run.specs.Runnable.{IsRunnable};
ghost use Rattle.script_run.specs.Orders.{numbers_made, numbers_in};

use block_world::{Loss, Order, World};
use field_core::Field;
use run_data::{Command, Files, IndexList, Script};
use script_bounds::bound;
use std::alloc::{AllocError as NoMemory, Global};

// Adds the loss of a command, where it is a `lose` line.
fn add_loss(losses: &mut Vec<Loss>, command: &Command) -> Result<(), NoMemory>
    ensures { OnOk result (losses.new.items ≡ losses.old.items ++ loss_made command.now) }
{
    if let Command::Lose { at, rank } = command {
        losses.push(Loss {
            at: *at,
            rank: *rank,
        })?;
    }
    Ok(())
}

// The losses of a script, in its order.
fn losses_of(alloc: Global, script: &Script) -> Result<Vec<Loss>, NoMemory>
    ensures { IfOk result (λ v. v.items ≡ losses_in (commands_of script.now)) }
{
    let lines = script.as_slice();
    let mut losses = Vec::new(alloc);
    for i in 0..script.lines() {
        if let Some(command) = &lines[i as usize] {
            add_loss(&mut losses, command)?;
        }
    }
    Ok(losses)
}

// Adds numbers to an order.
fn add_numbers(order: &mut Order, numbers: &IndexList) -> Result<(), NoMemory>
    ensures { OnOk result (order.new ≡ order.old ++ numbers.now) }
{
    for i in 0..numbers.len() {
        order.push(numbers.get(i))?;
    }
    Ok(())
}

// Adds the numbers of a command, where it is an `order` line.
fn add_order(order: &mut Order, command: &Command) -> Result<(), NoMemory>
    ensures { OnOk result (order.new ≡ order.old ++ numbers_made command.now) }
{
    match command {
        Command::Order { numbers } => add_numbers(order, numbers),
        _ => Ok(()),
    }
}

/// The order of a script: the numbers of its `order` lines, one line after the other.
pub fn order_of(alloc: Global, script: &Script) -> Result<Order, NoMemory>
    ensures { IfOk result (λ order. order ≡ numbers_in (commands_of script.now)) }
{
    let lines = script.as_slice();
    let mut order = Order::new(alloc);
    for i in 0..script.lines() {
        if let Some(command) = &lines[i as usize] {
            add_order(&mut order, command)?;
        }
    }
    Ok(order)
}

/// A world of a script in which nothing has happened yet, in the script's field. It has room for as many records as the script's bound says.
pub fn open_world<'a, K: Field>(
    alloc: Global,
    script: &'a Script,
    files: &'a Files,
) -> Result<World<'a, K>, NoMemory>
    requires field { K.MODULUS ≡ modulus_of (commands_of script.now) }
    requires runnable { IsRunnable script.now files.now }
    ensures { IfOk result (λ w. w ≡ fresh_world script.now files.now (bound (commands_of script.now))) }
{
    let losses = losses_of(alloc, script)?;
    let room = bound(script) as u32;
    World::open(alloc, script, files, &losses, room)
}
