//! The strips that a `print` line takes, and the whole matrix that they make.
ghost use Rattle.std.specs.Prelude.{◌≡◌, ◌++◌, IfOk, OnOk};
ghost use Rattle.run_data.specs.Matrix.{Matrix};
ghost use Rattle.dist_matrix.specs.Strips.{HasShape};
ghost use Rattle.script_lines.specs.Layouts.{IsLayout};
ghost use Rattle.line_phases.specs.Printing.{group_slots, strip_slots};
ghost use Rattle.script_run.specs.Strips.{IsStrip, AreStrips, with_got};

use array_desc::groups;
use blacs_grid::Scope;
use block_world::{Mat, Slot, SlotKind, Tile};
use dist_matrix::place;
use plain_phases::Got;
use script_lines::Layout;
use std::alloc::{AllocError as NoMemory, Global};

// Adds the strips of a group, the data ranks row by row.
fn add_group(
    slots: &mut Vec<(u32, Slot)>,
    layout: Layout,
    line: u32,
    group: u32,
) -> Result<(), NoMemory>
    requires laid_out { IsLayout layout }
    ensures { OnOk result (slots.new.items ≡ slots.old.items ++ group_slots line layout group) }
{
    for i in 0..layout.grid.members(Scope::All) {
        let slot = Slot {
            kind: SlotKind::Data,
            id: line,
            group,
        };
        slots.push((layout.grid.member(Scope::All, i), slot))?;
    }
    Ok(())
}

/// The strips of the matrix that a line made: its groups by rising number, in each the data ranks row by row.
pub fn slots_of(alloc: Global, layout: Layout, line: u32) -> Result<Vec<(u32, Slot)>, NoMemory>
    requires laid_out { IsLayout layout }
    ensures { IfOk result (λ v. v.items ≡ strip_slots line layout) }
{
    let mut slots = Vec::new(alloc);
    for group in 0..groups(layout.desc.n, layout.desc.nb, layout.grid.q) {
        add_group(&mut slots, layout, line, group)?;
    }
    Ok(slots)
}

// Places a strip in the matrix.
fn place_strip(whole: &mut Mat, layout: Layout, strip: &Got)
    requires laid_out { IsLayout layout }
    requires shape { HasShape layout whole.old }
    requires strip { IsStrip layout strip.now }
    ensures { whole.new ≡ with_got layout whole.old strip.now }
{
    match &strip.tile {
        Tile::Words(words) => place(
            whole,
            &layout.desc,
            &layout.grid,
            strip.rank,
            strip.slot.group,
            words,
        ),
        Tile::Index(_) => unreachable!(),
    }
}

/// The whole matrix whose strips these are, in the order of `slots_of`.
pub fn whole_of(alloc: Global, layout: Layout, line: u32, got: &[Got]) -> Result<Mat, NoMemory>
    requires laid_out { IsLayout layout }
    requires strips { (m : Matrix) × AreStrips layout line m got.now }
    ensures { IfOk result (λ whole. (m : Matrix) → AreStrips layout line m got.now → whole ≡ m) }
{
    let mut whole = Mat::zeros(alloc, layout.desc.m, layout.desc.n)?;
    for i in 0..got.len() {
        place_strip(&mut whole, layout, &got[i]);
    }
    Ok(whole)
}
