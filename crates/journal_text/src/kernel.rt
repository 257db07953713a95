//! The words of kernels: the name, the rank and the operands.
ghost use Rattle.std.specs.Prelude.{◌≡◌, ◌∷◌, ◌++◌, [], decimal, OnOk};
ghost use Rattle.std.specs.List.{join_with_byte};
ghost use Rattle.rank_machine.specs.JournalText.{slot_text, piece_text, diag_text, kernel_words};
ghost use Rattle.rank_machine.specs.declared.kernel.Kernel.TheVariants as kernel;

use crate::word::{
    add_next_cut, add_next_diagonal, add_next_number, add_next_piece, add_piece_head, add_slot_head,
};
use rank_machine::{Cut, Kernel, Piece, Slot};
use std::alloc::AllocError as NoMemory;

fn add_slot_numbers(
    out: &mut Vec<u8>,
    name: &[u8],
    rank: u32,
    slot: Slot,
    i: u32,
    j: u32,
) -> Result<(), NoMemory>
    ensures { OnOk result (out.new.items ≡ out.old.items ++ join_with_byte 32
        (name.now ∷ decimal rank ∷ slot_text slot ∷ decimal i ∷ decimal j ∷ [])) }
{
    add_slot_head(out, name, rank, slot)?;
    add_next_number(out, i)?;
    add_next_number(out, j)
}

fn add_copy(out: &mut Vec<u8>, rank: u32, to: Piece, from: Piece) -> Result<(), NoMemory>
    ensures { OnOk result (out.new.items ≡ out.old.items ++ join_with_byte 32
        (kernel_words rank (kernel.Copy to from))) }
{
    add_piece_head(out, b"copy", rank, to)?;
    add_next_piece(out, from)
}

// The name, the rank, the piece and the factor.
fn add_factor(
    out: &mut Vec<u8>,
    name: &[u8],
    rank: u32,
    to: Piece,
    factor: u32,
) -> Result<(), NoMemory>
    ensures { OnOk result (out.new.items ≡ out.old.items ++ join_with_byte 32
        (name.now ∷ decimal rank ∷ piece_text to ∷ decimal factor ∷ [])) }
{
    add_piece_head(out, name, rank, to)?;
    add_next_number(out, factor)
}

fn add_sum(
    out: &mut Vec<u8>,
    rank: u32,
    to: Piece,
    factor: u32,
    from: Piece,
    cut: Cut,
) -> Result<(), NoMemory>
    ensures { OnOk result (out.new.items ≡ out.old.items ++ join_with_byte 32
        (kernel_words rank (kernel.Add to factor from cut))) }
{
    add_factor(out, b"add", rank, to, factor)?;
    add_next_piece(out, from)?;
    add_next_cut(out, cut)
}

fn add_product(
    out: &mut Vec<u8>,
    rank: u32,
    to: Piece,
    factor: u32,
    left: Piece,
    right: Piece,
) -> Result<(), NoMemory>
    ensures { OnOk result (out.new.items ≡ out.old.items ++ join_with_byte 32
        (kernel_words rank (kernel.MulAdd to factor left right))) }
{
    add_factor(out, b"muladd", rank, to, factor)?;
    add_next_piece(out, left)?;
    add_next_piece(out, right)
}

fn add_solve(
    out: &mut Vec<u8>,
    name: &[u8],
    rank: u32,
    to: Piece,
    triangle: Piece,
    unit: bool,
) -> Result<(), NoMemory>
    ensures { OnOk result (out.new.items ≡ out.old.items ++ join_with_byte 32
        (name.now ∷ decimal rank ∷ piece_text to ∷ piece_text triangle ∷ diag_text unit ∷ [])) }
{
    add_piece_head(out, name, rank, to)?;
    add_next_piece(out, triangle)?;
    add_next_diagonal(out, unit)
}

// The name, the rank, the slot written and the piece read.
fn add_read(
    out: &mut Vec<u8>,
    name: &[u8],
    rank: u32,
    to: Slot,
    from: Piece,
) -> Result<(), NoMemory>
    ensures { OnOk result (out.new.items ≡ out.old.items ++ join_with_byte 32
        (name.now ∷ decimal rank ∷ slot_text to ∷ piece_text from ∷ [])) }
{
    add_slot_head(out, name, rank, to)?;
    add_next_piece(out, from)
}

fn add_read_number(
    out: &mut Vec<u8>,
    name: &[u8],
    rank: u32,
    to: Slot,
    from: Piece,
    n: u32,
) -> Result<(), NoMemory>
    ensures { OnOk result (out.new.items ≡ out.old.items ++ join_with_byte 32
        (name.now ∷ decimal rank ∷ slot_text to ∷ piece_text from ∷ decimal n ∷ [])) }
{
    add_read(out, name, rank, to, from)?;
    add_next_number(out, n)
}

fn add_first(
    out: &mut Vec<u8>,
    rank: u32,
    to: Slot,
    from: Piece,
    column: u32,
    above: u32,
) -> Result<(), NoMemory>
    ensures { OnOk result (out.new.items ≡ out.old.items ++ join_with_byte 32
        (kernel_words rank (kernel.First to from column above))) }
{
    add_read_number(out, b"first", rank, to, from, column)?;
    add_next_number(out, above)
}

fn add_elimination(
    out: &mut Vec<u8>,
    rank: u32,
    to: Slot,
    column: u32,
    above: u32,
    row: Piece,
) -> Result<(), NoMemory>
    ensures { OnOk result (out.new.items ≡ out.old.items ++ join_with_byte 32
        (kernel_words rank (kernel.Elim to column above row))) }
{
    add_slot_numbers(out, b"elim", rank, to, column, above)?;
    add_next_piece(out, row)
}

/// Appends the words of a kernel on a rank.
pub fn add_kernel(out: &mut Vec<u8>, rank: u32, kernel: Kernel) -> Result<(), NoMemory>
    ensures { OnOk result (out.new.items ≡ out.old.items ++ join_with_byte 32
        (kernel_words rank kernel)) }
{
    match kernel {
        Kernel::Zero(to, rows, columns) => add_slot_numbers(out, b"zero", rank, to, rows, columns),
        Kernel::Copy(to, from) => add_copy(out, rank, to, from),
        Kernel::Scale(to, factor) => add_factor(out, b"scale", rank, to, factor),
        Kernel::Add(to, factor, from, cut) => add_sum(out, rank, to, factor, from, cut),
        Kernel::MulAdd(to, factor, left, right) => add_product(out, rank, to, factor, left, right),
        Kernel::Lower(to, triangle, unit) => add_solve(out, b"lower", rank, to, triangle, unit),
        Kernel::Upper(to, triangle, unit) => add_solve(out, b"upper", rank, to, triangle, unit),
        Kernel::Swap(to, i, j) => add_slot_numbers(out, b"swap", rank, to, i, j),
        Kernel::First(to, from, column, above) => add_first(out, rank, to, from, column, above),
        Kernel::Diag(to, from, n) => add_read_number(out, b"diag", rank, to, from, n),
        Kernel::Least(to, from) => add_read(out, b"least", rank, to, from),
        Kernel::Elim(to, column, above, row) => add_elimination(out, rank, to, column, above, row),
        Kernel::Push(to, from, above) => add_read_number(out, b"push", rank, to, from, above),
        Kernel::Trans(to, from) => add_read(out, b"trans", rank, to, from),
    }
}
