//! The lines of records.
ghost use Rattle.std.specs.Prelude.{◌≡◌, ◌∷◌, ◌++◌, [], codes, decimal, OnOk};
ghost use Rattle.std.specs.List.{join_with_byte};
ghost use Rattle.run_data.specs.Text.{line_of};
ghost use Rattle.rank_machine.specs.JournalText.{piece_text, end_text, flag_text, record_words, numbered_words};
ghost use Rattle.rank_machine.specs.declared.record.Rec.TheVariants as record_of;

use crate::kernel::add_kernel;
use crate::word::{
    add_head, add_next_end, add_next_flag, add_next_healed, add_next_number, add_next_piece,
    add_number, add_slot_head,
};
use rank_machine::{Mark, Piece, Rec};
use std::alloc::AllocError as NoMemory;

fn add_message(
    out: &mut Vec<u8>,
    name: &[u8],
    rank: u32,
    other: u32,
    piece: Piece,
) -> Result<(), NoMemory>
    ensures { OnOk result (out.new.items ≡ out.old.items ++ join_with_byte 32
        (name.now ∷ decimal rank ∷ decimal other ∷ piece_text piece ∷ [])) }
{
    add_head(out, name, rank)?;
    add_next_number(out, other)?;
    add_next_piece(out, piece)
}

// The line of a mark and whether it has ended, after the record's name.
fn add_mark_line(out: &mut Vec<u8>, mark: &Mark) -> Result<(), NoMemory>
    ensures { OnOk result (out.new.items ≡ out.old.items ++ join_with_byte 32
        (codes "commit" ∷ decimal mark.now.line ∷ end_text mark.now.ended ∷ [])) }
{
    add_head(out, b"commit", mark.line)?;
    add_next_end(out, mark.ended)
}

fn add_mark(out: &mut Vec<u8>, mark: &Mark) -> Result<(), NoMemory>
    ensures { OnOk result (out.new.items ≡ out.old.items ++ join_with_byte 32
        (codes "commit" ∷ decimal mark.now.line ∷ end_text mark.now.ended ∷
        decimal mark.now.closed ∷ flag_text mark.now.opened ∷ decimal mark.now.merged ∷ [])) }
{
    add_mark_line(out, mark)?;
    add_next_number(out, mark.closed)?;
    add_next_flag(out, mark.opened)?;
    add_next_number(out, mark.merged)
}

fn add_commit(out: &mut Vec<u8>, mark: &Mark, healed: bool) -> Result<(), NoMemory>
    ensures { OnOk result (out.new.items ≡ out.old.items ++ join_with_byte 32
        (record_words (record_of.Commit mark.now healed))) }
{
    add_mark(out, mark)?;
    add_next_healed(out, healed)
}

// The words of a record.
fn add_words(out: &mut Vec<u8>, rec: &Rec) -> Result<(), NoMemory>
    ensures { OnOk result (out.new.items ≡ out.old.items ++ join_with_byte 32
        (record_words rec.now)) }
{
    match rec {
        Rec::Feed(rank, slot) => add_slot_head(out, b"feed", *rank, *slot),
        Rec::Kernel(rank, kernel) => add_kernel(out, *rank, *kernel),
        Rec::Send(from, to, piece) => add_message(out, b"send", *from, *to, *piece),
        Rec::Recv(to, from, piece) => add_message(out, b"recv", *to, *from, *piece),
        Rec::Save(rank, slot) => add_slot_head(out, b"save", *rank, *slot),
        Rec::Take(rank, slot) => add_slot_head(out, b"take", *rank, *slot),
        Rec::Restore => out.extend_from_slice(b"restore"),
        Rec::Spawn(rank) => add_head(out, b"spawn", *rank),
        Rec::Commit(mark, healed) => add_commit(out, mark, *healed),
        Rec::Lose(rank) => add_head(out, b"lose", *rank),
    }
}

// A number before the words of a record.
fn add_number_words(out: &mut Vec<u8>, n: usize, rec: &Rec) -> Result<(), NoMemory>
    ensures { OnOk result (out.new.items ≡ out.old.items ++ join_with_byte 32
        (decimal n ∷ record_words rec.now)) }
{
    add_number(out, n)?;
    out.push(b' ')?;
    add_words(out, rec)
}

// The words of a record, its number first if it has one.
fn add_record(out: &mut Vec<u8>, n: usize, rec: &Rec) -> Result<(), NoMemory>
    ensures { OnOk result (out.new.items ≡ out.old.items ++ join_with_byte 32
        (numbered_words n rec.now)) }
{
    if rec.is_numbered() {
        add_number_words(out, n, rec)
    } else {
        add_words(out, rec)
    }
}

/// Appends the line of a record whose number is `n`, if it has one.
pub fn add_line(out: &mut Vec<u8>, n: usize, rec: &Rec) -> Result<(), NoMemory>
    ensures { OnOk result (out.new.items ≡ out.old.items ++ line_of (numbered_words n rec.now)) }
{
    add_record(out, n, rec)?;
    out.push(b'\n')?;
    Ok(())
}
