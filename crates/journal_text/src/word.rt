//! The words of a line. A call whose name has `next` appends a space first.
ghost use Rattle.std.specs.Prelude.{◌≡◌, ◌∷◌, ◌++◌, [], decimal, OnOk};
ghost use Rattle.std.specs.List.{join_with_byte};
ghost use Rattle.rank_machine.specs.JournalText.{kind_letter, slot_text, part_text, piece_text, cut_words, diag_text, flag_text, end_text, healed_text};

use itoa::Buffer;
use rank_machine::{Cut, Part, Piece, Slot, SlotKind};
use std::alloc::AllocError as NoMemory;

/// Appends a number.
pub fn add_number(out: &mut Vec<u8>, n: usize) -> Result<(), NoMemory>
    ensures { OnOk result (out.new.items ≡ out.old.items ++ decimal n) }
{
    let mut buffer = Buffer::new();
    out.extend_from_slice(buffer.format(n).as_bytes())
}

// Appends a byte and a number.
fn add_number_after(out: &mut Vec<u8>, byte: u8, n: u32) -> Result<(), NoMemory>
    ensures { OnOk result (out.new.items ≡ out.old.items ++ byte ∷ decimal n) }
{
    out.push(byte)?;
    add_number(out, n as usize)
}

/// Appends a space and a number.
pub fn add_next_number(out: &mut Vec<u8>, n: u32) -> Result<(), NoMemory>
    ensures { OnOk result (out.new.items ≡ out.old.items ++ 32 ∷ decimal n) }
{
    add_number_after(out, b' ', n)
}

fn letter(kind: SlotKind) -> u8
    ensures { result ≡ kind_letter kind }
{
    match kind {
        SlotKind::Data => b'd',
        SlotKind::Code => b'c',
        SlotKind::Low => b'l',
        SlotKind::Open => b'o',
        SlotKind::Pivots => b'v',
        SlotKind::Work => b'w',
    }
}

fn add_slot(out: &mut Vec<u8>, slot: Slot) -> Result<(), NoMemory>
    ensures { OnOk result (out.new.items ≡ out.old.items ++ slot_text slot) }
{
    add_number_after(out, letter(slot.kind), slot.id)?;
    add_number_after(out, b'.', slot.group)
}

fn add_part(out: &mut Vec<u8>, part: Part) -> Result<(), NoMemory>
    ensures { OnOk result (out.new.items ≡ out.old.items ++ part_text part) }
{
    add_number_after(out, b'[', part.r0)?;
    add_number_after(out, b':', part.r1)?;
    add_number_after(out, b',', part.c0)?;
    add_number_after(out, b':', part.c1)?;
    out.push(b']')?;
    Ok(())
}

fn add_piece(out: &mut Vec<u8>, piece: Piece) -> Result<(), NoMemory>
    ensures { OnOk result (out.new.items ≡ out.old.items ++ piece_text piece) }
{
    match piece {
        Piece::Whole(slot) => add_slot(out, slot),
        Piece::Part(slot, part) => {
            add_slot(out, slot)?;
            add_part(out, part)
        }
    }
}

/// Appends a space and a slot.
pub fn add_next_slot(out: &mut Vec<u8>, slot: Slot) -> Result<(), NoMemory>
    ensures { OnOk result (out.new.items ≡ out.old.items ++ 32 ∷ slot_text slot) }
{
    out.push(b' ')?;
    add_slot(out, slot)
}

/// Appends a space and a piece.
pub fn add_next_piece(out: &mut Vec<u8>, piece: Piece) -> Result<(), NoMemory>
    ensures { OnOk result (out.new.items ≡ out.old.items ++ 32 ∷ piece_text piece) }
{
    out.push(b' ')?;
    add_piece(out, piece)
}

/// Appends a space and the words of a cut.
pub fn add_next_cut(out: &mut Vec<u8>, cut: Cut) -> Result<(), NoMemory>
    ensures { OnOk result (out.new.items ≡ out.old.items ++ 32 ∷ join_with_byte 32
        (cut_words cut)) }
{
    match cut {
        Cut::Whole => out.extend_from_slice(b" whole"),
        Cut::Upper(block) => add_head(out, b" upper", block),
        Cut::Lower(block) => add_head(out, b" lower", block),
    }
}

/// Appends a space and how a diagonal counts.
pub fn add_next_diagonal(out: &mut Vec<u8>, unit: bool) -> Result<(), NoMemory>
    ensures { OnOk result (out.new.items ≡ out.old.items ++ 32 ∷ diag_text unit) }
{
    out.extend_from_slice(if unit { b" U" } else { b" N" })
}

/// Appends a space and 1 for true, 0 for false.
pub fn add_next_flag(out: &mut Vec<u8>, flag: bool) -> Result<(), NoMemory>
    ensures { OnOk result (out.new.items ≡ out.old.items ++ 32 ∷ flag_text flag) }
{
    out.extend_from_slice(if flag { b" 1" } else { b" 0" })
}

/// Appends a space and whether a line has ended.
pub fn add_next_end(out: &mut Vec<u8>, ended: bool) -> Result<(), NoMemory>
    ensures { OnOk result (out.new.items ≡ out.old.items ++ 32 ∷ end_text ended) }
{
    if ended {
        out.extend_from_slice(b" end")
    } else {
        out.extend_from_slice(b" part")
    }
}

/// Appends a space and whether a commit ends a recovery.
pub fn add_next_healed(out: &mut Vec<u8>, healed: bool) -> Result<(), NoMemory>
    ensures { OnOk result (out.new.items ≡ out.old.items ++ 32 ∷ healed_text healed) }
{
    if healed {
        out.extend_from_slice(b" healed")
    } else {
        out.extend_from_slice(b" plain")
    }
}

/// Appends a name, a space and a number: the first two words of most records.
pub fn add_head(out: &mut Vec<u8>, name: &[u8], n: u32) -> Result<(), NoMemory>
    ensures { OnOk result (out.new.items ≡ out.old.items ++ join_with_byte 32
        (name.now ∷ decimal n ∷ [])) }
{
    out.extend_from_slice(name)?;
    add_next_number(out, n)
}

/// Appends a name, a rank and a slot.
pub fn add_slot_head(out: &mut Vec<u8>, name: &[u8], rank: u32, slot: Slot) -> Result<(), NoMemory>
    ensures { OnOk result (out.new.items ≡ out.old.items ++ join_with_byte 32
        (name.now ∷ decimal rank ∷ slot_text slot ∷ [])) }
{
    add_head(out, name, rank)?;
    add_next_slot(out, slot)
}

/// Appends a name, a rank and a piece.
pub fn add_piece_head(
    out: &mut Vec<u8>,
    name: &[u8],
    rank: u32,
    piece: Piece,
) -> Result<(), NoMemory>
    ensures { OnOk result (out.new.items ≡ out.old.items ++ join_with_byte 32
        (name.now ∷ decimal rank ∷ piece_text piece ∷ [])) }
{
    add_head(out, name, rank)?;
    add_next_piece(out, piece)
}
