//! The rounds that make lost strips anew.
ghost use Rattle.std.specs.Prelude.{◌≡◌, ◌≢◌, ℕ, ◌+◌, ◌<◌, ◌≤◌, ◌/◌, ◌&&◌, ◌==◌, ◌++◌, ◌∷◌, [], true, false, length, count_by, slice_index_or, List, OnOk, IfOk, map, not, if◌then◌else◌};
ghost use Rattle.field_core.specs.Residue.{inverse};
ghost use Rattle.cauchy_code.specs.Cauchy.{helpers, first_live, IsDecoding};
ghost use Rattle.blacs_grid.specs.Places.{width};
ghost use Rattle.rank_machine.specs.Setting.{strip_rows, block_at};
ghost use Rattle.script_lines.specs.Layouts.{IsLayout};
ghost use Rattle.round_laws.specs.Turns.{each_below};
ghost use Rattle.recovery_rounds.specs.Mending as mending;
ghost use Rattle.recovery_code.specs.Spots.{spot_seen, rank_in, opens_here, clear_wanted, slots_wanted, help_by, code_symbol, symbol_at, decoding_at, part_at, adds_at, clears_at, rebuilding_at, row_data_at, row_code_at, Decode};

use array_desc::numroc;
use blacs_comm::{send_piece, work_at};
use cauchy_code::{Coefs, decode_row, weight};
use field_core::Field;
use rank_machine::{Cut, Kernel, Piece, Slot, SlotKind};
use rank_memory::RankMem;
use rank_run::Round;
use script_lines::Layout;
use std::alloc::{AllocError as NoMemory, Global};

/// A group of block columns of a live matrix on a process row, and what the last mark says of it: whether its multipliers stand
/// apart, whether a panel of the matrix is open, and how many panels are closed.
#[derive(Clone, Copy)]
pub struct Place {
    pub layout: Layout,
    pub line: u32,
    pub row: u32,
    pub group: u32,
    pub low: bool,
    pub opened: bool,
    pub closed: u32,
}

fn slot_at(kind: SlotKind, id: u32, group: u32) -> Slot
    ensures { result ≡ record { kind = kind; id = id; group = group } }
{
    Slot { kind, id, group }
}

// The rank of a process column.
fn rank_of(place: Place, col: u32) -> u32
    requires laid_out { IsLayout place.layout }
    requires row_in { place.row < place.layout.grid.p }
    requires col_in { col < width place.layout.grid }
    ensures { result ≡ rank_in (spot_seen place) col }
{
    place.layout.grid.rank(place.row, col)
}

// Whether the open panel lies in this group.
fn is_open_group(place: Place) -> bool
    requires { IsLayout place.layout }
    ensures { result ≡ opens_here (spot_seen place) }
{
    place.opened && place.group == place.closed / place.layout.grid.q
}

// Appends a zero strip of the place's process row in a slot.
fn clear_strip<K: Field>(
    round: &mut Round<RankMem<K>>,
    place: Place,
    rank: u32,
    slot: Slot,
) -> Result<(), NoMemory>
    requires laid_out { IsLayout place.layout }
    requires row_in { place.row < place.layout.grid.p }
    ensures { OnOk result (round.new ≡ round.old ++ mending.clear rank slot (strip_rows place.layout place.row) place.layout.desc.nb ∷ []) }
{
    let desc = place.layout.desc;
    let rows = numroc(desc.m, desc.mb, place.row, desc.rsrc, place.layout.grid.p);
    work_at(round, rank, Kernel::Zero(slot, rows, desc.nb))
}

// Appends the move of a slot of another rank into Work.
fn bring<K: Field>(
    round: &mut Round<RankMem<K>>,
    from: u32,
    rank: u32,
    slot: Slot,
) -> Result<(), NoMemory>
    requires { from ≢ rank }
    ensures { OnOk result (round.new ≡ round.old ++ mending.bring from rank slot ∷ []) }
{
    let work = slot_at(SlotKind::Work, 0, 0);
    send_piece(round, from, Piece::Whole(slot), rank, Piece::Whole(work))
}

// Appends the add of what was brought.
fn gain<K: Field>(
    round: &mut Round<RankMem<K>>,
    rank: u32,
    to: Slot,
    factor: u32,
    cut: Cut,
) -> Result<(), NoMemory>
    ensures { OnOk result (round.new ≡ round.old ++ mending.gain rank to factor cut ∷ []) }
{
    let work = slot_at(SlotKind::Work, 0, 0);
    work_at(
        round,
        rank,
        Kernel::Add(Piece::Whole(to), factor, Piece::Whole(work), cut),
    )
}

// Appends the move of a slot of another rank into Work, and its add.
fn bring_and_gain<K: Field>(
    round: &mut Round<RankMem<K>>,
    from: u32,
    rank: u32,
    to: Slot,
    factor: u32,
    slot: Slot,
) -> Result<(), NoMemory>
    requires { from ≢ rank }
    ensures { OnOk result (round.new ≡ round.old ++ mending.gain_all from rank to factor (slot ∷ [])) }
{
    bring(round, from, rank, slot)?;
    gain(round, rank, to, factor, Cut::Whole)
}

// The block column of the group on a process column.
fn block_of(place: Place, col: u32) -> u32
    requires laid_out { IsLayout place.layout }
    requires col_in { col < place.layout.grid.q }
    requires few { place.group < 65536 }
    ensures { result ≡ block_at place.layout place.group col }
{
    let q = place.layout.grid.q;
    place.group * q + (q + col - place.layout.desc.csrc) % q
}

// Appends what a data column brings into a code column, once it is in Work.
fn add_part<K: Field>(
    round: &mut Round<RankMem<K>>,
    place: Place,
    c: u32,
    col: u32,
) -> Result<(), NoMemory>
    requires laid_out { IsLayout place.layout }
    requires row_in { place.row < place.layout.grid.p }
    requires few { place.group < 65536 }
    requires code_column { c < place.layout.grid.f }
    requires data_column { col < place.layout.grid.q }
    ensures { OnOk result (round.new ≡ round.old ++ adds_at (inverse K.MODULUS) (spot_seen place) c col) }
{
    let rank = rank_of(place, place.layout.grid.q + c);
    let factor = weight::<K>(place.layout.grid.q, c, col);
    let block = block_of(place, col);
    let code = slot_at(SlotKind::Code, place.line, place.group);
    if place.opened && block == place.closed {
        let open = slot_at(SlotKind::Open, place.line, 0);
        gain(round, rank, open, factor, Cut::Whole)
    } else if place.low && block < place.closed {
        let low = slot_at(SlotKind::Low, place.line, place.group);
        gain(round, rank, code, factor, Cut::Upper(block))?;
        gain(round, rank, low, factor, Cut::Lower(block))
    } else {
        gain(round, rank, code, factor, Cut::Whole)
    }
}

// Appends what a data column brings into a code column.
fn code_part<K: Field>(
    round: &mut Round<RankMem<K>>,
    place: Place,
    c: u32,
    col: u32,
) -> Result<(), NoMemory>
    requires laid_out { IsLayout place.layout }
    requires row_in { place.row < place.layout.grid.p }
    requires few { place.group < 65536 }
    requires code_column { c < place.layout.grid.f }
    requires data_column { col < place.layout.grid.q }
    ensures { OnOk result (round.new ≡ round.old ++ part_at (inverse K.MODULUS) (spot_seen place) c col) }
{
    let from = rank_of(place, col);
    let rank = rank_of(place, place.layout.grid.q + c);
    bring(
        round,
        from,
        rank,
        slot_at(SlotKind::Data, place.line, place.group),
    )?;
    add_part(round, place, c, col)
}

// Appends a zero strip in a slot that is wanted.
fn clear_if<K: Field>(
    round: &mut Round<RankMem<K>>,
    place: Place,
    rank: u32,
    slot: Slot,
    wanted: bool,
) -> Result<(), NoMemory>
    requires laid_out { IsLayout place.layout }
    requires row_in { place.row < place.layout.grid.p }
    ensures { OnOk result (round.new ≡ round.old ++ clear_wanted (spot_seen place) rank slot wanted) }
{
    if wanted {
        clear_strip(round, place, rank, slot)
    } else {
        Ok(())
    }
}

// Appends zero strips in the slots of a code column.
#[tactic(auto, using(crate::proofs::Seams::three_parts))]
fn clear_code<K: Field>(round: &mut Round<RankMem<K>>, place: Place, c: u32) -> Result<(), NoMemory>
    requires laid_out { IsLayout place.layout }
    requires row_in { place.row < place.layout.grid.p }
    requires code_column { c < place.layout.grid.f }
    ensures { OnOk result (round.new ≡ round.old ++ clears_at (spot_seen place) c) }
{
    let rank = rank_of(place, place.layout.grid.q + c);
    let code = slot_at(SlotKind::Code, place.line, place.group);
    let low = slot_at(SlotKind::Low, place.line, place.group);
    let open = slot_at(SlotKind::Open, place.line, 0);
    clear_strip(round, place, rank, code)?;
    clear_if(round, place, rank, low, place.low)?;
    clear_if(round, place, rank, open, is_open_group(place))
}

/// Appends the events that make the code strips of a code column anew.
pub fn rebuild_code<K: Field>(
    round: &mut Round<RankMem<K>>,
    place: Place,
    c: u32,
) -> Result<(), NoMemory>
    requires laid_out { IsLayout place.layout }
    requires row_in { place.row < place.layout.grid.p }
    requires few { place.group < 65536 }
    requires code_column { c < place.layout.grid.f }
    ensures { OnOk result (round.new ≡ round.old ++ rebuilding_at (inverse K.MODULUS) (spot_seen place) c) }
{
    clear_code(round, place, c)?;
    for col in 0..place.layout.grid.q {
        code_part(round, place, c, col)?;
    }
    Ok(())
}

// Appends the move of a slot of another rank into Work and its add, where it is wanted.
fn gain_if<K: Field>(
    round: &mut Round<RankMem<K>>,
    from: u32,
    rank: u32,
    to: Slot,
    factor: u32,
    slot: Slot,
    wanted: bool,
) -> Result<(), NoMemory>
    requires { from ≢ rank }
    ensures { OnOk result (round.new ≡ round.old ++ mending.gain_all from rank to factor (slots_wanted slot wanted)) }
{
    if wanted {
        bring_and_gain(round, from, rank, to, factor, slot)
    } else {
        Ok(())
    }
}

// Appends what a code column that helps brings into a lost data strip: the slots of its symbol, each times the coefficient.
#[tactic(auto, using(crate::proofs::Seams::three_gains))]
fn gain_code<K: Field>(
    round: &mut Round<RankMem<K>>,
    place: Place,
    from: u32,
    rank: u32,
    factor: u32,
) -> Result<(), NoMemory>
    requires laid_out { IsLayout place.layout }
    requires other { from ≢ rank }
    ensures { OnOk result (round.new ≡ round.old ++ mending.gain_all from rank (record { kind = SlotKind.Data; id = place.line; group = place.group }) factor (code_symbol (spot_seen place))) }
{
    let to = slot_at(SlotKind::Data, place.line, place.group);
    let code = slot_at(SlotKind::Code, place.line, place.group);
    let low = slot_at(SlotKind::Low, place.line, place.group);
    let open = slot_at(SlotKind::Open, place.line, 0);
    bring_and_gain(round, from, rank, to, factor, code)?;
    gain_if(round, from, rank, to, factor, low, place.low)?;
    gain_if(round, from, rank, to, factor, open, is_open_group(place))
}

// Appends what a column that helps brings into a lost data strip.
fn gain_symbol<K: Field>(
    round: &mut Round<RankMem<K>>,
    place: Place,
    which: u32,
    col: u32,
    factor: u32,
) -> Result<(), NoMemory>
    requires laid_out { IsLayout place.layout }
    requires row_in { place.row < place.layout.grid.p }
    requires which_in { which < place.layout.grid.q }
    requires col_in { col < width place.layout.grid }
    requires other { col ≢ which }
    ensures { OnOk result (round.new ≡ round.old ++ mending.gain_all (rank_in (spot_seen place) col) (rank_in (spot_seen place) which) (record { kind = SlotKind.Data; id = place.line; group = place.group }) factor (symbol_at (spot_seen place) col)) }
{
    let from = rank_of(place, col);
    let rank = rank_of(place, which);
    if col < place.layout.grid.q {
        let to = slot_at(SlotKind::Data, place.line, place.group);
        bring_and_gain(round, from, rank, to, factor, to)
    } else {
        gain_code(round, place, from, rank, factor)
    }
}

// Appends what one column brings into a lost data strip, where it helps.
fn gain_one<K: Field>(
    round: &mut Round<RankMem<K>>,
    place: Place,
    which: u32,
    col: u32,
    helps: bool,
    factor: u32,
) -> Result<(), NoMemory>
    requires laid_out { IsLayout place.layout }
    requires row_in { place.row < place.layout.grid.p }
    requires which_in { which < place.layout.grid.q }
    requires col_in { col < width place.layout.grid }
    requires other { helps ≡ true → col ≢ which }
    ensures { OnOk result (round.new ≡ round.old ++ (if helps then mending.gain_all (rank_in (spot_seen place) col) (rank_in (spot_seen place) which) (record { kind = SlotKind.Data; id = place.line; group = place.group }) factor (symbol_at (spot_seen place) col) else [])) }
{
    if helps {
        gain_symbol(round, place, which, col, factor)
    } else {
        Ok(())
    }
}

// Which columns of some are not lost.
fn all_but(alloc: Global, lost: &[bool]) -> Result<Vec<bool>, NoMemory>
    ensures { IfOk result (λ v. v.items ≡ map not lost.now) }
{
    let mut live = Vec::new(alloc);
    for i in 0..lost.len() {
        live.push(!lost[i])?;
    }
    Ok(live)
}

// How many columns are lost.
fn count_lost(lost: &[bool]) -> usize
    ensures value { result ≡ count_by (λ b. b) lost.now }
    ensures few { result ≤ length lost.now }
{
    let mut count = 0;
    for i in 0..lost.len() {
        if lost[i] {
            count += 1;
        }
    }
    count
}

// Appends which are the first so many columns that are not lost.
fn append_first_live(live: &mut Vec<bool>, lost: &[bool], count: usize) -> Result<(), NoMemory>
    ensures { OnOk result (live.new.items ≡ live.old.items ++ first_live lost.now count) }
{
    let mut left = count;
    for i in 0..lost.len() {
        if lost[i] || left == 0 {
            live.push(false)?;
        } else {
            live.push(true)?;
            left -= 1;
        }
    }
    Ok(())
}

// Which columns help: those that are not lost, of the data columns, and of the code columns as many of the first as data columns are lost.
fn helpers_of(alloc: Global, q: u32, lost: &[bool]) -> Result<Vec<bool>, NoMemory>
    requires { q ≤ length lost.now }
    ensures { IfOk result (λ v. v.items ≡ helpers q lost.now) }
{
    let (data, code) = lost.split_at(q as usize);
    let mut helping = all_but(alloc, data)?;
    append_first_live(&mut helping, code, count_lost(data))?;
    Ok(helping)
}

// Appends what each column that helps brings into a lost data strip.
fn gain_helpers<K: Field>(
    round: &mut Round<RankMem<K>>,
    place: Place,
    which: u32,
    helping: &[bool],
    coefs: &Coefs,
) -> Result<(), NoMemory>
    requires laid_out { IsLayout place.layout }
    requires row_in { place.row < place.layout.grid.p }
    requires which_in { which < place.layout.grid.q }
    requires columns { length helping.now ≡ width place.layout.grid }
    requires coefficients { length coefs.now ≡ width place.layout.grid }
    requires not_itself { slice_index_or helping.now which false ≡ false }
    ensures { OnOk result (round.new ≡ round.old ++ each_below (width place.layout.grid) (help_by (spot_seen place) which helping.now coefs.now)) }
{
    for col in 0..place.layout.grid.width() {
        gain_one(
            round,
            place,
            which,
            col,
            helping[col as usize],
            coefs.get(col),
        )?;
    }
    Ok(())
}

// Appends the events that decode a lost data strip.
fn decode_strip<K: Field>(
    round: &mut Round<RankMem<K>>,
    alloc: Global,
    place: Place,
    lost: &[bool],
    which: u32,
) -> Result<(), NoMemory>
    requires laid_out { IsLayout place.layout }
    requires row_in { place.row < place.layout.grid.p }
    requires which_in { which < place.layout.grid.q }
    requires columns { length lost.now ≡ width place.layout.grid }
    requires which_lost { slice_index_or lost.now which false ≡ true }
    requires few_lost { count_by (λ b. b) lost.now ≤ place.layout.grid.f }
    ensures { OnOk result ((coefficients : List ℕ) × IsDecoding K.MODULUS (inverse K.MODULUS) place.layout.grid.q lost.now which coefficients × (round.new ≡ round.old ++ decoding_at (spot_seen place) which lost.now coefficients)) }
{
    let grid = place.layout.grid;
    let coefs = decode_row::<K>(alloc, grid.q, grid.f, lost, which)?;
    let helping = helpers_of(alloc, grid.q, lost)?;
    let rank = rank_of(place, which);
    clear_strip(
        round,
        place,
        rank,
        slot_at(SlotKind::Data, place.line, place.group),
    )?;
    gain_helpers(round, place, which, &helping, &coefs)
}

// Appends the events that make the code strips of a code column anew, where it is lost.
fn rebuild_if<K: Field>(
    round: &mut Round<RankMem<K>>,
    place: Place,
    c: u32,
    lost: bool,
) -> Result<(), NoMemory>
    requires laid_out { IsLayout place.layout }
    requires row_in { place.row < place.layout.grid.p }
    requires few { place.group < 65536 }
    requires code_column { c < place.layout.grid.f }
    ensures { OnOk result (round.new ≡ round.old ++ (if lost then rebuilding_at (inverse K.MODULUS) (spot_seen place) c else [])) }
{
    if lost {
        rebuild_code(round, place, c)
    } else {
        Ok(())
    }
}

// Appends the events that make the lost code strips of a place anew.
fn mend_codes<K: Field>(
    round: &mut Round<RankMem<K>>,
    place: Place,
    lost: &[bool],
) -> Result<(), NoMemory>
    requires laid_out { IsLayout place.layout }
    requires row_in { place.row < place.layout.grid.p }
    requires few { place.group < 65536 }
    requires columns { length lost.now ≡ width place.layout.grid }
    ensures { OnOk result (round.new ≡ round.old ++ row_code_at (inverse K.MODULUS) (spot_seen place) lost.now place.layout.grid.f) }
{
    for c in 0..place.layout.grid.f {
        rebuild_if(round, place, c, lost[(place.layout.grid.q + c) as usize])?;
    }
    Ok(())
}

// Appends the events that decode a data strip, where it is lost.
#[tactic(auto, using(crate::proofs::Seams::not_wanted))]
fn decode_if<K: Field>(
    round: &mut Round<RankMem<K>>,
    alloc: Global,
    place: Place,
    lost: &[bool],
    which: u32,
    wanted: bool,
) -> Result<(), NoMemory>
    requires laid_out { IsLayout place.layout }
    requires row_in { place.row < place.layout.grid.p }
    requires which_in { which < place.layout.grid.q }
    requires columns { length lost.now ≡ width place.layout.grid }
    requires which_lost { slice_index_or lost.now which false ≡ wanted }
    requires few_lost { count_by (λ b. b) lost.now ≤ place.layout.grid.f }
    ensures { OnOk result ((coefficients : List ℕ) × (wanted ≡ true → IsDecoding K.MODULUS (inverse K.MODULUS) place.layout.grid.q lost.now which coefficients) × (round.new ≡ round.old ++ (if wanted then decoding_at (spot_seen place) which lost.now coefficients else []))) }
{
    if wanted {
        decode_strip(round, alloc, place, lost, which)
    } else {
        Ok(())
    }
}

// Appends the events that make the lost data strips of a place anew.
fn mend_strips<K: Field>(
    round: &mut Round<RankMem<K>>,
    alloc: Global,
    place: Place,
    lost: &[bool],
) -> Result<(), NoMemory>
    requires laid_out { IsLayout place.layout }
    requires row_in { place.row < place.layout.grid.p }
    requires columns { length lost.now ≡ width place.layout.grid }
    requires few_lost { count_by (λ b. b) lost.now ≤ place.layout.grid.f }
    ensures { OnOk result ((coefficients : ℕ → List ℕ) × Decode K.MODULUS (inverse K.MODULUS) (spot_seen place) lost.now place.layout.grid.q coefficients
        × (round.new ≡ round.old ++ row_data_at (spot_seen place) lost.now coefficients place.layout.grid.q)) }
{
    for which in 0..place.layout.grid.q {
        decode_if(round, alloc, place, lost, which, lost[which as usize])?;
    }
    Ok(())
}

/// Appends the events that make the lost strips of a place anew: data strips first, then code strips.
pub fn mend_row<K: Field>(
    round: &mut Round<RankMem<K>>,
    alloc: Global,
    place: Place,
    lost: &[bool],
) -> Result<(), NoMemory>
    requires laid_out { IsLayout place.layout }
    requires row_in { place.row < place.layout.grid.p }
    requires few { place.group < 65536 }
    requires columns { length lost.now ≡ width place.layout.grid }
    requires few_lost { count_by (λ b. b) lost.now ≤ place.layout.grid.f }
    ensures { OnOk result ((coefficients : ℕ → List ℕ) × Decode K.MODULUS (inverse K.MODULUS) (spot_seen place) lost.now place.layout.grid.q coefficients
        × (round.new ≡ round.old ++ (row_data_at (spot_seen place) lost.now coefficients place.layout.grid.q ++ row_code_at (inverse K.MODULUS) (spot_seen place) lost.now place.layout.grid.f))) }
{
    mend_strips(round, alloc, place, lost)?;
    mend_codes(round, place, lost)
}
