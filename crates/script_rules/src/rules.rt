//! The rules of a script's lines.
ghost use Rattle.std.specs.Prelude.{◌≡◌, ◌+◌, ◌*◌, ◌≤◌, ◌<◌, ◌^◌, suc, length, drop, Ok, Err, Some, None, IfOk, IfErr, IfNone, is_some, ◌∷◌, [], ◌++◌};
ghost use Rattle.std.specs.Option.{option_copied};
ghost use Rattle.std.specs.List.{list_all};
ghost use Rattle.run_data.specs.Script.{commands_of, is_grid_line, maker};
ghost use Rattle.script_rules.specs.Rules.{maker_command, is_matrix_line, is_list_line, process_rows, process_columns, matrix_words, word_rules, words_code, is_number, more_rules, is_shape, grid_rules, matrix_rules, print_rules, list_rules, topology_rules, links_rules, is_order_number, order_rules, lose_rules, spares_rules, field_rules, pverify_rules};
ghost use Rattle.script_words.specs.Tables.{first_code};
ghost use Rattle.blacs_grid.specs.Limits.{rank_limit};
ghost use Rattle.script_words.specs.Limits.{matrix_limit, printed_limit, orders_limit};

use crate::distributions::Distribution;
use crate::routines::is_option;
use array_desc::{MAX_BLOCK, MAX_SIZE};
use blacs_grid::{MAX_CODE_COLUMNS, MAX_PROCESSES, MAX_RANKS};
use run_data::{Command, IndexList, Script, Word};
use script_words::{Kind, is_name, is_text, number_of};

/// The greatest number of live matrices, and of live pivot lists.
pub const MAX_LIVE: u32 = 16;

/// The greatest number of `matrix` lines of a script.
pub const MAX_MATRICES: u32 = 256;

/// The greatest number of words of the matrices that `print` lines name, together.
pub const MAX_PRINTED: u64 = 268_435_456;

/// The greatest capacity of a link.
pub const MAX_LINKS: u32 = 64;

/// The greatest number of an `order` line.
pub const MAX_ORDER: u32 = 4095;

/// The greatest number of numbers of all `order` lines.
pub const MAX_ORDERED: u32 = 65536;

/// The greatest number of a `spares` line.
pub const MAX_SPARES: u32 = 4096;

/// The command that made what a name means as seen from a line.
pub fn maker_command<'a>(script: &'a Script, line: u32, name: &[u8]) -> Option<&'a Command>
    ensures { option_copied result ≡ maker_command (commands_of script.now) line name.now }
{
    script.command(script.maker(line, name)?)
}

fn is_grid(script: &Script, line: u32, name: &[u8]) -> bool
    ensures { result ≡ is_grid_line (maker_command (commands_of script.now) line name.now) }
{
    matches!(
        maker_command(script, line, name),
        Some(Command::Grid { .. })
    )
}

/// Whether a name means a matrix.
pub fn is_matrix(script: &Script, line: u32, name: &[u8]) -> bool
    ensures { result ≡ is_matrix_line (maker_command (commands_of script.now) line name.now) }
{
    matches!(
        maker_command(script, line, name),
        Some(Command::Matrix { .. })
    )
}

/// Whether a name means a pivot list.
pub fn is_list(script: &Script, line: u32, name: &[u8]) -> bool
    ensures { result ≡ is_list_line (maker_command (commands_of script.now) line name.now) }
{
    matches!(
        maker_command(script, line, name),
        Some(Command::Pgetrf { .. })
    )
}

/// The process rows and the process columns of the grid that a name means; 0 and 0 where it means none.
pub fn grid_shape(script: &Script, line: u32, name: &[u8]) -> (u32, u32)
    ensures rows { result.0 ≡ process_rows (maker_command (commands_of script.now) line name.now) }
    ensures columns { result.1 ≡ process_columns (maker_command (commands_of script.now) line name.now) }
{
    match maker_command(script, line, name) {
        Some(Command::Grid { p, q, .. }) => (*p, *q),
        _ => (0, 0),
    }
}

/// The words of the matrix that a name means; 0 where it means none.
pub fn matrix_words(script: &Script, line: u32, name: &[u8]) -> u64
    ensures value { result ≡ matrix_words (maker_command (commands_of script.now) line name.now) }
    ensures fits { result + 2 ^ 32 < 2 ^ 64 }
{
    match maker_command(script, line, name) {
        Some(Command::Matrix { m, n, .. }) => u64::from(*m) * u64::from(*n),
        _ => 0,
    }
}

// The first code whose rule is not kept.
fn code_unless(kept: bool, code: i32) -> Option<i32>
    ensures { result ≡ first_code ((code, kept) ∷ []) }
{
    if kept { None } else { Some(code) }
}

fn new_name_code(script: &Script, line: u32, word: &[u8]) -> Option<i32>
    ensures { result ≡ first_code (word_rules (commands_of script.now) line Kind.NewName word.now) }
{
    if !is_name(word) {
        return Some(4);
    }
    match script.maker(line, word) {
        Some(_) => Some(5),
        None => None,
    }
}

/// The code of the first rule that a word of a line breaks by its kind.
pub fn word_code(script: &Script, line: u32, kind: Kind, word: &[u8]) -> Option<i32>
    ensures { result ≡ first_code (word_rules (commands_of script.now) line kind word.now) }
{
    match kind {
        Kind::NewName => new_name_code(script, line, word),
        Kind::GridName => code_unless(is_grid(script, line, word), 6),
        Kind::MatrixName => code_unless(is_matrix(script, line, word), 6),
        Kind::ListName => code_unless(is_list(script, line, word), 6),
        Kind::ThingName => code_unless(
            is_matrix(script, line, word) || is_list(script, line, word),
            6,
        ),
        Kind::Number => code_unless(number_of(word).is_some(), 3),
        Kind::FileName => code_unless(is_text(word), 4),
        Kind::Letter => None,
    }
}

/// The code of the first word that breaks a rule, from left to right. The script has the lines before this one.
pub fn words_code(script: &Script, line: u32, kinds: &[Kind], words: &[Word]) -> Option<i32>
    requires { length kinds.now ≤ length words.now }
    ensures { result ≡ words_code (commands_of script.now) line kinds.now words.now }
{
    let [kind, kinds @ ..] = kinds else {
        return None;
    };
    let [word, words @ ..] = words else {
        return None;
    };
    match word_code(script, line, *kind, word.bytes()) {
        Some(code) => Some(code),
        None => words_code(script, line, kinds, words),
    }
}

// Whether all words are numbers.
fn are_numbers(words: &[Word]) -> bool
    ensures { result ≡ list_all is_number words.now }
{
    words.iter().all(|word| number_of(word.bytes()).is_some())
}

/// The code of further words, where they may follow and are not all numbers.
pub fn more_code(takes_more: bool, words: &[Word]) -> Option<i32>
    ensures { result ≡ first_code (more_rules takes_more words.now) }
{
    code_unless(!takes_more || are_numbers(words), 3)
}

/// Whether the shape of a grid is in range.
pub fn is_shape(p: u32, q: u32, f: u32) -> bool
    ensures value { result ≡ is_shape p q f }
{
    1 <= p && p <= MAX_PROCESSES && 1 <= q && q <= MAX_PROCESSES && f <= MAX_CODE_COLUMNS
}

/// The first broken rule of a grid after so many ranks.
pub fn grid_code(ranks: u32, p: u32, q: u32, f: u32) -> Option<i32>
    requires { ranks ≤ rank_limit }
    ensures code { result ≡ first_code (grid_rules ranks p q f) }
    ensures few { IfNone result (ranks + p * (q + f) ≤ rank_limit) }
{
    if p < 1 || MAX_PROCESSES < p || q < 1 || MAX_PROCESSES < q || MAX_CODE_COLUMNS < f {
        return Some(8);
    }
    if MAX_RANKS < ranks + p * (q + f) {
        return Some(9);
    }
    None
}

/// The first broken rule of a matrix on a grid of `p` process rows and `q` process columns, after so many `matrix` lines, of which so
/// many matrices are live.
pub fn matrix_code(
    live: u32,
    lines: u32,
    p: u32,
    q: u32,
    m: u32,
    n: u32,
    mb: u32,
    nb: u32,
    rsrc: u32,
    csrc: u32,
) -> Option<i32>
    ensures code { result ≡ first_code (matrix_rules live lines p q m n mb nb rsrc csrc) }
    ensures few { IfNone result (lines < matrix_limit) }
{
    if m < 1 || MAX_SIZE < m {
        return Some(-3);
    }
    if n < 1 || MAX_SIZE < n {
        return Some(-4);
    }
    if mb < 1 || MAX_BLOCK < mb {
        return Some(-5);
    }
    if nb < 1 || MAX_BLOCK < nb {
        return Some(-6);
    }
    if p <= rsrc {
        return Some(-7);
    }
    if q <= csrc {
        return Some(-8);
    }
    code_unless(live < MAX_LIVE && lines < MAX_MATRICES, 10)
}

/// The first broken rule of a `print` line of a matrix of so many words, after the words that are printed before.
pub fn print_code(printed: u64, words: u64) -> Option<i32>
    requires few { printed ≤ printed_limit }
    requires fits { words + 2 ^ 32 < 2 ^ 64 }
    ensures code { result ≡ first_code (print_rules printed words) }
    ensures few { IfNone result (printed + words ≤ printed_limit) }
{
    code_unless(printed + words <= MAX_PRINTED, 10)
}

/// The first broken rule of a new pivot list, after so many live lists.
pub fn list_code(live: u32) -> Option<i32>
    ensures { result ≡ first_code (list_rules live) }
{
    code_unless(live < MAX_LIVE, 10)
}

/// The first broken rule of a `topology` line.
pub fn topology_code(kind: &[u8]) -> Option<i32>
    ensures { result ≡ first_code (topology_rules kind.now) }
{
    let known = is_option(b"I", b"i", kind)
        || is_option(b"D", b"d", kind)
        || is_option(b"T", b"t", kind);
    code_unless(known, 8)
}

/// The first broken rule of a `links` line after so many of them.
pub fn links_code(lines: u32, n: u32) -> Option<i32>
    ensures code { result ≡ first_code (links_rules lines n) }
    ensures first { IfNone result (lines ≡ 0) }
{
    if n < 1 || MAX_LINKS < n {
        return Some(8);
    }
    code_unless(lines == 0, 16)
}

// Whether all numbers of an `order` line are in range.
fn are_order_numbers(numbers: &IndexList) -> bool
    ensures { result ≡ list_all is_order_number numbers.now }
{
    for i in 0..numbers.len() {
        if MAX_ORDER < numbers.get(i) {
            return false;
        }
    }
    true
}

/// The first broken rule of an `order` line after so many numbers of earlier ones.
pub fn order_code(ordered: u32, numbers: &IndexList) -> Option<i32>
    requires { ordered ≤ orders_limit }
    ensures code { result ≡ first_code (order_rules ordered numbers.now) }
    ensures few { IfNone result (ordered + length numbers.now ≤ orders_limit) }
{
    let few = u64::from(ordered) + u64::from(numbers.len()) <= u64::from(MAX_ORDERED);
    code_unless(are_order_numbers(numbers) && few, 8)
}

/// The first broken rule of a `lose` line, where all grids of the script have so many ranks.
pub fn lose_code(ranks: u64, rank: u32) -> Option<i32>
    ensures { result ≡ first_code (lose_rules ranks rank) }
{
    code_unless(u64::from(rank) < ranks, 8)
}

/// The first broken rule of a `spares` line after so many of them.
pub fn spares_code(lines: u32, n: u32) -> Option<i32>
    ensures code { result ≡ first_code (spares_rules lines n) }
    ensures first { IfNone result (lines ≡ 0) }
{
    if MAX_SPARES < n {
        return Some(8);
    }
    code_unless(lines == 0, 21)
}

/// The first broken rule of a `field` line after so many of them and so many `matrix` lines.
pub fn field_code(lines: u32, matrices: u32, n: u32) -> Option<i32>
    ensures code { result ≡ first_code (field_rules lines matrices n) }
    ensures first { IfNone result (lines ≡ 0) }
{
    if n != 65537 && n != 65521 {
        return Some(8);
    }
    if lines != 0 {
        return Some(19);
    }
    code_unless(matrices == 0, 20)
}

/// The first broken rule of a `pverify` line of a matrix.
pub fn pverify_code(a: Distribution) -> Option<i32>
    ensures { result ≡ first_code (pverify_rules a) }
{
    code_unless(1 <= a.f, 22)
}
