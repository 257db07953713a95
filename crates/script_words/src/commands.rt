//! The lines of a script as commands.
ghost use Rattle.std.specs.Prelude.{◌≡◌, IfOk, map};
ghost use Rattle.script_words.specs.Kinds.{command_word};
ghost use Rattle.script_words.specs.Commands.{word_at, number_at, grid_of, matrix_of, links_of, numbers_of, order_of, lose_of, spares_line_of, field_of, flip_of, command_as, command_of};

use crate::kinds::{CommandWord, command_word};
use crate::numbers::number_of;
use crate::routine_lines::{
    pgemm_of, pgemr2d_of, pgetrf_of, pgetri_of, pgetrs_of, ptran_of, ptrsm_of,
};
use run_data::{Command, IndexList, Word};
use std::alloc::{AllocError as NoMemory, Global};

fn bytes_at(words: &[Word], i: usize) -> &[u8]
    ensures { result.now ≡ word_at words.now i }
{
    match words.get(i) {
        Some(word) => word.bytes(),
        None => &[],
    }
}

/// The number that a word of a line is.
pub fn number_at(words: &[Word], i: usize) -> Option<u32>
    ensures { result ≡ number_at words.now i }
{
    number_of(bytes_at(words, i))
}

/// A word of a line, as a word of its own; empty where the line has no such word.
pub fn word_at(alloc: Global, words: &[Word], i: usize) -> Result<Word, NoMemory>
    ensures { IfOk result (λ w. w ≡ word_at words.now i) }
{
    Word::new(alloc, bytes_at(words, i))
}

/// Two words of a line.
pub fn pair_at(alloc: Global, words: &[Word], i: usize, j: usize) -> Result<(Word, Word), NoMemory>
    ensures first { IfOk result (λ pair. pair.0 ≡ word_at words.now i) }
    ensures second { IfOk result (λ pair. pair.1 ≡ word_at words.now j) }
{
    let first = word_at(alloc, words, i)?;
    let second = word_at(alloc, words, j)?;
    Ok((first, second))
}

/// Three words of a line.
pub fn triple_at(
    alloc: Global,
    words: &[Word],
    i: usize,
    j: usize,
    k: usize,
) -> Result<(Word, Word, Word), NoMemory>
    ensures first { IfOk result (λ triple. triple.0 ≡ word_at words.now i) }
    ensures second { IfOk result (λ triple. triple.1 ≡ word_at words.now j) }
    ensures third { IfOk result (λ triple. triple.2 ≡ word_at words.now k) }
{
    let (first, second) = pair_at(alloc, words, i, j)?;
    let third = word_at(alloc, words, k)?;
    Ok((first, second, third))
}

/// The numbers that the words at some places of a line are, if all of them are numbers.
pub fn numbers_at<const N: usize>(words: &[Word], places: [usize; N]) -> Option<[u32; N]>
    ensures { result ≡ numbers_of (map (word_at words.now) places.entry) }
{
    let mut numbers = [0; N];
    for i in 0..N {
        numbers[i] = number_at(words, places[i])?;
    }
    Some(numbers)
}

#[tactic(auto, unfolding(crate::specs::Commands::grid_of))]
fn grid_of(alloc: Global, words: &[Word]) -> Result<Option<Command>, NoMemory>
    ensures { IfOk result (λ c. c ≡ grid_of words.now) }
{
    let Some(numbers) = numbers_at(words, [2, 3, 4]) else {
        return Ok(None);
    };
    let [p, q, f] = numbers;
    let name = word_at(alloc, words, 1)?;
    Ok(Some(Command::Grid { name, p, q, f }))
}

#[tactic(auto, unfolding(crate::specs::Commands::matrix_of))]
fn matrix_of(alloc: Global, words: &[Word]) -> Result<Option<Command>, NoMemory>
    ensures { IfOk result (λ c. c ≡ matrix_of words.now) }
{
    let Some(numbers) = numbers_at(words, [3, 4, 5, 6, 7, 8]) else {
        return Ok(None);
    };
    let [m, n, mb, nb, rsrc, csrc] = numbers;
    let (name, grid, file) = triple_at(alloc, words, 1, 2, 9)?;
    Ok(Some(Command::Matrix {
        name,
        grid,
        m,
        n,
        mb,
        nb,
        rsrc,
        csrc,
        file,
    }))
}

#[tactic(auto, unfolding(crate::specs::Commands::links_of))]
fn links_of(words: &[Word]) -> Option<Command>
    ensures { result ≡ links_of words.now }
{
    let n = number_at(words, 1)?;
    Some(Command::Links { n })
}

#[tactic(auto, unfolding(crate::specs::Commands::lose_of))]
fn lose_of(words: &[Word]) -> Option<Command>
    ensures { result ≡ lose_of words.now }
{
    let at = number_at(words, 1)?;
    let rank = number_at(words, 2)?;
    Some(Command::Lose { at, rank })
}

#[tactic(auto, unfolding(crate::specs::Commands::spares_line_of))]
fn spares_line_of(words: &[Word]) -> Option<Command>
    ensures { result ≡ spares_line_of words.now }
{
    let n = number_at(words, 1)?;
    Some(Command::Spares { n })
}

#[tactic(auto, unfolding(crate::specs::Commands::field_of))]
fn field_of(words: &[Word]) -> Option<Command>
    ensures { result ≡ field_of words.now }
{
    let n = number_at(words, 1)?;
    Some(Command::Field { n })
}

#[tactic(auto, unfolding(crate::specs::Commands::flip_of))]
fn flip_of(alloc: Global, words: &[Word]) -> Result<Option<Command>, NoMemory>
    ensures { IfOk result (λ c. c ≡ flip_of words.now) }
{
    let Some(numbers) = numbers_at(words, [2, 3, 4]) else {
        return Ok(None);
    };
    let [i, j, x] = numbers;
    let name = word_at(alloc, words, 1)?;
    Ok(Some(Command::Flip { name, i, j, x }))
}

// The numbers that words are, if all of them are numbers.
fn numbers_of(alloc: Global, words: &[Word]) -> Result<Option<IndexList>, NoMemory>
    ensures { IfOk result (λ ns. ns ≡ numbers_of words.now) }
{
    let mut numbers = IndexList::new(alloc);
    for word in words {
        let Some(n) = number_of(word.bytes()) else {
            return Ok(None);
        };
        numbers.push(n)?;
    }
    Ok(Some(numbers))
}

#[tactic(auto, unfolding(crate::specs::Commands::order_of))]
fn order_of(alloc: Global, words: &[Word]) -> Result<Option<Command>, NoMemory>
    ensures { IfOk result (λ c. c ≡ order_of words.now) }
{
    let numbers = match words {
        [] => numbers_of(alloc, words)?,
        [_, others @ ..] => numbers_of(alloc, others)?,
    };
    match numbers {
        Some(numbers) => Ok(Some(Command::Order { numbers })),
        None => Ok(None),
    }
}

#[tactic(auto, unfolding(crate::specs::Commands::command_as))]
fn command_as(
    alloc: Global,
    command: Option<CommandWord>,
    words: &[Word],
) -> Result<Option<Command>, NoMemory>
    ensures { IfOk result (λ c. c ≡ command_as command words.now) }
{
    match command {
        Some(CommandWord::Grid) => grid_of(alloc, words),
        Some(CommandWord::Matrix) => matrix_of(alloc, words),
        Some(CommandWord::Pgemm) => pgemm_of(alloc, words),
        Some(CommandWord::Ptrsm) => ptrsm_of(alloc, words),
        Some(CommandWord::Pgetrf) => pgetrf_of(alloc, words),
        Some(CommandWord::Pgetrs) => pgetrs_of(alloc, words),
        Some(CommandWord::Pgemr2d) => pgemr2d_of(alloc, words),
        Some(CommandWord::Print) => {
            let name = word_at(alloc, words, 1)?;
            Ok(Some(Command::Print { name }))
        }
        Some(CommandWord::Pivots) => {
            let name = word_at(alloc, words, 1)?;
            Ok(Some(Command::Pivots { name }))
        }
        Some(CommandWord::Discard) => {
            let name = word_at(alloc, words, 1)?;
            Ok(Some(Command::Discard { name }))
        }
        Some(CommandWord::Topology) => {
            let kind = word_at(alloc, words, 1)?;
            Ok(Some(Command::Topology { kind }))
        }
        Some(CommandWord::Links) => Ok(links_of(words)),
        Some(CommandWord::Order) => order_of(alloc, words),
        Some(CommandWord::Lose) => Ok(lose_of(words)),
        Some(CommandWord::Spares) => Ok(spares_line_of(words)),
        Some(CommandWord::Field) => Ok(field_of(words)),
        Some(CommandWord::Ptran) => ptran_of(alloc, words),
        Some(CommandWord::Pgetri) => pgetri_of(alloc, words),
        Some(CommandWord::Flip) => flip_of(alloc, words),
        Some(CommandWord::Pverify) => {
            let name = word_at(alloc, words, 1)?;
            Ok(Some(Command::Pverify { name }))
        }
        None => Ok(None),
    }
}

/// The command that a line spells; a line without words has none.
#[tactic(auto, unfolding(crate::specs::Commands::command_of))]
pub fn command_of(alloc: Global, words: &[Word]) -> Result<Option<Command>, NoMemory>
    ensures { IfOk result (λ c. c ≡ command_of words.now) }
{
    match words {
        [] => Ok(None),
        [first, ..] => command_as(alloc, command_word(first.bytes()), words),
    }
}
