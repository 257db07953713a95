//! The words of the command line.
ghost use Rattle.std.specs.Prelude.{◌≡◌, ◌<◌, length, IfOk, IfSome};
ghost use Rattle.std.specs.Option.{option_map};
ghost use Rattle.std.specs.String.{string_bytes};
ghost use Rattle.scalapack_top.specs.Words.{is_plain, is_journal, is_serial, is_script, is_journal_last, is_journal_first, is_serial_last, is_serial_first, word_at, on_ranks, serially, ranks_places, places_of, machine_of, journal_name, texts};

use std::alloc::{AllocError, Global};

/// What runs a script.
#[derive(Clone, Copy)]
pub enum Machine {
    /// The modelled ranks, which leave a journal.
    Ranks,
    /// The serial machine, on whole matrices.
    Serial,
}

/// Where the names of the script and of the journal stand among the words, and what runs the script.
#[derive(Clone, Copy)]
pub struct Places {
    pub machine: Machine,
    pub script: usize,
    pub journal: Option<usize>,
}

fn is_plain(word: &[u8]) -> bool
    ensures { result ≡ is_plain word.now }
{
    match word {
        [] => false,
        [first, ..] => !(*first == b'-'),
    }
}

fn is_journal(word: &[u8]) -> bool
    ensures { result ≡ is_journal word.now }
{
    word == b"--journal".as_slice()
}

fn is_serial(word: &[u8]) -> bool
    ensures { result ≡ is_serial word.now }
{
    word == b"--serial".as_slice()
}

/// A word, as its bytes.
fn bytes_at(words: &[String], i: usize) -> &[u8]
    requires { i < length words.now }
    ensures { result.now ≡ word_at (texts words.now) i }
{
    words[i].as_bytes()
}

/// A word, as text.
pub fn text_at(words: &[String], i: usize) -> &str
    requires { i < length words.now }
    ensures { result.now ≡ word_at (texts words.now) i }
{
    words[i].as_str()
}

fn is_script(words: &[String]) -> bool
    ensures { result ≡ is_script (texts words.now) }
{
    words.len() == 1 && is_plain(bytes_at(words, 0))
}

fn is_journal_last(words: &[String]) -> bool
    ensures { result ≡ is_journal_last (texts words.now) }
{
    words.len() == 3
        && is_plain(bytes_at(words, 0))
        && is_journal(bytes_at(words, 1))
        && is_plain(bytes_at(words, 2))
}

fn is_journal_first(words: &[String]) -> bool
    ensures { result ≡ is_journal_first (texts words.now) }
{
    words.len() == 3
        && is_journal(bytes_at(words, 0))
        && is_plain(bytes_at(words, 1))
        && is_plain(bytes_at(words, 2))
}

fn is_serial_last(words: &[String]) -> bool
    ensures { result ≡ is_serial_last (texts words.now) }
{
    words.len() == 2 && is_plain(bytes_at(words, 0)) && is_serial(bytes_at(words, 1))
}

fn is_serial_first(words: &[String]) -> bool
    ensures { result ≡ is_serial_first (texts words.now) }
{
    words.len() == 2 && is_serial(bytes_at(words, 0)) && is_plain(bytes_at(words, 1))
}

fn on_ranks(script: usize, journal: Option<usize>) -> Places
    ensures { result ≡ on_ranks script journal }
{
    Places {
        machine: Machine::Ranks,
        script,
        journal,
    }
}

fn serially(script: usize) -> Places
    ensures { result ≡ serially script }
{
    Places {
        machine: Machine::Serial,
        script,
        journal: None,
    }
}

// Where the names stand, if the words run a script on the ranks: `S`, `S --journal J` or `--journal J S`.
fn ranks_places(words: &[String]) -> Option<Places>
    ensures places { result ≡ ranks_places (texts words.now) }
    ensures script { IfSome result (λ p. p.script < length words.now) }
    ensures journal { IfSome result (λ p. IfSome p.journal (λ j. j < length words.now)) }
{
    if is_script(words) {
        return Some(on_ranks(0, None));
    }
    if is_journal_last(words) {
        return Some(on_ranks(0, Some(2)));
    }
    if is_journal_first(words) {
        return Some(on_ranks(2, Some(1)));
    }
    None
}

/// Where the names stand, if the words are of a form that runs a script: `S`, `S --journal J`, `--journal J S`, `S --serial` or
/// `--serial S`.
pub fn places_of(words: &[String]) -> Option<Places>
    ensures places { result ≡ places_of (texts words.now) }
    ensures machine { IfSome result (λ p. p.machine ≡ machine_of (texts words.now)) }
    ensures script { IfSome result (λ p. p.script < length words.now) }
    ensures journal { IfSome result (λ p. IfSome p.journal (λ j. j < length words.now)) }
{
    if is_serial_last(words) {
        return Some(serially(0));
    }
    if is_serial_first(words) {
        return Some(serially(1));
    }
    ranks_places(words)
}

/// The name of the journal's file: J where the words are `S --journal J` or `--journal J S`, and none else.
///
/// # Errors
///
/// Memory ran out.
pub fn journal_name(alloc: Global, words: &[String]) -> Result<Option<String>, AllocError>
    ensures { IfOk result (λ name. option_map string_bytes name ≡ journal_name (texts words.now)) }
{
    let Some(places) = places_of(words) else {
        return Ok(None);
    };
    let Some(i) = places.journal else {
        return Ok(None);
    };
    Ok(Some(String::from_str(alloc, text_at(words, i))?))
}
