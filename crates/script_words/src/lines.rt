//! Lines and words of a text.
ghost use Rattle.std.specs.Prelude.{◌≡◌, ◌+◌, ◌≤◌, ◌<◌, ◌++◌, ◌∷◌, [], true, drop, length, slice_index, IfOk, IfNone, IfSome};
ghost use Rattle.std.specs.Str.Lines.{strip_carriage_return};
ghost use Rattle.script_words.specs.Lines.{is_blank, until, from_on, stops_at, words_of, line_words};

use run_data::Word;
use std::alloc::{AllocError as NoMemory, Global};

/// Where a text is cut.
#[derive(Clone, Copy)]
pub enum Stop {
    LineFeed,
    /// `#`, where a comment begins.
    Hash,
    /// A space or a tab.
    Blank,
    /// Any byte but a space and a tab.
    NonBlank,
}

fn is_blank(b: u8) -> bool
    ensures { result ≡ is_blank b }
{
    b == b' ' || b == b'\t'
}

fn is_stop(stop: Stop, b: u8) -> bool
    ensures { result ≡ stops_at stop b }
{
    match stop {
        Stop::LineFeed => b == b'\n',
        Stop::Hash => b == b'#',
        Stop::Blank => is_blank(b),
        Stop::NonBlank => !is_blank(b),
    }
}

/// The bytes before the first stop, and those from it on.
pub fn cut(bytes: &[u8], stop: Stop) -> (&[u8], &[u8])
    ensures front { result.0.now ≡ until (stops_at stop) bytes.now }
    ensures back { result.1.now ≡ from_on (stops_at stop) bytes.now }
    ensures begins { 0 < length result.1.now → stops_at stop (slice_index result.1.now 0) ≡ true }
    ensures parts { length result.0.now + length result.1.now ≡ length bytes.now }
{
    let mut i = 0;
    while i < bytes.len() {
        if is_stop(stop, bytes[i]) {
            return bytes.split_at(i);
        }
        i += 1;
    }
    bytes.split_at(i)
}

/// A text without its first byte, if it has one.
pub fn skip_one(bytes: &[u8]) -> &[u8]
    ensures { result.now ≡ drop 1 bytes.now }
{
    match bytes {
        [] => bytes,
        [_, rest @ ..] => rest,
    }
}

fn without_return(line: &[u8]) -> &[u8]
    ensures { result.now ≡ strip_carriage_return line.now }
{
    match line {
        [front @ .., b'\r'] => front,
        _ => line,
    }
}

fn words_in(alloc: Global, text: &[u8]) -> Result<Vec<Word>, NoMemory>
    ensures { IfOk result (λ v. v.items ≡ words_of text.now) }
{
    let mut words = Vec::new(alloc);
    let (_, mut rest) = cut(text, Stop::NonBlank);
    while !rest.is_empty() {
        let (word, after) = cut(rest, Stop::Blank);
        words.push(Word::new(alloc, word)?)?;
        let (_, next) = cut(after, Stop::NonBlank);
        rest = next;
    }
    Ok(words)
}

/// What stands in a line before `#`, without a carriage return at its end: the words of the line are those of this text.
pub fn line_text(line: &[u8]) -> &[u8]
    ensures { words_of result.now ≡ line_words line.now }
{
    let (text, _) = cut(without_return(line), Stop::Hash);
    text
}

/// The words of a line.
pub fn line_words(alloc: Global, line: &[u8]) -> Result<Vec<Word>, NoMemory>
    ensures { IfOk result (λ v. v.items ≡ line_words line.now) }
{
    words_in(alloc, line_text(line))
}

/// The first word of a text, if it has one, and what stands after it.
pub fn next_word(text: &[u8]) -> Option<(&[u8], &[u8])>
    ensures none { IfNone result (words_of text.now ≡ []) }
    ensures some { IfSome result (λ parts. words_of text.now ≡ parts.0.now ∷ words_of parts.1.now) }
    ensures shorter { IfSome result (λ parts. length parts.1.now < length text.now) }
{
    let (_, rest) = cut(text, Stop::NonBlank);
    if rest.is_empty() {
        return None;
    }
    Some(cut(rest, Stop::Blank))
}

/// The number of words of a text.
pub fn word_count(text: &[u8]) -> usize
    ensures { result ≡ length (words_of text.now) }
{
    let mut count = 0;
    let mut rest = text;
    while let Some((_, after)) = next_word(rest) {
        count += 1;
        rest = after;
    }
    count
}
