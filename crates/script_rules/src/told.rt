//! What a script tells as a whole, before its lines are read one after another.
ghost use Rattle.std.specs.Prelude.{◌≡◌, ◌≤◌, length, IfOk};
ghost use Rattle.script_words.specs.Lines.{word_lines};
ghost use Rattle.script_rules.specs.Told.{shape_ranks, ranks_told, told_by};

use crate::rules::is_shape;
use run_data::Word;
use script_words::{Stop, cut, is_word, line_words, number_of, skip_one};
use std::alloc::{AllocError as NoMemory, Global};

/// What a script tells as a whole: the ranks of all its grids.
#[derive(Clone, Copy)]
pub struct Told {
    pub ranks: u64,
}

// The ranks of a grid of this shape, if it is in range.
fn shape_ranks(p: Option<u32>, q: Option<u32>, f: Option<u32>) -> u32
    ensures value { result ≡ shape_ranks p q f }
    ensures few { result ≤ 320 }
{
    let (Some(p), Some(q), Some(f)) = (p, q, f) else {
        return 0;
    };
    if is_shape(p, q, f) { p * (q + f) } else { 0 }
}

// The ranks that a line tells.
fn ranks_told(words: &[Word]) -> u32
    ensures value { result ≡ ranks_told words.now }
    ensures few { result ≤ 320 }
{
    let [word, _, p, q, f] = words else {
        return 0;
    };
    if !is_word(word.bytes(), b"grid") {
        return 0;
    }
    shape_ranks(
        number_of(p.bytes()),
        number_of(q.bytes()),
        number_of(f.bytes()),
    )
}

/// What the lines of a text tell as a script.
pub fn told_by(alloc: Global, bytes: &[u8]) -> Result<Told, NoMemory>
    requires { length bytes.now ≤ 16777216 }
    ensures { IfOk result (λ t. t ≡ told_by (word_lines bytes.now)) }
{
    let mut all = Told { ranks: 0 };
    let mut rest = bytes;
    while !rest.is_empty() {
        let (line, after) = cut(rest, Stop::LineFeed);
        let words = line_words(alloc, line)?;
        all.ranks += u64::from(ranks_told(&words));
        rest = skip_one(after);
    }
    Ok(all)
}
