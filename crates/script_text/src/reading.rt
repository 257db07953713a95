//! Reading a script.
ghost use Rattle.std.specs.Prelude.{◌≡◌, ◌≤◌, ◌<◌, ◌++◌, ◌∷◌, [], suc, length, Ok, Err, IfOk, IfErr, IfNone, OnOk, pos};
ghost use Rattle.run_data.specs.Script.{commands_of};
ghost use Rattle.script_words.specs.Gives.{Gives, Fails};
ghost use Rattle.script_rules.specs.Counted.{AreCounts};
ghost use Rattle.script_text.specs.Script.{refused, command_code, form_code, line_answer, script_after, script_of};
ghost use Rattle.script_words.specs.Lines.{word_lines};
ghost use Rattle.script_bounds.specs.Accepted.{IsAccepted};
ghost use Rattle.script_text.specs.Check.{first_refusal};
ghost use Rattle.script_words.specs.Limits.{line_limit};

use run_data::{Command, Script, Word};
use script_bounds::bound;
use script_rules::{Counts, Told, more_code, told_by, words_code};
use script_words::{
    CommandWord, Refused, Stop, TextFault, command_of, command_word, cut, line_words, skip_one,
};
use std::alloc::Global;

/// The greatest number of lines of a script.
pub const MAX_LINES: u32 = 4096;

/// The greatest number of records that a script may make.
pub const MAX_RECORDS: u64 = 4_194_304;

/// The refusal of a script whose bound is too high.
pub fn above_bound() -> Refused
    ensures { result ≡ refused 0 (pos 7) }
{
    Refused {
        file: 0,
        line: 0,
        code: 7,
    }
}

// The first rule of its form that a line breaks, by its command and its other words.
fn command_code(script: &Script, command: Option<CommandWord>, others: &[Word]) -> Option<i32>
    requires { length script.now < line_limit }
    ensures { result ≡ command_code script.now command others.now }
{
    let Some(command) = command else {
        return Some(1);
    };
    if !command.has_count(others.len()) {
        return Some(2);
    }
    match words_code(script, script.lines() + 1, command.kinds(), others) {
        Some(code) => Some(code),
        None => more_code(command.takes_more(), others),
    }
}

// The first rule of its form that a line with these words breaks.
#[tactic(auto, unfolding(crate::specs::Script::form_code))]
fn form_code(script: &Script, words: &[Word]) -> Option<i32>
    ensures code { result ≡ form_code script.now words.now }
    ensures few { IfNone result (length script.now < line_limit) }
{
    if script.lines() >= MAX_LINES {
        return Some(11);
    }
    match words {
        [] => None,
        [first, others @ ..] => command_code(script, command_word(first.bytes()), others),
    }
}

// A line of a script, and what the script counts with it.
#[derive(Drop)]
struct Read {
    command: Option<Command>,
    counts: Counts,
}

// The next line of a script.
fn read_line(
    alloc: Global,
    told: Told,
    script: &Script,
    counts: Counts,
    words: &[Word],
) -> Result<Read, TextFault>
    requires few { length script.now ≤ line_limit }
    requires counts { AreCounts counts (length script.now) (commands_of script.now) }
    ensures line { IfOk result (λ r. line_answer told script.now words.now ≡ Ok r.command) }
    ensures few { OnOk result (length script.now < line_limit) }
    ensures counted { IfOk result (λ r. AreCounts r.counts (suc (length script.now)) (commands_of (script.now ++ r.command ∷ []))) }
    ensures refused { IfErr result (λ e. Fails e (line_answer told script.now words.now)) }
{
    let line = script.lines() + 1;
    if let Some(code) = form_code(script, words) {
        return Err(TextFault::Refused(Refused {
            file: 0,
            line,
            code,
        }));
    }
    let Some(command) = command_of(alloc, words)? else {
        return Ok(Read {
            command: None,
            counts,
        });
    };
    match counts.after(told, script, line, &command) {
        Ok(counts) => Ok(Read {
            command: Some(command),
            counts,
        }),
        Err(code) => Err(TextFault::Refused(Refused {
            file: 0,
            line,
            code,
        })),
    }
}

// The script of the lines, without the bound; `told` is what the whole script tells.
fn read_lines(alloc: Global, told: Told, bytes: &[u8]) -> Result<Script, TextFault>
    ensures { Gives result (script_after told [] (word_lines bytes.now)) }
{
    let mut script = Script::new(alloc);
    let mut counts = Counts::new();
    let mut rest = bytes;
    while !rest.is_empty() {
        let (line, after) = cut(rest, Stop::LineFeed);
        let words = line_words(alloc, line)?;
        let read = match read_line(alloc, told, &script, counts, &words) {
            Ok(read) => read,
            Err(fault) => return Err(fault),
        };
        counts = read.counts;
        script.push(read.command)?;
        rest = skip_one(after);
    }
    Ok(script)
}

/// The script that the bytes spell. The refusal is the first broken rule: of the first line that breaks one, by its number, the first
/// in the order of codes 11, 1 and 2, then of the words from left to right, then of the rules of its command; and at line 0, code 7,
/// where the records of all lines are more than 4,194,304. A `lose` line looks at all grids of the script, wherever they stand.
#[tactic(auto, unfolding(crate::specs::Script::script_of))]
pub fn parse_script(alloc: Global, bytes: &[u8]) -> Result<Script, TextFault>
    requires { length bytes.now ≤ 16777216 }
    ensures read { Gives result (script_of bytes.now) }
    ensures accepted { IfOk result IsAccepted }
    ensures checked { IfOk result (λ script. first_refusal script ≡ None) }
{
    let told = told_by(alloc, bytes)?;
    let script = read_lines(alloc, told, bytes)?;
    if MAX_RECORDS < bound(&script) {
        return Err(TextFault::Refused(above_bound()));
    }
    Ok(script)
}
