//! The text of a journal.
ghost use Rattle.std.specs.Prelude.{◌≡◌, ◌<◌, IfOk};
ghost use Rattle.rank_machine.specs.JournalText.{number_after, journal_text};

use crate::line::add_line;
use rank_machine::Rec;
use std::alloc::{AllocError as NoMemory, Global};

fn number_after(n: usize, rec: &Rec) -> usize
    requires { n < usize.MAX }
    ensures { result ≡ number_after n rec.now }
{
    if rec.is_numbered() { n + 1 } else { n }
}

/// The text of a journal: one line a record, numbered from 0 but for losses, as the crate's page says.
///
/// # Errors
///
/// `NoMemory` where there is no memory for the text.
pub fn journal_text(alloc: Global, journal: &[Rec]) -> Result<Vec<u8>, NoMemory>
    ensures { IfOk result (λ v. v.items ≡ journal_text journal.now) }
{
    let mut out = Vec::new(alloc);
    let mut n = 0;
    for rec in journal {
        add_line(&mut out, n, rec)?;
        n = number_after(n, rec);
    }
    Ok(out)
}
