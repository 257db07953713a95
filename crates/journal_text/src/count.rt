//! How many records of each sort a journal has.
ghost use Rattle.std.specs.Prelude.{◌≡◌, ◌+◌, ◌<◌, ◌^◌, if◌then◌else◌, length, count_by};
ghost use Rattle.rank_machine.specs.Losses.{is_numbered};
ghost use Rattle.journal_text.specs.RecordKinds.{is_send, is_loss, is_commit, is_healed};

use crate::tally::Counts;
use rank_machine::Rec;

fn is_send(rec: &Rec) -> bool
    ensures { result ≡ is_send rec.now }
{
    matches!(rec, Rec::Send(..))
}

fn is_loss(rec: &Rec) -> bool
    ensures { result ≡ is_loss rec.now }
{
    matches!(rec, Rec::Lose(..))
}

fn is_healed(rec: &Rec) -> bool
    ensures { result ≡ is_healed rec.now }
{
    matches!(rec, Rec::Commit(_, true))
}

fn is_commit(rec: &Rec) -> bool
    ensures { result ≡ is_commit rec.now }
{
    matches!(rec, Rec::Commit(..))
}

// One more than `n` where a record is counted, and else `n`.
fn count_on(n: u32, is_counted: bool) -> u32
    requires { n < u32.MAX }
    ensures { result ≡ n + (if is_counted then 1 else 0) }
{
    if is_counted { n + 1 } else { n }
}

/// Counts the records of a journal, which are at most 4,294,967,295.
pub fn counts(journal: &[Rec]) -> Counts
    requires { length journal.now < 2 ^ 32 }
    ensures records { result.records ≡ count_by is_numbered journal.now }
    ensures sends { result.sends ≡ count_by is_send journal.now }
    ensures losses { result.losses ≡ count_by is_loss journal.now }
    ensures healed { result.healed ≡ count_by is_healed journal.now }
    ensures commits { result.commits ≡ count_by is_commit journal.now }
{
    let mut records = 0;
    let mut sends = 0;
    let mut losses = 0;
    let mut healed = 0;
    let mut commits = 0;
    for rec in journal {
        records = count_on(records, rec.is_numbered());
        sends = count_on(sends, is_send(rec));
        losses = count_on(losses, is_loss(rec));
        healed = count_on(healed, is_healed(rec));
        commits = count_on(commits, is_commit(rec));
    }
    Counts {
        records,
        sends,
        losses,
        healed,
        commits,
    }
}
