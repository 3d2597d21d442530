//! The journal in the bytes of a reader, judged.

ghost use Rattle.std.specs.Prelude.{◌≡◌, [], List, ℕ, Option, IfOk, IfErr};
ghost use Rattle.text_stream.specs.Watched.{FailsBy};
ghost use Rattle.journal_entries.specs.Journal.{StopsJournal};
ghost use Rattle.journal_entries.specs.Next.{HasGiven};
ghost use Rattle.journal_entries.specs.Judging.{Finds};

use crate::entries::{JournalEntries, Next};
use sched_history::{Auditor, MAX_WHOLE_HISTORY};
use std::alloc::Global;
use text_stream::{Source, TextFault};

/// What a journal is.
#[derive(Drop)]
pub enum Judged {
    /// Each whole line behind the first is an entry that may follow those before it. The auditor has taken them all,
    /// and behind them stand so many bytes of a torn line.
    Legal(Auditor, u64),
    /// This entry, counted from 0, is the first that may not follow those before it. The reader has read its line last,
    /// and the reader's auditor has taken the entries before it.
    Illegal(u64, JournalEntries),
    /// This line stands for nothing: 0 where there is no whole line, or the first one is no lawful configuration, else
    /// the number of the first line that is no entry.
    Bad(u64),
}

// Reads the entries behind the first line, and judges them.
fn judge_entries<R: Source>(
    mut entries: JournalEntries,
    reader: &mut R,
) -> Result<Judged, TextFault>
    requires none { entries.auditor.history ≡ [] }
    ensures finds { IfOk result (λ judged. (before : Option (List ℕ)) →
        HasGiven before (R.remaining reader.old) entries →
        Finds before (R.remaining reader.new) judged) }
    ensures stops { IfErr result (λ fault. (before : Option (List ℕ)) →
        HasGiven before (R.remaining reader.old) entries →
        StopsJournal before (R.remaining reader.new) fault) }
    ensures failed { FailsBy TextFault.Input result
        (R.has_failed reader.old) (R.has_failed reader.new) }
{
    for _ in 0..=MAX_WHOLE_HISTORY {
        match entries.next(reader) {
            Ok(Next::Entry(_)) => {}
            Ok(Next::Illegal(place)) => return Ok(Judged::Illegal(place, entries)),
            Ok(Next::Bad(line)) => return Ok(Judged::Bad(line)),
            Ok(Next::End(torn)) => return Ok(Judged::Legal(entries.auditor, torn)),
            Err(fault) => return Err(fault),
        }
    }
    // Fewer entries are given than there were turns.
    let _most = entries.auditor.taken();
    Err(TextFault::TooLong)
}

/// Reads a journal to its end, or to the first line that is wrong, and judges its entries one by one as
/// [`sched_history::audit`] judges a list. Each line is let go of before the next, so its memory is that of an auditor
/// and of one line, whatever the journal's length. Bytes behind the last newline are torn, and count for nothing.
pub fn judge_journal<R: Source>(alloc: Global, reader: &mut R) -> Result<Judged, TextFault>
    // What was found is so: of a legal journal all that its lines stand for, else the first line that is wrong.
    ensures finds { IfOk result (Finds (R.remaining reader.old) (R.remaining reader.new)) }

    // A failed read is told where one has failed, and a journal is too long only above 2^44 entries or where a line has
    // more bytes than 64 bits can count.
    ensures stops { IfErr result (StopsJournal (R.remaining reader.old) (R.remaining reader.new)) }
    ensures failed { FailsBy TextFault.Input result
        (R.has_failed reader.old) (R.has_failed reader.new) }
{
    match JournalEntries::open(alloc, reader) {
        Ok(Some((_, entries))) => judge_entries(entries, reader),
        Ok(None) => Ok(Judged::Bad(0)),
        Err(fault) => Err(fault),
    }
}
