//! What is found in a journal, read line by line.

ghost use Rattle.std.specs.Prelude.{◌≡◌, [], List, ℕ, Option, IfOk, IfErr};
ghost use Rattle.text_stream.specs.Watched.{FailsBy};
ghost use Rattle.journal_entries.specs.Journal.{StopsJournal};
ghost use Rattle.journal_entries.specs.Next.{HasGiven};
ghost use Rattle.check_lines.specs.Journal.{FindsEnd};

use crate::words::{words_on_illegal, words_on_no_entry};
use journal_entries::{EntriesEnd, JournalEntries, Next};
use sched_history::MAX_WHOLE_HISTORY;
use std::alloc::Global;
use text_stream::{Source, TextFault};

/// What is found in a journal.
#[derive(Drop)]
pub(crate) struct JournalReport {
    /// How `audit --journal` ends on it.
    pub end: EntriesEnd,
    /// How many entries a legal one has.
    pub entries: u64,
    /// Words on the line that is wrong.
    pub words: String,
}

// A journal of so many entries that is legal.
fn legal(alloc: Global, entries: u64, torn: u64) -> JournalReport
    ensures end { result.end ≡ EntriesEnd.Legal torn }
    ensures entries { result.entries ≡ entries }
{
    JournalReport {
        end: EntriesEnd::Legal(torn),
        entries,
        words: String::new(alloc),
    }
}

// A journal in which this entry may not follow those before it.
fn illegal(alloc: Global, place: u64) -> Result<JournalReport, TextFault>
    ensures end { IfOk result (λ report. report.end ≡ EntriesEnd.Illegal place) }
    ensures err { IfErr result (λ e. e ≡ TextFault.Memory) }
{
    Ok(JournalReport {
        end: EntriesEnd::Illegal(place),
        entries: 0,
        words: words_on_illegal(alloc, place)?,
    })
}

// A journal in which this line stands for no entry.
fn bad(alloc: Global, line: u64, shown: Option<&[u8]>) -> Result<JournalReport, TextFault>
    ensures end { IfOk result (λ report. report.end ≡ EntriesEnd.Bad line) }
    ensures err { IfErr result (λ e. e ≡ TextFault.Memory) }
{
    Ok(JournalReport {
        end: EntriesEnd::Bad(line),
        entries: 0,
        words: words_on_no_entry(alloc, line, shown)?,
    })
}

// Reads the entries behind the first line.
fn read_entries<R: Source>(
    alloc: Global,
    mut entries: JournalEntries,
    reader: &mut R,
) -> Result<JournalReport, TextFault>
    requires none { entries.auditor.history ≡ [] }
    ensures finds { IfOk result (λ report. (before : Option (List ℕ)) →
        HasGiven before (R.remaining reader.old) entries →
        FindsEnd before (R.remaining reader.new) report.entries report.end) }
    ensures stops { IfErr result (λ fault. (before : Option (List ℕ)) →
        HasGiven before (R.remaining reader.old) entries →
        StopsJournal before (R.remaining reader.new) fault) }
    ensures failed { FailsBy TextFault.Input result
        (R.has_failed reader.old) (R.has_failed reader.new) }
{
    for _ in 0..=MAX_WHOLE_HISTORY {
        match entries.next(reader) {
            Ok(Next::Entry(_)) => {}
            Ok(Next::Illegal(place)) => return illegal(alloc, place),
            Ok(Next::Bad(line)) => return bad(alloc, line, entries.line()),
            Ok(Next::End(torn)) => return Ok(legal(alloc, entries.auditor.taken(), torn)),
            Err(fault) => return Err(fault),
        }
    }
    // Fewer entries are given than there were turns.
    let _most = entries.auditor.taken();
    Err(TextFault::TooLong)
}

/// Reads a journal to its end, or to the first line that is wrong, as `audit --journal` does. There are no words on a
/// first line that is no configuration.
pub(crate) fn read_journal<R: Source>(
    alloc: Global,
    reader: &mut R,
) -> Result<JournalReport, TextFault>
    ensures finds { IfOk result (λ report. FindsEnd
        (R.remaining reader.old) (R.remaining reader.new) report.entries report.end) }
    ensures stops { IfErr result (StopsJournal (R.remaining reader.old) (R.remaining reader.new)) }
    ensures failed { FailsBy TextFault.Input result
        (R.has_failed reader.old) (R.has_failed reader.new) }
{
    match JournalEntries::open(alloc, reader) {
        Ok(Some((_, entries))) => read_entries(alloc, entries, reader),
        Ok(None) => Ok(JournalReport {
            end: EntriesEnd::Bad(0),
            entries: 0,
            words: String::new(alloc),
        }),
        Err(fault) => Err(fault),
    }
}
