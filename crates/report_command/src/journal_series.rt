//! The reports on the parts of the journal in the bytes of a reader, of any length.

ghost use Rattle.std.specs.Prelude.{◌≡◌, ◌+◌, ◌≤◌, [], None, length, max, IfOk, IfErr, Option, List, ℕ};
ghost use Rattle.text_stream.specs.Watched.{FailsBy};
ghost use Rattle.text_stream.specs.RunFault.{TellsFailedRead, TellsFailedWrite};
ghost use Rattle.sched_calls.specs.declared.reply.TheConstants.{MAX_WHOLE_HISTORY};
ghost use Rattle.text_stream.specs.declared.run_fault.RunFault.TheVariants.{Text as Stopped};
ghost use Rattle.journal_entries.specs.End.{StopsCommand};
ghost use Rattle.report_command.specs.JournalSeries.{IsToldSoFar, IsTurnTold, IsJournalTold, SeriesOfJournal};

use crate::form::Form;
use crate::journal_report::put_illegal_entry;
use crate::parts::{Untold, tell_entry, tell_last};
use crate::series::Series;
use journal_entries::{EntriesEnd, Read, UnjudgedEntries};
use minislots::Checked;
use sched_history::{JudgeFault, MAX_WHOLE_HISTORY};
use std::alloc::Global;
use text_stream::{RunFault, Sink, Source, TextFault};

// Reads the next line, and tells of the part that is over with its entry, or of how the journal ends. So many entries
// were taken before.
fn tell_next<R: Source, W: Sink>(
    alloc: Global,
    reader: &mut R,
    entries: &mut UnjudgedEntries,
    writer: &mut W,
    form: Form,
    series: &mut Series,
    place: u64,
) -> Result<Option<EntriesEnd>, TextFault>
    requires count { place ≡ length series.old.told.history }
    requires few { place ≤ MAX_WHOLE_HISTORY }

    ensures told { IfOk result (λ end. (unread before : Option (List ℕ)) →
        IsToldSoFar form unread (R.remaining reader.old) entries.old series.old before (W.contents writer.old) →
        IsTurnTold form unread (R.remaining reader.new) entries.new series.old series.new before
        (W.contents writer.new) end) }
    ensures few { IfOk result (λ end. end ≡ None →
        (length series.new.told.history ≡ place + 1) × (place + 1 ≤ MAX_WHOLE_HISTORY)) }
    ensures config { series.new.told.config ≡ series.old.told.config }
    ensures every { series.new.every ≡ series.old.every }
    ensures stops { IfErr result (λ fault. (unread before : Option (List ℕ)) →
        IsToldSoFar form unread (R.remaining reader.old) entries.old series.old before (W.contents writer.old) →
        StopsCommand unread (R.remaining reader.new) (Stopped fault)) }
    ensures failed_read { FailsBy TextFault.Input result
        (R.has_failed reader.old) (R.has_failed reader.new) }
    ensures failed_write { (unread before : Option (List ℕ)) →
        IsToldSoFar form unread (R.remaining reader.old) entries.old series.old before (W.contents writer.old) →
        FailsBy TextFault.Output result (W.has_failed writer.old) (W.has_failed writer.new) }
{
    let entry = match entries.next(reader) {
        Ok(Read::Entry(entry)) => entry,
        Ok(Read::NoEntry) => return Ok(Some(EntriesEnd::Bad(place + 1))),
        Ok(Read::End(torn)) => {
            tell_last(alloc, writer, form, series)?;
            return Ok(Some(EntriesEnd::Legal(torn)));
        }
        Err(fault) => return Err(fault),
    };
    match tell_entry(alloc, writer, form, series, &entry) {
        Ok(()) => Ok(None),
        Err(Untold::Judged(JudgeFault::Illegal)) => {
            let end = put_illegal_entry(writer, place)?;
            Ok(Some(end))
        }
        Err(Untold::Judged(JudgeFault::Full)) => Err(TextFault::TooLong),
        Err(Untold::Judged(JudgeFault::Memory)) => Err(TextFault::Memory),
        Err(Untold::Text(fault)) => Err(fault),
    }
}

// Tells of the entries that come, part by part.
fn tell_entries<R: Source, W: Sink>(
    alloc: Global,
    reader: &mut R,
    mut entries: UnjudgedEntries,
    writer: &mut W,
    form: Form,
    mut series: Series,
) -> Result<EntriesEnd, TextFault>
    requires { series.told.history ≡ [] }

    ensures told { IfOk result (λ end. (unread before : Option (List ℕ)) →
        IsToldSoFar form unread (R.remaining reader.old) entries series before (W.contents writer.old) →
        IsJournalTold form series.every unread (R.remaining reader.new) series.told.config before
        (W.contents writer.new) end) }
    ensures stops { IfErr result (λ fault. (unread before : Option (List ℕ)) →
        IsToldSoFar form unread (R.remaining reader.old) entries series before (W.contents writer.old) →
        StopsCommand unread (R.remaining reader.new) (Stopped fault)) }
    ensures failed_read { FailsBy TextFault.Input result
        (R.has_failed reader.old) (R.has_failed reader.new) }
    ensures failed_write { (unread before : Option (List ℕ)) →
        IsToldSoFar form unread (R.remaining reader.old) entries series before (W.contents writer.old) →
        FailsBy TextFault.Output result (W.has_failed writer.old) (W.has_failed writer.new) }
{
    for place in 0..=MAX_WHOLE_HISTORY {
        match tell_next(
            alloc,
            reader,
            &mut entries,
            writer,
            form,
            &mut series,
            place,
        ) {
            Ok(None) => {}
            Ok(Some(end)) => return Ok(end),
            Err(fault) => return Err(fault),
        }
    }
    // Fewer entries are taken than there were turns.
    unreachable!()
}

/// Reads a journal to its end, and writes the reports on its parts of so many milliseconds, of one at least, in this
/// form, each as soon as the part is over: the parts begin with the multiples of that after the configuration's start,
/// and one without entries is left out. Over each in tables stands `from` with the millisecond with which it begins.
/// Where the entries are no legal history the line `illegal` follows, with the first entry, counted from 0, whose
/// reply may not follow those before it; of the part that it, or a bad line, breaks off nothing is told. Its memory is
/// that of a report.
pub fn run_journal_series<R: Source, W: Sink>(
    alloc: Global,
    reader: &mut R,
    writer: &mut W,
    form: Form,
    every: u64,
) -> Result<EntriesEnd, RunFault>
    // What was written are the reports on the parts, one after the other, and nothing else.
    ensures ok { IfOk result (SeriesOfJournal form every (R.remaining reader.old) (R.remaining reader.new)
        (W.contents writer.old) (W.contents writer.new)) }

    // Each fault comes under its own condition.
    ensures stops { IfErr result (StopsCommand (R.remaining reader.old) (R.remaining reader.new)) }

    // A failed read or write is told where one has failed, and where all went well none did.
    ensures failed_read { TellsFailedRead result
        (R.has_failed reader.old) (R.has_failed reader.new) }
    ensures failed_write { TellsFailedWrite result
        (W.has_failed writer.old) (W.has_failed writer.new) }
{
    let (config, entries) = match UnjudgedEntries::open(alloc, reader) {
        Ok(Some(opened)) => opened,
        Ok(None) => return Ok(EntriesEnd::Bad(0)),
        Err(fault) => return Err(RunFault::Text(fault)),
    };
    let Ok(series) = Series::open(alloc, config, every) else {
        return Err(RunFault::Text(TextFault::Memory));
    };
    match tell_entries(alloc, reader, entries, writer, form, series) {
        Ok(end) => Ok(end),
        Err(fault) => Err(RunFault::Text(fault)),
    }
}
