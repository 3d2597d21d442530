//! The entries of a journal, taken one by one and kept nowhere.

ghost use Rattle.std.specs.Prelude.{◌≡◌, [], List, ℕ, Option, IfOk, IfErr, OnOk};
ghost use Rattle.text_stream.specs.Watched.{FailsBy};
ghost use Rattle.journal_entries.specs.Journal.{StopsJournal};
ghost use Rattle.journal_entries.specs.Unjudged.{HasRead};
ghost use Rattle.report_command.specs.Journal.{EndsTold, IsShown};

use crate::range::Range;
use crate::ranged::RangedReporter;
use journal_entries::{EntriesEnd, Read, UnjudgedEntries};
use minislots::Checked;
use report_picture::TimedReporter;
use sched_history::{JudgeFault, MAX_WHOLE_HISTORY};
use std::alloc::Global;
use text_stream::{Source, TextFault};

// What the lines of a journal are.
#[derive(Drop)]
pub(crate) enum Shown {
    // A legal history under this configuration, of which the reporter tells. So many bytes stand behind the last
    // newline.
    Legal(Checked, TimedReporter, u64),
    // This entry, counted from 0, is the first that may not follow those before it.
    Illegal(u64),
    // This line, counted from 0, stands for nothing.
    Bad(u64),
}

// Shows the entries of a journal to a reporter, which judges each, up to what ends it or what is told.
fn take_entries<R: Source>(
    entries: &mut UnjudgedEntries,
    reporter: &mut RangedReporter,
    reader: &mut R,
) -> Result<EntriesEnd, TextFault>
    requires none { reporter.old.history ≡ [] }

    ensures takes { IfOk result (λ end. (before : Option (List ℕ)) →
        HasRead before (R.remaining reader.old) entries.old reporter.old.config [] →
        EndsTold reporter.old.range before (R.remaining reader.new) reporter.new.config reporter.new.history end) }
    ensures config { OnOk result (reporter.new.config ≡ reporter.old.config) }
    ensures range { OnOk result (reporter.new.range ≡ reporter.old.range) }
    ensures stops { IfErr result (λ fault. (before : Option (List ℕ)) →
        HasRead before (R.remaining reader.old) entries.old reporter.old.config [] →
        StopsJournal before (R.remaining reader.new) fault) }
    ensures failed { FailsBy TextFault.Input result
        (R.has_failed reader.old) (R.has_failed reader.new) }
{
    for place in 0..=MAX_WHOLE_HISTORY {
        if reporter.is_over() {
            return Ok(EntriesEnd::Legal(0));
        }
        match entries.next(reader) {
            Ok(Read::Entry(entry)) => match reporter.take(&entry) {
                Ok(()) => {}
                Err(JudgeFault::Illegal) => return Ok(EntriesEnd::Illegal(place)),
                Err(JudgeFault::Full) => return Err(TextFault::TooLong),
                Err(JudgeFault::Memory) => return Err(TextFault::Memory),
            },
            Ok(Read::NoEntry) => return Ok(EntriesEnd::Bad(place + 1)),
            Ok(Read::End(torn)) => return Ok(EntriesEnd::Legal(torn)),
            Err(fault) => return Err(fault),
        }
    }
    // Fewer entries are taken than there were turns.
    unreachable!()
}

// Shows the entries that come to a reporter, which tells of them where all are legal.
fn show_entries<R: Source>(
    alloc: Global,
    mut entries: UnjudgedEntries,
    config: Checked,
    reader: &mut R,
    range: Range,
) -> Result<Shown, TextFault>
    ensures shown { IfOk result (λ shown. (before : Option (List ℕ)) →
        HasRead before (R.remaining reader.old) entries config [] →
        IsShown range before (R.remaining reader.new) shown) }
    ensures stops { IfErr result (λ fault. (before : Option (List ℕ)) →
        HasRead before (R.remaining reader.old) entries config [] →
        StopsJournal before (R.remaining reader.new) fault) }
    ensures failed { FailsBy TextFault.Input result
        (R.has_failed reader.old) (R.has_failed reader.new) }
{
    let Ok(mut reporter) = RangedReporter::open(alloc, config, range) else {
        return Err(TextFault::Memory);
    };
    match take_entries(&mut entries, &mut reporter, reader) {
        Ok(EntriesEnd::Legal(torn)) => Ok(Shown::Legal(config, reporter.end(), torn)),
        Ok(EntriesEnd::Illegal(place)) => Ok(Shown::Illegal(place)),
        Ok(EntriesEnd::Bad(line)) => Ok(Shown::Bad(line)),
        Err(fault) => Err(fault),
    }
}

// Reads a journal, of any length, in the memory of one line and of a reporter, which judges each entry once.
#[inline(never)]
pub(crate) fn show_journal<R: Source>(
    alloc: Global,
    reader: &mut R,
    range: Range,
) -> Result<Shown, TextFault>
    ensures shown { IfOk result (IsShown range (R.remaining reader.old) (R.remaining reader.new)) }
    ensures stops { IfErr result (StopsJournal (R.remaining reader.old) (R.remaining reader.new)) }
    ensures failed { FailsBy TextFault.Input result
        (R.has_failed reader.old) (R.has_failed reader.new) }
{
    match UnjudgedEntries::open(alloc, reader) {
        Ok(Some((config, entries))) => show_entries(alloc, entries, config, reader, range),
        Ok(None) => Ok(Shown::Bad(0)),
        Err(fault) => Err(fault),
    }
}
