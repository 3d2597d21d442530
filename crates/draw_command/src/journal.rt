//! The picture of a journal.

ghost use Rattle.std.specs.Prelude.{◌≡◌, [], List, ℕ, Option, IfOk, OnOk, IfErr};
ghost use Rattle.frame_picture.specs.Part.{HasTaken};
ghost use Rattle.text_stream.specs.Watched.{FailsBy};
ghost use Rattle.text_stream.specs.RunFault.{TellsFailedRead, TellsFailedWrite, WritesLast};
ghost use Rattle.journal_entries.specs.Unjudged.{HasRead};
ghost use Rattle.journal_entries.specs.End.{EndsBehind};
ghost use Rattle.draw_command.specs.Journal.{DrawnEntries, DrawnJournal, StopsEntries, StopsJournalDrawing};

use frame_picture::{Part, Span, put_part};
use journal_entries::{EntriesEnd, Read, UnjudgedEntries};
use minislots::Checked;
use sched_history::{JudgeFault, MAX_WHOLE_HISTORY};
use std::alloc::Global;
use text_stream::{RunFault, Sink, Source, TextFault};

// Takes the entries of a journal, each of which the part judges, up to what ends it.
fn take_entries<R: Source>(
    part: &mut Part,
    entries: &mut UnjudgedEntries,
    reader: &mut R,
) -> Result<EntriesEnd, TextFault>
    requires none { part.old.auditor.history ≡ [] }
    requires fresh { HasTaken part.old }

    ensures takes { IfOk result (λ end. (before : Option (List ℕ)) →
        HasRead before (R.remaining reader.old) entries.old part.old.config [] →
        EndsBehind before (R.remaining reader.new) part.old.config part.new.auditor.history end) }
    ensures taken { OnOk result (HasTaken part.new) }
    ensures config { OnOk result (part.new.config ≡ part.old.config) }
    ensures span { OnOk result (part.new.span ≡ part.old.span) }
    ensures stops { IfErr result (λ fault. (before : Option (List ℕ)) →
        HasRead before (R.remaining reader.old) entries.old part.old.config [] →
        StopsEntries part.old.span before (R.remaining reader.new) fault) }
    ensures failed { FailsBy TextFault.Input result
        (R.has_failed reader.old) (R.has_failed reader.new) }
{
    for place in 0..=MAX_WHOLE_HISTORY {
        match entries.next(reader) {
            Ok(Read::Entry(entry)) => match part.take(entry) {
                Ok(()) => {}
                Err(JudgeFault::Illegal) => return Ok(EntriesEnd::Illegal(place)),
                Err(JudgeFault::Full) => return Err(TextFault::TooLong),
                Err(JudgeFault::Memory) => return Err(TextFault::Memory),
            },
            Ok(Read::NoEntry) => return Ok(EntriesEnd::Bad(place + 1)),
            Ok(Read::End(torn)) => return Ok(EntriesEnd::Legal(torn)),
            Err(fault) => return Err(fault),
        }
    }
    // Fewer entries are taken than there were turns.
    unreachable!()
}

// Draws the entries that come, once all have come.
fn draw_entries<R: Source, W: Sink>(
    alloc: Global,
    mut entries: UnjudgedEntries,
    config: &Checked,
    reader: &mut R,
    span: Span,
    writer: &mut W,
) -> Result<EntriesEnd, RunFault>
    ensures draws { IfOk result (λ end. (before : Option (List ℕ)) →
        HasRead before (R.remaining reader.old) entries config.now [] →
        DrawnEntries span before (R.remaining reader.new)
        (W.contents writer.old) (W.contents writer.new) end) }
    ensures stops { IfErr result (λ fault. (before : Option (List ℕ)) →
        HasRead before (R.remaining reader.old) entries config.now [] →
        StopsJournalDrawing span before (R.remaining reader.new) fault) }
    ensures quiet { WritesLast result writer.old writer.new }
    ensures failed_read { TellsFailedRead result
        (R.has_failed reader.old) (R.has_failed reader.new) }
    ensures failed_write { (before : Option (List ℕ)) →
        HasRead before (R.remaining reader.old) entries config.now [] →
        TellsFailedWrite result (W.has_failed writer.old) (W.has_failed writer.new) }
{
    let Ok(mut part) = Part::open(alloc, config, span) else {
        return Err(RunFault::Text(TextFault::Memory));
    };
    let end = match take_entries(&mut part, &mut entries, reader) {
        Ok(end) => end,
        Err(fault) => return Err(RunFault::Text(fault)),
    };
    put_part(writer, &mut part)?;
    Ok(end)
}

/// Reads a journal and writes the picture of its frames in this span in SVG. An entry that may not follow those before
/// it ends the journal, and so does a line that stands for nothing: what stands before is drawn. Where the first line
/// is no lawful configuration nothing is drawn. The journal may have any length: what is kept until the picture is
/// written are the entries from the first frame in the span to the last one, 16777216 at most; and nothing is written
/// before another fault than one of output.
pub fn draw_journal<R: Source, W: Sink>(
    alloc: Global,
    reader: &mut R,
    span: Span,
    writer: &mut W,
) -> Result<EntriesEnd, RunFault>
    // What was written is the picture of the frames in the span of all entries that may stand before the end, by the
    // plan, and nothing else.
    ensures ok { IfOk result (DrawnJournal span (R.remaining reader.old) (R.remaining reader.new)
        (W.contents writer.old) (W.contents writer.new)) }

    // Each fault comes under its own condition.
    ensures stops { IfErr result (StopsJournalDrawing span
        (R.remaining reader.old) (R.remaining reader.new)) }
    ensures quiet { WritesLast result writer.old writer.new }

    // A failed read or write is told where one has failed, and where all went well none did.
    ensures failed_read { TellsFailedRead result
        (R.has_failed reader.old) (R.has_failed reader.new) }
    ensures failed_write { TellsFailedWrite result
        (W.has_failed writer.old) (W.has_failed writer.new) }
{
    match UnjudgedEntries::open(alloc, reader) {
        Ok(Some((config, entries))) => draw_entries(alloc, entries, &config, reader, span, writer),
        Ok(None) => Ok(EntriesEnd::Bad(0)),
        Err(fault) => Err(RunFault::Text(fault)),
    }
}
