//! The state after a journal.

ghost use Rattle.std.specs.Prelude.{◌≡◌, [], List, ℕ, Option, IfOk, IfErr};
ghost use Rattle.text_stream.specs.Watched.{FailsBy};
ghost use Rattle.text_stream.specs.RunFault.{TellsFailedRead, TellsFailedWrite, WritesLast};
ghost use Rattle.journal_entries.specs.End.{StopsCommand};
ghost use Rattle.journal_entries.specs.Journal.{StopsJournal};
ghost use Rattle.journal_entries.specs.Judging.{Finds};
ghost use Rattle.journal_entries.specs.Next.{HasGiven};
ghost use Rattle.state_command.specs.Journal.{IsUnder, IsWriting, StatesJournal};

use crate::form::{StateEnd, StateForm};
use crate::told::put_state;
use journal_entries::{JournalEntries, Judged, Next};
use minislots::Checked;
use sched_history::MAX_WHOLE_HISTORY;
use sched_lines::put_named;
use std::alloc::Global;
use text_stream::{RunFault, Sink, Source, TextFault};

// Reads the entries behind the first line, and judges them.
fn judge_entries<R: Source>(
    mut entries: JournalEntries,
    reader: &mut R,
) -> Result<Judged, TextFault>
    requires none { entries.auditor.history ≡ [] }
    ensures finds { IfOk result (λ judged. (before : Option (List ℕ)) →
        HasGiven before (R.remaining reader.old) entries →
        Finds before (R.remaining reader.new) judged) }
    ensures config { IfOk result (IsUnder entries.auditor.config) }
    ensures stops { IfErr result (λ fault. (before : Option (List ℕ)) →
        HasGiven before (R.remaining reader.old) entries →
        StopsJournal before (R.remaining reader.new) fault) }
    ensures failed { FailsBy TextFault.Input result
        (R.has_failed reader.old) (R.has_failed reader.new) }
{
    for _ in 0..=MAX_WHOLE_HISTORY {
        match entries.next(reader) {
            Ok(Next::Entry(_)) => {}
            Ok(Next::Illegal(place)) => return Ok(Judged::Illegal(place, entries)),
            Ok(Next::Bad(line)) => return Ok(Judged::Bad(line)),
            Ok(Next::End(torn)) => return Ok(Judged::Legal(entries.auditor, torn)),
            Err(fault) => return Err(fault),
        }
    }
    // Fewer entries are given than there were turns.
    let _most = entries.auditor.taken();
    Err(TextFault::TooLong)
}

// Writes what is to be written of the entries of a journal.
fn put_judged<W: Sink>(
    alloc: Global,
    writer: &mut W,
    form: StateForm,
    config: Checked,
    judged: Judged,
) -> Result<StateEnd, RunFault>
    requires under { IsUnder config judged }
    ensures ok { IfOk result (λ end. (before left : Option (List ℕ)) →
        Finds before left judged →
        StatesJournal form before left (W.contents writer.old) (W.contents writer.new) end) }
    ensures err { IfErr result (λ e. IsWriting e) }
    ensures quiet { WritesLast result writer.old writer.new }
    ensures failed_write { TellsFailedWrite result
        (W.has_failed writer.old) (W.has_failed writer.new) }
{
    match judged {
        Judged::Legal(auditor, torn) => {
            let Ok(state) = auditor.state() else {
                return Err(RunFault::Text(TextFault::Memory));
            };
            put_state(alloc, writer, form, config, state)?;
            Ok(StateEnd::Written(torn))
        }
        Judged::Illegal(index, _) => {
            put_named(writer, b"illegal", index)?;
            Ok(StateEnd::Illegal)
        }
        Judged::Bad(line) => Ok(StateEnd::Bad(line)),
    }
}

/// Reads a journal without a state, of any length, and judges it in the memory of a scheduler's state and of one line.
/// Writes the state after its entries: the first line of the segment that could follow, with number 2, or a table; or
/// `illegal` and the first entry, counted from 0, whose reply may not follow those before it. Nothing is written where a
/// line is bad, nor before another fault than one of output.
pub fn state_of_journal<R: Source, W: Sink>(
    alloc: Global,
    reader: &mut R,
    writer: &mut W,
    form: StateForm,
) -> Result<StateEnd, RunFault>
    // What was written is the state after the journal that was read, or the line of its verdict, and nothing else.
    ensures ok { IfOk result (StatesJournal form (R.remaining reader.old) (R.remaining reader.new)
        (W.contents writer.old) (W.contents writer.new)) }

    // Each fault comes under its own condition.
    ensures stops { IfErr result (StopsCommand (R.remaining reader.old) (R.remaining reader.new)) }
    ensures quiet { WritesLast result writer.old writer.new }

    // A failed read or write is told where one has failed, and where all went well none did.
    ensures failed_read { TellsFailedRead result
        (R.has_failed reader.old) (R.has_failed reader.new) }
    ensures failed_write { TellsFailedWrite result
        (W.has_failed writer.old) (W.has_failed writer.new) }
{
    let (config, entries) = match JournalEntries::open(alloc, reader) {
        Ok(Some(opened)) => opened,
        Ok(None) => return Ok(StateEnd::Bad(0)),
        Err(fault) => return Err(RunFault::Text(fault)),
    };
    let judged = judge_entries(entries, reader)?;
    put_judged(alloc, writer, form, config, judged)
}
