//! The report on the journal in the bytes of a reader, of any length.

ghost use Rattle.std.specs.Prelude.{◌≡◌, codes, IfOk, IfErr};
ghost use Rattle.text_stream.specs.Writing.{Writes};
ghost use Rattle.text_stream.specs.RunFault.{TellsFailedRead, TellsFailedWrite, WritesLast};
ghost use Rattle.sched_lines.specs.Line.{number_line};
ghost use Rattle.journal_entries.specs.End.{StopsCommand};
ghost use Rattle.report_command.specs.Journal.{ReportedJournal};

use crate::form::{Form, put_report};
use crate::journal::{Shown, show_journal};
use crate::range::Range;
use journal_entries::EntriesEnd;
use sched_lines::put_named;
use std::alloc::Global;
use text_stream::{RunFault, Sink, Source, TextFault};

// Writes the line of the first entry that may not stand there.
pub(crate) fn put_illegal_entry<W: Sink>(
    writer: &mut W,
    place: u64,
) -> Result<EntriesEnd, TextFault>
    ensures written { Writes W.contents W.has_failed writer.old writer.new
        (number_line (codes "illegal") place) result }
    ensures end { IfOk result (λ end. end ≡ EntriesEnd.Illegal place) }
{
    put_named(writer, b"illegal", place)?;
    Ok(EntriesEnd::Illegal(place))
}

/// Reads a journal to its end, or to that of this range, and writes the report on what is in the range of it in this
/// form; entries behind that are not read. Or where they are no legal history `illegal` and the first entry, counted
/// from 0, whose reply may not follow those before it. Nothing is written where a line is bad, nor before another fault
/// than one of output. Its memory is that of the lives, of the requests that
/// wait and of the kinds of delays, and not of the entries.
pub fn run_journal_report<R: Source, W: Sink>(
    alloc: Global,
    reader: &mut R,
    writer: &mut W,
    form: Form,
    range: Range,
) -> Result<EntriesEnd, RunFault>
    // What was written is the report on exactly the entries that the journal stands for, and nothing else.
    ensures ok { IfOk result (ReportedJournal form range (R.remaining reader.old) (R.remaining reader.new)
        (W.contents writer.old) (W.contents writer.new)) }

    // Each fault comes under its own condition.
    ensures stops { IfErr result (StopsCommand (R.remaining reader.old) (R.remaining reader.new)) }
    ensures quiet { WritesLast result writer.old writer.new }

    // A failed read or write is told where one has failed, and where all went well none did.
    ensures failed_read { TellsFailedRead result
        (R.has_failed reader.old) (R.has_failed reader.new) }
    ensures failed_write { TellsFailedWrite result
        (W.has_failed writer.old) (W.has_failed writer.new) }
{
    let (config, reporter, torn) = match show_journal(alloc, reader, range)? {
        Shown::Legal(config, reporter, torn) => (config, reporter, torn),
        Shown::Illegal(place) => return Ok(put_illegal_entry(writer, place)?),
        Shown::Bad(line) => return Ok(EntriesEnd::Bad(line)),
    };
    put_report(alloc, writer, form, &config, &reporter)?;
    Ok(EntriesEnd::Legal(torn))
}
