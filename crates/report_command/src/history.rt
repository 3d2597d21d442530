//! The report on the history in the bytes of a reader.

ghost use Rattle.std.specs.Prelude.{◌≡◌, codes, false, IfOk, IfErr};
ghost use Rattle.text_stream.specs.Writing.{Writes};
ghost use Rattle.text_stream.specs.RunFault.{TellsFailedRead, TellsFailedWrite, WritesLast};
ghost use Rattle.sched_lines.specs.Line.{number_line};
ghost use Rattle.report_command.specs.Report.{Reported, StopsReport};

use crate::fed::{Fed, feed};
use crate::form::{Form, put_report};
use crate::range::Range;
use history_reading::read_history;
use sched_lines::put_named;
use std::alloc::Global;
use text_stream::{RunFault, Sink, Source, TextFault};

// Writes the line of the first entry that may not stand there: the history is not legal.
pub(crate) fn put_illegal<W: Sink>(writer: &mut W, place: usize) -> Result<bool, TextFault>
    ensures written { Writes W.contents W.has_failed writer.old writer.new
        (number_line (codes "illegal") place) result }
    ensures legal { IfOk result (λ legal. legal ≡ false) }
{
    put_named(writer, b"illegal", place as u64)?;
    Ok(false)
}

/// Reads a history, a configuration and entries in JSON, to the reader's end, and writes the report on what is in this
/// range of it in this form; entries behind that are not judged. Or where it is illegal `illegal` and the first entry,
/// counted from 0, whose reply may not follow those before it. Answers whether it is legal. Nothing is written before
/// another fault than one of output.
pub fn run_report<R: Source, W: Sink>(
    alloc: Global,
    reader: &mut R,
    writer: &mut W,
    form: Form,
    range: Range,
) -> Result<bool, RunFault>
    // What was written is the report on the history that was read, and nothing else.
    ensures ok { IfOk result (Reported form range (R.remaining reader.old) (R.remaining reader.new)
        (W.contents writer.old) (W.contents writer.new)) }

    // Each fault comes under its own condition, the first one in their order.
    ensures stops { IfErr result (StopsReport (R.remaining reader.old) (R.remaining reader.new)) }
    ensures quiet { WritesLast result writer.old writer.new }

    // A failed read or write is told where one has failed, and where all went well none did.
    ensures failed_read { TellsFailedRead result
        (R.has_failed reader.old) (R.has_failed reader.new) }
    ensures failed_write { TellsFailedWrite result
        (W.has_failed writer.old) (W.has_failed writer.new) }
{
    let (config, entries) = read_history(alloc, reader)?;
    let reporter = match feed(alloc, &config, &entries, range)? {
        Fed::Legal(reporter) => reporter,
        Fed::Illegal(place) => return Ok(put_illegal(writer, place)?),
    };
    put_report(alloc, writer, form, &config, &reporter)?;
    Ok(true)
}
