//! The reports on the parts of the history in the bytes of a reader.

ghost use Rattle.std.specs.Prelude.{◌≡◌, ◌⊎◌, ◌≤◌, length, max, IfOk, IfErr};
ghost use Rattle.text_stream.specs.Watched.{FailsBy};
ghost use Rattle.text_stream.specs.RunFault.{TellsFailedRead, TellsFailedWrite};
ghost use Rattle.sched_calls.specs.declared.reply.TheConstants.{MAX_ENTRIES};
ghost use Rattle.report_command.specs.Report.{StopsReport};
ghost use Rattle.report_command.specs.HistorySeries.{IsHistoryTold, SeriesOfHistory};

use crate::form::Form;
use crate::history::put_illegal;
use crate::parts::{Untold, tell_entry, tell_last};
use crate::series::Series;
use history_reading::read_history;
use minislots::Checked;
use sched_history::{Entry, JudgeFault};
use std::alloc::Global;
use text_stream::{RunFault, Sink, Source, TextFault};

// Tells of a history part by part. Answers whether it is legal.
fn tell_history<W: Sink>(
    alloc: Global,
    writer: &mut W,
    form: Form,
    config: &Checked,
    entries: &[Entry],
    every: u64,
) -> Result<bool, TextFault>
    requires { length entries.now ≤ MAX_ENTRIES }

    ensures told { IfOk result (IsHistoryTold form config.now (max every 1) entries.now
        (W.contents writer.old) (W.contents writer.new)) }
    ensures err { IfErr result (λ e. (e ≡ TextFault.Memory) ⊎ (e ≡ TextFault.Output)) }
    ensures failed { FailsBy TextFault.Output result
        (W.has_failed writer.old) (W.has_failed writer.new) }
{
    let Ok(mut series) = Series::open(alloc, *config, every) else {
        return Err(TextFault::Memory);
    };
    for index in 0..entries.len() {
        match tell_entry(alloc, writer, form, &mut series, &entries[index]) {
            Ok(()) => {}
            Err(Untold::Judged(JudgeFault::Illegal)) => return put_illegal(writer, index),
            Err(Untold::Judged(JudgeFault::Memory)) => return Err(TextFault::Memory),
            // There are fewer than are taken.
            Err(Untold::Judged(JudgeFault::Full)) => unreachable!(),
            Err(Untold::Text(fault)) => return Err(fault),
        }
    }
    match tell_last(alloc, writer, form, &series) {
        Ok(()) => Ok(true),
        Err(fault) => Err(fault),
    }
}

/// Reads a history to the reader's end, and writes the reports on its parts of so many milliseconds, of one at least,
/// in this form: the parts begin with the multiples of that after the configuration's start, and one without entries
/// is left out. Over each in tables stands `from` with the millisecond with which it begins. Where the history is
/// illegal the line `illegal` follows, with the first entry, counted from 0, whose reply may not follow those before
/// it; of the part that it breaks off nothing is told. Answers whether it is legal.
pub fn run_series<R: Source, W: Sink>(
    alloc: Global,
    reader: &mut R,
    writer: &mut W,
    form: Form,
    every: u64,
) -> Result<bool, RunFault>
    // What was written are the reports on the parts of the history, one after the other, and nothing else.
    ensures ok { IfOk result (SeriesOfHistory form every (R.remaining reader.old) (R.remaining reader.new)
        (W.contents writer.old) (W.contents writer.new)) }

    // Each fault comes under its own condition, the first one in their order.
    ensures stops { IfErr result (StopsReport (R.remaining reader.old) (R.remaining reader.new)) }

    // A failed read or write is told where one has failed, and where all went well none did.
    ensures failed_read { TellsFailedRead result
        (R.has_failed reader.old) (R.has_failed reader.new) }
    ensures failed_write { TellsFailedWrite result
        (W.has_failed writer.old) (W.has_failed writer.new) }
{
    let (config, entries) = read_history(alloc, reader)?;
    match tell_history(alloc, writer, form, &config, &entries, every) {
        Ok(legal) => Ok(legal),
        Err(fault) => Err(RunFault::Text(fault)),
    }
}
