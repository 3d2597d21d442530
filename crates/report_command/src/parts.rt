//! The reports on the parts of a history, which are written one by one.

ghost use Rattle.std.specs.Prelude.{◌≡◌, ◌⊎◌, ◌↔◌, ◌≤◌, length, IfOk, IfErr, OnOk};
ghost use Rattle.text_stream.specs.Watched.{FailsBy};
ghost use Rattle.sched_calls.specs.declared.reply.TheConstants.{MAX_WHOLE_HISTORY};
ghost use Rattle.sched_history.specs.History.{IsStep, IsLegal};
ghost use Rattle.report_command.specs.Series.{first_ms};
ghost use Rattle.report_command.specs.Parts.{IsPartSaid, TellsMore, TellsRest, IsUntold};

use crate::form::{Form, put_report};
use crate::series::Series;
use sched_history::{Entry, JudgeFault};
use sched_lines::put_named;
use std::alloc::Global;
use text_stream::{Sink, TextFault};

// Why an entry was not told of.
pub(crate) enum Untold {
    // It was not taken.
    Judged(JudgeFault),
    // The report on the part that is over with it was not written.
    Text(TextFault),
}

// Writes the report on the part that goes on.
fn put_part<W: Sink>(
    alloc: Global,
    writer: &mut W,
    form: Form,
    series: &Series,
) -> Result<(), TextFault>
    ensures ok { OnOk result (IsPartSaid form series.now.told (first_ms series.now.every series.now.end)
        (W.contents writer.old) (W.contents writer.new)) }
    ensures err { IfErr result (λ e. (e ≡ TextFault.Memory) ⊎ (e ≡ TextFault.Output)) }
    ensures failed { FailsBy TextFault.Output result
        (W.has_failed writer.old) (W.has_failed writer.new) }
{
    if matches!(form, Form::All | Form::Few) {
        put_named(writer, b"from", series.first_ms())?;
    }
    put_report(alloc, writer, form, series.config(), series.timed())
}

// Takes an entry, and writes the report on the part that is over with it, where one is.
pub(crate) fn tell_entry<W: Sink>(
    alloc: Global,
    writer: &mut W,
    form: Form,
    series: &mut Series,
    entry: &Entry,
) -> Result<(), Untold>
    ensures ok { OnOk result (TellsMore form series.old series.new entry.now
        (W.contents writer.old) (W.contents writer.new)) }
    ensures err { IfErr result (IsUntold series.old entry.now (W.contents writer.old) (W.contents writer.new)
        (W.has_failed writer.old) (W.has_failed writer.new)) }
    ensures unfailed { OnOk result (W.has_failed writer.new ≡ W.has_failed writer.old) }
    ensures config { series.new.told.config ≡ series.old.told.config }
    ensures every { series.new.every ≡ series.old.every }
    ensures legal { IsLegal series.new.told.config series.new.told.history }
{
    match series.take(entry) {
        Ok(()) => {}
        Err(fault) => return Err(Untold::Judged(fault)),
    }
    if series.is_between() {
        match put_part(alloc, writer, form, series) {
            Ok(()) => {}
            Err(fault) => return Err(Untold::Text(fault)),
        }
    }
    Ok(())
}

// Writes the report on the part that goes on where the history ends, where one does.
pub(crate) fn tell_last<W: Sink>(
    alloc: Global,
    writer: &mut W,
    form: Form,
    series: &Series,
) -> Result<(), TextFault>
    ensures ok { OnOk result (TellsRest form series.now
        (W.contents writer.old) (W.contents writer.new)) }
    ensures err { IfErr result (λ e. (e ≡ TextFault.Memory) ⊎ (e ≡ TextFault.Output)) }
    ensures failed { FailsBy TextFault.Output result
        (W.has_failed writer.old) (W.has_failed writer.new) }
{
    if series.is_between() {
        return Ok(());
    }
    put_part(alloc, writer, form, series)
}
