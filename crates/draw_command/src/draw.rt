//! The picture of a run.

ghost use Rattle.std.specs.Prelude.{◌≡◌, ◌≢◌, ◌⊎◌, [], IfOk, OnOk, IfErr};
ghost use Rattle.script_reading.specs.Stops.{Stops};
ghost use Rattle.draw_command.specs.Drawing.{lacks_memory, MakesWhole, DrawsLeaving, DrawnLeaving};
ghost use Rattle.text_stream.specs.Watched.{FailsBy};
ghost use Rattle.text_stream.specs.RunFault.{TellsFailedRead, TellsFailedWrite, WritesLast};

use frame_picture::{Span, met_by_entries, put_picture};
use minislots::Checked;
use sched_history::{Call, Reply, Scheduler, Unrecorded, count_unrecorded, make_call};
use script_reading::read_script;
use std::alloc::Global;
use text_stream::{RunFault, Sink, Source, TextFault};

// Whether there was no memory for the call with this answer.
fn lacks_memory(answer: &Result<Reply, Unrecorded>) -> bool
    ensures { result ≡ lacks_memory answer.now }
{
    matches!(answer, Err(Unrecorded::Memory))
}

// Makes the calls of a script one after the other, up to one for which there is no memory.
fn make_whole(scheduler: &mut Scheduler, calls: &[Call]) -> Result<(), TextFault>
    requires empty { scheduler.old.history ≡ [] }
    requires whole { scheduler.old.handed ≡ 0 }
    ensures ok { OnOk result (MakesWhole scheduler.old scheduler.new calls.now) }
    ensures err { IfErr result (λ e. e ≡ TextFault.Memory) }
{
    for (place, call) in calls.iter().enumerate() {
        let answer = make_call(scheduler, place, *call);
        if lacks_memory(&answer) {
            return Err(TextFault::Memory);
        }
    }
    Ok(())
}

// Makes the calls of a script one after the other, and writes the picture of their MAPs. Nothing is written before
// memory runs out. Answers how many calls were not recorded.
fn draw_calls<W: Sink>(
    alloc: Global,
    scheduler: &mut Scheduler,
    config: &Checked,
    calls: &[Call],
    span: Span,
    writer: &mut W,
) -> Result<usize, TextFault>
    requires empty { scheduler.old.history ≡ [] }
    requires whole { scheduler.old.handed ≡ 0 }
    requires same { config.now ≡ scheduler.old.config }

    ensures ok { IfOk result (DrawsLeaving scheduler.old.config span calls.now
        (W.contents writer.old) (W.contents writer.new)) }
    ensures err { IfErr result (λ e. (e ≡ TextFault.Memory) ⊎ (e ≡ TextFault.Output)) }
    ensures failed { FailsBy TextFault.Output result
        (W.has_failed writer.old) (W.has_failed writer.new) }
    ensures quiet { IfErr result (λ e. e ≢ TextFault.Output → writer.new ≡ writer.old) }
{
    make_whole(scheduler, calls)?;
    // A history has no more entries than calls are recorded, and so few may be drawn.
    let _most = config.calls();
    let entries = scheduler.history();
    let Ok(met) = met_by_entries(alloc, config, entries) else {
        return Err(TextFault::Memory);
    };
    put_picture(writer, config, span, &met, entries)?;
    Ok(count_unrecorded(scheduler, calls))
}

/// Reads a script, a configuration and calls in JSON, to the reader's end, makes its calls as a run does, and writes
/// the picture of the frames in this span in SVG: a row for each MAP in their order, and in it a bar for each of its
/// allocations. Where a call found no memory there is no picture. Nothing is written before another fault than one of
/// output. Answers how many calls were not recorded.
pub fn draw_script<R: Source, W: Sink>(
    alloc: Global,
    reader: &mut R,
    span: Span,
    writer: &mut W,
) -> Result<usize, RunFault>
    // What was written is the picture of the run's frames in the span, and nothing else; and so many calls were not
    // recorded.
    ensures ok { IfOk result (DrawnLeaving span (R.remaining reader.old) (R.remaining reader.new)
        (W.contents writer.old) (W.contents writer.new)) }

    // Each fault comes under its own condition, the first one in their order.
    ensures stops { IfErr result (Stops (R.remaining reader.old) (R.remaining reader.new)) }
    ensures quiet { WritesLast result writer.old writer.new }

    // A failed read or write is told where one has failed, and where all went well none did.
    ensures failed_read { TellsFailedRead result
        (R.has_failed reader.old) (R.has_failed reader.new) }
    ensures failed_write { TellsFailedWrite result
        (W.has_failed writer.old) (W.has_failed writer.new) }
{
    let (config, calls) = read_script(alloc, reader)?;
    let Ok(mut scheduler) = Scheduler::open(alloc, config) else {
        return Err(RunFault::Text(TextFault::Memory));
    };
    let unrecorded = draw_calls(alloc, &mut scheduler, &config, &calls, span, writer)?;
    Ok(unrecorded)
}
