//! The state after the run of a script.

ghost use Rattle.std.specs.Prelude.{◌≡◌, ◌≢◌, ◌⊎◌, [], List, IfOk, IfErr};
ghost use Rattle.sched_calls.specs.Reply.{Answer};
ghost use Rattle.sched_history.specs.Answer.{MakesCalls};
ghost use Rattle.script_reading.specs.Stops.{Stops};
ghost use Rattle.text_stream.specs.Watched.{FailsBy};
ghost use Rattle.text_stream.specs.RunFault.{TellsFailedRead, TellsFailedWrite, WritesLast};
ghost use Rattle.state_command.specs.Script.{LeavesState, RanToState};

use crate::form::StateForm;
use crate::told::put_state;
use minislots::Checked;
use sched_history::{Call, Scheduler, count_unrecorded, record_call};
use script_reading::read_script;
use std::alloc::Global;
use text_stream::{RunFault, Sink, Source, TextFault};

// Makes the calls of a script one after the other.
fn make_calls(scheduler: &mut Scheduler, calls: &[Call])
    requires empty { scheduler.old.history ≡ [] }
    requires whole { scheduler.old.handed ≡ 0 }
    ensures { (answers : List Answer) × MakesCalls scheduler.old scheduler.new calls.now answers }
{
    for (place, call) in calls.iter().enumerate() {
        let _ = record_call(scheduler, place, *call);
    }
}

// Makes the calls of a script one after the other, and writes the state that they leave. Answers how many calls were
// not recorded.
fn state_after<W: Sink>(
    alloc: Global,
    scheduler: &mut Scheduler,
    config: &Checked,
    calls: &[Call],
    writer: &mut W,
    form: StateForm,
) -> Result<usize, TextFault>
    requires empty { scheduler.old.history ≡ [] }
    requires whole { scheduler.old.handed ≡ 0 }
    requires same { config.now ≡ scheduler.old.config }

    ensures ok { IfOk result (LeavesState form scheduler.old.config calls.now
        (W.contents writer.old) (W.contents writer.new)) }
    ensures err { IfErr result (λ e. (e ≡ TextFault.Memory) ⊎ (e ≡ TextFault.Output)) }
    ensures failed { FailsBy TextFault.Output result
        (W.has_failed writer.old) (W.has_failed writer.new) }
    ensures quiet { IfErr result (λ e. e ≢ TextFault.Output → writer.new ≡ writer.old) }
{
    make_calls(scheduler, calls);
    let Ok(state) = scheduler.state() else {
        return Err(TextFault::Memory);
    };
    put_state(alloc, writer, form, *config, state)?;
    Ok(count_unrecorded(scheduler, calls))
}

/// Reads a script, a configuration and calls in JSON, to the reader's end, makes its calls as a run does, and writes
/// the state after those that were recorded: the first line of the segment that could follow their journal, with number
/// 2, or a table. Nothing is written before another fault than one of output. Answers how many calls were not recorded.
pub fn state_of_script<R: Source, W: Sink>(
    alloc: Global,
    reader: &mut R,
    writer: &mut W,
    form: StateForm,
) -> Result<usize, RunFault>
    // What was written is the state after the recorded calls, and nothing else; and so many calls were not recorded.
    ensures ok { IfOk result (RanToState form (R.remaining reader.old) (R.remaining reader.new)
        (W.contents writer.old) (W.contents writer.new)) }

    // Each fault comes under its own condition, the first one in their order.
    ensures stops { IfErr result (Stops (R.remaining reader.old) (R.remaining reader.new)) }
    ensures quiet { WritesLast result writer.old writer.new }

    // A failed read or write is told where one has failed, and where all went well none did.
    ensures failed_read { TellsFailedRead result
        (R.has_failed reader.old) (R.has_failed reader.new) }
    ensures failed_write { TellsFailedWrite result
        (W.has_failed writer.old) (W.has_failed writer.new) }
{
    let (config, calls) = read_script(alloc, reader)?;
    let Ok(mut scheduler) = Scheduler::open(alloc, config) else {
        return Err(RunFault::Text(TextFault::Memory));
    };
    let unrecorded = state_after(alloc, &mut scheduler, &config, &calls, writer, form)?;
    Ok(unrecorded)
}
