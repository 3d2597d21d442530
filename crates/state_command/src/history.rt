//! The state after a history.

ghost use Rattle.std.specs.Prelude.{◌≡◌, ◌≤◌, [], length, IfOk, IfErr};
ghost use Rattle.sched_calls.specs.declared.reply.TheConstants.{MAX_ENTRIES};
ghost use Rattle.text_stream.specs.RunFault.{TellsFailedRead, TellsFailedWrite, WritesLast};
ghost use Rattle.state_command.specs.History.{IsTaken, StatesHistory, StopsHistoryState};

use crate::form::StateForm;
use crate::told::put_state;
use history_reading::read_history;
use minislots::Checked;
use sched_history::{Auditor, Entry, JudgeFault};
use sched_lines::put_named;
use std::alloc::Global;
use text_stream::{RunFault, Sink, Source, TextFault};

// What the entries of a history are.
#[derive(Drop)]
pub(crate) enum Taken {
    // Legal: an auditor has taken them.
    Legal(Auditor),
    // This one, counted from 0, is the first that may not follow those before it.
    Illegal(usize),
}

// Judges the entries of a history.
fn take_entries(alloc: Global, config: &Checked, entries: &[Entry]) -> Result<Taken, TextFault>
    requires { length entries.now ≤ MAX_ENTRIES }
    ensures ok { IfOk result (IsTaken config.now entries.now) }
    ensures err { IfErr result (λ e. e ≡ TextFault.Memory) }
{
    let Ok(mut auditor) = Auditor::open(alloc, *config) else {
        return Err(TextFault::Memory);
    };
    for index in 0..entries.len() {
        match auditor.judge(&entries[index]) {
            Ok(()) => {}
            Err(JudgeFault::Illegal) => return Ok(Taken::Illegal(index)),
            Err(JudgeFault::Memory) => return Err(TextFault::Memory),
            // There are fewer than an auditor takes.
            Err(JudgeFault::Full) => unreachable!(),
        }
    }
    Ok(Taken::Legal(auditor))
}

/// Reads a history, a configuration and entries in JSON, to the reader's end, and writes the state after them: the first
/// line of the segment that could follow their journal, with number 2, or a table. Or where it is illegal `illegal` and
/// the first entry, counted from 0, whose reply may not follow those before it. Answers whether it is legal. Nothing is
/// written before another fault than one of output.
pub fn state_of_history<R: Source, W: Sink>(
    alloc: Global,
    reader: &mut R,
    writer: &mut W,
    form: StateForm,
) -> Result<bool, RunFault>
    // What was written is the state after the history that was read, or the line of its verdict, and nothing else.
    ensures ok { IfOk result (StatesHistory form (R.remaining reader.old) (R.remaining reader.new)
        (W.contents writer.old) (W.contents writer.new)) }

    // Each fault comes under its own condition, the first one in their order.
    ensures stops { IfErr result
        (StopsHistoryState (R.remaining reader.old) (R.remaining reader.new)) }
    ensures quiet { WritesLast result writer.old writer.new }

    // A failed read or write is told where one has failed, and where all went well none did.
    ensures failed_read { TellsFailedRead result
        (R.has_failed reader.old) (R.has_failed reader.new) }
    ensures failed_write { TellsFailedWrite result
        (W.has_failed writer.old) (W.has_failed writer.new) }
{
    let (config, entries) = read_history(alloc, reader)?;
    let auditor = match take_entries(alloc, &config, &entries)? {
        Taken::Legal(auditor) => auditor,
        Taken::Illegal(index) => {
            put_named(writer, b"illegal", index as u64)?;
            return Ok(false);
        }
    };
    let Ok(state) = auditor.state() else {
        return Err(RunFault::Text(TextFault::Memory));
    };
    put_state(alloc, writer, form, config, state)?;
    Ok(true)
}
