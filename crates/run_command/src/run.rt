//! A run of a script.

ghost use Rattle.std.specs.Prelude.{◌≡◌, ◌≢◌, ◌⊎◌, [], List, Ok, IfOk, OnOk, IfErr};
ghost use Rattle.sched_calls.specs.Reply.{Answer, HasLine, IsEncodable};
ghost use Rattle.text_stream.specs.Watched.{FailsBy};
ghost use Rattle.text_stream.specs.Writing.{Puts};
ghost use Rattle.text_stream.specs.RunFault.{TellsFailedRead, TellsFailedWrite, WritesLast};
ghost use Rattle.sched_history.specs.Answer.{MakesCalls, answer_in};
ghost use Rattle.script_reading.specs.Stops.{Stops};
ghost use Rattle.minislots.specs.Config.{IsLawful};
ghost use Rattle.history_writing.specs.Fits.{ConfigFits};
ghost use Rattle.run_command.specs.Run.{line_with, output_asked, AnswersLeaving, Ran, RanLeaving};

use crate::output::{RunOutput, Words, output_asked};
use history_writing::{put_history, put_journal};
use minislots::{Checked, Config};
use sched_history::{Call, Reply, Scheduler, Unrecorded, count_unrecorded, record_call};
use sched_lines::LineBuffer;
use script_reading::read_script;
use std::alloc::Global;
use text_stream::{RunFault, Sink, Source, TextFault};

// Puts the line of a reply behind those that wait.
fn put_reply<W: Sink>(
    lines: &mut LineBuffer,
    writer: &mut W,
    reply: &Reply,
    words: Words,
) -> Result<(), TextFault>
    requires { IsEncodable reply.now }
    ensures { Puts W.contents W.has_failed writer.old writer.new lines.old lines.new
        (line_with words (Ok reply.now)) result }
{
    match words {
        Words::Plain => lines.put_reply(writer, reply),
        Words::Explained => lines.put_explained_reply(writer, reply),
    }
}

// Puts the line of an answer behind those that wait.
fn put_answer<W: Sink>(
    lines: &mut LineBuffer,
    writer: &mut W,
    answer: Result<&Reply, Unrecorded>,
    words: Words,
) -> Result<(), TextFault>
    requires { HasLine (answer_in answer) }
    ensures { Puts W.contents W.has_failed writer.old writer.new lines.old lines.new
        (line_with words (answer_in answer.entry)) result }
{
    match answer {
        Ok(reply) => put_reply(lines, writer, reply, words),
        Err(unrecorded) => lines.put_unrecorded(writer, unrecorded),
    }
}

// Makes the calls of a script one after the other, and writes the line of each answer, many lines at a time. Answers
// how many calls were not recorded, here and below.
fn run_calls<W: Sink>(
    scheduler: &mut Scheduler,
    calls: &[Call],
    writer: &mut W,
    words: Words,
) -> Result<usize, TextFault>
    requires empty { scheduler.old.history ≡ [] }
    requires whole { scheduler.old.handed ≡ 0 }

    ensures ok { IfOk result (AnswersLeaving (RunOutput.Lines words) scheduler.old.config calls.now
        (W.contents writer.old) (W.contents writer.new)) }
    ensures err { IfErr result (λ e. e ≡ TextFault.Output) }
    ensures failed { FailsBy TextFault.Output result
        (W.has_failed writer.old) (W.has_failed writer.new) }
{
    let mut lines = LineBuffer::new();
    for (place, call) in calls.iter().enumerate() {
        let answer = record_call(scheduler, place, *call);
        put_answer(&mut lines, writer, answer, words)?;
    }
    lines.write_out(writer)?;
    Ok(count_unrecorded(scheduler, calls))
}

// Makes the calls of a script one after the other.
fn make_calls(scheduler: &mut Scheduler, calls: &[Call])
    requires empty { scheduler.old.history ≡ [] }
    requires whole { scheduler.old.handed ≡ 0 }
    ensures { (answers : List Answer) × MakesCalls scheduler.old scheduler.new calls.now answers }
{
    for (place, call) in calls.iter().enumerate() {
        let _ = record_call(scheduler, place, *call);
    }
}

// The configuration as it is written: its numbers fit the types of their fields.
fn config_of(config: &Checked) -> Config
    ensures value { result ≡ config.now }
    ensures lawful { IsLawful config.now }
    ensures fits { ConfigFits config.now }
{
    config.config()
}

// Makes the calls of a script one after the other, and writes the text of their history. Nothing is
// written before memory runs out.
fn run_history<W: Sink>(
    alloc: Global,
    scheduler: &mut Scheduler,
    config: &Checked,
    calls: &[Call],
    writer: &mut W,
) -> Result<usize, TextFault>
    requires empty { scheduler.old.history ≡ [] }
    requires whole { scheduler.old.handed ≡ 0 }
    requires same { config.now ≡ scheduler.old.config }

    ensures ok { IfOk result (AnswersLeaving RunOutput.History scheduler.old.config calls.now
        (W.contents writer.old) (W.contents writer.new)) }
    ensures err { IfErr result (λ e. (e ≡ TextFault.Memory) ⊎ (e ≡ TextFault.Output)) }
    ensures failed { FailsBy TextFault.Output result
        (W.has_failed writer.old) (W.has_failed writer.new) }
    ensures quiet { IfErr result (λ e. e ≢ TextFault.Output → writer.new ≡ writer.old) }
{
    make_calls(scheduler, calls);
    put_history(alloc, writer, &config_of(config), scheduler.history())?;
    Ok(count_unrecorded(scheduler, calls))
}

// Makes the calls of a script one after the other, and writes the journal of their history. Nothing is written before
// memory runs out.
fn run_journal<W: Sink>(
    alloc: Global,
    scheduler: &mut Scheduler,
    config: &Checked,
    calls: &[Call],
    writer: &mut W,
) -> Result<usize, TextFault>
    requires empty { scheduler.old.history ≡ [] }
    requires whole { scheduler.old.handed ≡ 0 }
    requires same { config.now ≡ scheduler.old.config }

    ensures ok { IfOk result (AnswersLeaving RunOutput.Journal scheduler.old.config calls.now
        (W.contents writer.old) (W.contents writer.new)) }
    ensures err { IfErr result (λ e. (e ≡ TextFault.Memory) ⊎ (e ≡ TextFault.Output)) }
    ensures failed { FailsBy TextFault.Output result
        (W.has_failed writer.old) (W.has_failed writer.new) }
    ensures quiet { IfErr result (λ e. e ≢ TextFault.Output → writer.new ≡ writer.old) }
{
    make_calls(scheduler, calls);
    put_journal(alloc, writer, &config_of(config), scheduler.history())?;
    Ok(count_unrecorded(scheduler, calls))
}

// Makes the calls of a script one after the other, and writes the lines of their answers, or the text or the journal of
// their history. Nothing is written before memory runs out.
fn answer_calls<W: Sink>(
    alloc: Global,
    scheduler: &mut Scheduler,
    config: &Checked,
    calls: &[Call],
    writer: &mut W,
    output: RunOutput,
) -> Result<usize, TextFault>
    requires empty { scheduler.old.history ≡ [] }
    requires whole { scheduler.old.handed ≡ 0 }
    requires same { config.now ≡ scheduler.old.config }

    ensures ok { IfOk result (AnswersLeaving output scheduler.old.config calls.now
        (W.contents writer.old) (W.contents writer.new)) }
    ensures err { IfErr result (λ e. (e ≡ TextFault.Memory) ⊎ (e ≡ TextFault.Output)) }
    ensures failed { FailsBy TextFault.Output result
        (W.has_failed writer.old) (W.has_failed writer.new) }
    ensures quiet { IfErr result (λ e. e ≢ TextFault.Output → writer.new ≡ writer.old) }
{
    match output {
        RunOutput::Lines(words) => run_calls(scheduler, calls, writer, words),
        RunOutput::History => run_history(alloc, scheduler, config, calls, writer),
        RunOutput::Journal => run_journal(alloc, scheduler, config, calls, writer),
    }
}

/// Reads a script, a configuration and calls in JSON, to the reader's end, and makes its calls one after
/// the other on a new scheduler. The call at place i, from 0, has the stamp of seat 0 and ticket i.
/// Writes one line for the answer to each call, and then only a fault of output comes after a line was
/// written; or the history of the recorded calls in JSON, in one line; or their journal. Answers how many calls were
/// not recorded.
pub fn run_with<R: Source, W: Sink>(
    alloc: Global,
    reader: &mut R,
    writer: &mut W,
    output: RunOutput,
) -> Result<usize, RunFault>
    // What was written is the lines of the answers, or the text of their history, and nothing else; and so many calls
    // were not recorded.
    ensures ok { IfOk result (RanLeaving output (R.remaining reader.old) (R.remaining reader.new)
        (W.contents writer.old) (W.contents writer.new)) }

    // Each fault comes under its own condition, the first one in their order.
    ensures stops { IfErr result (Stops (R.remaining reader.old) (R.remaining reader.new)) }
    ensures quiet { WritesLast result writer.old writer.new }

    // A failed read or write is told where one has failed, and where all went well none did.
    ensures failed_read { TellsFailedRead result
        (R.has_failed reader.old) (R.has_failed reader.new) }
    ensures failed_write { TellsFailedWrite result
        (W.has_failed writer.old) (W.has_failed writer.new) }
{
    let (config, calls) = read_script(alloc, reader)?;
    let Ok(mut scheduler) = Scheduler::open(alloc, config) else {
        return Err(RunFault::Text(TextFault::Memory));
    };
    let unrecorded = answer_calls(alloc, &mut scheduler, &config, &calls, writer, output)?;
    Ok(unrecorded)
}

/// Runs a script as [`run_with`] does: the plain lines of its answers are written, or with `as_history` their history.
pub fn run_script<R: Source, W: Sink>(
    alloc: Global,
    reader: &mut R,
    writer: &mut W,
    as_history: bool,
) -> Result<(), RunFault>
    // What was written is the lines of the answers, or the text of their history, and nothing else.
    ensures ok { OnOk result (Ran (output_asked as_history)
        (R.remaining reader.old) (R.remaining reader.new)
        (W.contents writer.old) (W.contents writer.new)) }

    // Each fault comes under its own condition, the first one in their order.
    ensures stops { IfErr result (Stops (R.remaining reader.old) (R.remaining reader.new)) }
    ensures quiet { WritesLast result writer.old writer.new }

    // A failed read or write is told where one has failed, and where all went well none did.
    ensures failed_read { TellsFailedRead result
        (R.has_failed reader.old) (R.has_failed reader.new) }
    ensures failed_write { TellsFailedWrite result
        (W.has_failed writer.old) (W.has_failed writer.new) }
{
    run_with(alloc, reader, writer, output_asked(as_history))?;
    Ok(())
}
