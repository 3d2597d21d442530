//! A turn of a conversation: the next line is read, and answered.

ghost use Rattle.std.specs.Prelude.{◌≡◌, ◌<◌, ◌+◌, ℕ, List, Option, [], length, IfErr, OnOk, MatchResult};
ghost use Rattle.std.specs.Prelude.{MatchOption};
ghost use Rattle.text_stream.specs.Told.{untold};
ghost use Rattle.sched_history.specs.Machine.{kept_of};
ghost use Rattle.live_command.specs.Failing.{FailsButFor};
ghost use Rattle.live_command.specs.declared.fault.LiveFault.TheVariants.{Text, Journal as Failed};
ghost use Rattle.live_command.specs.Journal.{FailsJustBy};
ghost use Rattle.live_command.specs.Talk.{Start, Talk, TellsOn, IsTurn, IsAnywhere, Conversed, Stopped, StopsTalk};

use crate::answer::{answer, asks_stats, hear_told};
use crate::fault::LiveFault;
use crate::journal::Journal;
use crate::noting::record;
use crate::outbox::Outbox;
use crate::wording::Wording;
use json::Scratch;
use sched_history::Scheduler;
use std::alloc::Global;
use text_stream::{Lines, Sink, Source, TextFault, Told};

// Puts the entries that are kept into the journal, and then writes the answers that wait.
pub(crate) fn settle<W: Sink, J: Journal>(
    scheduler: &mut Scheduler,
    outbox: &mut Outbox,
    writer: &mut W,
    journal: &mut J,
) -> Result<(), LiveFault>
    requires { J.is_begun journal.old }
    ensures begun { OnOk result (J.is_begun journal.new) }
    ensures talk { (s : Start) (v : J.View) (turns : ℕ) (left : Option (List ℕ)) →
        Talk s turns scheduler.old left
        (W.contents writer.old) (J.stands_for journal.old v s.config) outbox.old →
        MatchResult result
        (λ _. Talk s turns scheduler.new left
        (W.contents writer.new) (J.stands_for journal.new v s.config) outbox.new
        × J.stands_for journal.new v s.config scheduler.new.history)
        (λ _. Stopped s scheduler.new.history (W.contents writer.new)
        (J.stands_for journal.new v s.config)) }
    ensures settled { OnOk result (outbox.new ≡ record outbox.old { text = [] }) }
    ensures handed { OnOk result
        (scheduler.new ≡ record scheduler.old { handed = length scheduler.old.history }) }
    ensures err { IfErr result IsAnywhere }
    ensures failed_write { FailsJustBy (Text TextFault.Output) result (W.has_failed writer.old)
        (W.has_failed writer.new) }
    ensures failed_journal { FailsJustBy Failed result
        (J.has_failed journal.old) (J.has_failed journal.new) }
{
    record(journal, scheduler.history())?;
    scheduler.forget();
    outbox.send(writer)?;
    Ok(())
}

// Makes room for one entry and its answer. Where it is asked for, the journal has all entries then.
fn make_room<W: Sink, J: Journal>(
    scheduler: &mut Scheduler,
    outbox: &mut Outbox,
    writer: &mut W,
    journal: &mut J,
    settles: bool,
) -> Result<(), LiveFault>
    requires { J.is_begun journal.old }
    ensures begun { OnOk result (J.is_begun journal.new) }
    ensures talk { (s : Start) (v : J.View) (turns : ℕ) (left : Option (List ℕ)) →
        Talk s turns scheduler.old left
        (W.contents writer.old) (J.stands_for journal.old v s.config) outbox.old →
        MatchResult result
        (λ _. Talk s turns scheduler.new left
        (W.contents writer.new) (J.stands_for journal.new v s.config) outbox.new)
        (λ _. Stopped s scheduler.new.history (W.contents writer.new)
        (J.stands_for journal.new v s.config)) }
    ensures room { OnOk result (length (kept_of scheduler.new) < scheduler.new.config.calls) }
    ensures err { IfErr result IsAnywhere }
    ensures failed_write { FailsJustBy (Text TextFault.Output) result (W.has_failed writer.old)
        (W.has_failed writer.new) }
    ensures failed_journal { FailsJustBy Failed result
        (J.has_failed journal.old) (J.has_failed journal.new) }
{
    let calls = scheduler.config().calls() as usize;
    if !settles && scheduler.history().len() < calls && !outbox.is_full() {
        return Ok(());
    }
    settle(scheduler, outbox, writer, journal)
}

// Tells the next line. Where it is not at hand, all that was said is written before it is read.
fn next_line<R: Source, W: Sink, J: Journal>(
    scheduler: &mut Scheduler,
    outbox: &mut Outbox,
    lines: &mut Lines,
    reader: &mut R,
    writer: &mut W,
    journal: &mut J,
) -> Result<Option<Told>, LiveFault>
    requires { J.is_begun journal.old }
    ensures begun { OnOk result (J.is_begun journal.new) }
    ensures talk { (s : Start) (v : J.View) (turns : ℕ) →
        Talk s turns scheduler.old
        (untold lines.old (R.remaining reader.old)) (W.contents writer.old)
        (J.stands_for journal.old v s.config) outbox.old →
        MatchResult result
        (λ told. MatchOption told
        (Conversed s scheduler.new
        (untold lines.new (R.remaining reader.new)) (W.contents writer.new)
        (J.stands_for journal.new v s.config))
        (TellsOn s turns scheduler.new
        (untold lines.new (R.remaining reader.new)) (W.contents writer.new)
        (J.stands_for journal.new v s.config) outbox.new lines.new))
        (λ e. Stopped s scheduler.new.history (W.contents writer.new)
        (J.stands_for journal.new v s.config)
        × StopsTalk s scheduler.new (R.remaining reader.new) (W.contents writer.new)
        (J.stands_for journal.new v s.config) e) }
    ensures failed_read { FailsButFor (Text TextFault.Input) (Text TextFault.TooLong) result
        (R.has_failed reader.old) (R.has_failed reader.new) }
    ensures failed_write { FailsJustBy (Text TextFault.Output) result (W.has_failed writer.old)
        (W.has_failed writer.new) }
    ensures failed_journal { FailsJustBy Failed result
        (J.has_failed journal.old) (J.has_failed journal.new) }
{
    if let Some(told) = lines.at_hand() {
        return Ok(Some(told));
    }
    settle(scheduler, outbox, writer, journal)?;
    let told = lines.next(reader)?;
    Ok(told)
}

// Answers the line that was told. Where memory runs out before it was read, what was said before is settled.
fn take_told<W: Sink, J: Journal>(
    alloc: Global,
    scratch: &mut Scratch,
    scheduler: &mut Scheduler,
    outbox: &mut Outbox,
    lines: &Lines,
    told: Told,
    writer: &mut W,
    journal: &mut J,
    wording: Wording,
) -> Result<(), LiveFault>
    requires { J.is_begun journal.old }
    ensures begun { OnOk result (J.is_begun journal.new) }
    ensures talk { (s : Start) (v : J.View) (turns : ℕ) (left : Option (List ℕ)) → s.wording ≡ wording →
        TellsOn s turns scheduler.old left
        (W.contents writer.old) (J.stands_for journal.old v s.config) outbox.old
        lines.now told →
        MatchResult result
        (λ _. Talk s (turns + 1) scheduler.new left
        (W.contents writer.new) (J.stands_for journal.new v s.config)
        outbox.new)
        (λ _. Stopped s scheduler.new.history (W.contents writer.new)
        (J.stands_for journal.new v s.config)) }
    ensures err { IfErr result IsAnywhere }
    ensures failed_write { FailsJustBy (Text TextFault.Output) result (W.has_failed writer.old)
        (W.has_failed writer.new) }
    ensures failed_journal { FailsJustBy Failed result
        (J.has_failed journal.old) (J.has_failed journal.new) }
{
    let heard = match hear_told(alloc, scratch, lines, told) {
        Ok(heard) => heard,
        Err(fault) => {
            settle(scheduler, outbox, writer, journal)?;
            return Err(LiveFault::Text(fault));
        }
    };
    make_room(scheduler, outbox, writer, journal, asks_stats(&heard))?;
    answer(scheduler, outbox, heard, wording, journal.written())?;
    Ok(())
}

// Answers the line that was told, where one was.
pub(crate) fn take_first<W: Sink, J: Journal>(
    alloc: Global,
    scratch: &mut Scratch,
    scheduler: &mut Scheduler,
    outbox: &mut Outbox,
    lines: &Lines,
    told: Option<Told>,
    writer: &mut W,
    journal: &mut J,
    wording: Wording,
) -> Result<(), LiveFault>
    requires { J.is_begun journal.old }
    ensures begun { OnOk result (J.is_begun journal.new) }
    ensures talk { (s : Start) (v : J.View) (left : Option (List ℕ)) → s.wording ≡ wording →
        MatchOption told
        (Talk s 0 scheduler.old left
        (W.contents writer.old) (J.stands_for journal.old v s.config) outbox.old)
        (TellsOn s 0 scheduler.old left
        (W.contents writer.old) (J.stands_for journal.old v s.config) outbox.old
        lines.now) →
        MatchResult result
        (λ _. Talk s 0 scheduler.new left
        (W.contents writer.new) (J.stands_for journal.new v s.config) outbox.new)
        (λ _. Stopped s scheduler.new.history (W.contents writer.new)
        (J.stands_for journal.new v s.config)) }
    ensures err { IfErr result IsAnywhere }
    ensures failed_write { FailsJustBy (Text TextFault.Output) result (W.has_failed writer.old)
        (W.has_failed writer.new) }
    ensures failed_journal { FailsJustBy Failed result
        (J.has_failed journal.old) (J.has_failed journal.new) }
{
    match told {
        Some(told) => take_told(
            alloc, scratch, scheduler, outbox, lines, told, writer, journal, wording,
        ),
        None => Ok(()),
    }
}

// Reads a line and answers it; false where all lines were answered.
pub(crate) fn take_turn<R: Source, W: Sink, J: Journal>(
    alloc: Global,
    scratch: &mut Scratch,
    scheduler: &mut Scheduler,
    outbox: &mut Outbox,
    lines: &mut Lines,
    reader: &mut R,
    writer: &mut W,
    journal: &mut J,
    wording: Wording,
) -> Result<bool, LiveFault>
    requires { J.is_begun journal.old }
    ensures begun { OnOk result (J.is_begun journal.new) }
    ensures talk { (s : Start) (v : J.View) (turns : ℕ) → s.wording ≡ wording →
        Talk s turns scheduler.old
        (untold lines.old (R.remaining reader.old)) (W.contents writer.old)
        (J.stands_for journal.old v s.config) outbox.old →
        MatchResult result
        (IsTurn s turns scheduler.new
        (untold lines.new (R.remaining reader.new)) (W.contents writer.new)
        (J.stands_for journal.new v s.config) outbox.new)
        (λ e. Stopped s scheduler.new.history (W.contents writer.new)
        (J.stands_for journal.new v s.config)
        × StopsTalk s scheduler.new (R.remaining reader.new) (W.contents writer.new)
        (J.stands_for journal.new v s.config) e) }
    ensures failed_read { FailsButFor (Text TextFault.Input) (Text TextFault.TooLong) result
        (R.has_failed reader.old) (R.has_failed reader.new) }
    ensures failed_write { FailsJustBy (Text TextFault.Output) result (W.has_failed writer.old)
        (W.has_failed writer.new) }
    ensures failed_journal { FailsJustBy Failed result
        (J.has_failed journal.old) (J.has_failed journal.new) }
{
    let Some(told) = next_line(scheduler, outbox, lines, reader, writer, journal)? else {
        return Ok(false);
    };
    take_told(
        alloc, scratch, scheduler, outbox, lines, told, writer, journal, wording,
    )?;
    Ok(true)
}
