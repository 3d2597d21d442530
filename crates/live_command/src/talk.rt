//! A conversation, from the first line behind its opening to the end of its input.

ghost use Rattle.std.specs.Prelude.{◌≡◌, length, IfErr, OnOk, MatchResult, MatchOption};
ghost use Rattle.text_stream.specs.Told.{untold};
ghost use Rattle.live_command.specs.Failing.{FailsButFor};
ghost use Rattle.live_command.specs.declared.fault.LiveFault.TheVariants.{Text, Journal as Failed};
ghost use Rattle.live_command.specs.Answers.{fresh};
ghost use Rattle.live_command.specs.Journal.{FailsJustBy};
ghost use Rattle.live_command.specs.Talk.{Start, start_at, Talk, TellsOn, Conversed, Stopped, StopsTalk};

use crate::fault::LiveFault;
use crate::journal::Journal;
use crate::outbox::Outbox;
use crate::turn::{settle, take_first, take_turn};
use crate::wording::Wording;
use json::Scratch;
use sched_history::Scheduler;
use std::alloc::Global;
use text_stream::{Lines, Sink, Source, TextFault, Told};

// Converses to the end of the input, where answers may wait.
fn talk_on<R: Source, W: Sink, J: Journal>(
    alloc: Global,
    scratch: &mut Scratch,
    scheduler: &mut Scheduler,
    outbox: &mut Outbox,
    lines: &mut Lines,
    reader: &mut R,
    writer: &mut W,
    journal: &mut J,
    wording: Wording,
) -> Result<(), LiveFault>
    requires { J.is_begun journal.old }
    ensures begun { OnOk result (J.is_begun journal.new) }
    ensures talk { (s : Start) (v : J.View) → s.wording ≡ wording →
        Talk s 0 scheduler.old (untold lines.old (R.remaining reader.old)) (W.contents writer.old)
        (J.stands_for journal.old v s.config) outbox.old →
        MatchResult result
        (λ _. Conversed s scheduler.new
        (untold lines.new (R.remaining reader.new)) (W.contents writer.new)
        (J.stands_for journal.new v s.config))
        (λ e. Stopped s scheduler.new.history (W.contents writer.new)
        (J.stands_for journal.new v s.config)
        × StopsTalk s scheduler.new (R.remaining reader.new) (W.contents writer.new)
        (J.stands_for journal.new v s.config) e) }
    ensures failed_read { FailsButFor (Text TextFault.Input) (Text TextFault.TooLong) result
        (R.has_failed reader.old) (R.has_failed reader.new) }
    ensures failed_write { FailsJustBy (Text TextFault.Output) result (W.has_failed writer.old)
        (W.has_failed writer.new) }
    ensures failed_journal { FailsJustBy Failed result
        (J.has_failed journal.old) (J.has_failed journal.new) }
{
    for _ in 0..u64::MAX {
        if !take_turn(
            alloc, scratch, scheduler, outbox, lines, reader, writer, journal, wording,
        )? {
            return Ok(());
        }
    }
    settle(scheduler, outbox, writer, journal)?;
    Err(LiveFault::Text(TextFault::TooLong))
}

/// Converses from the line that was told last, where it is to be answered, to the end of the input.
pub(crate) fn talk_from<R: Source, W: Sink, J: Journal>(
    alloc: Global,
    scratch: &mut Scratch,
    scheduler: &mut Scheduler,
    lines: &mut Lines,
    told: Option<Told>,
    reader: &mut R,
    writer: &mut W,
    journal: &mut J,
    wording: Wording,
) -> Result<(), LiveFault>
    requires { J.is_begun journal.old }
    ensures begun { OnOk result (J.is_begun journal.new) }
    ensures talk { (s : Start) (v : J.View) → s.wording ≡ wording →
        MatchOption told
        (Talk s 0 scheduler.old (untold lines.old (R.remaining reader.old)) (W.contents writer.old)
        (J.stands_for journal.old v s.config) fresh)
        (TellsOn s 0 scheduler.old
        (untold lines.old (R.remaining reader.old)) (W.contents writer.old)
        (J.stands_for journal.old v s.config) fresh lines.old) →
        MatchResult result
        (λ _. Conversed s scheduler.new
        (untold lines.new (R.remaining reader.new)) (W.contents writer.new)
        (J.stands_for journal.new v s.config))
        (λ e. Stopped s scheduler.new.history (W.contents writer.new)
        (J.stands_for journal.new v s.config)
        × StopsTalk s scheduler.new (R.remaining reader.new) (W.contents writer.new)
        (J.stands_for journal.new v s.config) e) }
    ensures failed_read { FailsButFor (Text TextFault.Input) (Text TextFault.TooLong) result
        (R.has_failed reader.old) (R.has_failed reader.new) }
    ensures failed_write { FailsJustBy (Text TextFault.Output) result (W.has_failed writer.old)
        (W.has_failed writer.new) }
    ensures failed_journal { FailsJustBy Failed result
        (J.has_failed journal.old) (J.has_failed journal.new) }
{
    let mut outbox = Outbox::new(alloc)?;
    let outbox = &mut outbox;
    take_first(
        alloc, scratch, scheduler, outbox, lines, told, writer, journal, wording,
    )?;
    talk_on(
        alloc, scratch, scheduler, outbox, lines, reader, writer, journal, wording,
    )
}

/// Reads lines to the end of an input, and answers each that is not blank by one line: a call as a run does, with seat
/// 0 and its place in the whole history for a ticket, and any other with what is wrong with it. Before an answer is
/// written its entry is in the journal, and before a read that may wait all answers are written. Nothing that the
/// scheduler has recorded is kept at the beginning.
pub fn converse<R: Source, W: Sink, J: Journal>(
    alloc: Global,
    scheduler: &mut Scheduler,
    lines: &mut Lines,
    reader: &mut R,
    writer: &mut W,
    journal: &mut J,
    wording: Wording,
) -> Result<(), LiveFault>
    requires handed { scheduler.old.handed ≡ length scheduler.old.history }
    requires begun { J.is_begun journal.old }
    ensures begun { OnOk result (J.is_begun journal.new) }

    // All lines were answered, and nothing else was written; the journal stands for the whole history.
    ensures ok { OnOk result ((v : J.View) →
        J.stands_for journal.old v scheduler.old.config scheduler.old.history → Conversed
        (start_at wording scheduler.old
        (untold lines.old (R.remaining reader.old)) (W.contents writer.old))
        scheduler.new (untold lines.new (R.remaining reader.new)) (W.contents writer.new)
        (J.stands_for journal.new v scheduler.old.config)) }

    // Wherever else it ended, the journal has the entry of each answer of which a byte was written.
    ensures stopped { IfErr result (λ _. (v : J.View) →
        J.stands_for journal.old v scheduler.old.config scheduler.old.history → Stopped
        (start_at wording scheduler.old
        (untold lines.old (R.remaining reader.old)) (W.contents writer.old))
        scheduler.new.history (W.contents writer.new)
        (J.stands_for journal.new v scheduler.old.config)) }
    ensures stops { IfErr result (λ e. (v : J.View) →
        J.stands_for journal.old v scheduler.old.config scheduler.old.history → StopsTalk
        (start_at wording scheduler.old
        (untold lines.old (R.remaining reader.old)) (W.contents writer.old))
        scheduler.new (R.remaining reader.new) (W.contents writer.new)
        (J.stands_for journal.new v scheduler.old.config) e) }

    // A failed read, write or journal is told exactly where one has failed, but that an input which is too long tells
    // nothing of reads; where all went well none did.
    ensures failed_read { FailsButFor (Text TextFault.Input) (Text TextFault.TooLong) result
        (R.has_failed reader.old) (R.has_failed reader.new) }
    ensures failed_write { FailsJustBy (Text TextFault.Output) result (W.has_failed writer.old)
        (W.has_failed writer.new) }
    ensures failed_journal { FailsJustBy Failed result
        (J.has_failed journal.old) (J.has_failed journal.new) }
{
    let mut scratch = Scratch::new(alloc);
    talk_from(
        alloc,
        &mut scratch,
        scheduler,
        lines,
        None,
        reader,
        writer,
        journal,
        wording,
    )
}
