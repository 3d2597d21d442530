//! A conversation that goes on after a journal was resumed.

ghost use Rattle.std.specs.Prelude.{◌≡◌, length, IfOk, IfErr, OnOk, Ok};
ghost use Rattle.text_stream.specs.Told.{untold};
ghost use Rattle.live_command.specs.Failing.{FailsButFor};
ghost use Rattle.live_command.specs.declared.fault.LiveFault.TheVariants.{Text, Journal as Failed};
ghost use Rattle.live_command.specs.Going.{says_config, IsFront, MissesFront, Misses, ReadsFront, StopsGoing};
ghost use Rattle.live_command.specs.Going.{WentOn, EndsGoing, NotGoing};
ghost use Rattle.live_command.specs.Journal.{FailsJustBy};
ghost use Rattle.live_command.specs.Opening.{opening_in};
ghost use Rattle.live_command.specs.Said.{said_in};

use crate::difference::first_difference;
use crate::fault::LiveFault;
use crate::journal::Journal;
use crate::noting::begin;
use crate::opening::{next_spoken, opening_in};
use crate::said::{Said, read_said};
use crate::talk::talk_from;
use crate::wording::Wording;
use json::Scratch;
use minislots::Checked;
use sched_history::Scheduler;
use std::alloc::Global;
use text_stream::{Lines, Sink, Source, TextFault, Told};

// Whether a text says a configuration.
fn says_config(alloc: Global, scratch: &mut Scratch, line: &[u8]) -> Result<bool, TextFault>
    ensures ok { IfOk result (λ is. is ≡ says_config (said_in line.now)) }
    ensures err { IfErr result (λ e. e ≡ TextFault.Memory) }
{
    match read_said(alloc, scratch, line) {
        Ok(Said::Opening(_)) => Ok(true),
        Ok(Said::Stats | Said::Call(_)) => Ok(false),
        Err(TextFault::NotJson) => Ok(false),
        Err(_) => Err(TextFault::Memory),
    }
}

// Reads an opening, which has to have the configuration.
fn require_config(
    alloc: Global,
    scratch: &mut Scratch,
    config: &Checked,
    line: &[u8],
) -> Result<(), LiveFault>
    ensures ok { OnOk result (opening_in line.now ≡ Ok config.now) }
    ensures err { IfErr result (Misses config.now line.now) }
{
    let found = opening_in(alloc, scratch, line)?;
    match first_difference(&config.config(), &found.config()) {
        None => Ok(()),
        Some(difference) => Err(LiveFault::OtherConfig(difference)),
    }
}

// Tells a first line that is not long, unless it is the opening, which then has the configuration.
fn tell_first(
    alloc: Global,
    scratch: &mut Scratch,
    config: &Checked,
    line: &[u8],
) -> Result<Option<Told>, LiveFault>
    ensures ok { IfOk result (IsFront config.now line.now) }
    ensures err { IfErr result (MissesFront config.now line.now) }
{
    if !says_config(alloc, scratch, line)? {
        return Ok(Some(Told::Line));
    }
    require_config(alloc, scratch, config, line)?;
    Ok(None)
}

// Reads what stands in front of the lines that are answered, and tells the first of these where it was read.
fn read_front<R: Source>(
    alloc: Global,
    scratch: &mut Scratch,
    config: &Checked,
    lines: &mut Lines,
    reader: &mut R,
) -> Result<Option<Told>, LiveFault>
    ensures ok { IfOk result (ReadsFront config.now (untold lines.old (R.remaining reader.old))
        (untold lines.new (R.remaining reader.new)) lines.new) }
    ensures stops { IfErr result (StopsGoing config.now (untold lines.old (R.remaining reader.old))
        (R.remaining reader.new)) }
    ensures failed { FailsButFor (Text TextFault.Input) (Text TextFault.TooLong) result
        (R.has_failed reader.old) (R.has_failed reader.new) }
{
    match next_spoken(lines, reader, true)? {
        Some(Told::Line) => tell_first(alloc, scratch, config, lines.line()),
        Some(Told::Long) => Ok(Some(Told::Long)),
        None => Ok(None),
    }
}

/// Goes on with a conversation whose journal was resumed, to the end of the input. The whole history of the scheduler
/// is what the journal stands for, and none of it is kept. The first line that is not blank may be the opening: where
/// it has the member `config` it is one, and must have the journal's configuration; else it is the first line that is
/// answered, as a long line is and one that is not JSON. The journal begins only behind that, and then each line is
/// answered as [`converse`](crate::converse) does.
pub fn go_on<R: Source, W: Sink, J: Journal>(
    alloc: Global,
    scheduler: &mut Scheduler,
    lines: &mut Lines,
    reader: &mut R,
    writer: &mut W,
    journal: &mut J,
    wording: Wording,
) -> Result<(), LiveFault>
    requires handed { scheduler.old.handed ≡ length scheduler.old.history }
    requires ready { J.is_ready journal.old }
    ensures begun { OnOk result (J.is_begun journal.new) }

    // All lines were answered; the journal stands for what was resumed, and the calls of these lines behind it.
    ensures ok { OnOk result ((v : J.View) →
        J.may_begin journal.old v scheduler.old.config scheduler.old.history →
        WentOn wording scheduler.old scheduler.new
        (untold lines.old (R.remaining reader.old)) (untold lines.new (R.remaining reader.new))
        (W.contents writer.old) (W.contents writer.new)
        (J.stands_for journal.new v scheduler.old.config)) }

    // Else no line of the conversation came, or the journal did not begin, and nothing was written; or it ended early.
    ensures ends { IfErr result (λ e. (v : J.View) →
        J.may_begin journal.old v scheduler.old.config scheduler.old.history →
        EndsGoing wording scheduler.old scheduler.new
        (untold lines.old (R.remaining reader.old)) (R.remaining reader.new)
        (W.contents writer.old) (W.contents writer.new)
        (J.may_refuse journal.old scheduler.old.config)
        (J.may_begin journal.new v scheduler.old.config)
        (J.stands_for journal.new v scheduler.old.config)
        (NotGoing scheduler.old scheduler.new writer.old writer.new journal.old journal.new)
        ((scheduler.new ≡ scheduler.old) × (writer.new ≡ writer.old)) e) }

    // A failed read, write or journal is told exactly where one has failed, but that an input which is too long tells
    // nothing of reads; where all went well none did.
    ensures failed_read { FailsButFor (Text TextFault.Input) (Text TextFault.TooLong) result
        (R.has_failed reader.old) (R.has_failed reader.new) }
    ensures failed_write { FailsJustBy (Text TextFault.Output) result (W.has_failed writer.old)
        (W.has_failed writer.new) }
    ensures failed_journal { FailsJustBy Failed result
        (J.has_failed journal.old) (J.has_failed journal.new) }
{
    let mut scratch = Scratch::new(alloc);
    let config = *scheduler.config();
    let told = read_front(alloc, &mut scratch, &config, lines, reader)?;
    begin(journal, &config)?;
    talk_from(
        alloc,
        &mut scratch,
        scheduler,
        lines,
        told,
        reader,
        writer,
        journal,
        wording,
    )
}
