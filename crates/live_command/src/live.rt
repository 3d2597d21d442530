//! A conversation from its opening on.

ghost use Rattle.std.specs.Prelude.{◌≡◌, [], IfErr, OnOk};
ghost use Rattle.minislots.specs.declared.config.Config.{Config};
ghost use Rattle.live_command.specs.Failing.{FailsButFor};
ghost use Rattle.live_command.specs.declared.fault.LiveFault.TheVariants.{Text, Journal as Failed};
ghost use Rattle.live_command.specs.Held.{Held, Ends, NotOpened};
ghost use Rattle.live_command.specs.Journal.{FailsJustBy};

use crate::fault::LiveFault;
use crate::journal::Journal;
use crate::noting::begin;
use crate::opening::read_opening;
use crate::talk::talk_from;
use crate::wording::Wording;
use json::Scratch;
use sched_history::Scheduler;
use std::alloc::Global;
use text_stream::{Lines, Sink, Source, TextFault};

/// Reads the opening of a conversation, which has its configuration, begins the journal, and converses with a new
/// scheduler to the end of the input. The journal has no whole line before, and is not changed before the opening was
/// read.
pub fn hold<R: Source, W: Sink, J: Journal>(
    alloc: Global,
    reader: &mut R,
    writer: &mut W,
    journal: &mut J,
    wording: Wording,
) -> Result<(), LiveFault>
    requires { J.is_ready journal.old }
    ensures begun { OnOk result (J.is_begun journal.new) }

    // The opening was read, and all lines behind it were answered.
    ensures ok { OnOk result ((v : J.View) → ((c : Config) → J.may_begin journal.old v c []) →
        Held wording (R.remaining reader.old) (R.remaining reader.new)
        (W.contents writer.old) (W.contents writer.new) (J.stands_for journal.new v)) }

    // Else no opening was read, or the journal did not begin, and nothing was written; or the conversation ended early.
    ensures ends { IfErr result (λ e. (v : J.View) → ((c : Config) → J.may_begin journal.old v c []) →
        Ends wording (R.remaining reader.old) (R.remaining reader.new)
        (W.contents writer.old) (W.contents writer.new)
        (J.may_refuse journal.old) (J.may_begin journal.new v) (J.stands_for journal.new v)
        (NotOpened writer.old writer.new journal.old journal.new) (writer.new ≡ writer.old) e) }

    // A failed read, write or journal is told exactly where one has failed, but that an input which is too long tells
    // nothing of reads; where all went well none did.
    ensures failed_read { FailsButFor (Text TextFault.Input) (Text TextFault.TooLong) result
        (R.has_failed reader.old) (R.has_failed reader.new) }
    ensures failed_write { FailsJustBy (Text TextFault.Output) result (W.has_failed writer.old)
        (W.has_failed writer.new) }
    ensures failed_journal { FailsJustBy Failed result
        (J.has_failed journal.old) (J.has_failed journal.new) }
{
    let mut lines = Lines::new(alloc)?;
    let mut scratch = Scratch::new(alloc);
    let config = read_opening(alloc, &mut scratch, &mut lines, reader)?;
    let mut scheduler = Scheduler::open(alloc, config)?;
    begin(journal, &config)?;
    talk_from(
        alloc,
        &mut scratch,
        &mut scheduler,
        &mut lines,
        None,
        reader,
        writer,
        journal,
        wording,
    )
}
