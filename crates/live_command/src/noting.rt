//! The calls of a journal, each with the fault with which it ends a conversation.

ghost use Rattle.std.specs.Prelude.{◌≡◌, ◌⊎◌, List, IfErr, OnOk, OnErr};
ghost use Rattle.std.specs.List.{AllByRecursion};
ghost use Rattle.minislots.specs.declared.config.Config.{Config as Configuration};
ghost use Rattle.sched_calls.specs.Reply.{IsEncodable};
ghost use Rattle.live_command.specs.declared.fault.LiveFault.TheVariants.{Text, Journal as Failed};
ghost use Rattle.live_command.specs.declared.journal.BeginFault.{BeginFault};
ghost use Rattle.live_command.specs.Fault.{fault_of_begin};
ghost use Rattle.live_command.specs.Journal.{Keeps, Grows, GrowsInPart, FailsJustBy};

use crate::fault::LiveFault;
use crate::journal::{BeginFault, Journal, RecordFault};
use minislots::Checked;
use sched_history::Entry;
use text_stream::TextFault;

// Begins a journal.
pub(crate) fn begin<J: Journal>(journal: &mut J, config: &Checked) -> Result<(), LiveFault>
    requires { J.is_ready journal.old }
    ensures begun { OnOk result (J.is_begun journal.new) }
    ensures ok { OnOk result ((v : J.View) →
        Keeps (J.may_begin journal.old v config.now) (J.stands_for journal.new v config.now)) }
    ensures err { OnErr result ((v : J.View) →
        Keeps (J.may_begin journal.old v config.now) (J.may_begin journal.new v config.now)) }
    ensures why { IfErr result (λ e. (why : BeginFault) × J.may_refuse journal.old config.now why
        × (e ≡ fault_of_begin why)) }
    ensures failed { FailsJustBy Failed result
        (J.has_failed journal.old) (J.has_failed journal.new) }
{
    match journal.begin(config) {
        Ok(()) => Ok(()),
        Err(BeginFault::Memory) => Err(LiveFault::Text(TextFault::Memory)),
        Err(BeginFault::Other) => Err(LiveFault::BadJournal(0)),
        Err(BeginFault::Failed) => Err(LiveFault::Journal),
    }
}

// Puts entries into a journal.
pub(crate) fn record<J: Journal>(journal: &mut J, entries: &[Entry]) -> Result<(), LiveFault>
    requires begun { J.is_begun journal.old }
    requires encodable { AllByRecursion (λ e. IsEncodable e.reply) entries.now }
    ensures begun { J.is_begun journal.new }
    ensures ok { OnOk result ((v : J.View) (c : Configuration) →
        Grows (J.stands_for journal.old v c) (J.stands_for journal.new v c) entries.now) }
    ensures err { OnErr result ((v : J.View) (c : Configuration) →
        GrowsInPart (J.stands_for journal.old v c) (J.stands_for journal.new v c) entries.now) }
    ensures why { IfErr result (λ e. (e ≡ Failed) ⊎ (e ≡ Text TextFault.Memory)) }
    ensures failed { FailsJustBy Failed result
        (J.has_failed journal.old) (J.has_failed journal.new) }
{
    match journal.record(entries) {
        Ok(()) => Ok(()),
        Err(RecordFault::Memory) => Err(LiveFault::Text(TextFault::Memory)),
        Err(RecordFault::Failed) => Err(LiveFault::Journal),
    }
}
