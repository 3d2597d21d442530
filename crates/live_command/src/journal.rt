//! What a conversation is recorded in.

ghost use Rattle.std.specs.Prelude.{◌≡◌, ℕ, Bool, true, false, List, IfErr, OnOk, OnErr};
ghost use Rattle.std.specs.List.{AllByRecursion};
ghost use Rattle.minislots.specs.declared.config.Config.{Config as Configuration};
ghost use Rattle.sched_calls.specs.declared.reply.Entry.{Entry as Recorded};
ghost use Rattle.sched_calls.specs.Reply.{IsEncodable};
ghost use Rattle.live_command.specs.declared.journal.BeginFault.{BeginFault as Refusal};
ghost use Rattle.live_command.specs.Journal.{Keeps, Grows, GrowsInPart, FailsJustBy};

use minislots::Checked;
use sched_history::Entry;

/// Why a journal does not begin.
#[derive(Clone, Copy, Debug, PartialEq, Eq)]
pub enum BeginFault {
    /// Memory ran out.
    Memory,
    /// What it has is no front of a journal under this configuration.
    Other,
    /// A call of it failed: a write, a cut, or that what was written reaches the device.
    Failed,
}

/// Why entries are not recorded.
#[derive(Clone, Copy, Debug, PartialEq, Eq)]
pub enum RecordFault {
    /// Memory ran out.
    Memory,
    /// A call of it failed.
    Failed,
}

/// What a conversation is recorded in, so that another one can resume it.
pub trait Journal {
    /// What a promise is about beside the entries: of a journal in a file, whether it is about the bytes of the file or
    /// about those that have reached the device, and which there were before.
    ghost View: { Type 0 };

    /// Whether it was begun, and stands for this configuration and these entries; true, too, where nothing is known of
    /// it.
    ghost stands_for: { Self → View → Configuration → List Recorded → Type 0 };

    /// Whether it stands for this configuration and these entries once it is begun under it; true, too, where nothing
    /// is known of it.
    ghost may_begin: { Self → View → Configuration → List Recorded → Type 0 };

    /// Whether it may refuse to begin under this configuration, and why; true, too, where nothing is known.
    ghost may_refuse: { Self → Configuration → Refusal → Type 0 };

    /// Whether it can be begun: what it has is known to it.
    ghost is_ready: { Self → Type 0 };

    /// Whether it was begun.
    ghost is_begun: { Self → Type 0 };

    /// Whether a call has failed; true, too, where nothing is known of it.
    ghost has_failed: { Self → Bool };

    /// How many bytes were put into it by calls that went well.
    ghost written: { Self → ℕ };

    /// Begins it under this configuration, or makes it ready to be continued where it was begun. Nothing of it is
    /// changed before.
    fn begin(&mut self, config: &Checked) -> Result<(), BeginFault>
        requires { is_ready self.old }
        ensures begun { OnOk result (is_begun self.new) }
        ensures ok { OnOk result ((v : View) →
            Keeps (may_begin self.old v config.now) (stands_for self.new v config.now)) }
        ensures err { OnErr result ((v : View) →
            Keeps (may_begin self.old v config.now) (may_begin self.new v config.now)) }
        ensures refused { IfErr result (may_refuse self.old config.now) }
        ensures failed { FailsJustBy BeginFault.Failed result
            (has_failed self.old) (has_failed self.new) };

    /// Puts entries behind those that it stands for. At the return all of them are in it; where the call failed, the
    /// first of them may be.
    fn record(&mut self, entries: &[Entry]) -> Result<(), RecordFault>
        requires begun { is_begun self.old }
        requires encodable { AllByRecursion (λ e. IsEncodable e.reply) entries.now }
        ensures begun { is_begun self.new }
        ensures ok { OnOk result ((v : View) (c : Configuration) →
            Grows (stands_for self.old v c) (stands_for self.new v c) entries.now) }
        ensures err { OnErr result ((v : View) (c : Configuration) →
            GrowsInPart (stands_for self.old v c) (stands_for self.new v c) entries.now) }
        ensures failed { FailsJustBy RecordFault.Failed result
            (has_failed self.old) (has_failed self.new) };

    /// How many bytes were put into it by calls that went well.
    fn written(&self) -> u64
        ensures { result ≡ written self.now };
}

/// The journal of a conversation that is not recorded. It never refuses to begin.
#[derive(Drop)]
pub struct NoJournal;

impl Journal for NoJournal {
    ghost View = { Unit {0} };

    ghost stands_for = { λ _ _ _ _. Unit {0} };

    ghost may_begin = { λ _ _ _ _. Unit {0} };

    ghost may_refuse = { λ _ _ _. ⊥ };

    ghost is_ready = { λ _. Unit {0} };

    ghost is_begun = { λ _. Unit {0} };

    ghost has_failed = { λ _. false };

    ghost written = { λ _. 0 };

    fn begin(&mut self, _config: &Checked) -> Result<(), BeginFault> {
        Ok(())
    }

    fn record(&mut self, _entries: &[Entry]) -> Result<(), RecordFault> {
        Ok(())
    }

    fn written(&self) -> u64 {
        0
    }
}
