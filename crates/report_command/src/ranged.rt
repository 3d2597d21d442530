//! A reporter that tells of a part of a history.

ghost use Rattle.std.specs.Prelude.{◌≡◌, ◌↔◌, ◌≤◌, ◌++◌, ◌∷◌, [], List, false, length, IfOk, OnOk, OnErr, IsErrOf};
ghost use Rattle.sched_calls.specs.declared.reply.Entry.{Entry as Recorded};
ghost use Rattle.sched_calls.specs.declared.reply.TheConstants.{MAX_WHOLE_HISTORY};
ghost use Rattle.sched_history.specs.History.{IsStep, IsLegal};
ghost use Rattle.report_command.specs.Range.{ticks_after, window_of, entries_until, ends_here, IsCut, GoesOn};

use crate::range::{Range, ticks_until};
use minislots::Checked;
use report_picture::TimedReporter;
use sched_history::{Entry, JudgeFault};
use std::alloc::{AllocError, Global};
use std::marker::Model;

// A reporter that tells of the part of a history in this range.
#[derive(Drop)]
pub(crate) struct RangedReporter {
    config: Checked,
    timed: TimedReporter,
    range: Range,
    // Whether what is told has begun.
    begun: bool,
}

impl Model for RangedReporter {
    ghost use Rattle.report_command.specs.Range.{Ranged, IsRanged};

    ghost Value = { Ranged };

    ghost view = { λ r. record { config = r.timed.config; range = r.range; history = r.timed.history } };

    ghost invariant = { λ r. IsRanged r.config r.range r.begun r.timed };
}

impl RangedReporter {
    // One under this configuration, which has taken no entry.
    pub(crate) fn open(
        alloc: Global,
        config: Checked,
        range: Range,
    ) -> Result<RangedReporter, AllocError>
        ensures { IfOk result (λ r. r ≡ record { config = config; range = range; history = [] }) }
    {
        Ok(RangedReporter {
            config,
            timed: TimedReporter::open(alloc, config)?,
            range,
            begun: false,
        })
    }

    // Whether what is told is over behind the entries that were taken.
    pub(crate) fn is_over(&self) -> bool
        ensures over { result ≡ ends_here self.now }
        ensures until { entries_until self.now.config self.now.range.to self.now.history ≡ length self.now.history }
        ensures goes_on { result ≡ false → GoesOn self.now.config self.now.range self.now.history }
    {
        self.range.is_over(self.ticks())
    }

    // How many ticks after the configuration's start the next frame starts.
    fn ticks(&self) -> u128
        ensures { result ≡ ticks_after self.now.config self.now.history }
    {
        ticks_until(&self.config, self.timed.reporter().next())
    }

    // Judges one entry and takes it, as [`TimedReporter::take`] does.
    pub(crate) fn take(&mut self, entry: &Entry) -> Result<(), JudgeFault>
        requires { ends_here self.old ≡ false }
        ensures taken { OnOk result
            (self.new ≡ record self.old { history = self.old.history ++ entry.now ∷ [] }) }
        ensures err { OnErr result (self.new ≡ self.old) }
        ensures full { IsErrOf result JudgeFault.Full
            ↔ (MAX_WHOLE_HISTORY ≤ length self.old.history) }
        ensures illegal { IsErrOf result JudgeFault.Illegal →
            IsStep self.old.config self.old.history entry.now.call entry.now.reply → ⊥ }
        ensures legal { IsLegal self.new.config self.new.history }
    {
        let is_due = self.range.has_begun(self.ticks());
        if is_due && !self.begun {
            self.timed.renew();
            self.begun = true;
        }
        self.timed.take(entry)
    }

    // The reporter of what is told, whatever follows where that is over.
    pub(crate) fn end(self) -> TimedReporter
        ensures told { (rest : List Recorded) → IsCut rest (ends_here self)
            → result ≡ window_of self.config self.range (self.history ++ rest) }
        ensures same { result.history ≡ self.history }
    {
        let RangedReporter {
            mut timed,
            begun,
            ..
        } = self;
        if !begun {
            timed.renew();
        }
        timed
    }
}
