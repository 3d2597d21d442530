//! A reporter that tells of a history part by part.

ghost use Rattle.std.specs.Prelude.{◌≡◌, ◌↔◌, ◌≤◌, ◌<◌, ◌^◌, length, IfOk, OnOk, IsErrOf};
ghost use Rattle.sched_calls.specs.declared.reply.TheConstants.{MAX_WHOLE_HISTORY};
ghost use Rattle.sched_history.specs.History.{IsStep, IsLegal};
ghost use Rattle.report_command.specs.Range.{ticks_after};
ghost use Rattle.report_command.specs.Series.{opened, is_between, begun, with_entry, part_ticks, first_ms};

use crate::range::{TICKS, ticks_until};
use minislots::Checked;
use report_picture::TimedReporter;
use sched_history::{Entry, JudgeFault};
use std::alloc::{AllocError, Global};
use std::marker::Model;

// A reporter that tells of one part of a history after the other, each of so many milliseconds.
#[derive(Drop)]
pub(crate) struct Series {
    config: Checked,
    timed: TimedReporter,
    // How many milliseconds a part has, at least one.
    every: u64,
    // Where the part that goes on ends, in ticks after the configuration's start; where none does, not behind the
    // present.
    end: u128,
}

impl Model for Series {
    ghost use Rattle.report_command.specs.Series.{Serial, IsSerial};

    ghost Value = { Serial };

    ghost view = { λ s. record { every = s.every; end = s.end; told = s.timed } };

    ghost invariant = { λ s. IsSerial s.config s.every s.timed };
}

impl Series {
    // One under this configuration with parts of so many milliseconds, of one at least, which has taken no entry.
    pub(crate) fn open(alloc: Global, config: Checked, every: u64) -> Result<Series, AllocError>
        ensures { IfOk result (λ s. s ≡ opened config every) }
    {
        Ok(Series {
            config,
            timed: TimedReporter::open(alloc, config)?,
            every: every.max(1),
            end: 0,
        })
    }

    // The configuration.
    pub(crate) fn config(&self) -> &Checked
        ensures { result.now ≡ self.now.told.config }
    {
        &self.config
    }

    // The reporter of the part that goes on.
    pub(crate) fn timed(&self) -> &TimedReporter
        ensures { result.now ≡ self.now.told }
    {
        &self.timed
    }

    // Whether no part goes on: none has begun, or the last one is over.
    pub(crate) fn is_between(&self) -> bool
        ensures { result ≡ is_between self.now }
    {
        self.end <= self.ticks()
    }

    // The millisecond after the configuration's start with which the part that goes on begins.
    pub(crate) fn first_ms(&self) -> u64
        ensures { result ≡ first_ms self.now.every self.now.end }
    {
        let ticks = self.end.saturating_sub(self.part_ticks());
        u64::try_from(ticks / TICKS).unwrap_or(u64::MAX)
    }

    // How many ticks a part has.
    fn part_ticks(&self) -> u128
        ensures is { result ≡ part_ticks self.now.every }
        ensures few { result < 2 ^ 72 }
    {
        TICKS * u128::from(self.every)
    }

    // How many ticks after the configuration's start the next frame starts.
    fn ticks(&self) -> u128
        ensures is { result ≡ ticks_after self.now.told.config self.now.told.history }
        ensures few { result < 2 ^ 100 }
    {
        ticks_until(&self.config, self.timed.reporter().next())
    }

    // Begins a part with the entry that comes, where none goes on.
    fn begin(&mut self)
        ensures { self.new ≡ begun self.old }
    {
        let ticks = self.ticks();
        if self.end <= ticks {
            self.timed.renew();
            let part = self.part_ticks();
            self.end = ticks - ticks % part + part;
        }
    }

    // Judges one entry and takes it, as [`TimedReporter::take`] does. Where no part goes on another begins with it.
    pub(crate) fn take(&mut self, entry: &Entry) -> Result<(), JudgeFault>
        ensures taken { OnOk result (self.new ≡ with_entry self.old entry.now) }
        ensures config { self.new.told.config ≡ self.old.told.config }
        ensures every { self.new.every ≡ self.old.every }
        ensures full { IsErrOf result JudgeFault.Full
            ↔ (MAX_WHOLE_HISTORY ≤ length self.old.told.history) }
        ensures illegal { IsErrOf result JudgeFault.Illegal →
            IsStep self.old.told.config self.old.told.history entry.now.call entry.now.reply → ⊥ }
        ensures legal { IsLegal self.new.told.config self.new.told.history }
    {
        self.begin();
        self.timed.take(entry)
    }
}
