//! A reporter that keeps the use of minislots over time too.

ghost use Rattle.std.specs.Prelude.{◌≡◌, ◌^◌, ◌≤◌, ◌↔◌, ◌++◌, ◌∷◌, [], length};
ghost use Rattle.std.specs.Prelude.{IfOk, OnOk, OnErr, IsErrOf};
ghost use Rattle.sched_calls.specs.declared.reply.TheConstants.{MAX_WHOLE_HISTORY};
ghost use Rattle.sched_history.specs.History.{IsStep, IsLegal};
ghost use Rattle.sched_report.specs.Window.{whole, frames_told};
ghost use Rattle.sched_report.specs.ToldLives.{MayLackReportMemory};
ghost use Rattle.report_picture.specs.Kept.{IsOverTime};

use crate::over_time::UseOverTime;
use minislots::Checked;
use sched_history::{Entry, JudgeFault, Reply};
use sched_report::Reporter;
use std::alloc::{AllocError, Global};
use std::marker::Model;

/// A [`Reporter`] that keeps the use of minislots over time too, in at most 800 steps, for a picture. It has the memory
/// of a reporter, and that of the steps, however many frames there are.
#[derive(Drop)]
pub struct TimedReporter {
    reporter: Reporter,
    over_time: Box<UseOverTime>,
}

impl Model for TimedReporter {
    ghost use Rattle.sched_report.specs.Window.{Window};
    ghost use Rattle.report_picture.specs.Kept.{IsTimed};

    ghost Value = { Window };

    ghost view = { λ r. r.reporter };

    ghost invariant = { λ r. IsTimed r.reporter r.over_time.value };
}

impl TimedReporter {
    /// A reporter under this configuration, which has taken no entry.
    #[inline(never)]
    pub fn open(alloc: Global, config: Checked) -> Result<TimedReporter, AllocError>
        ensures { IfOk result (λ r. r ≡ whole config []) }
    {
        Ok(TimedReporter {
            reporter: Reporter::open(alloc, config)?,
            over_time: Box::new(alloc, UseOverTime::none())?,
        })
    }

    /// Judges one entry and takes it, as [`Reporter::take`] does.
    pub fn take(&mut self, entry: &Entry) -> Result<(), JudgeFault>
        // An entry that is taken is a step, and stands behind those before it.
        ensures taken { OnOk result
            (self.new ≡ record self.old { history = self.old.history ++ entry.now ∷ [] }) }
        ensures step { OnOk result
            (IsStep self.old.config self.old.history entry.now.call entry.now.reply) }

        // Else nothing changes.
        ensures err { OnErr result (self.new ≡ self.old) }
        ensures full { IsErrOf result JudgeFault.Full
            ↔ (MAX_WHOLE_HISTORY ≤ length self.old.history) }
        ensures illegal { IsErrOf result JudgeFault.Illegal →
            IsStep self.old.config self.old.history entry.now.call entry.now.reply → ⊥ }
        ensures memory { IsErrOf result JudgeFault.Memory →
            MayLackReportMemory self.old.config self.old.history entry.now }

        ensures legal { IsLegal self.new.config self.new.history }
    {
        self.reporter.take(entry)?;
        if let Reply::Built(map) = &entry.reply {
            self.over_time.add(self.reporter.totals().slots, map.start);
        }
        Ok(())
    }

    /// Tells from here on of what follows alone, as [`Reporter::renew`] does.
    #[inline(never)]
    pub fn renew(&mut self)
        ensures { self.new ≡ record self.old { passed = length self.old.history } }
    {
        self.reporter.renew();
        *self.over_time = UseOverTime::none();
    }

    /// The reporter, which tells the numbers.
    pub fn reporter(&self) -> &Reporter
        ensures { result.now ≡ self.now }
    {
        &self.reporter
    }

    // The use of minislots over time.
    pub(crate) fn over_time(&self) -> &UseOverTime
        ensures told { IsOverTime self.now.config result.now (frames_told self.now) }
        ensures short { length (frames_told self.now) ≤ 2 ^ 44 }
    {
        &self.over_time
    }
}
