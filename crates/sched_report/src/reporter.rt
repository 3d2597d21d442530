//! The numbers of a history that is taken entry by entry.

ghost use Rattle.std.specs.Prelude.{◌≡◌, ◌<◌, ◌≤◌, ◌^◌, ◌↔◌, ◌++◌, ◌∷◌, [], length, slice_index_or};
ghost use Rattle.std.specs.Prelude.{IfOk, OnOk, OnErr, IsErrOf};
ghost use Rattle.sched_calls.specs.declared.reply.TheConstants.{MAX_WHOLE_HISTORY};
ghost use Rattle.sched_history.specs.History.{IsStep, IsLegal};
ghost use Rattle.sched_history.specs.Time.{next_after};
ghost use Rattle.sched_report.specs.Counts.{CountsRefusals};
ghost use Rattle.sched_report.specs.RefusedSids.{CountsRefusedSids};
ghost use Rattle.sched_report.specs.Window.{whole, entries_of, totals_told, AreExtremesTold, lives_told};
ghost use Rattle.sched_report.specs.Lives.{PastLife, is_told};
ghost use Rattle.sched_report.specs.Ranks.{lives_of_rank, AreRankNumbers};
ghost use Rattle.sched_report.specs.ToldLives.{MayLackReportMemory, AreLifeNumbers};

use crate::extremes::Extremes;
use crate::life::LifeNumbers;
use crate::outlook::outlook_of;
use crate::ranks::{RankNumbers, numbers_of};
use crate::tally::Tally;
use crate::totals::Totals;
use minislots::Checked;
use sched_history::{Auditor, Entry, JudgeFault, MAX_WHOLE_HISTORY};
use std::alloc::{AllocError, Global};
use std::marker::Model;

/// Takes a history entry by entry, and tells its numbers. Each entry is judged as by an [`Auditor`], and is counted
/// where its reply may follow those before it. No entry is kept, so however many are taken, the memory is that of the
/// auditor, of two tables of all SIDs, of the flows that lived and of the requests that wait. Contracts see the
/// configuration and the entries that were taken, which are legal, and how many of them came before what is told: from
/// [`Reporter::renew`] on it tells of what follows alone.
#[derive(Drop)]
pub struct Reporter {
    auditor: Auditor,
    tally: Tally,
}

impl Model for Reporter {
    ghost use Rattle.sched_report.specs.Window.{Window};

    ghost Value = { Window };

    ghost use Rattle.sched_report.specs.Reported.{IsReport};

    ghost view = { λ r. record {
      config = r.tally.config;
      history = r.auditor.history;
      passed = r.tally.passed;
    } };

    ghost invariant = { λ r. IsReport r.auditor r.tally };
}

impl Reporter {
    /// A reporter under this configuration, which has taken no entry.
    pub fn open(alloc: Global, config: Checked) -> Result<Reporter, AllocError>
        ensures { IfOk result (λ r. r ≡ whole config []) }
    {
        Ok(Reporter {
            auditor: Auditor::open(alloc, config)?,
            tally: Tally::open(alloc, config)?,
        })
    }

    /// Judges one entry as [`Auditor::judge`] does, and takes it where its reply may follow the entries that were
    /// taken. An entry that is not taken changes nothing.
    pub fn take(&mut self, entry: &Entry) -> Result<(), JudgeFault>
        // An entry that is taken is a step, and stands behind those before it.
        ensures taken { OnOk result
            (self.new ≡ record self.old { history = self.old.history ++ entry.now ∷ [] }) }
        ensures step { OnOk result
            (IsStep self.old.config self.old.history entry.now.call entry.now.reply) }

        // Else nothing changes.
        ensures err { OnErr result (self.new ≡ self.old) }
        ensures full { IsErrOf result JudgeFault.Full
            ↔ (MAX_WHOLE_HISTORY ≤ length self.old.history) }
        ensures illegal { IsErrOf result JudgeFault.Illegal →
            IsStep self.old.config self.old.history entry.now.call entry.now.reply → ⊥ }
        ensures memory { IsErrOf result JudgeFault.Memory →
            MayLackReportMemory self.old.config self.old.history entry.now }

        ensures legal { IsLegal self.new.config self.new.history }
    {
        if self.auditor.taken() >= MAX_WHOLE_HISTORY {
            return Err(JudgeFault::Full);
        }
        match self.tally.reserve(entry) {
            Ok(()) => {}
            Err(_) => return Err(JudgeFault::Memory),
        }
        let Ok(outlook) = outlook_of(&self.auditor, entry) else {
            return Err(JudgeFault::Memory);
        };
        self.auditor.judge(entry)?;
        let left = self.auditor.open_reserves();
        self.tally.count(&outlook, left, entry);
        Ok(())
    }

    /// Tells from here on of what follows alone, with the flows that live. Their requests that wait are told of no
    /// more; the bytes that are outstanding are carried.
    pub fn renew(&mut self)
        ensures { self.new ≡ record self.old { passed = length self.old.history } }
    {
        self.tally.renew(self.auditor.taken());
    }

    /// Where the next frame starts after the entries that were taken.
    pub fn next(&self) -> u64
        ensures { result ≡ next_after self.now.config self.now.history }
    {
        let next = self.tally.next;
        next
    }

    /// The numbers of the entries that are told of.
    pub fn totals(&self) -> Totals
        ensures { result ≡ totals_told self.now }
    {
        let totals = self.tally.totals;
        totals
    }

    /// What is least or greatest among the MAPs of the entries that are told of, and how many Reserves lapsed.
    pub fn extremes(&self) -> Extremes
        ensures { AreExtremesTold self.now result }
    {
        let extremes = self.tally.extremes;
        extremes
    }

    /// How many refusals with each number there are among the entries that are told of: with 1 first, with 23 last.
    pub fn refused(&self) -> &[u64]
        ensures { CountsRefusals result.now (entries_of self.now) }
    {
        &self.tally.refused
    }

    /// How many refused calls among the entries that are told of name each SID as that of a flow, whether one lives
    /// under it or not: SID 0 first, 65535 last. A reserve names none, whatever its usage.
    pub fn refused_sids(&self) -> &[u64]
        ensures { CountsRefusedSids result.now (entries_of self.now) }
    {
        self.tally.refused_sids.as_slice()
    }

    /// How many lives of flows the entries that were taken have, those that ended among them.
    pub fn lives(&self) -> usize
        ensures { result ≡ length (lives_told self.now) }
    {
        self.tally.lives.as_slice().len()
    }

    /// Whether the life at a place in the order of the admissions is told of: not where it ended before.
    pub fn is_told(&self, place: usize) -> bool
        requires { place < length (lives_told self.now) }
        ensures { (life : PastLife) → result ≡ is_told (slice_index_or (lives_told self.now) place life) }
    {
        self.tally.lives[place].is_told()
    }

    /// The numbers of the life at a place in the order of the admissions.
    pub fn life(&self, place: usize) -> LifeNumbers
        requires { place < length (lives_told self.now) }
        ensures told { (life : PastLife) → AreLifeNumbers self.now.config result
            (slice_index_or (lives_told self.now) place life) }
        ensures few { result.granted < 2 ^ 90 }
    {
        let (next, waited) = (self.tally.next, &self.tally.waited);
        self.tally.lives[place].numbers(next, waited.under[place], waited.held[place])
    }

    /// The numbers of a rank: of polled flows in [`POLLED`](crate::POLLED), of best effort flows in their priority.
    pub fn rank(&self, rank: u8) -> RankNumbers
        ensures { AreRankNumbers self.now.config result
            (lives_of_rank rank (lives_told self.now)) }
    {
        numbers_of(&self.tally.lives, rank)
    }
}
