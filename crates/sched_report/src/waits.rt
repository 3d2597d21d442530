//! How often flows waited under their minimum reserved rates, and at their ceilings.

ghost use Rattle.std.specs.Prelude.{◌≡◌, ◌+◌, ◌<◌, ◌^◌, ◌++◌, ◌∷◌, [], List, ℕ, length, slice_index_or};
ghost use Rattle.std.specs.Prelude.{IfOk, OnOk, OnErr, vec_len, vec_capacity};
ghost use Rattle.minislots.specs.declared.config.Config.{Config};
ghost use Rattle.flow_book.specs.declared.standing.Standing.{Standing};
ghost use Rattle.sched_calls.specs.declared.reply.Entry.{Entry as Recorded};
ghost use Rattle.sched_history.specs.History.{IsStep};
ghost use Rattle.sched_history.specs.Machine.{MayLackMemory};
ghost use Rattle.sched_report.specs.Live.{AreLive};
ghost use Rattle.sched_report.specs.Lives.{IsOpening};
ghost use Rattle.sched_report.specs.ToldLives.{AddsToReport};
ghost use Rattle.sched_report.specs.Waits.{HasCounted, AreWaits, MayCountWaits, AreWaited};
ghost use Rattle.sched_report.specs.Waits.{AreWaiters, MayCountBoth};

use crate::life::LifeTally;
use crate::lives::{opening_of, place_under};
use sched_history::{Auditor, Entry, Standing};
use std::alloc::{AllocError, Global};

// How often each life waited for bytes where MAPs of it start, at the places of the lives.
#[derive(Drop)]
pub(crate) struct Waited {
    // Under its minimum reserved rate.
    pub(crate) under: Vec<u64>,
    // At a ceiling.
    pub(crate) held: Vec<u64>,
}

// The SIDs of the flows that wait for bytes where the MAP of an entry starts.
#[derive(Drop)]
pub(crate) struct Waiters {
    // Under their minimum reserved rates.
    pub(crate) under: Vec<u16>,
    // At their ceilings.
    pub(crate) held: Vec<u16>,
}

impl Waited {
    // That of no life.
    pub(crate) fn none(alloc: Global) -> Waited
        ensures under { result.under.items ≡ [] }
        ensures held { result.held.items ≡ [] }
    {
        Waited {
            under: Vec::new(alloc),
            held: Vec::new(alloc),
        }
    }

    // Takes memory for a life that an entry begins. What is counted stays.
    pub(crate) fn reserve(&mut self, entry: &Entry) -> Result<(), AllocError>
        ensures under { OnOk result (IsOpening entry.now.call entry.now.reply
            → vec_len self.new.under < vec_capacity self.new.under) }
        ensures held { OnOk result (IsOpening entry.now.call entry.now.reply
            → vec_len self.new.held < vec_capacity self.new.held) }
        ensures same_under { self.new.under.items ≡ self.old.under.items }
        ensures same_held { self.new.held.items ≡ self.old.held.items }
        ensures err { OnErr result (AddsToReport entry.now.call entry.now.reply) }
    {
        reserve_count(&mut self.under, entry)?;
        reserve_count(&mut self.held, entry)
    }

    // Counts an entry that follows the history of these lives, where these flows wait where its MAP starts.
    pub(crate) fn count(
        &mut self,
        lives: &[LifeTally],
        places: &[usize],
        waiters: &Waiters,
        entry: &Entry,
    )
        requires under { IsOpening entry.now.call entry.now.reply
            → vec_len self.old.under < vec_capacity self.old.under }
        requires held { IsOpening entry.now.call entry.now.reply
            → vec_len self.old.held < vec_capacity self.old.held }
        requires live { AreLive places.now lives.now }
        requires may { (c : Config) × (passed : ℕ) × (h : List Recorded)
            × MayCountBoth c passed h lives.now self.old waiters.now entry.now }
        ensures { (c : Config) (passed : ℕ) (h : List Recorded)
            → MayCountBoth c passed h lives.now self.old waiters.now entry.now
            → AreWaited c passed (h ++ entry.now ∷ []) self.new }
    {
        count_waits(&mut self.under, lives, places, &waiters.under, entry);
        count_waits(&mut self.held, lives, places, &waiters.held, entry);
    }

    // Counts anew from here on.
    pub(crate) fn renew(&mut self)
        ensures under_len { length self.new.under.items ≡ length self.old.under.items }
        ensures held_len { length self.new.held.items ≡ length self.old.held.items }
        ensures under { (k n : ℕ) → k < length self.new.under.items → slice_index_or self.new.under.items k n ≡ 0 }
        ensures held { (k n : ℕ) → k < length self.new.held.items → slice_index_or self.new.held.items k n ≡ 0 }
    {
        renew_counts(&mut self.under);
        renew_counts(&mut self.held);
    }
}

// The SIDs of the flows that wait where the MAP of an entry starts, where its reply may follow what the auditor took.
pub(crate) fn who_waits(auditor: &Auditor, entry: &Entry) -> Result<Waiters, AllocError>
    ensures waits { IfOk result (λ waiters.
        IsStep auditor.now.config auditor.now.history entry.now.call entry.now.reply
        → AreWaiters auditor.now.config auditor.now.history entry.now.reply waiters) }
    ensures memory { OnErr result
        (MayLackMemory auditor.now.config auditor.now.history entry.now.call) }
{
    let under = auditor.who_waits(entry, Standing::UnderReservation)?;
    let held = auditor.who_waits(entry, Standing::AtCeiling)?;
    Ok(Waiters { under, held })
}

// Counts the life of this SID that goes on, where there is one.
fn count_at(counts: &mut [u64], lives: &[LifeTally], places: &[usize], sid: u16)
    requires live { AreLive places.now lives.now }
    requires long { length counts.old ≡ length lives.now }
    requires few { (k n : ℕ) → k < length counts.old → slice_index_or counts.old k n < 2 ^ 63 }
    ensures { HasCounted (sid ∷ []) lives.now counts.old counts.new }
{
    let place = place_under(places, sid);
    if place < lives.len() && lives[place].goes_on_as(sid) {
        counts[place] += 1;
    }
}

// Counts the lives of these SIDs that go on.
fn count_each(counts: &mut [u64], lives: &[LifeTally], places: &[usize], sids: &[u16])
    requires live { AreLive places.now lives.now }
    requires long { length counts.old ≡ length lives.now }
    requires few { (k n : ℕ) → k < length counts.old
        → slice_index_or counts.old k n + length sids.now < 2 ^ 63 }
    ensures { HasCounted sids.now lives.now counts.old counts.new }
{
    for i in 0..sids.len() {
        count_at(counts, lives, places, sids[i]);
    }
}

// Takes memory for the count of a life that an entry begins. What is counted stays.
fn reserve_count(counts: &mut Vec<u64>, entry: &Entry) -> Result<(), AllocError>
    ensures room { OnOk result
        (IsOpening entry.now.call entry.now.reply → vec_len counts.new < vec_capacity counts.new) }
    ensures same { counts.new.items ≡ counts.old.items }
    ensures err { OnErr result (AddsToReport entry.now.call entry.now.reply) }
{
    match opening_of(entry) {
        Some(_) => counts.reserve(1),
        None => Ok(()),
    }
}

// Counts anew from here on.
pub(crate) fn renew_counts(counts: &mut [u64])
    ensures len { length counts.new ≡ length counts.old }
    ensures none { (k n : ℕ) → k < length counts.new → slice_index_or counts.new k n ≡ 0 }
{
    counts.fill(0);
}

// Counts an entry that follows the history of these lives, where the flows of these SIDs wait and stand so where its
// MAP starts. A life that the entry begins is not counted yet.
fn count_waits(
    counts: &mut Vec<u64>,
    lives: &[LifeTally],
    places: &[usize],
    sids: &[u16],
    entry: &Entry,
)
    requires room { IsOpening entry.now.call entry.now.reply → vec_len counts.old < vec_capacity counts.old }
    requires live { AreLive places.now lives.now }
    requires may { (s : Standing) × (c : Config) × (passed : ℕ) × (h : List Recorded)
        × MayCountWaits s c passed h lives.now counts.old.items sids.now entry.now }
    ensures { (s : Standing) (c : Config) (passed : ℕ) (h : List Recorded)
        → MayCountWaits s c passed h lives.now counts.old.items sids.now entry.now
        → AreWaits s c passed (h ++ entry.now ∷ []) counts.new.items }
{
    count_each(counts, lives, places, sids);
    if opening_of(entry).is_some() {
        counts.push_reserved(0);
    }
}
