//! What is counted of the entries of a history.

ghost use Rattle.std.specs.Prelude.{◌≡◌, ◌++◌, ◌∷◌, [], List, length, IfOk, OnOk, OnErr};
ghost use Rattle.sched_calls.specs.declared.reply.Entry.{Entry as Recorded};
ghost use Rattle.sched_report.specs.Reported.{IsTally, HasRoomToCount, MayCount};
ghost use Rattle.sched_report.specs.ToldLives.{AddsToReport};

use crate::calls::{REFUSALS, count_refusal};
use crate::extremes::Extremes;
use crate::life::LifeTally;
use crate::lives::{follow, renew_each, reserve_for};
use crate::outlook::Outlook;
use crate::refused_sids::count_refused_sid;
use crate::totals::Totals;
use crate::waits::{Waited, renew_counts};
use frame_picture::{Flows, no_flows, note};
use minislots::Checked;
use sched_history::Entry;
use std::alloc::{AllocError, Global};

// How many SIDs there are.
const SIDS: usize = 65536;

// What is counted of the entries of a history.
#[derive(Drop)]
pub(crate) struct Tally {
    alloc: Global,
    pub(crate) config: Checked,
    // How many entries came before what is told.
    pub(crate) passed: u64,
    // Where the next frame starts.
    pub(crate) next: u64,
    // Which flows are unsolicited after the entries: on the heap, for the stack's sake.
    flows: Box<Flows>,
    pub(crate) totals: Totals,
    pub(crate) extremes: Extremes,
    pub(crate) refused: [u64; REFUSALS],
    // How many refused calls name each SID.
    pub(crate) refused_sids: Vec<u64>,
    pub(crate) lives: Vec<LifeTally>,
    // Where the life that goes on under each SID stands, which alone an entry of the SID is shown to.
    places: Vec<usize>,
    // How often each life waited for bytes, at the places of the lives.
    pub(crate) waited: Waited,
}

impl Tally {
    // That of no entry under a configuration.
    #[inline(never)]
    pub(crate) fn open(alloc: Global, config: Checked) -> Result<Tally, AllocError>
        ensures config { IfOk result (λ t. t.config ≡ config) }
        ensures passed { IfOk result (λ t. t.passed ≡ 0) }
        ensures none { IfOk result (IsTally []) }
    {
        Ok(Tally {
            alloc,
            config,
            passed: 0,
            next: config.start(),
            flows: Box::new(alloc, no_flows())?,
            totals: Totals::none(&config),
            extremes: Extremes::none(),
            refused: [0; REFUSALS],
            refused_sids: vec![in alloc; 0; SIDS]?,
            lives: Vec::new(alloc),
            places: vec![in alloc; 0; SIDS]?,
            waited: Waited::none(alloc),
        })
    }

    // Takes memory for what an entry adds. What is counted stays.
    pub(crate) fn reserve(&mut self, entry: &Entry) -> Result<(), AllocError>
        requires { (h : List Recorded) × IsTally h self.old }
        ensures ok { OnOk result (HasRoomToCount self.new entry.now) }
        ensures err { OnErr result (AddsToReport entry.now.call entry.now.reply) }

        ensures same { (h : List Recorded) → IsTally h self.old → IsTally h self.new }
        ensures config { self.new.config ≡ self.old.config }
        ensures passed { self.new.passed ≡ self.old.passed }
    {
        reserve_for(&mut self.lives, &self.places, &self.config, entry)?;
        self.waited.reserve(entry)
    }

    // Counts an entry of which the entries before tell this, and after which so many Reserves are open.
    pub(crate) fn count(&mut self, outlook: &Outlook, left: u64, entry: &Entry)
        requires may { (h : List Recorded) × MayCount h self.old outlook.now left entry.now }
        requires room { HasRoomToCount self.old entry.now }
        ensures counted { (h : List Recorded) → MayCount h self.old outlook.now left entry.now
            → IsTally (h ++ entry.now ∷ []) self.new }
        ensures config { self.new.config ≡ self.old.config }
        ensures passed { self.new.passed ≡ self.old.passed }
    {
        let (met, heard) = (outlook.met.as_slice(), &outlook.heard);
        self.totals.add(&self.config, &self.flows, met, entry);
        self.extremes
            .add(&self.flows, met, heard, outlook.reserves, left, entry);
        note(&mut self.flows, entry);
        count_refusal(&mut self.refused, entry);
        count_refused_sid(&mut self.refused_sids, entry);
        self.waited
            .count(&self.lives, &self.places, &outlook.waiters, entry);
        self.next = follow(
            &mut self.lives,
            &mut self.places,
            &self.config,
            self.alloc,
            self.next,
            met,
            entry,
        );
    }

    // Counts anew from here on, behind so many entries, with the flows that live.
    pub(crate) fn renew(&mut self, passed: u64)
        requires { (h : List Recorded) × IsTally h self.old }
        ensures renewed { (h : List Recorded) → IsTally h self.old → passed ≡ length h
            → IsTally h self.new }
        ensures config { self.new.config ≡ self.old.config }
        ensures passed { self.new.passed ≡ passed }
    {
        self.passed = passed;
        self.totals = Totals::none(&self.config);
        self.extremes = Extremes::none();
        self.refused = [0; REFUSALS];
        renew_counts(&mut self.refused_sids);
        renew_each(&mut self.lives, self.next);
        self.waited.renew();
    }
}
