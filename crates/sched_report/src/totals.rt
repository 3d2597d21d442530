//! The numbers of entries of a history.

ghost use Rattle.std.specs.Prelude.{◌≡◌, ◌+◌, ◌^◌, ◌<◌, ◌≤◌, ◌∷◌, ◌++◌, [], List, if◌then◌else◌};
ghost use Rattle.sched_calls.specs.declared.reply.Entry.{Entry as Recorded};
ghost use Rattle.map_drawing.specs.Allocation.{allocations_of};
ghost use Rattle.frame_picture.specs.Frames.{is_unsolicited_after, TellsUnsolicited};
ghost use Rattle.sched_report.specs.Uses.{slots_among, all_slots, AreOfFrame};
ghost use Rattle.sched_report.specs.Totals.{is_replacement, with_frame, AreTotals};
ghost use Rattle.sched_report.specs.Counted.{IsCounted};

use crate::calls::Calls;
use crate::slots::Slots;
use frame_picture::Flows;
use map_build::FrameMap;
use minislots::Checked;
use sched_history::{Call, Entry, Met, Reply};

/// The numbers of entries of a history.
#[derive(Clone, Copy)]
pub struct Totals {
    /// How many MAPs were built.
    pub frames: u64,
    /// The minislot at which the first of their frames starts, where there is one.
    pub from: Option<u64>,
    /// The minislot at which the last of them ends.
    pub to: Option<u64>,
    /// How often frames were left out.
    pub skips: u64,
    /// How many requests were accepted that supersede those before.
    pub replaces: u64,
    /// The calls by their kind.
    pub calls: Calls,
    /// The minislots of the frames by their use.
    pub slots: Slots,
    /// Whether idles are open to requests.
    pub opens: bool,
}

impl Totals {
    // Those of no entry under a configuration.
    pub(crate) fn none(config: &Checked) -> Totals
        ensures { (before : List Recorded) → AreTotals config.now before [] result }
    {
        Totals {
            frames: 0,
            from: None,
            to: None,
            skips: 0,
            replaces: 0,
            calls: Calls::none(),
            slots: Slots::none(),
            opens: config.open_idle() == 1,
        }
    }

    // Counts an entry that follows those counted, whose MAP meets these opportunities.
    pub(crate) fn add(&mut self, config: &Checked, flows: &Flows, met: &[Met], entry: &Entry)
        requires { (before : List Recorded) × (es : List Recorded)
            × IsCounted config.now before es self.old flows.now met.now entry.now }
        ensures { (before es : List Recorded) → IsCounted config.now before es self.old flows.now met.now entry.now
            → AreTotals config.now before (es ++ entry.now ∷ []) self.new }
    {
        let frame = config.frame();
        self.calls.add(entry);
        self.replaces += replacements_in(entry);
        match &entry.reply {
            Reply::Built(map) => self.add_frame(frame, flows, met, map),
            Reply::Skipped(_) => self.skips += 1,
            _ => {}
        }
    }

    // Counts the frame of a MAP, of so many minislots, which meets these opportunities.
    fn add_frame(&mut self, frame: u32, flows: &Flows, met: &[Met], map: &FrameMap)
        requires frames { self.old.frames < 2 ^ 44 }
        requires start { map.now.start < 2 ^ 62 }
        requires slots { all_slots self.old.slots < 2 ^ 60 }
        requires elements { AreOfFrame map.now.wire.elements }
        ensures value { (h : List Recorded) → TellsUnsolicited flows.now h
            → self.new ≡ with_frame frame self.old map.now
            (slots_among met.now (is_unsolicited_after h) (allocations_of map.now.wire.elements)) }
        ensures bounded { all_slots self.new.slots ≤ all_slots self.old.slots + 2 ^ 14 }
    {
        let slots = Slots::of_frame(flows, met, map.wire.elements.as_slice());
        self.frames += 1;
        self.from = self.from.or(Some(map.start));
        self.to = Some(map.start + u64::from(frame));
        self.slots = self.slots.and(slots);
    }
}

// How many requests that supersede those before an entry is: one where it is accepted, or none.
fn replacements_in(entry: &Entry) -> u64
    ensures { result ≡ (if is_replacement entry.now.call entry.now.reply then 1 else 0) }
{
    match (entry.call, &entry.reply) {
        (Call::Replace { .. }, Reply::Taken) => 1,
        _ => 0,
    }
}
