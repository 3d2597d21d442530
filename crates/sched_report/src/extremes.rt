//! What is least or greatest among the MAPs of entries of a history, and how many Reserves lapsed.

ghost use Rattle.std.specs.Prelude.{◌≡◌, ◌∷◌, ◌++◌, [], ◌-◌, List, ℕ, ◌<◌, length, max, Some, slice_index};
ghost use Rattle.minislots.specs.declared.config.Config.{Config};
ghost use Rattle.sched_calls.specs.declared.reply.Entry.{Entry as Recorded};
ghost use Rattle.map_drawing.specs.Allocation.{allocations_of};
ghost use Rattle.frame_picture.specs.Frames.{is_unsolicited_after, TellsUnsolicited};
ghost use Rattle.sched_report.specs.Uses.{AreOfFrame};
ghost use Rattle.sched_report.specs.Gaps.{is_free_in, longest_run};
ghost use Rattle.sched_report.specs.Extremes.{clock_of, lesser_with, most_receivers, AreExtremes, IsWatched};

use crate::gaps::largest_gap;
use crate::lags::{RECEIVERS, raise_lags};
use frame_picture::Flows;
use map_build::FrameMap;
use sched_history::{Call, Entry, Met, Reply};

/// What is least or greatest among the MAPs of entries of a history, and how many Reserves lapsed.
#[derive(Clone, Copy)]
pub struct Extremes {
    /// The most elements of a MAP, with its Null and the pending grants behind it, and 0 where there is none.
    pub elements: u64,
    /// The least margin of a build: how many minislots its clock was before the start of its MAP.
    pub margin: Option<u64>,
    /// The least, over the frames, of the most minislots in a row that a frame has free: for data, or for nobody.
    pub gap: Option<u64>,
    /// For each receiver the most minislots by which it had not handed in what it heard where a MAP starts, by the
    /// entries before it, and 0 where there is none. Those that the configuration does not have say nothing.
    pub lags: [u64; RECEIVERS],
    /// How many Reserves lapsed.
    pub lapsed: u64,
}

// The lesser of a number and one that there may be.
fn lesser(one: u64, other: Option<u64>) -> u64
    ensures { result ≡ lesser_with one other }
{
    match other {
        Some(number) if number < one => number,
        _ => one,
    }
}

// The clock of a build.
fn clock_of(call: Call) -> u64
    ensures { result ≡ clock_of call }
{
    match call {
        Call::Build { now } => now,
        _ => 0,
    }
}

impl Extremes {
    // Those of no entry.
    pub(crate) fn none() -> Extremes
        ensures { (c : Config) (before : List Recorded) → AreExtremes c before [] result }
    {
        Extremes {
            elements: 0,
            margin: None,
            gap: None,
            lags: [0; RECEIVERS],
            lapsed: 0,
        }
    }

    // Counts an entry that follows those counted, whose MAP meets these opportunities, where the receivers have this
    // progress before it, and so many Reserves are open before and after it.
    pub(crate) fn add(
        &mut self,
        flows: &Flows,
        met: &[Met],
        progress: &[u64; RECEIVERS],
        reserves: u64,
        left: u64,
        entry: &Entry,
    )
        requires { (c : Config) × (before : List Recorded) × (es : List Recorded)
            × IsWatched c before es self.old flows.now met.now progress.now reserves left entry.now }
        ensures { (c : Config) (before es : List Recorded)
            → IsWatched c before es self.old flows.now met.now progress.now reserves left entry.now
            → AreExtremes c before (es ++ entry.now ∷ []) self.new }
    {
        if let Reply::Built(map) = &entry.reply {
            self.lapsed += reserves - met.len() as u64 - left;
            self.add_map(flows, met, progress, entry.call, map);
        }
    }

    // Counts the MAP of a call.
    fn add_map(
        &mut self,
        flows: &Flows,
        met: &[Met],
        progress: &[u64; RECEIVERS],
        call: Call,
        map: &FrameMap,
    )
        requires { AreOfFrame map.now.wire.elements }
        ensures elements { self.new.elements ≡ max self.old.elements (length map.now.wire.elements) }
        ensures margin { self.new.margin
            ≡ Some (lesser_with (map.now.start - clock_of call) self.old.margin) }
        ensures gap { (h : List Recorded) → TellsUnsolicited flows.now h → self.new.gap ≡ Some (lesser_with
            (longest_run (is_free_in met.now (is_unsolicited_after h)) (allocations_of map.now.wire.elements))
            self.old.gap) }
        ensures places { length self.new.lags ≡ length self.old.lags }
        ensures lags { (receiver : ℕ) → receiver < most_receivers → slice_index self.new.lags receiver
            ≡ max (slice_index self.old.lags receiver) (map.now.start - slice_index progress.now receiver) }
        ensures lapsed { self.new.lapsed ≡ self.old.lapsed }
    {
        let elements = map.wire.elements.as_slice();
        self.elements = self.elements.max(elements.len() as u64);
        let margin = map.start.saturating_sub(clock_of(call));
        self.margin = Some(lesser(margin, self.margin));
        let gap = largest_gap(flows, met, elements);
        self.gap = Some(lesser(gap, self.gap));
        raise_lags(&mut self.lags, map.start, progress);
    }
}
