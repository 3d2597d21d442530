//! What the minislots of frames are for.

ghost use Rattle.std.specs.Prelude.{◌≡◌, ◌<◌, ◌≤◌, ◌+◌, ◌^◌, [], List};
ghost use Rattle.sched_calls.specs.declared.reply.Entry.{Entry};
ghost use Rattle.map_drawing.specs.Allocation.{allocations_of, frame_slots};
ghost use Rattle.frame_picture.specs.Frames.{is_unsolicited_after, TellsUnsolicited};
ghost use Rattle.sched_report.specs.Uses.{is_unsolicited, use_of, slots_among, all_slots, with_slots};
ghost use Rattle.sched_report.specs.Uses.{sum_of, AreOfFrame};
ghost use Rattle.sched_report.specs.Gaps.{is_free};

use frame_picture::{Flows, is_open_idle};
use map_codec::{Element, iuc};
use map_drawing::{ALL_MODEMS, Allocation, allocation_at, front_len};
use sched_history::{Met, meets_at};

/// What minislots of a frame are for.
#[derive(Clone, Copy)]
pub enum Use {
    /// The request region, where all modems may ask.
    Request,
    /// A poll: one modem may ask.
    Poll,
    /// A grant to an unsolicited flow.
    Unsolicited,
    /// An opportunity that a Reserve asked for, of any kind.
    Opportunity,
    /// A data grant, for bytes that were asked.
    Data,
    /// An idle that is open to requests.
    Open,
    /// A grant to no modem.
    Idle,
}

impl Use {
    // What an allocation is for, where an opportunity that is met begins there or not, and the flow that lives under
    // its service identifier is unsolicited or not.
    #[tactic(auto, unfolding(crate::specs::Uses::use_of))]
    pub(crate) fn of(allocation: Allocation, met: bool, unsolicited: bool) -> Use
        ensures { result ≡ use_of allocation met unsolicited }
    {
        if met {
            return Use::Opportunity;
        }
        if is_open_idle(allocation) {
            return Use::Open;
        }
        match allocation.iuc {
            iuc::REQUEST if allocation.sid == ALL_MODEMS => Use::Request,
            iuc::REQUEST => Use::Poll,
            _ if allocation.sid == 0 => Use::Idle,
            _ if unsolicited => Use::Unsolicited,
            _ => Use::Data,
        }
    }

    // Whether they are for an unsolicited flow.
    pub(crate) fn is_unsolicited(self) -> bool
        ensures { result ≡ is_unsolicited self }
    {
        matches!(self, Use::Unsolicited)
    }

    // Whether they are free for what is placed before data: for a data grant, or nobody's.
    pub(crate) fn is_free(self) -> bool
        ensures { result ≡ is_free self }
    {
        matches!(self, Use::Data | Use::Open | Use::Idle)
    }
}

/// How many minislots of frames have each use.
#[derive(Clone, Copy)]
pub struct Slots {
    /// Minislots of data grants, for bytes that were asked.
    pub data_grants: u64,
    /// Minislots of grants to no modem.
    pub idle: u64,
    /// Minislots of idles that are open to requests.
    pub open_idle: u64,
    /// Minislots of opportunities that Reserves asked for.
    pub opportunity: u64,
    /// Minislots of polls.
    pub poll: u64,
    /// Minislots of the request regions.
    pub request: u64,
    /// Minislots of grants to unsolicited flows.
    pub unsolicited: u64,
}

impl Slots {
    // No minislots.
    pub(crate) fn none() -> Slots
        ensures { result ≡ record {
          data_grants = 0;
          idle = 0;
          open_idle = 0;
          opportunity = 0;
          poll = 0;
          request = 0;
          unsolicited = 0;
        } }
    {
        Slots {
            data_grants: 0,
            idle: 0,
            open_idle: 0,
            opportunity: 0,
            poll: 0,
            request: 0,
            unsolicited: 0,
        }
    }

    // The same with so many more of one use.
    fn with(self, kind: Use, length: u64) -> Slots
        requires { all_slots self + length < 2 ^ 63 }
        ensures { result ≡ with_slots self kind length }
    {
        let mut slots = self;
        match kind {
            Use::Request => slots.request += length,
            Use::Poll => slots.poll += length,
            Use::Unsolicited => slots.unsolicited += length,
            Use::Opportunity => slots.opportunity += length,
            Use::Data => slots.data_grants += length,
            Use::Open => slots.open_idle += length,
            Use::Idle => slots.idle += length,
        }
        slots
    }

    // Those of both.
    pub(crate) fn and(self, other: Slots) -> Slots
        requires { all_slots self + all_slots other < 2 ^ 63 }
        ensures { result ≡ sum_of self other }
    {
        Slots {
            data_grants: self.data_grants + other.data_grants,
            idle: self.idle + other.idle,
            open_idle: self.open_idle + other.open_idle,
            opportunity: self.opportunity + other.opportunity,
            poll: self.poll + other.poll,
            request: self.request + other.request,
            unsolicited: self.unsolicited + other.unsolicited,
        }
    }

    // The minislots of the elements of a frame, which meets these opportunities, where it is told which flows are
    // unsolicited.
    pub(crate) fn of_frame(flows: &Flows, met: &[Met], elements: &[Element]) -> Slots
        requires { AreOfFrame elements.now }
        ensures value { (h : List Entry) → TellsUnsolicited flows.now h
            → result ≡ slots_among met.now (is_unsolicited_after h) (allocations_of elements.now) }
        ensures all { all_slots result ≤ frame_slots elements.now }
    {
        let mut slots = Slots::none();
        for i in 0..front_len(elements) {
            let allocation = allocation_at(elements, i);
            let unsolicited = flows[usize::from(allocation.sid)];
            let kind = Use::of(allocation, meets_at(met, allocation.offset), unsolicited);
            slots = slots.with(kind, u64::from(allocation.length));
        }
        slots
    }
}
