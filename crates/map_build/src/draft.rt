//! The MAP of one frame while it is made.

ghost use Rattle.std.specs.Prelude.{◌≡◌, ◌<◌, ◌≤◌, ◌+◌, ◌^◌, List, [], IfOk, OnOk};
ghost use Rattle.std.specs.List.{AllByRecursion};
ghost use Rattle.map_codec.specs.WireMap.{FitsHeader};
ghost use Rattle.flow_book.specs.Choice.{HasStartedBy};
ghost use Rattle.flow_book.specs.Shown.{ack_of};
ghost use Rattle.periodic.specs.declared.placement.Spot.{Spot};
ghost use Rattle.map_build.specs.declared.TheConstants.{MAX_WAITING};
ghost use Rattle.sched_calls.specs.declared.opportunity.Opportunity.{Opportunity};
ghost use Rattle.map_build.specs.Plan.{demand_at};
ghost use Rattle.map_build.specs.Purpose.{HasUsage};
ghost use Rattle.map_build.specs.UsageCodes.{long_iuc};
ghost use Rattle.map_build.specs.FrameMap.{map_with};
ghost use Rattle.map_build.specs.Spots.{AreInFrame};
ghost use Rattle.map_build.specs.Draft.{Puts, PutsAllocation, PutsPending, Ends};
ghost use Rattle.map_build.specs.Walk.{HasPlan};
ghost use Rattle.map_build.specs.Begun.{IsBegun, IsQuiet};

use crate::MAX_WAITING;
use crate::purpose::{Allocation, BROADCAST, Chosen, NOBODY};
use crate::usage_codes::long_iuc;
use flow_book::{Book, Overlay};
use map_codec::{Element, Elements, MAX_ELEMENTS, WireMap, iuc};
use minislots::{Checked, wire};
use sched_calls::{ByteCounts, FrameMap, Header};
use std::alloc::{AllocError, Global};

// The elements that a MAP has room for at first: they take no more than 1,024 bytes, which an allocator finds soonest.
const FEW_ELEMENTS: usize = 170;

/// A MAP while it is made.
#[derive(Drop)]
pub(crate) struct Draft {
    /// The flows, with the data grants of the MAP so far.
    pub(crate) overlay: Overlay,
    /// The minislot at which the frame starts.
    pub(crate) start: u64,
    pub(crate) elements: Vec<Element>,
    /// The bytes of each element.
    pub(crate) bytes: Vec<u32>,
    /// The minislot of the frame up to which it is filled.
    pub(crate) offset: u16,
    /// The data grants so far.
    pub(crate) grants: usize,
    /// Which of the waiting opportunities it has, by their places.
    pub(crate) met: [bool; MAX_WAITING],
}

impl Draft {
    // Nothing yet of the frame that starts there.
    #[inline(always)]
    fn begin(alloc: Global, overlay: Overlay, start: u64) -> Result<Draft, AllocError>
        requires none { overlay.before ≡ overlay.flows }
        requires started { AllByRecursion (HasStartedBy start) overlay.flows }
        requires bounded { start ≤ 2 ^ 61 }
        ensures { IfOk result (IsBegun overlay.config overlay.flows start) }
    {
        Ok(Draft {
            overlay,
            start,
            elements: Vec::with_capacity(alloc, FEW_ELEMENTS)?,
            bytes: Vec::with_capacity(alloc, usize::from(MAX_ELEMENTS))?,
            offset: 0,
            grants: 0,
            met: [false; MAX_WAITING],
        })
    }

    /// The idle of a frame in which nobody sends, alone.
    pub(crate) fn quiet(alloc: Global, overlay: Overlay, start: u64) -> Result<Draft, AllocError>
        requires none { overlay.before ≡ overlay.flows }
        requires started { AllByRecursion (HasStartedBy start) overlay.flows }
        requires bounded { start ≤ 2 ^ 61 }
        ensures { IfOk result (IsQuiet overlay.config overlay.flows start) }
    {
        let mut draft = Draft::begin(alloc, overlay, start)?;
        let iuc = long_iuc(draft.overlay.config());
        let frame = draft.overlay.config().frame() as u16;
        draft.put_slots(NOBODY, iuc, frame, 0)?;
        Ok(draft)
    }

    /// The request region alone.
    pub(crate) fn open(alloc: Global, overlay: Overlay, start: u64) -> Result<Draft, AllocError>
        requires none { overlay.before ≡ overlay.flows }
        requires started { AllByRecursion (HasStartedBy start) overlay.flows }
        requires bounded { start ≤ 2 ^ 61 }
        ensures { IfOk result (λ d. (spots : List Spot) (waiting : List Opportunity)
            → AreInFrame overlay.config spots
            → HasPlan overlay.config (demand_at overlay.flows spots waiting start) [] d) }
    {
        let mut draft = Draft::begin(alloc, overlay, start)?;
        let requests = draft.overlay.config().req_slots() as u16;
        draft.put_slots(BROADCAST, iuc::REQUEST, requests, 0)?;
        Ok(draft)
    }

    /// The element of an allocation more, which begins at the offset that is reached.
    pub(crate) fn put_allocation(&mut self, chosen: Chosen) -> Result<(), AllocError>
        requires fits { self.old.offset + chosen.allocation.slots < 2 ^ 16 }
        requires usage { HasUsage self.old.overlay.config chosen.is_short chosen.allocation.purpose }
        ensures { OnOk result (PutsAllocation chosen.allocation self.old self.new) }
    {
        let Allocation { slots, purpose, .. } = chosen.allocation;
        let kind = purpose.kind(slots, self.overlay.config(), chosen.is_short);
        self.put_slots(kind.sid, kind.iuc, slots, kind.bytes)
    }

    // An element of so many minislots more, at the offset that is reached.
    fn put_slots(&mut self, sid: u16, iuc: u8, slots: u16, bytes: u32) -> Result<(), AllocError>
        requires { self.old.offset + slots < 2 ^ 16 }
        ensures { OnOk result (Puts sid iuc slots bytes self.old self.new) }
    {
        self.put(sid, iuc, bytes)?;
        self.offset += slots;
        Ok(())
    }

    // An element more at the offset that is reached, which stays.
    fn put(&mut self, sid: u16, iuc: u8, bytes: u32) -> Result<(), AllocError>
        ensures { OnOk result (Puts sid iuc 0 bytes self.old self.new) }
    {
        let offset = self.offset;
        self.elements.push(Element { sid, iuc, offset })?;
        self.bytes.push(bytes)?;
        Ok(())
    }

    /// The Null, and behind it the pending grants. The answer is the MAP's acknowledge time, where all receivers have
    /// handed in what they heard before the progress. The book is the one that the draft was opened for.
    pub(crate) fn put_end(&mut self, book: &Book, progress: u64) -> Result<u64, AllocError>
        requires full { self.old.offset ≡ self.old.overlay.config.frame }
        requires before { self.old.overlay.before ≡ book.now.flows }
        ensures ends { OnOk result (Ends self.old self.new) }
        ensures ack { IfOk result (λ ack. ack
            ≡ ack_of self.old.overlay.config.pending progress self.old.overlay.flows) }
    {
        let shown = book.show(&mut self.overlay, progress)?;
        self.put(NOBODY, iuc::NULL, 0)?;
        self.put_pending(&shown.pending)?;
        Ok(shown.ack)
    }

    // A pending grant to each of the flows with these SIDs.
    fn put_pending(&mut self, pending: &[u16]) -> Result<(), AllocError>
        requires { self.old.offset ≡ self.old.overlay.config.frame }
        ensures { OnOk result (PutsPending pending.now self.old self.new) }
    {
        let iuc = long_iuc(self.overlay.config());
        for sid in pending {
            self.put(*sid, iuc, 0)?;
        }
        Ok(())
    }

    /// The MAP with the elements of the draft, and its overlay.
    pub(crate) fn into_map(self, header: Header, ack: u64) -> (FrameMap, Overlay)
        ensures made { result.0 ≡ map_with self.overlay.config header self.start ack
            self.elements.items self.bytes.items }
        ensures fits { FitsHeader result.0.wire }
        ensures overlay { result.1 ≡ self.overlay }
    {
        let Draft {
            overlay,
            start,
            elements,
            bytes,
            ..
        } = self;
        let map = FrameMap {
            start,
            ack,
            wire: wire_map(overlay.config(), header, start, ack, elements),
            bytes: ByteCounts::from_vec(bytes),
        };
        (map, overlay)
    }
}

// The fields of a MAP with these elements, of a frame that starts there.
fn wire_map(
    config: &Checked,
    header: Header,
    start: u64,
    ack: u64,
    elements: Vec<Element>,
) -> WireMap
    ensures made { result ≡ (map_with config.now header start ack elements.items []).wire }
    ensures fits { FitsHeader result }
{
    WireMap {
        channel: config.channel(),
        ucd_count: header.ucd_count,
        reserved: 0,
        alloc_start: wire(start),
        ack: wire(ack),
        ranging_start: header.ranging_start,
        ranging_end: header.ranging_end,
        data_start: header.data_start,
        data_end: header.data_end,
        elements: Elements::from_vec(elements),
    }
}
