//! The MAP of one frame.

ghost use Rattle.std.specs.Prelude.{◌≡◌, ◌≤◌, ◌*◌, ◌^◌, [], IfOk};
ghost use Rattle.std.specs.List.{AllByRecursion};
ghost use Rattle.map_codec.specs.WireMap.{IsWellFormed};
ghost use Rattle.flow_book.specs.Choice.{HasStartedBy};
ghost use Rattle.periodic.specs.Placement.{due_in};
ghost use Rattle.sched_calls.specs.declared.frame_map.FrameMap.{FrameMap};
ghost use Rattle.sched_calls.specs.Header.{header_of};
ghost use Rattle.map_build.specs.Opportunities.{MayWait, HaveElementSids, MeetsFirst};
ghost use Rattle.map_build.specs.Plan.{Demand, demand_at};
ghost use Rattle.map_build.specs.Begun.{IsOverlayOf};
ghost use Rattle.map_build.specs.FrameMap.{IsLawfulMap, IsLawfulFrame};
ghost use Rattle.map_build.specs.Spots.{AreInFrame, AreOfChannel, HaveFlowSids, ArePeriodicOf};

use crate::MAX_WAITING;
use crate::draft::Draft;
use flow_book::{Book, Overlay};
use periodic::{MAX_SPOTS, Spot, Table};
use sched_calls::{FrameMap, Header, Opportunity};
use std::alloc::{AllocError, Global};

/// What stands in an array of spots before one is written.
pub(crate) const NO_SPOT: Spot = Spot {
    sid: 0,
    size: None,
    offset: 0,
    slots: 0,
};

/// A MAP that is planned, and what it changes.
#[derive(Drop)]
pub struct PlannedFrame {
    /// The MAP.
    pub map: FrameMap,
    /// The flows with the data grants of the MAP.
    pub overlay: Overlay,
    /// Which of the opportunities that waited for the MAP it has, by their places.
    pub met: [bool; MAX_WAITING],
}

// The lawful MAP of the frame that starts there, round these spots, and what it changes.
fn plan_around(
    alloc: Global,
    book: &Book,
    overlay: Overlay,
    spots: &[Spot],
    waiting: &[Opportunity],
    header: Header,
    start: u64,
    progress: u64,
) -> Result<PlannedFrame, AllocError>
    requires overlay { IsOverlayOf book.now overlay }
    requires placed { AreInFrame book.now.config spots.now }
    requires waiting { MayWait waiting.now }
    requires started { AllByRecursion (HasStartedBy start) book.now.flows }
    requires bounded { start ≤ 2 ^ 61 }

    ensures lawful { IfOk result (λ p. IsLawfulFrame book.now.config
        (demand_at book.now.flows spots.now waiting.now start) header progress p) }
    ensures only { IfOk result (λ p. (n : FrameMap) → IsLawfulMap book.now.config
        (demand_at book.now.flows spots.now waiting.now start) header progress n → n ≡ p.map) }
    ensures encodable { AreOfChannel book.now.flows → HaveFlowSids spots.now
        → HaveElementSids waiting.now → IfOk result (λ p. IsWellFormed p.map.wire) }
    ensures config { IfOk result (λ p. p.overlay.config ≡ book.now.config) }
{
    let mut draft = Draft::open(alloc, overlay, start)?;
    draft.fill(spots, waiting)?;
    let ack = draft.put_end(book, progress)?;
    let met = draft.met;
    let (map, overlay) = draft.into_map(header, ack);
    Ok(PlannedFrame { map, overlay, met })
}

// The lawful MAP of a frame, and what it changes, by an overlay of the book ([`plan_with_book`]).
fn plan_over(
    alloc: Global,
    book: &Book,
    overlay: Overlay,
    table: &Table,
    frame: u64,
    progress: u64,
    header: Header,
    waiting: &[Opportunity],
) -> Result<PlannedFrame, AllocError>
    requires overlay { IsOverlayOf book.now overlay }
    requires config { table.now.config ≡ book.now.config }
    requires periodic { ArePeriodicOf book.now.flows table.now.placed }
    requires started { AllByRecursion (HasStartedBy (frame * book.now.config.frame))
        book.now.flows }
    requires bounded { frame * book.now.config.frame ≤ 2 ^ 61 }
    requires waiting { MayWait waiting.now }

    ensures lawful { IfOk result (λ p. IsLawfulFrame book.now.config
        (demand_at book.now.flows (due_in book.now.config frame table.now.placed) waiting.now
        (frame * book.now.config.frame)) header progress p) }
    ensures only { IfOk result (λ p. (n : FrameMap) → IsLawfulMap book.now.config
        (demand_at book.now.flows (due_in book.now.config frame table.now.placed) waiting.now
        (frame * book.now.config.frame)) header progress n → n ≡ p.map) }
    ensures first { IfOk result (λ p. MeetsFirst book.now.config
        (due_in book.now.config frame table.now.placed) waiting.now p.met) }
    ensures encodable { AreOfChannel book.now.flows → HaveElementSids waiting.now
        → IfOk result (λ p. IsWellFormed p.map.wire) }
    ensures config { IfOk result (λ p. p.overlay.config ≡ book.now.config) }
{
    let start = frame * u64::from(book.config().frame());
    let mut spots = [NO_SPOT; MAX_SPOTS];
    let count = table.in_frame(frame, &mut spots);
    plan_around(
        alloc,
        book,
        overlay,
        &spots[..count],
        waiting,
        header,
        start,
        progress,
    )
}

/// The lawful MAP of frame number `frame`, which starts at `frame` times the frame's minislots, with
/// the minislot `progress` before which all receivers have handed in what they heard. Book and table are of one
/// channel, the table places the book's periodic flows, and the book's grants start before the frame. No opportunity
/// waits for it, and its header is the configuration's.
pub fn plan_frame(
    alloc: Global,
    book: &Book,
    table: &Table,
    frame: u64,
    progress: u64,
) -> Result<FrameMap, AllocError>
    requires config { table.now.config ≡ book.now.config }
    requires periodic { ArePeriodicOf book.now.flows table.now.placed }
    requires started { AllByRecursion (HasStartedBy (frame * book.now.config.frame))
        book.now.flows }
    requires bounded { frame * book.now.config.frame ≤ 2 ^ 61 }

    ensures lawful { IfOk result (λ m. IsLawfulMap book.now.config (demand_at book.now.flows
        (due_in book.now.config frame table.now.placed) [] (frame * book.now.config.frame))
        (header_of book.now.config) progress m) }
    ensures only { IfOk result (λ m. (n : FrameMap) → IsLawfulMap book.now.config
        (demand_at book.now.flows (due_in book.now.config frame table.now.placed) []
        (frame * book.now.config.frame)) (header_of book.now.config) progress n → n ≡ m) }
    ensures encodable { AreOfChannel book.now.flows → IfOk result (λ m. IsWellFormed m.wire) }
{
    let header = Header::of(book.config());
    let overlay = book.overlay()?;
    let planned = plan_over(alloc, book, overlay, table, frame, progress, header, &[])?;
    let PlannedFrame { map, .. } = planned;
    Ok(map)
}

/// The lawful MAP of frame number `frame`, and what it changes. Beside what [`plan_frame`] takes there is the MAP's
/// header, and the opportunities that wait for the MAP are told in their order: [`MAX_WAITING`](crate::MAX_WAITING) at
/// most.
pub fn plan_with_book(
    alloc: Global,
    book: &mut Book,
    table: &Table,
    frame: u64,
    progress: u64,
    header: Header,
    waiting: &[Opportunity],
) -> Result<PlannedFrame, AllocError>
    requires config { table.now.config ≡ book.old.config }
    requires periodic { ArePeriodicOf book.old.flows table.now.placed }
    requires started { AllByRecursion (HasStartedBy (frame * book.old.config.frame))
        book.old.flows }
    requires bounded { frame * book.old.config.frame ≤ 2 ^ 61 }
    requires waiting { MayWait waiting.now }

    ensures lawful { IfOk result (λ p. IsLawfulFrame book.old.config
        (demand_at book.old.flows (due_in book.old.config frame table.now.placed) waiting.now
        (frame * book.old.config.frame)) header progress p) }
    ensures only { IfOk result (λ p. (n : FrameMap) → IsLawfulMap book.old.config
        (demand_at book.old.flows (due_in book.old.config frame table.now.placed) waiting.now
        (frame * book.old.config.frame)) header progress n → n ≡ p.map) }
    ensures first { IfOk result (λ p. MeetsFirst book.old.config
        (due_in book.old.config frame table.now.placed) waiting.now p.met) }
    ensures encodable { AreOfChannel book.old.flows → HaveElementSids waiting.now
        → IfOk result (λ p. IsWellFormed p.map.wire) }
    ensures config { IfOk result (λ p. p.overlay.config ≡ book.old.config) }
    ensures same { book.new ≡ book.old }
{
    let overlay = book.lend()?;
    plan_over(
        alloc, book, overlay, table, frame, progress, header, waiting,
    )
}
