//! The MAP of a frame in which nobody sends, since a new UCD settles.

ghost use Rattle.std.specs.Prelude.{◌≡◌, ◌≤◌, ◌^◌, List, IfOk};
ghost use Rattle.std.specs.List.{AllByRecursion};
ghost use Rattle.map_codec.specs.WireMap.{IsWellFormed};
ghost use Rattle.flow_book.specs.Choice.{HasStartedBy};
ghost use Rattle.periodic.specs.declared.placement.Spot.{Spot};
ghost use Rattle.sched_calls.specs.declared.frame_map.FrameMap.{FrameMap};
ghost use Rattle.sched_calls.specs.declared.opportunity.Opportunity.{Opportunity};
ghost use Rattle.map_build.specs.Plan.{demand_at, settling};
ghost use Rattle.map_build.specs.FrameMap.{IsLawfulMap, IsLawfulFrame};
ghost use Rattle.map_build.specs.Spots.{AreOfChannel};

use crate::draft::Draft;
use crate::frame::PlannedFrame;
use flow_book::Book;
use sched_calls::Header;
use std::alloc::{AllocError, Global};

/// The lawful MAP of the frame that starts there, where nobody sends in it, and what it changes: no flow has a grant
/// more, and no opportunity is met. The minislot `progress` is the one before which all receivers have handed in what
/// they heard, and the book's grants start before the frame.
pub fn plan_settling(
    alloc: Global,
    book: &mut Book,
    header: Header,
    start: u64,
    progress: u64,
) -> Result<PlannedFrame, AllocError>
    requires started { AllByRecursion (HasStartedBy start) book.old.flows }
    requires bounded { start ≤ 2 ^ 61 }

    ensures lawful { IfOk result (λ p. (spots : List Spot) (waiting : List Opportunity)
        → IsLawfulFrame book.old.config (settling (demand_at book.old.flows spots waiting start)) header progress p) }
    ensures only { IfOk result (λ p. (spots : List Spot) (waiting : List Opportunity) (n : FrameMap)
        → IsLawfulMap book.old.config (settling (demand_at book.old.flows spots waiting start)) header progress n
        → n ≡ p.map) }
    ensures encodable { AreOfChannel book.old.flows → IfOk result (λ p. IsWellFormed p.map.wire) }
    ensures config { IfOk result (λ p. p.overlay.config ≡ book.old.config) }
    ensures same { book.new ≡ book.old }
{
    let overlay = book.lend()?;
    let mut draft = Draft::quiet(alloc, overlay, start)?;
    let ack = draft.put_end(book, progress)?;
    let met = draft.met;
    let (map, overlay) = draft.into_map(header, ack);
    Ok(PlannedFrame { map, overlay, met })
}
