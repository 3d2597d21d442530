//! How many minislots in a row a frame has free.

ghost use Rattle.std.specs.Prelude.{◌≡◌, ◌+◌, ◌<◌, ◌^◌, List, if◌then◌else◌};
ghost use Rattle.sched_calls.specs.declared.reply.Entry.{Entry};
ghost use Rattle.map_drawing.specs.Allocation.{allocations_of};
ghost use Rattle.frame_picture.specs.Frames.{is_unsolicited_after, TellsUnsolicited};
ghost use Rattle.sched_report.specs.Uses.{AreOfFrame};
ghost use Rattle.sched_report.specs.Gaps.{is_free, is_free_in, longest_run};

use crate::slots::Use;
use frame_picture::Flows;
use map_codec::Element;
use map_drawing::{allocation_at, front_len};
use sched_history::{Met, meets_at};

// The free minislots in a row up to the end of an allocation of this use, with so many before it.
fn run_with(kind: Use, run: u64, length: u16) -> u64
    requires { run < 2 ^ 16 }
    ensures { result ≡ (if is_free kind then run + length else 0) }
{
    if kind.is_free() {
        run + u64::from(length)
    } else {
        0
    }
}

// The most free minislots in a row of the elements of a frame, which meets these opportunities, where it is told which
// flows are unsolicited.
pub(crate) fn largest_gap(flows: &Flows, met: &[Met], elements: &[Element]) -> u64
    requires { AreOfFrame elements.now }
    ensures { (h : List Entry) → TellsUnsolicited flows.now h
        → result ≡ longest_run (is_free_in met.now (is_unsolicited_after h)) (allocations_of elements.now) }
{
    let mut longest = 0u64;
    let mut run = 0u64;
    for i in 0..front_len(elements) {
        let allocation = allocation_at(elements, i);
        let unsolicited = flows[usize::from(allocation.sid)];
        let kind = Use::of(allocation, meets_at(met, allocation.offset), unsolicited);
        run = run_with(kind, run, allocation.length);
        longest = longest.max(run);
    }
    longest
}
