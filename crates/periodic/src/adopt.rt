//! Whether a placement that is handed in is lawful beside those that stand.

ghost use Rattle.std.specs.Prelude.{◌≡◌, ◌<◌, ◌+◌, ◌^◌, List, length, true, false, None};
ghost use Rattle.sched_calls.specs.FlowSpec.{is_periodic, first_fault};
ghost use Rattle.periodic.specs.Placement.{Placed, IsPlacement};
ghost use Rattle.periodic.specs.Rows.{AreRowsOf};
ghost use Rattle.periodic.specs.Counts.{AreCounts};
ghost use Rattle.periodic.specs.Search.{CanBeSought, IsStartOf, AreStartsIn, AreStarts};
ghost use Rattle.periodic.specs.Table.{AreSound};

use crate::bits::Bits;
use crate::counts::Counts;
use crate::search::{Wanted, wanted_of};
use minislots::Checked;
use sched_calls::{FlowSpec, Placement};

// Whether this start is lawful in a frame of which these minislots are taken, at the nominal time of this offset.
fn is_start(bits: &Bits, config: &Checked, wanted: Wanted, offset: u64, start: u64) -> bool
    requires sought { CanBeSought config.now wanted }
    requires start { start < 2 ^ 16 }
    ensures lawful { result ≡ true → IsStartOf config.now wanted offset bits.now.words start }
    ensures unlawful { result ≡ false
        → IsStartOf config.now wanted offset bits.now.words start → ⊥ }
{
    let frame = u64::from(config.frame());
    if start < offset || start - offset > wanted.jitter {
        return false;
    }
    if start + wanted.slots > frame {
        return false;
    }
    let taken = bits.next_taken(start);
    if taken < start + wanted.slots {
        return false;
    }
    true
}

// Whether these are lawful starts in such a frame, one after the other; they are as many as are wanted.
fn are_starts_in(bits: &Bits, config: &Checked, wanted: Wanted, offset: u64, starts: &[u16]) -> bool
    requires sought { CanBeSought config.now wanted }
    requires count { length starts.now ≡ wanted.grants }
    ensures lawful { result ≡ true
        → AreStartsIn config.now wanted offset bits.now.words starts.now }
    ensures unlawful { result ≡ false
        → AreStartsIn config.now wanted offset bits.now.words starts.now → ⊥ }
{
    let mut from = offset;
    for start in starts {
        let start = u64::from(*start);
        if start < from {
            return false;
        }
        if !is_start(bits, config, wanted, offset, start) {
            return false;
        }
        from = start + wanted.slots;
    }
    true
}

// Whether these are lawful starts at this phase and offset, in each nominal frame of the cycle.
fn are_starts(
    rows: &[Bits],
    config: &Checked,
    wanted: Wanted,
    phase: u64,
    offset: u64,
    starts: &[u16],
) -> bool
    requires long { length rows.now ≡ config.now.cycle }
    requires sought { CanBeSought config.now wanted }
    requires phase { phase < wanted.interval }
    ensures lawful { result ≡ true → AreStarts config.now rows.now wanted phase offset starts.now }
    ensures unlawful { result ≡ false
        → AreStarts config.now rows.now wanted phase offset starts.now → ⊥ }
{
    let frames = u64::from(config.cycle()) / wanted.interval;
    let count = frames as usize * wanted.grants;
    if starts.len() != count {
        return false;
    }
    for index in 0..frames {
        let row = &rows[(phase + index * wanted.interval) as usize];
        let first = index as usize * wanted.grants;
        let group = &starts[first..first + wanted.grants];
        if !are_starts_in(row, config, wanted, offset, group) {
            return false;
        }
    }
    true
}

// Whether the placement is lawful for this flow beside those whose minislots these rows have, and whose starts these
// counts, its reference being its first nominal time at or after `next`.
pub(crate) fn is_lawful(
    rows: &[Bits],
    counts: &Counts,
    config: &Checked,
    spec: &FlowSpec,
    next: u64,
    placement: &Placement,
) -> bool
    requires long { length rows.now ≡ config.now.cycle }
    requires periodic { is_periodic spec.now ≡ true }
    requires no_fault { first_fault config.now spec.now ≡ None }
    ensures lawful { (placed : List Placed)
        → AreSound config.now placed → AreRowsOf config.now placed rows.now
        → AreCounts config.now placed counts.now.starts
        → result ≡ true → IsPlacement config.now placed spec.now next placement.now }
    ensures unlawful { (placed : List Placed)
        → AreSound config.now placed → AreRowsOf config.now placed rows.now
        → AreCounts config.now placed counts.now.starts
        → result ≡ false → IsPlacement config.now placed spec.now next placement.now → ⊥ }
{
    let frame = u64::from(config.frame());
    let wanted = wanted_of(config, spec);
    let phase = placement.reference / frame % wanted.interval;
    let offset = placement.reference % frame;
    if placement.reference < next || placement.reference - next >= wanted.interval * frame {
        return false;
    }
    if !counts.has_room(config, wanted, phase) {
        return false;
    }
    offset >= u64::from(config.req_slots())
        && are_starts(
            rows,
            config,
            wanted,
            phase,
            offset,
            placement.starts.as_slice(),
        )
}
