//! The search for a placement: the least phase, then the least offset, then the least starts in each
//! nominal frame.

ghost use Rattle.std.specs.Prelude.{◌≡◌, ℕ, ◌<◌, ◌≤◌, ◌+◌, ◌*◌, ◌^◌, ◌%◌, List, length, take, true, None};
ghost use Rattle.std.specs.Prelude.{IfSome, IfNone, IfOk, IfErr};
ghost use Rattle.minislots.specs.Config.{IsLawful};
ghost use Rattle.sched_calls.specs.FlowSpec.{is_periodic, first_fault};
ghost use Rattle.periodic.specs.declared.TheConstants.{MAX_STARTS};
ghost use Rattle.periodic.specs.Placement.{Placed, NoPlacement};
ghost use Rattle.periodic.specs.Table.{AreSound};
ghost use Rattle.periodic.specs.Rows.{AreRowsOf, AreBounds};
ghost use Rattle.periodic.specs.Counts.{AreCounts};
ghost use Rattle.periodic.specs.Choice.{IsChosen};
ghost use Rattle.periodic.specs.Search.{CanBeSought, IsWantedOf, IsFreeStart, IsNextStart, AreFirstIn, HasStartsAt};
ghost use Rattle.periodic.specs.Search.{IsNextOffset};
ghost use Rattle.periodic.specs.Search.{HaveStartsAt, AreFirstStarts, NoneBelow, NonePhase, IsFirstAtPhase};
ghost use Rattle.periodic.specs.Search.{IsFirstFound, IsReference, starts_of};
ghost use Rattle.periodic.specs.Fields.{placement_at};

use crate::bits::Bits;
use crate::counts::Counts;
use crate::row::Row;
use crate::spots::{grants, interval, jitter, slots};
use crate::widest::Widest;
use minislots::Checked;
use sched_calls::FlowSpec;

// The most starts of one frame: those of a flow with the most grants.
const MAX_GROUP: usize = 8;

// What is looked for: the frames of an interval, the minislots of the jitter and of a grant or poll, and how many of
// these each nominal frame has.
#[derive(Clone, Copy)]
pub(crate) struct Wanted {
    pub(crate) interval: u64,
    pub(crate) jitter: u64,
    pub(crate) slots: u64,
    pub(crate) grants: usize,
}

// What is looked for with these parameters.
pub(crate) fn wanted_of(config: &Checked, spec: &FlowSpec) -> Wanted
    requires periodic { is_periodic spec.now ≡ true }
    requires no_fault { first_fault config.now spec.now ≡ None }
    ensures value { IsWantedOf config.now spec.now result }
    ensures sought { CanBeSought config.now result }
    ensures most { result.interval ≤ 64 }
    ensures lawful { IsLawful config.now }
{
    Wanted {
        interval: interval(config, spec),
        jitter: jitter(config, spec),
        slots: slots(config, spec),
        grants: grants(config, spec),
    }
}

// Where a placement was found, whose starts stand in a row of the caller's: they are a kilobyte.
#[derive(Clone, Copy)]
pub(crate) struct Found {
    phase: u64,
    offset: u64,
}

// The first start from `from` on with so many free minislots behind it in a frame of this length. A start that
// does not fit goes on behind the minislots that stand in its way.
fn next_start(bits: &Bits, frame: u64, slots: u64, from: u64) -> Option<u64>
    requires frame { frame ≤ 1024 }
    requires not_empty { 0 < slots }
    requires slots { slots ≤ 1024 }
    requires from { from ≤ 1024 }
    ensures found { IfSome result (IsNextStart bits.now.words frame slots from) }
    ensures absent { IfNone result
        ((start : ℕ) → IsFreeStart bits.now.words frame slots from start → ⊥) }
{
    let mut start = bits.next_free(from);
    'starts: while start + slots <= frame {
        let end = bits.next_taken(start);
        if start + slots <= end {
            return Some(start);
        }
        start = bits.next_free(end);
    }
    None
}

// The first starts in a frame within the jitter after this offset, as many as are wanted, or else the next offset that
// may have them.
fn starts_in(
    bits: &Bits,
    config: &Checked,
    wanted: Wanted,
    offset: u64,
) -> Result<[u16; MAX_GROUP], u64>
    requires sought { CanBeSought config.now wanted }
    requires within { offset < config.now.frame }
    ensures found { IfOk result (λ starts.
        AreFirstIn config.now wanted offset bits.now.words (take wanted.grants starts)) }
    ensures blocked { IfErr result
        (IsNextOffset config.now (HasStartsAt config.now wanted bits.now.words) offset) }
{
    let frame = u64::from(config.frame());
    let mut starts = [0; MAX_GROUP];
    let mut from = offset;
    for index in 0..wanted.grants {
        let Some(start) = next_start(bits, frame, wanted.slots, from) else {
            return Err(frame);
        };
        if start - offset > wanted.jitter {
            return Err(start - wanted.jitter);
        }
        starts[index] = start as u16;
        from = start + wanted.slots;
    }
    Ok(starts)
}

// Puts the first starts at this phase and offset into a row, or else gives the next offset that may have starts in all
// frames.
fn starts_at(
    rows: &[Bits],
    config: &Checked,
    wanted: Wanted,
    phase: u64,
    offset: u64,
    row: &mut Row,
) -> Result<(), u64>
    requires long { length rows.now ≡ config.now.cycle }
    requires sought { CanBeSought config.now wanted }
    requires phase { phase < wanted.interval }
    requires offset { offset < config.now.frame }
    ensures found { IfOk result
        (λ _. AreFirstStarts config.now rows.now wanted phase offset (starts_of row.new)) }
    ensures most { IfOk result (λ _. row.new.count ≤ MAX_STARTS) }
    ensures blocked { IfErr result
        (IsNextOffset config.now (HaveStartsAt config.now rows.now wanted phase) offset) }
{
    row.count = 0;
    for index in 0..u64::from(config.cycle()) / wanted.interval {
        let place = phase + index * wanted.interval;
        let starts = starts_in(&rows[place as usize], config, wanted, offset)?;
        row.push(&starts[..wanted.grants]);
    }
    Ok(())
}

// The least offset of this phase with lawful starts, of which the row then has the first.
fn found_at(
    rows: &[Bits],
    config: &Checked,
    wanted: Wanted,
    phase: u64,
    row: &mut Row,
) -> Option<Found>
    requires long { length rows.now ≡ config.now.cycle }
    requires sought { CanBeSought config.now wanted }
    requires phase { phase < wanted.interval }
    ensures phase { IfSome result (λ found. found.phase ≡ phase) }
    ensures found { IfSome result (λ found. IsFirstAtPhase config.now rows.now wanted found (starts_of row.new)) }
    ensures most { IfSome result (λ found. row.new.count ≤ MAX_STARTS) }
    ensures absent { IfNone result (NoneBelow config.now rows.now wanted phase config.now.frame) }
{
    let mut offset = u64::from(config.req_slots());
    'offsets: while offset < u64::from(config.frame()) {
        match starts_at(rows, config, wanted, phase, offset, row) {
            Ok(()) => {
                return Some(Found { phase, offset });
            }
            Err(next) => offset = next,
        }
    }
    None
}

// Keeps the bound that follows where a frame of this phase has no room for a grant: of the first such frame.
fn learn(rows: &[Bits], widest: &mut Widest, config: &Checked, wanted: Wanted, phase: u64)
    requires long { length rows.now ≡ config.now.cycle }
    requires sought { CanBeSought config.now wanted }
    requires phase { phase < wanted.interval }
    requires bounded { AreBounds config.now rows.now widest.old.most }
    ensures { AreBounds config.now rows.now widest.new.most }
{
    let frame = u64::from(config.frame());
    let behind = u64::from(config.req_slots());
    for index in 0..u64::from(config.cycle()) / wanted.interval {
        let place = (phase + index * wanted.interval) as usize;
        let Some(_) = next_start(&rows[place], frame, wanted.slots, behind) else {
            widest.most[place] = (wanted.slots - 1) as u16;
            return;
        };
    }
}

// The least offset of the least phase with lawful starts, of which the row then has the first. A phase with a frame
// that has its starts, or is known to have no room, is turned away without a look at its bits.
fn first_found(
    rows: &[Bits],
    counts: &Counts,
    widest: &mut Widest,
    config: &Checked,
    wanted: Wanted,
    row: &mut Row,
) -> Option<Found>
    requires long { length rows.now ≡ config.now.cycle }
    requires sought { CanBeSought config.now wanted }
    requires bounded { AreBounds config.now rows.now widest.old.most }
    ensures found { IfSome result
        (λ found. IsFirstFound config.now rows.now counts.now.starts wanted found (starts_of row.new)) }
    ensures most { IfSome result (λ found. row.new.count ≤ MAX_STARTS) }
    ensures absent { IfNone result
        (NonePhase config.now rows.now counts.now.starts wanted wanted.interval) }
    ensures bounded { AreBounds config.now rows.now widest.new.most }
{
    for phase in 0..wanted.interval {
        if widest.lacks(config, wanted, phase) {
            continue;
        }
        if !counts.has_room(config, wanted, phase) {
            continue;
        }
        if let Some(found) = found_at(rows, config, wanted, phase, row) {
            return Some(found);
        }
        learn(rows, widest, config, wanted, phase);
    }
    None
}

// The first nominal time at or after `next` at this phase and offset.
pub(crate) fn first_nominal(
    config: &Checked,
    interval: u64,
    next: u64,
    phase: u64,
    offset: u64,
) -> u64
    requires phase { phase < interval }
    requires interval { interval < 2 ^ 32 }
    requires offset { offset < config.now.frame }
    requires aligned { next % config.now.frame ≡ 0 }
    requires most { next ≤ 2 ^ 61 }
    ensures { IsReference config.now interval next phase offset result }
{
    let frame = u64::from(config.frame());
    let frames = next / frame;
    let wait = (phase + interval - frames % interval) % interval;
    (frames + wait) * frame + offset
}

// The lawful placement of the least phase, then the least offset, then the least starts in each frame, beside the
// flows whose minislots these rows have, and whose starts these counts: its reference, and in the row its starts.
pub(crate) fn choose(
    rows: &[Bits],
    counts: &Counts,
    widest: &mut Widest,
    config: &Checked,
    spec: &FlowSpec,
    next: u64,
    row: &mut Row,
) -> Option<u64>
    requires long { length rows.now ≡ config.now.cycle }
    requires bounded { AreBounds config.now rows.now widest.old.most }
    requires periodic { is_periodic spec.now ≡ true }
    requires no_fault { first_fault config.now spec.now ≡ None }
    requires aligned { next % config.now.frame ≡ 0 }
    requires most { next ≤ 2 ^ 61 }
    ensures chosen { (placed : List Placed)
        → AreSound config.now placed → AreRowsOf config.now placed rows.now
        → AreCounts config.now placed counts.now.starts → IfSome result
        (λ reference. IsChosen config.now placed spec.now next (placement_at reference (starts_of row.new))) }
    ensures count { IfSome result (λ _. row.new.count ≤ MAX_STARTS) }
    ensures absent { (placed : List Placed)
        → AreSound config.now placed → AreRowsOf config.now placed rows.now
        → AreCounts config.now placed counts.now.starts
        → IfNone result (NoPlacement config.now placed spec.now next) }
    ensures bounded { AreBounds config.now rows.now widest.new.most }
{
    let wanted = wanted_of(config, spec);
    let Some(found) = first_found(rows, counts, widest, config, wanted, row) else {
        return None;
    };
    Some(first_nominal(config, wanted.interval, next, found.phase, found.offset))
}
