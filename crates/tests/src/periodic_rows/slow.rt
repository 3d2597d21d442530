//! The plain search for a placement, as a slow reference: it tries each offset of each phase, and asks every
//! flow about each start.

ghost use Rattle.std.specs.Prelude.{◌<◌};

use flow_book::FlowSpec;
use minislots::Checked;
use std::alloc::{AllocError, Global};

/// A placed flow.
#[derive(Drop)]
pub struct SlowFlow {
    /// Its SID.
    pub sid: u16,
    /// Its kind and parameters.
    pub spec: FlowSpec,
    /// Its first nominal minislot.
    pub reference: u64,
    /// Its starts in each nominal frame of the cycle.
    pub starts: Vec<u16>,
}

// What is looked for: the frames of an interval, its grants or polls, and the minislots of the jitter and of each.
#[derive(Clone, Copy)]
struct Wanted {
    interval: u64,
    grants: u64,
    jitter: u64,
    slots: u64,
}

// Where a placement was found.
#[derive(Drop)]
struct Found {
    offset: u64,
    starts: Vec<u16>,
}

// The frames of so many microseconds.
fn frames_of(config: &Checked, micros: u32) -> u64
    ensures { 0 < result }
{
    (config.slots_floor(micros) / u64::from(config.frame())).max(1)
}

// What these parameters ask for.
fn wanted_of(config: &Checked, spec: &FlowSpec) -> Wanted
    ensures { 0 < result.interval }
{
    match *spec {
        FlowSpec::Unsolicited {
            size,
            interval_us,
            jitter_us,
            grants,
        } => Wanted {
            interval: frames_of(config, interval_us),
            grants: u64::from(grants),
            jitter: config.slots_floor(jitter_us),
            slots: config.slots_for_unsolicited(size),
        },
        FlowSpec::Polled {
            interval_us,
            jitter_us,
            ..
        } => Wanted {
            interval: frames_of(config, interval_us),
            grants: 1,
            jitter: config.slots_floor(jitter_us),
            slots: u64::from(config.poll_slots()),
        },
        FlowSpec::BestEffort { .. } => Wanted {
            interval: 1,
            grants: 0,
            jitter: 0,
            slots: 1,
        },
    }
}

impl SlowFlow {
    // Whether the flow has one of these minislots in the frame at this place of the cycle.
    fn has_any(&self, config: &Checked, place: u64, start: u64, end: u64) -> bool {
        let wanted = wanted_of(config, &self.spec);
        let phase = self.reference / u64::from(config.frame()) % wanted.interval;
        if place % wanted.interval != phase {
            return false;
        }
        let first = (place / wanted.interval).saturating_mul(wanted.grants);
        for index in first..first.saturating_add(wanted.grants) {
            let Some(begin) = self.starts.get(index as usize) else {
                return false;
            };
            let begin = u64::from(*begin);
            if begin < end && start < begin.saturating_add(wanted.slots) {
                return true;
            }
        }
        false
    }
}

// Whether the minislots are free of all flows in the frame at this place of the cycle.
fn are_free(flows: &[SlowFlow], config: &Checked, place: u64, start: u64, end: u64) -> bool {
    for flow in flows {
        if flow.has_any(config, place, start, end) {
            return false;
        }
    }
    true
}

// The first lawful start from this minislot on in the frame at this place of the cycle, at this offset.
fn first_start(
    flows: &[SlowFlow],
    config: &Checked,
    wanted: Wanted,
    place: u64,
    offset: u64,
    from: u64,
) -> Option<u16> {
    let frame = u64::from(config.frame());
    for start in from..frame {
        let end = start.saturating_add(wanted.slots);
        if end > frame || start.saturating_sub(offset) > wanted.jitter {
            return None;
        }
        if are_free(flows, config, place, start, end) {
            return Some(start as u16);
        }
    }
    None
}

// Puts the first lawful starts in the frame at this place of the cycle, one for each grant, and says whether there are.
fn push_starts(
    starts: &mut Vec<u16>,
    flows: &[SlowFlow],
    config: &Checked,
    wanted: Wanted,
    place: u64,
    offset: u64,
) -> Result<bool, AllocError> {
    let mut from = offset;
    for _ in 0..wanted.grants {
        let Some(start) = first_start(flows, config, wanted, place, offset, from) else {
            return Ok(false);
        };
        starts.push(start)?;
        from = u64::from(start).saturating_add(wanted.slots);
    }
    Ok(true)
}

// The first lawful starts at this phase and offset, where each nominal frame has them.
fn starts_at(
    flows: &[SlowFlow],
    config: &Checked,
    alloc: Global,
    wanted: Wanted,
    phase: u64,
    offset: u64,
) -> Result<Option<Vec<u16>>, AllocError>
    requires { 0 < wanted.interval }
{
    let mut starts = Vec::new(alloc);
    for place in 0..u64::from(config.cycle()) {
        if place % wanted.interval == phase {
            if !push_starts(&mut starts, flows, config, wanted, place, offset)? {
                return Ok(None);
            }
        }
    }
    Ok(Some(starts))
}

// The first lawful starts at the least offset of this phase.
fn found_at(
    flows: &[SlowFlow],
    config: &Checked,
    alloc: Global,
    wanted: Wanted,
    phase: u64,
) -> Result<Option<Found>, AllocError>
    requires { 0 < wanted.interval }
{
    for offset in u64::from(config.req_slots())..u64::from(config.frame()) {
        if let Some(starts) = starts_at(flows, config, alloc, wanted, phase, offset)? {
            return Ok(Some(Found { offset, starts }));
        }
    }
    Ok(None)
}

// The first frame from this one on that is the interval's at this phase.
fn frame_at(first: u64, interval: u64, phase: u64) -> u64
    requires { 0 < interval }
{
    let mut k = first;
    for _ in 0..interval {
        if k % interval == phase {
            return k;
        }
        k = k.saturating_add(1);
    }
    k
}

/// The placement of the least phase, then the least offset, then the least start in each frame, for a new flow
/// beside those that stand, its first nominal time at or after `next`.
pub fn place(
    flows: &[SlowFlow],
    config: &Checked,
    alloc: Global,
    sid: u16,
    spec: FlowSpec,
    next: u64,
) -> Result<Option<SlowFlow>, AllocError> {
    let wanted = wanted_of(config, &spec);
    let frame = u64::from(config.frame());
    for phase in 0..wanted.interval {
        if let Some(found) = found_at(flows, config, alloc, wanted, phase)? {
            let nominal = frame_at(next / frame, wanted.interval, phase);
            return Ok(Some(SlowFlow {
                sid,
                spec,
                reference: nominal.saturating_mul(frame).saturating_add(found.offset),
                starts: found.starts,
            }));
        }
    }
    Ok(None)
}
