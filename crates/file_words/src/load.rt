//! What is said of flows that together need more than a cycle carries.

use super::counts::ending_of;
use call_reading::call_of;
use minislots::{Checked, Config};
use sched_calls::{Call, FlowSpec};
use serde_json::Value;
use std::alloc::{AllocError, Global};
use std::fmt::Write;

// The numbers of SIDs.
const SIDS: usize = 8192;

// The parts of a byte in which a rate is counted: one bit per second brings one of them in each tick.
const PARTS: u64 = 1_280_000;

// The minislots of a cycle that flows need for what is promised to them.
#[derive(Clone, Copy)]
struct Load {
    reserved: u64,
    polls: u64,
    unsolicited: u64,
}

impl Load {
    // That of no flow.
    fn none() -> Load {
        Load {
            reserved: 0,
            polls: 0,
            unsolicited: 0,
        }
    }

    // In all.
    fn all(&self) -> u64 {
        let periodic = self.polls.saturating_add(self.unsolicited);
        self.reserved.saturating_add(periodic)
    }

    // With another's beside it.
    fn with(&self, other: &Load) -> Load {
        Load {
            reserved: self.reserved.saturating_add(other.reserved),
            polls: self.polls.saturating_add(other.polls),
            unsolicited: self.unsolicited.saturating_add(other.unsolicited),
        }
    }

    // Without another's.
    fn without(&self, other: &Load) -> Load {
        Load {
            reserved: self.reserved.saturating_sub(other.reserved),
            polls: self.polls.saturating_sub(other.polls),
            unsolicited: self.unsolicited.saturating_sub(other.unsolicited),
        }
    }
}

// How many nominal intervals a cycle has.
fn intervals(config: &Checked, interval_us: u32) -> u64 {
    let frame = u64::from(config.frame());
    let frames = config.slots_floor(interval_us).checked_div(frame);
    u64::from(config.cycle())
        .checked_div(frames.unwrap_or(0))
        .unwrap_or(0)
}

// The minislots of a frame behind its request region.
fn room(config: &Checked) -> u32 {
    config.frame().saturating_sub(config.req_slots())
}

// The minislots that a reserved rate takes in a cycle, in bursts of as many bytes as its reservation and a frame let
// one have.
fn reserved_slots(config: &Checked, rate: u32, burst: u32) -> u64 {
    let most = config.most_in(room(config)).min(u64::from(burst));
    let bytes = u32::try_from(most).unwrap_or(u32::MAX);
    let slots = u64::from(config.frame()).saturating_mul(u64::from(config.cycle()));
    let brought = slots
        .saturating_mul(u64::from(config.ticks()))
        .saturating_mul(u64::from(rate));
    let (whole, parts) = (
        brought.saturating_mul(config.slots_for(bytes)),
        most.saturating_mul(PARTS),
    );
    let rest = whole.checked_rem(parts).unwrap_or(0);
    let least = whole.checked_div(parts).unwrap_or(0);
    least.saturating_add(u64::from(rest > 0))
}

// What a flow of these parameters needs. One that is refused needs nothing.
fn load_of(config: &Checked, spec: &FlowSpec) -> Load {
    let mut load = Load::none();
    if spec.check(config).is_err() {
        return load;
    }
    match *spec {
        FlowSpec::Unsolicited {
            size,
            interval_us,
            grants,
            ..
        } => {
            let each = config.slots_for_unsolicited(size);
            let grants = u64::from(grants).saturating_mul(intervals(config, interval_us));
            load.unsolicited = each.saturating_mul(grants);
        }
        FlowSpec::Polled { interval_us, .. } => {
            let each = u64::from(config.poll_slots());
            load.polls = each.saturating_mul(intervals(config, interval_us));
        }
        FlowSpec::BestEffort {
            reserved,
            reserved_burst,
            ..
        } => load.reserved = reserved_slots(config, reserved, reserved_burst),
    }
    load
}

// What the flows of a script need, by SID, and the most that they ever need together.
#[derive(Drop)]
struct Loads {
    each: Vec<Load>,
    now: Load,
    most: Load,
}

impl Loads {
    // Those of no flow.
    fn new(alloc: Global) -> Result<Loads, AllocError> {
        let mut each = Vec::with_capacity(alloc, SIDS)?;
        each.resize(SIDS, Load::none())?;
        Ok(Loads {
            each,
            now: Load::none(),
            most: Load::none(),
        })
    }

    // Where a flow needs this from now on.
    fn put(&mut self, sid: u16, load: Load) {
        let Some(old) = self.each.get_mut(usize::from(sid)) else {
            return;
        };
        self.now = self.now.without(old).with(&load);
        *old = load;
        if self.now.all() > self.most.all() {
            self.most = self.now;
        }
    }

    // After a call.
    fn take(&mut self, config: &Checked, call: &Call) {
        match *call {
            Call::Admit(sid, ref spec) | Call::Change(sid, ref spec) => {
                self.put(sid, load_of(config, spec));
            }
            Call::Remove(sid) => self.put(sid, Load::none()),
            _ => {}
        }
    }
}

/// That the reservations, polls and unsolicited grants of the flows of a script that are live at a time need more
/// minislots of a cycle than it has behind its request regions, by the channel's bursts.
pub fn tell_load(
    alloc: Global,
    words: &mut String,
    config: &Config,
    document: &Value,
) -> Result<(), AllocError> {
    let (Some(calls), Ok(config)) = (
        document.get("calls").and_then(Value::as_array),
        config.check(),
    ) else {
        return Ok(());
    };
    let mut loads = Loads::new(alloc)?;
    for value in calls {
        if let Some(call) = call_of(value) {
            loads.take(&config, &call);
        }
    }
    let carried = u64::from(config.cycle()).saturating_mul(u64::from(room(&config)));
    let (most, all) = (loads.most, loads.most.all());
    if all <= carried {
        return Ok(());
    }
    let (reserved, polls, unsolicited) = (most.reserved, most.polls, most.unsolicited);
    let s = ending_of(carried);
    writeln!(
        words,
        "flows: a cycle has {carried} minislot{s} behind its request regions, and they need {all}: {reserved} for \
         reservations, {polls} for polls and {unsolicited} for unsolicited grants"
    )
}
