//! The plain bodies of a book, as a slow reference: each goes through the grants of a flow at each call.

use flow_book::{FlowSpec, Grant};
use minislots::Checked;
use std::alloc::AllocError;

/// A live flow, with the list of its data grants.
#[derive(Drop)]
pub struct SlowFlow {
    /// Its SID.
    pub sid: u16,
    /// Its kind and parameters.
    pub spec: FlowSpec,
    /// The bytes that it asked for.
    pub asked: u64,
    /// Its data grants, the latest last.
    pub grants: Vec<Grant>,
}

// The bytes that a flow may be granted at once where it has a peak.
const PEAK_BURST: u32 = 1522;

// The rank, the rate, the burst and the peak of a flow.
fn limits_of(spec: &FlowSpec) -> (u8, u32, u32, u32) {
    match *spec {
        FlowSpec::Unsolicited { .. } => (0, 0, 0, 0),
        FlowSpec::Polled {
            rate,
            burst,
            peak,
            ..
        } => (8, rate, burst, peak),
        FlowSpec::BestEffort {
            priority,
            rate,
            burst,
            peak,
            ..
        } => (priority, rate, burst, peak),
    }
}

impl SlowFlow {
    /// The bytes that were asked and not granted.
    pub fn outstanding(&self) -> u64 {
        self.asked.saturating_sub(bytes_of(&self.grants))
    }

    /// The most bytes of a data grant at this minislot in so many minislots.
    pub fn most(&self, config: &Checked, start: u64, room: u32) -> u32 {
        let asked = self.outstanding().min(u64::from(config.grant_cap()));
        let limit = asked.min(config.bytes_in(room)) as u32;
        self.within_ceilings(config, start, limit)
    }

    // Where the last data grant starts.
    fn last_start(&self) -> Option<u64> {
        match self.grants.last() {
            Some(grant) => Some(grant.start),
            None => None,
        }
    }

    // Whether this flow is served before the other.
    fn is_before(&self, other: &SlowFlow) -> bool {
        let ((rank, _, _, _), (other_rank, _, _, _)) = (
            limits_of(&self.spec),
            limits_of(&other.spec),
        );
        let (last, other_last) = (self.last_start(), other.last_start());
        rank > other_rank
            || rank == other_rank
                && (last < other_last || last == other_last && self.sid < other.sid)
    }

    // Whether the flow may be served at this minislot.
    fn is_eligible(&self, config: &Checked, start: u64, room: u32) -> bool {
        if matches!(self.spec, FlowSpec::Unsolicited { .. }) {
            return false;
        }
        let wanted = self.outstanding().min(u64::from(config.quantum())) as u32;
        if wanted == 0 || config.slots_for(wanted) > u64::from(room) {
            return false;
        }
        self.within_ceilings(config, start, wanted) == wanted
    }

    // The most bytes, up to the limit, that a data grant at this minislot may have under both ceilings.
    fn within_ceilings(&self, config: &Checked, start: u64, limit: u32) -> u32 {
        let (_, rate, burst, peak) = limits_of(&self.spec);
        let most = self.within_ceiling(config, start, limit, (rate, burst));
        self.within_ceiling(config, start, most, (peak, PEAK_BURST))
    }

    // The most bytes, up to the limit, that it may have under a rate and a burst: each window of grants that ends in it
    // is tested.
    fn within_ceiling(&self, config: &Checked, start: u64, limit: u32, of: (u32, u32)) -> u32 {
        let (rate, burst) = of;
        if rate == 0 {
            return limit;
        }
        let per_slot = u128::from(config.ticks()) * u128::from(rate);
        let mut most = limit.min(burst);
        for i in 0..self.grants.len() {
            let slots = u128::from(start.saturating_sub(self.grants[i].start));
            let parts = slots.saturating_mul(per_slot);
            let whole = parts.saturating_add(1_280_000 * u128::from(burst)) / 1_280_000;
            let left = whole.saturating_sub(u128::from(bytes_of(&self.grants[i..])));
            most = lesser(most, left);
        }
        most
    }
}

// The lesser of two numbers of bytes.
fn lesser(most: u32, left: u128) -> u32 {
    u128::from(most).min(left) as u32
}

// The bytes of some grants.
fn bytes_of(grants: &[Grant]) -> u64 {
    let mut bytes: u64 = 0;
    for grant in grants {
        bytes = bytes.saturating_add(u64::from(grant.bytes));
    }
    bytes
}

/// Adds bytes to what the flow of this SID asked.
pub fn ask(flows: &mut [SlowFlow], sid: u16, bytes: u32) {
    for flow in flows.iter_mut() {
        if flow.sid == sid {
            flow.asked = flow.asked.saturating_add(u64::from(bytes));
        }
    }
}

/// Adds a grant to the flow of this SID.
pub fn grant(flows: &mut [SlowFlow], sid: u16, grant: Grant) -> Result<(), AllocError> {
    for flow in flows.iter_mut() {
        if flow.sid == sid {
            flow.grants.push(grant)?;
        }
    }
    Ok(())
}

/// The SID of the flow that is served first at this minislot, of those that may be served.
pub fn eligible(flows: &[SlowFlow], config: &Checked, start: u64, room: u32) -> Option<u16> {
    let mut next: Option<&SlowFlow> = None;
    for flow in flows {
        let is_first = match next {
            Some(next) => flow.is_before(next),
            None => true,
        };
        if is_first && flow.is_eligible(config, start, room) {
            next = Some(flow);
        }
    }
    match next {
        Some(flow) => Some(flow.sid),
        None => None,
    }
}
