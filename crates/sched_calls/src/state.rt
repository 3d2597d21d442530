//! The state of a scheduler: what its next replies depend on.

ghost use Rattle.std.specs.Prelude.{◌≡◌};

use crate::opportunity::{Header, Opportunity};
use crate::placement::Starts;
use crate::spec::FlowSpec;
use std::marker::Model;

/// Where a flow's requests end that wait, and when they were heard, in two batches.
#[derive(Clone, Copy, Debug, PartialEq, Eq)]
pub struct BatchState {
    /// The bytes that the flow had asked up to the end of the first batch.
    pub end: u64,
    /// The least minislot in which a request of the first batch was heard.
    pub first: u64,
    /// The same of the second batch, where there is one.
    pub second: Option<u64>,
}

/// A periodic flow's place in the cycle of frames.
#[derive(Debug, Drop)]
pub struct PlaceState {
    /// The frame of the interval in which it has its nominal times, from 0.
    pub phase: u64,
    /// The minislot of the frame at which it has them, from 0.
    pub offset: u64,
    /// Where its grants start in each nominal frame of the cycle.
    pub starts: Starts,
    /// Whether the flow rests.
    pub rests: bool,
}

/// A live flow. Its levels are what the rate rules leave of their bursts at the start of the flow's last data grant, be
/// it one that counts for them or not, after the grants that count for each in its present period. They are in
/// 1/1280000 bytes: none where the rate is 0, and all of the burst where no grant counts.
#[derive(Debug, Drop)]
pub struct FlowState {
    /// Its SID.
    pub sid: u16,
    /// Its parameters.
    pub spec: FlowSpec,
    /// The bytes that it asked.
    pub asked: u64,
    /// The bytes that it was granted.
    pub granted: u64,
    /// The minislot at which its last data grant starts, where it has one.
    pub last: Option<u64>,
    /// The level of its maximum sustained rate and burst.
    pub sustained: Option<u64>,
    /// The level of its peak rate.
    pub peak: Option<u64>,
    /// The level of its reservation.
    pub reserved: Option<u64>,
    /// The batches of its requests, where bytes are outstanding.
    pub batches: Option<BatchState>,
    /// Its place, where it is periodic.
    pub place: Option<PlaceState>,
}

/// A Reserve that waits: neither met nor lapsed.
#[derive(Clone, Copy, Debug, PartialEq, Eq)]
pub struct ReserveState {
    /// What it asks for.
    pub opportunity: Opportunity,
    /// How many MAPs came since that do not settle.
    pub maps: u8,
}

/// Minislots, one for each receiver, in order. Contracts see the list.
#[derive(Debug, Drop)]
pub struct Progress {
    slots: Vec<u64>,
}

impl Model for Progress {
    ghost use Rattle.std.specs.Prelude.{ℕ, List};

    ghost Value = { List ℕ };

    ghost view = { λ p. p.slots.items };
}

impl Progress {
    ghost use Rattle.std.specs.Prelude.{◌≡◌};

    /// The minislots in the vector. Takes no memory.
    pub fn from_vec(slots: Vec<u64>) -> Self
        ensures { result ≡ slots.items }
    {
        Progress { slots }
    }

    /// The vector of the minislots. Takes no memory.
    pub fn into_vec(self) -> Vec<u64>
        ensures { result.items ≡ self }
    {
        let Progress { slots } = self;
        slots
    }

    /// The minislots.
    pub fn as_slice(&self) -> &[u64]
        ensures { result.now ≡ self.now }
    {
        self.slots.as_slice()
    }
}

/// Live flows, in order of SID. Contracts see the list.
#[derive(Debug, Drop)]
pub struct FlowStates {
    flows: Vec<FlowState>,
}

impl Model for FlowStates {
    ghost use Rattle.std.specs.Prelude.{List};
    ghost use Rattle.sched_calls.specs.declared.state.FlowState.{FlowState};

    ghost Value = { List FlowState };

    ghost view = { λ f. f.flows.items };
}

impl FlowStates {
    ghost use Rattle.std.specs.Prelude.{◌≡◌};

    /// The flows in the vector. Takes no memory.
    pub fn from_vec(flows: Vec<FlowState>) -> Self
        ensures { result ≡ flows.items }
    {
        FlowStates { flows }
    }

    /// The vector of the flows. Takes no memory.
    pub fn into_vec(self) -> Vec<FlowState>
        ensures { result.items ≡ self }
    {
        let FlowStates { flows } = self;
        flows
    }

    /// The flows.
    pub fn as_slice(&self) -> &[FlowState]
        ensures { result.now ≡ self.now }
    {
        self.flows.as_slice()
    }
}

/// Reserves that wait, in the order in which they were accepted. Contracts see the list.
#[derive(Debug, Drop)]
pub struct ReserveStates {
    reserves: Vec<ReserveState>,
}

impl Model for ReserveStates {
    ghost use Rattle.std.specs.Prelude.{List};
    ghost use Rattle.sched_calls.specs.declared.state.ReserveState.{ReserveState};

    ghost Value = { List ReserveState };

    ghost view = { λ r. r.reserves.items };
}

impl ReserveStates {
    ghost use Rattle.std.specs.Prelude.{◌≡◌};

    /// The Reserves in the vector. Takes no memory.
    pub fn from_vec(reserves: Vec<ReserveState>) -> Self
        ensures { result ≡ reserves.items }
    {
        ReserveStates { reserves }
    }

    /// The vector of the Reserves. Takes no memory.
    pub fn into_vec(self) -> Vec<ReserveState>
        ensures { result.items ≡ self }
    {
        let ReserveStates { reserves } = self;
        reserves
    }

    /// The Reserves.
    pub fn as_slice(&self) -> &[ReserveState]
        ensures { result.now ≡ self.now }
    {
        self.reserves.as_slice()
    }
}

/// The state of a scheduler: all that its next replies depend on, apart from its configuration.
#[derive(Debug, Drop)]
pub struct ChannelState {
    /// How many calls were recorded.
    pub entries: u64,
    /// The minislot at which the frame of the next MAP starts.
    pub next: u64,
    /// The minislot before which each receiver has handed in every request that it heard.
    pub progress: Progress,
    /// The acknowledge time of the last MAP, or the configuration's start.
    pub ack: u64,
    /// The header of the next MAP.
    pub header: Header,
    /// The UCD count of the last MAP, or the configuration's.
    pub ucd_count: u8,
    /// The minislot at which the last MAP starts that changed the UCD count, where one did.
    pub change: Option<u64>,
    /// The live flows.
    pub flows: FlowStates,
    /// The Reserves that are neither met nor lapsed.
    pub reserves: ReserveStates,
}
