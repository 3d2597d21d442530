//! The parameters of a flow.

ghost use Rattle.std.specs.Prelude.{◌≡◌};
ghost use Rattle.sched_calls.specs.FlowSpec.{takes_requests, rank_of, rate_of, burst_of, peak_of, reserved_of};
ghost use Rattle.sched_calls.specs.FlowSpec.{reserved_burst_of, grants_of};

use thiserror::Error;

/// The parameters of a service flow, by its upstream scheduling service. Sizes and bursts are in
/// bytes, intervals and jitters in microseconds, rates in bits per second. A rate of 0 is no ceiling; a peak
/// rate of 0 is none either, and any other is a ceiling with a burst of [`PEAK_BURST`] bytes.
#[derive(Clone, Copy, Debug, PartialEq, Eq)]
pub enum FlowSpec {
    /// Unsolicited Grant Service: so many grants, from 1 to [`MAX_GRANTS`](crate::MAX_GRANTS), for so many bytes each
    /// in each nominal interval, with the tolerated jitter.
    Unsolicited {
        size: u32,
        interval_us: u32,
        jitter_us: u32,
        grants: u8,
    },
    /// Real-time polling: one request opportunity in each nominal interval, and data grants under both
    /// ceilings for what it asks.
    Polled {
        interval_us: u32,
        jitter_us: u32,
        rate: u32,
        burst: u32,
        peak: u32,
    },
    /// Best effort, by traffic priority from 0 to 7: data grants under both ceilings. As long as its grants
    /// keep a minimum reserved rate and that rate's burst, it is served with the polled flows; a reserved rate of 0
    /// reserves nothing.
    BestEffort {
        priority: u8,
        rate: u32,
        burst: u32,
        peak: u32,
        reserved: u32,
        reserved_burst: u32,
    },
}

/// The most bytes that a flow with a peak rate may be granted at once: a frame of Ethernet with one tag.
pub const PEAK_BURST: u32 = 1522;

/// Why the parameters of a flow are refused: the first reason in this order. A reason is looked at
/// only where the kind of flow has the field.
#[derive(Clone, Copy, Debug, PartialEq, Eq, Error)]
pub enum FlowFault {
    /// The size is 0, or longer than what the request region leaves of a frame.
    #[error("size")]
    Size,
    /// The interval is not a whole number of minislots.
    #[error("interval is not whole minislots")]
    IntervalNotWhole,
    /// The interval is 0, or not a whole number of frames.
    #[error("interval is not whole frames")]
    IntervalNotFrames,
    /// The frames of the interval do not divide the cycle.
    #[error("interval does not divide the cycle")]
    IntervalNotInCycle,
    /// The priority is above 7.
    #[error("priority")]
    Priority,
    /// There is a rate ceiling, and the burst is below the quantum.
    #[error("burst")]
    Burst,
    /// The grants per interval are 0 or above [`MAX_GRANTS`](crate::MAX_GRANTS).
    #[error("grants")]
    Grants,
    /// There is a reserved rate, and its burst is below the quantum.
    #[error("reserved burst")]
    Reserved,
}

impl FlowSpec {
    /// The flow's grants per interval: an unsolicited flow's as its parameters say, one poll of a polled flow, and
    /// none of a best effort flow.
    pub fn grants(&self) -> u8
        ensures { result ≡ grants_of self.now }
    {
        match *self {
            FlowSpec::Unsolicited { grants, .. } => grants,
            FlowSpec::Polled { .. } => 1,
            FlowSpec::BestEffort { .. } => 0,
        }
    }

    /// Whether the flow asks for bytes and gets data grants for them.
    pub fn takes_requests(&self) -> bool
        ensures { result ≡ takes_requests self.now }
    {
        !matches!(self, FlowSpec::Unsolicited { .. })
    }

    /// The rank in which flows are served: polled flows before all priorities.
    pub fn rank(&self) -> u8
        ensures { result ≡ rank_of self.now }
    {
        match *self {
            FlowSpec::Unsolicited { .. } => 0,
            FlowSpec::Polled { .. } => 8,
            FlowSpec::BestEffort { priority, .. } => priority,
        }
    }

    /// The maximum sustained rate, in bits per second: 0 is no ceiling.
    pub fn rate(&self) -> u32
        ensures { result ≡ rate_of self.now }
    {
        match *self {
            FlowSpec::Unsolicited { .. } => 0,
            FlowSpec::Polled { rate, .. } | FlowSpec::BestEffort { rate, .. } => rate,
        }
    }

    /// The maximum burst, in bytes.
    pub fn burst(&self) -> u32
        ensures { result ≡ burst_of self.now }
    {
        match *self {
            FlowSpec::Unsolicited { .. } => 0,
            FlowSpec::Polled { burst, .. } | FlowSpec::BestEffort { burst, .. } => burst,
        }
    }

    /// The peak traffic rate, in bits per second: 0 is no ceiling.
    pub fn peak(&self) -> u32
        ensures { result ≡ peak_of self.now }
    {
        match *self {
            FlowSpec::Unsolicited { .. } => 0,
            FlowSpec::Polled { peak, .. } | FlowSpec::BestEffort { peak, .. } => peak,
        }
    }

    /// The minimum reserved rate of a best effort flow, in bits per second: 0 reserves nothing.
    pub fn reserved(&self) -> u32
        ensures { result ≡ reserved_of self.now }
    {
        match *self {
            FlowSpec::BestEffort { reserved, .. } => reserved,
            _ => 0,
        }
    }

    /// The burst of the reservation, in bytes.
    pub fn reserved_burst(&self) -> u32
        ensures { result ≡ reserved_burst_of self.now }
    {
        match *self {
            FlowSpec::BestEffort { reserved_burst, .. } => reserved_burst,
            _ => 0,
        }
    }
}
