//! A call in plain numbers.

ghost use Rattle.std.specs.Prelude.{◌≡◌, Some};
ghost use Rattle.mapsched_c.specs.Call.{call_of, flow_of, usage_of, amount_of, header_of, nothing_called, plain_call};
ghost use Rattle.mapsched_c.specs.Call.{plain_flow, plain_usage, plain_amount, plain_request};

use flow_book::FlowSpec;
use map_build::{Header, Usage};
use sched_calls::Amount;
use sched_history::Call;

/// The kinds of calls.
pub mod kind {
    /// Admits a flow.
    pub const ADMIT: u32 = 0;

    /// Forgets a flow.
    pub const REMOVE: u32 = 1;

    /// Hands in a request.
    pub const ASK: u32 = 2;

    /// Says that a receiver has handed in all that it heard before a minislot.
    pub const HEARD: u32 = 3;

    /// Builds the next MAP.
    pub const BUILD: u32 = 4;

    /// Leaves out the frames whose MAP would be late.
    pub const SKIP: u32 = 5;

    /// Asks for a flow's bytes.
    pub const STATUS: u32 = 6;

    /// Asks for an opportunity.
    pub const RESERVE: u32 = 7;

    /// Sets the UCD count and the backoff windows of the next MAPs.
    pub const HEADER: u32 = 8;

    /// Hands in a request that supersedes those before.
    pub const REPLACE: u32 = 9;

    /// Gives a live flow other parameters.
    pub const CHANGE: u32 = 10;

    /// Lets an unsolicited flow rest.
    pub const REST: u32 = 11;

    /// Gives an unsolicited flow that rests its grants again.
    pub const WAKE: u32 = 12;
}

/// What an opportunity is used for.
pub mod usage {
    /// Initial Maintenance: all modems that join the channel.
    pub const INITIAL: u32 = 0;

    /// Station Maintenance: the modem of the service identifier.
    pub const STATION: u32 = 1;

    /// Initial Maintenance: the modem of the service identifier.
    pub const INITIAL_TO: u32 = 2;

    /// Requests: the modems of the service identifier.
    pub const REQUEST: u32 = 3;

    /// Nobody sends.
    pub const QUIET: u32 = 4;

    /// A data grant: the modem of the service identifier.
    pub const DATA: u32 = 5;
}

/// The kinds of flows.
pub mod flow {
    /// Unsolicited Grant Service.
    pub const UNSOLICITED: u32 = 0;

    /// Real-time polling.
    pub const POLLED: u32 = 1;

    /// Best effort.
    pub const BEST_EFFORT: u32 = 2;
}

/// A call by its kind. Each kind reads only the numbers that it has. An opportunity and a header have numbers of their
/// own where other kinds have others: in C two names share such a place.
#[repr(C)]
#[derive(Clone, Copy)]
pub struct PlainCall {
    /// The number of its kind: one of [`kind`].
    pub kind: u32,
    /// An admission's or a change's kind of flow: one of [`flow`]. What an opportunity is used for: one of [`usage`].
    pub flow: u32,
    /// An unsolicited flow's bytes in a grant. How many minislots an opportunity has, or a request asks for.
    pub size: u32,
    /// A periodic flow's nominal interval, in microseconds.
    pub interval_us: u32,
    /// A periodic flow's tolerated jitter, in microseconds.
    pub jitter_us: u32,
    /// The rate ceiling of a flow that asks, in bits per second.
    pub rate: u32,
    /// The burst that this ceiling allows, in bytes.
    pub burst: u32,
    /// A request's bytes.
    pub bytes: u32,
    /// The minislot at which it is made or was heard, or up to which all was heard.
    pub minislot: u64,
    /// The service identifier of the flow, or of the modems that an opportunity is for.
    pub sid: u16,
    /// The receiver that heard a request, or has handed in all. A header's UCD count.
    pub receiver: u8,
    /// A best effort flow's traffic priority, from 0 to 7. A header's exponent of the first window of ranging.
    pub priority: u8,
    /// An unsolicited flow's grants in an interval. A header's exponent of the last window of ranging.
    pub grants: u8,
    /// A header's exponent of the first window of requests.
    pub data_start: u8,
    /// A header's exponent of the last window of requests.
    pub data_end: u8,
    /// Whether a request asks for minislots: 0 where it asks for bytes.
    pub has_slots: u8,
    /// The peak rate of a flow that asks, in bits per second.
    pub peak: u32,
    /// The minimum reserved rate of a best effort flow, in bits per second.
    pub reserved: u32,
    /// The burst of this reservation, in bytes.
    pub reserved_burst: u32,
}

// A call of which every number is 0.
const NOTHING: PlainCall = PlainCall {
    kind: 0,
    flow: 0,
    size: 0,
    interval_us: 0,
    jitter_us: 0,
    rate: 0,
    burst: 0,
    bytes: 0,
    minislot: 0,
    sid: 0,
    receiver: 0,
    priority: 0,
    grants: 0,
    data_start: 0,
    data_end: 0,
    has_slots: 0,
    peak: 0,
    reserved: 0,
    reserved_burst: 0,
};

impl PlainCall {
    // The flow that is admitted or changed, where there is such a kind.
    fn flow(&self) -> Option<FlowSpec>
        ensures { result ≡ flow_of self.now }
    {
        match self.flow {
            flow::UNSOLICITED => Some(FlowSpec::Unsolicited {
                size: self.size,
                interval_us: self.interval_us,
                jitter_us: self.jitter_us,
                grants: self.grants,
            }),
            flow::POLLED => Some(FlowSpec::Polled {
                interval_us: self.interval_us,
                jitter_us: self.jitter_us,
                rate: self.rate,
                burst: self.burst,
                peak: self.peak,
            }),
            flow::BEST_EFFORT => Some(FlowSpec::BestEffort {
                priority: self.priority,
                rate: self.rate,
                burst: self.burst,
                peak: self.peak,
                reserved: self.reserved,
                reserved_burst: self.reserved_burst,
            }),
            _ => None,
        }
    }

    // What the opportunity is used for, where there is such a usage.
    fn usage(&self) -> Option<Usage>
        ensures { result ≡ usage_of self.now }
    {
        match self.flow {
            usage::INITIAL => Some(Usage::Initial),
            usage::STATION => Some(Usage::Station(self.sid)),
            usage::INITIAL_TO => Some(Usage::InitialTo(self.sid)),
            usage::REQUEST => Some(Usage::Request(self.sid)),
            usage::QUIET => Some(Usage::Quiet),
            usage::DATA => Some(Usage::DataTo(self.sid)),
            _ => None,
        }
    }

    // How much the request asks for.
    fn amount(&self) -> Amount
        ensures { result ≡ amount_of self.now }
    {
        if self.has_slots == 0 {
            Amount::Bytes(self.bytes)
        } else {
            Amount::Slots(self.size)
        }
    }

    // The request that adds to those before.
    fn ask(&self) -> Call
        ensures { result ≡
            Call.Ask self.now.receiver self.now.sid (amount_of self.now) self.now.minislot }
    {
        Call::Ask {
            receiver: self.receiver,
            sid: self.sid,
            amount: self.amount(),
            heard: self.minislot,
        }
    }

    // The request that supersedes those before.
    fn replace(&self) -> Call
        ensures { result ≡
            Call.Replace self.now.receiver self.now.sid (amount_of self.now) self.now.minislot }
    {
        Call::Replace {
            receiver: self.receiver,
            sid: self.sid,
            amount: self.amount(),
            heard: self.minislot,
        }
    }

    // The header of these numbers.
    fn header(&self) -> Call
        ensures { result ≡ Call.Header (header_of self.now) }
    {
        Call::Header(Header {
            ucd_count: self.receiver,
            ranging_start: self.priority,
            ranging_end: self.grants,
            data_start: self.data_start,
            data_end: self.data_end,
        })
    }

    // The call of these numbers, where there is such a kind.
    pub(crate) fn call(&self) -> Option<Call>
        ensures { result ≡ call_of self.now }
    {
        Some(match self.kind {
            kind::ADMIT => Call::Admit(self.sid, self.flow()?),
            kind::REMOVE => Call::Remove(self.sid),
            kind::ASK => self.ask(),
            kind::HEARD => Call::Heard {
                receiver: self.receiver,
                upto: self.minislot,
            },
            kind::BUILD => Call::Build { now: self.minislot },
            kind::SKIP => Call::Skip { now: self.minislot },
            kind::STATUS => Call::Status(self.sid),
            kind::RESERVE => Call::Reserve {
                usage: self.usage()?,
                slots: self.size,
            },
            kind::HEADER => self.header(),
            kind::REPLACE => self.replace(),
            kind::CHANGE => Call::Change(self.sid, self.flow()?),
            kind::REST => Call::Rest(self.sid),
            kind::WAKE => Call::Wake(self.sid),
            _ => return None,
        })
    }

    // The numbers of a flow of unsolicited grants.
    fn of_unsolicited(size: u32, interval_us: u32, jitter_us: u32, grants: u8) -> PlainCall
        ensures { result ≡
            plain_flow (FlowSpec.Unsolicited size interval_us jitter_us grants) }
    {
        PlainCall {
            flow: flow::UNSOLICITED,
            size,
            interval_us,
            jitter_us,
            grants,
            ..NOTHING
        }
    }

    // The numbers of a polled flow.
    fn of_polled(interval_us: u32, jitter_us: u32, rate: u32, burst: u32, peak: u32) -> PlainCall
        ensures { result ≡ plain_flow (FlowSpec.Polled interval_us jitter_us rate burst peak) }
    {
        PlainCall {
            flow: flow::POLLED,
            interval_us,
            jitter_us,
            rate,
            burst,
            peak,
            ..NOTHING
        }
    }

    // The numbers of a best effort flow.
    fn of_best_effort(
        priority: u8,
        rate: u32,
        burst: u32,
        peak: u32,
        reserved: u32,
        reserved_burst: u32,
    ) -> PlainCall
        ensures { result ≡
            plain_flow (FlowSpec.BestEffort priority rate burst peak reserved reserved_burst) }
    {
        PlainCall {
            flow: flow::BEST_EFFORT,
            priority,
            rate,
            burst,
            peak,
            reserved,
            reserved_burst,
            ..NOTHING
        }
    }

    // The numbers of a flow that is admitted or changed.
    fn of_spec(spec: FlowSpec) -> PlainCall
        ensures { result ≡ plain_flow spec }
    {
        match spec {
            FlowSpec::Unsolicited {
                size,
                interval_us,
                jitter_us,
                grants,
            } => PlainCall::of_unsolicited(size, interval_us, jitter_us, grants),
            FlowSpec::Polled {
                interval_us,
                jitter_us,
                rate,
                burst,
                peak,
            } => PlainCall::of_polled(interval_us, jitter_us, rate, burst, peak),
            FlowSpec::BestEffort {
                priority,
                rate,
                burst,
                peak,
                reserved,
                reserved_burst,
            } => PlainCall::of_best_effort(priority, rate, burst, peak, reserved, reserved_burst),
        }
    }

    // The numbers of a call of this kind that gives a flow its parameters.
    fn of_parameters(kind: u32, sid: u16, spec: FlowSpec) -> PlainCall
        ensures { result ≡ record (plain_flow spec) { kind = kind; sid = sid } }
    {
        PlainCall {
            kind,
            sid,
            ..PlainCall::of_spec(spec)
        }
    }

    // The numbers of a call of this kind that names a flow and no more.
    fn of_flow(kind: u32, sid: u16) -> PlainCall
        ensures { result ≡ record nothing_called { kind = kind; sid = sid } }
    {
        PlainCall {
            kind,
            sid,
            ..NOTHING
        }
    }

    // The numbers of a call of this kind that names a minislot and no more.
    fn of_minislot(kind: u32, minislot: u64) -> PlainCall
        ensures { result ≡ record nothing_called { kind = kind; minislot = minislot } }
    {
        PlainCall {
            kind,
            minislot,
            ..NOTHING
        }
    }

    // The numbers of what a request asks for.
    fn of_amount(amount: Amount) -> PlainCall
        ensures { result ≡ plain_amount amount }
    {
        match amount {
            Amount::Bytes(bytes) => PlainCall { bytes, ..NOTHING },
            Amount::Slots(slots) => PlainCall {
                size: slots,
                has_slots: 1,
                ..NOTHING
            },
        }
    }

    // The numbers of a request of this kind.
    fn of_request(kind: u32, receiver: u8, sid: u16, amount: Amount, heard: u64) -> PlainCall
        ensures { result ≡ plain_request kind receiver sid amount heard }
    {
        PlainCall {
            kind,
            receiver,
            sid,
            minislot: heard,
            ..PlainCall::of_amount(amount)
        }
    }

    // The numbers of a receiver's progress.
    fn of_heard(receiver: u8, upto: u64) -> PlainCall
        ensures { result ≡ plain_call (Call.Heard receiver upto) }
    {
        PlainCall {
            kind: kind::HEARD,
            receiver,
            minislot: upto,
            ..NOTHING
        }
    }

    // The numbers of an opportunity that is used so, for the modems of an SID.
    fn of_use(usage: u32, sid: u16) -> PlainCall
        ensures { result ≡ record nothing_called { flow = usage; sid = sid } }
    {
        PlainCall {
            flow: usage,
            sid,
            ..NOTHING
        }
    }

    // The numbers of what an opportunity is used for.
    fn of_usage(usage: Usage) -> PlainCall
        ensures { result ≡ plain_usage usage }
    {
        match usage {
            Usage::Initial => PlainCall::of_use(usage::INITIAL, 0),
            Usage::Station(sid) => PlainCall::of_use(usage::STATION, sid),
            Usage::InitialTo(sid) => PlainCall::of_use(usage::INITIAL_TO, sid),
            Usage::Request(sid) => PlainCall::of_use(usage::REQUEST, sid),
            Usage::Quiet => PlainCall::of_use(usage::QUIET, 0),
            Usage::DataTo(sid) => PlainCall::of_use(usage::DATA, sid),
        }
    }

    // The numbers of a Reserve.
    fn of_reserve(usage: Usage, slots: u32) -> PlainCall
        ensures { result ≡ plain_call (Call.Reserve usage slots) }
    {
        PlainCall {
            kind: kind::RESERVE,
            size: slots,
            ..PlainCall::of_usage(usage)
        }
    }

    // The numbers of a header.
    fn of_header(header: Header) -> PlainCall
        ensures { result ≡ plain_call (Call.Header header) }
    {
        PlainCall {
            kind: kind::HEADER,
            receiver: header.ucd_count,
            priority: header.ranging_start,
            grants: header.ranging_end,
            data_start: header.data_start,
            data_end: header.data_end,
            ..NOTHING
        }
    }

    // The numbers of a call: those that its kind has not are 0.
    pub(crate) fn of(call: Call) -> PlainCall
        ensures value { result ≡ plain_call call }
        ensures read { call_of result ≡ Some call }
    {
        match call {
            Call::Admit(sid, spec) => PlainCall::of_parameters(kind::ADMIT, sid, spec),
            Call::Remove(sid) => PlainCall::of_flow(kind::REMOVE, sid),
            Call::Ask {
                receiver,
                sid,
                amount,
                heard,
            } => PlainCall::of_request(kind::ASK, receiver, sid, amount, heard),
            Call::Heard { receiver, upto } => PlainCall::of_heard(receiver, upto),
            Call::Build { now } => PlainCall::of_minislot(kind::BUILD, now),
            Call::Skip { now } => PlainCall::of_minislot(kind::SKIP, now),
            Call::Status(sid) => PlainCall::of_flow(kind::STATUS, sid),
            Call::Reserve { usage, slots } => PlainCall::of_reserve(usage, slots),
            Call::Header(header) => PlainCall::of_header(header),
            Call::Replace {
                receiver,
                sid,
                amount,
                heard,
            } => PlainCall::of_request(kind::REPLACE, receiver, sid, amount, heard),
            Call::Change(sid, spec) => PlainCall::of_parameters(kind::CHANGE, sid, spec),
            Call::Rest(sid) => PlainCall::of_flow(kind::REST, sid),
            Call::Wake(sid) => PlainCall::of_flow(kind::WAKE, sid),
        }
    }
}
