//! What the scheduler answers.

ghost use Rattle.std.specs.Prelude.{◌≡◌, IfOk, OnErr};
ghost use Rattle.sched_calls.specs.Reply.{OwnsMemory};

use crate::call::Call;
use crate::frame_map::FrameMap;
use crate::placement::Placement;
use crate::spec::FlowFault;
use minislots::Stamp;
use std::alloc::{AllocError, Global};
use thiserror::Error;

/// The most entries of a history that are in memory at a time.
pub const MAX_ENTRIES: usize = 16_777_216;

/// The most entries of a whole history, 2^44, with those that were handed over: each sum over them fits its type.
pub const MAX_WHOLE_HISTORY: u64 = 17_592_186_044_416;

/// Why a call is refused. The tests are made in this order, and the first that holds is answered. A
/// refusal is recorded, and changes nothing else.
#[derive(Clone, Copy, Debug, PartialEq, Eq)]
pub enum Refusal {
    /// The SID is 0 or above 8191.
    BadSid,
    /// The SID is live already.
    SidLive,
    /// The parameters of the flow are refused.
    BadFlow(FlowFault),
    /// As many flows are live as `flows` of the configuration.
    FlowsFull,
    /// The grants per interval of the live periodic flows and of this one are more than `periodic` of the
    /// configuration.
    PeriodicFull,
    /// No lawful placement exists.
    NoPlace,
    /// The SID is not live.
    NoFlow,
    /// The flow is unsolicited, so it asks for nothing.
    NotAsking,
    /// There is no such receiver.
    BadReceiver,
    /// The bytes are 0 or above [`minislots::MAX_ASK`].
    BadBytes,
    /// The request was heard before this progress of its receiver.
    Acked(u64),
    /// The minislot is not described by a MAP yet: the next one starts here.
    Ahead(u64),
    /// The receiver's progress is here already.
    Backwards(u64),
    /// The clock is above 2^60.
    BadClock,
    /// The frame that starts here would end more than 4096 minislots ahead.
    TooEarly(u64),
    /// The frame that starts here is less than the lead ahead.
    Late(u64),
    /// The frame that starts here is not late.
    NotLate(u64),
    /// The minislots are 0, or more than a frame has behind its request region.
    BadLength,
    /// [`MAX_RESERVES`](crate::MAX_RESERVES) Reserves are neither met nor lapsed.
    ReservesFull,
    /// An exponent of a backoff window is above 15.
    BadBackoff,
    /// The flow is live with parameters of another kind.
    OtherKind,
    /// The flow is not unsolicited.
    NotUnsolicited,
    /// The grant of the flow has fewer minislots than a poll.
    TooShort,
}

/// What the scheduler answers to a call that it records.
#[derive(Debug, Drop)]
pub enum Reply {
    /// The flow is live, a periodic one with this placement.
    Admitted(Option<Placement>),
    /// The flow has its new parameters, a periodic one with this placement.
    Changed(Option<Placement>),
    /// The flow is forgotten.
    Removed,
    /// The request is counted.
    Taken,
    /// The progress, the header, or that the flow rests or wakes, is noted.
    Noted,
    /// The opportunity waits for a MAP.
    Reserved,
    /// The MAP of the next frame.
    Built(FrameMap),
    /// The start of the frame that the next MAP describes.
    Skipped(u64),
    /// Bytes asked, granted and outstanding since the flow was admitted: zeros for an unsolicited one.
    Flow {
        asked: u64,
        granted: u64,
        outstanding: u64,
    },
    /// The call changes nothing.
    Refused(Refusal),
}

impl Reply {
    /// The same reply again. Takes memory where it has a placement or a MAP, and else none.
    pub fn copy(&self, alloc: Global) -> Result<Reply, AllocError>
        ensures ok { IfOk result (λ reply. reply ≡ self.now) }
        ensures memory { OnErr result (OwnsMemory self.now) }
    {
        Ok(match self {
            Reply::Admitted(None) => Reply::Admitted(None),
            Reply::Admitted(Some(placement)) => { Reply::Admitted(Some(placement.copy(alloc)?)) }
            Reply::Changed(None) => Reply::Changed(None),
            Reply::Changed(Some(placement)) => { Reply::Changed(Some(placement.copy(alloc)?)) }
            Reply::Removed => Reply::Removed,
            Reply::Taken => Reply::Taken,
            Reply::Noted => Reply::Noted,
            Reply::Reserved => Reply::Reserved,
            Reply::Built(map) => Reply::Built(map.copy(alloc)?),
            Reply::Skipped(next) => Reply::Skipped(*next),
            Reply::Flow {
                asked,
                granted,
                outstanding,
            } => Reply::Flow {
                asked: *asked,
                granted: *granted,
                outstanding: *outstanding,
            },
            Reply::Refused(refusal) => Reply::Refused(*refusal),
        })
    }
}

/// A call with its reply, and who made it.
#[derive(Debug, Drop)]
pub struct Entry {
    /// The seat and the ticket of the call.
    pub stamp: Stamp,
    /// What was asked.
    pub call: Call,
    /// What was answered.
    pub reply: Reply,
}

/// Why a call was not recorded. It changed nothing.
#[derive(Clone, Copy, Debug, PartialEq, Eq, Error)]
pub enum Unrecorded {
    /// As many entries are kept as the configuration allows, or the whole history has [`MAX_WHOLE_HISTORY`].
    #[error("history full")]
    HistoryFull,
    /// Memory ran out.
    #[error("out of memory")]
    Memory,
}
