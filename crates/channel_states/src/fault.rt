//! What may be wrong with a state.

use thiserror::Error;

/// Why a channel cannot be in a state: the first fault in this order.
#[derive(Clone, Copy, Debug, PartialEq, Eq, Error)]
pub enum StateFault {
    /// There are more entries than a whole history may have.
    #[error("entries")]
    Entries,
    /// The acknowledge time, the progress of the receivers and the start of the next frame do not follow one another
    /// from the channel's start on, a receiver has none, or the next frame is no whole one within the greatest clock.
    #[error("times")]
    Times,
    /// An exponent of a backoff window is above 15.
    #[error("header")]
    Header,
    /// The last MAP that changed the UCD count starts at no frame that was described.
    #[error("change")]
    Change,
    /// The flows are not in order of SID, each with its own.
    #[error("SIDs of the flows")]
    Sids,
    /// There are more flows, or more grants per interval, than the configuration has it.
    #[error("number of the flows")]
    Limits,
    /// The SID, parameters, bytes, last grant, levels, place or batches of a flow cannot be what they are: the first
    /// such flow has this SID.
    #[error("flow {0}")]
    Flow(u16),
    /// Two flows have a minislot in common, or a frame has too many starts.
    #[error("places of the flows")]
    Places,
    /// More flows wait from before the acknowledge time than a MAP shows.
    #[error("flows that wait")]
    Waiting,
    /// There are too many Reserves, they are not in order, or one cannot wait.
    #[error("Reserves")]
    Reserves,
}
