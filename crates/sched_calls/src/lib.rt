//! The calls of the upstream scheduler, its replies and the entries of its history, as plain values.
#![tactic(auto)]

mod amount;
mod call;
mod check;
mod frame_map;
mod opportunity;
mod placement;
mod reply;
mod spec;
mod state;

pub use amount::Amount;
pub use call::{Call, MAX_RESERVES, MAX_SCRIPTS};
pub use frame_map::{ByteCounts, FrameMap};
pub use opportunity::{Header, Opportunity, Usage};
pub use placement::{Placement, Starts};
pub use reply::{Entry, MAX_ENTRIES, MAX_WHOLE_HISTORY, Refusal, Reply, Unrecorded};
pub use spec::{FlowFault, FlowSpec, PEAK_BURST};
pub use state::{
    BatchState, ChannelState, FlowState, FlowStates, PlaceState, Progress, ReserveState,
    ReserveStates,
};

/// The most grants of an unsolicited flow in one nominal interval.
pub const MAX_GRANTS: u8 = 8;
