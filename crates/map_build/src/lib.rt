//! The MAP of one frame: which flow has which minislots.
#![tactic(auto)]

mod draft;
mod frame;
mod met;
mod opportunity;
mod purpose;
mod settling;
mod usage_codes;
mod walk;

pub use frame::{PlannedFrame, plan_frame, plan_with_book};
pub use met::{Met, meets_at, met_in};
pub use purpose::{Allocation, Kind, Purpose};
pub use sched_calls::{ByteCounts, FrameMap, Header, Opportunity, Usage};
pub use settling::plan_settling;

/// The most data grants of one MAP, where no opportunity waits for it. Each that waits takes the place of one.
pub const MAX_DATA_GRANTS: usize = 93;

/// The most data grants and pending grants of one MAP together.
pub const MAX_GRANTS_AND_PENDING: usize = 157;

/// The most opportunities that wait for one MAP.
pub const MAX_WAITING: usize = 16;
