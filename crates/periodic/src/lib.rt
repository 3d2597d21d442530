//! The places of unsolicited grants and polls in the cycle of frames.
#![tactic(auto)]

mod adopt;
mod bits;
mod counts;
mod group;
mod placement;
mod row;
mod search;
mod spots;
mod table;
mod widest;

pub use placement::{PlaceFault, Spot};
pub use sched_calls::{Placement, Starts};
pub use table::Table;

/// The most grants and polls of one frame.
pub const MAX_SPOTS: usize = 40;

/// The most frames of a cycle.
const MAX_CYCLE: usize = 64;

/// The most starts of one placement: all grants of a flow in each frame of the longest cycle.
const MAX_STARTS: usize = 512;
