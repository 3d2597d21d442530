//! The flows of one upstream channel: their parameters, what they asked and were granted, and which
//! of them a minislot is granted to.
#![tactic(auto)]

mod batches;
mod book;
mod bucket;
mod channel;
mod flow;
mod flow_list;
mod flows;
mod gap;
mod granted;
mod limits;
mod line;
mod opening;
mod overlay;
mod parts;
mod queue;
mod queue_list;
mod shown;
mod soonest;
mod standing;
mod state;
mod taking;
mod tiers;
mod waiting;

pub use batches::Batches;
pub use book::Book;
pub use bucket::Bucket;
pub use flow::{Grant, Served};
pub use overlay::Overlay;
pub use sched_calls::{FlowFault, FlowSpec, MAX_GRANTS};
pub use shown::Shown;
pub use standing::Standing;
