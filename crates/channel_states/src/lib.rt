//! Which states a scheduler of a channel may be in, and what is wrong with another.
#![tactic(auto)]

mod channel;
mod fault;
mod flow;
mod flows;
mod frame;
mod nominal;
mod place;
mod possible;
mod reserves;

pub use fault::StateFault;
pub use possible::fault_of;
