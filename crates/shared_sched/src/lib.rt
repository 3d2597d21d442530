//! The upstream scheduler under a ticket lock: many threads call it, it keeps one history, and readers read its MAPs
//! with no lock.
#![tactic(auto)]

mod calling;
mod closing;
mod fault;
mod opening;
mod shared;

pub use closing::Closed;
pub use fault::OpenFault;
pub use opening::{open, open_without_end};
pub use sched_desk::{DeskHead, count_each, one_holder};
pub use shared::{Desk, Shared};
