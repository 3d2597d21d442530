//! What comes of a workplace that is closed.

use sched_history::Scheduler;
use ticket_core::MAX_SEATS;

/// A scheduler that was closed.
#[must_use]
pub struct Closed {
    /// The scheduler, with the calls that were recorded and not handed over, in the order of their tickets.
    pub scheduler: Scheduler,
    /// How many calls of the whole history each seat made, by the seats' numbers.
    pub counts: [u64; MAX_SEATS],
}
