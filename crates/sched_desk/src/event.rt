//! What turns at a desk add to the list of its lock.

use minislots::Stamp;
use sched_history::Entry;

/// What a turn at a desk adds to the list of its lock: an entry of the history, or a mark. No value of it is made.
#[derive(Drop)]
pub enum Event {
    /// A call was recorded, with its reply.
    Recorded(Entry),
    /// Whoever held the desk, with this stamp, was given what was kept, or let go of it.
    Marked(Stamp),
}
