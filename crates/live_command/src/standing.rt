//! How a conversation stands when its numbers are asked for.

use sched_history::Backlog;

/// How a conversation stands when its numbers are asked for.
#[derive(Clone, Copy)]
pub(crate) struct Standing {
    /// What waits for data grants.
    pub backlog: Backlog,
    /// How many Reserves have lapsed since it began.
    pub lapsed: u64,
    /// How many bytes of its journal it has written.
    pub journal_bytes: u64,
}
