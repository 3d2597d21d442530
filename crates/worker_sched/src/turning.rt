//! How a turn begins, and how one ends that hands over what is kept, or lets go of it.

use sched_history::{Entry, HandedOver};

/// How a turn begins.
#[derive(Clone, Copy, Debug, PartialEq, Eq, Drop)]
pub enum Begin {
    /// The turn has begun.
    Entered,
    /// The ticket is not served yet.
    NotYet,
    /// The worker has no ticket.
    NoTicket,
}

/// How a turn ends that hands over what is kept.
#[derive(Drop)]
pub enum HandOver {
    /// The turn ended: what was kept, or the list that was to be exchanged for it.
    Ended(Result<HandedOver, Vec<Entry>>),
    /// The ticket is not served yet, and the list comes back.
    NotYet(Vec<Entry>),
    /// The worker has no ticket, and the list comes back.
    NoTicket(Vec<Entry>),
}

/// How a turn ends that lets go of what is kept.
#[derive(Drop)]
pub enum Forget {
    /// The turn ended, and whether what was kept was let go.
    Ended(bool),
    /// The ticket is not served yet.
    NotYet,
    /// The worker has no ticket.
    NoTicket,
}
