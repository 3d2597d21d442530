//! Who made a call.

/// The seat of the lock that made a call, and the ticket that it held.
#[derive(Clone, Copy, Debug, PartialEq, Eq)]
pub struct Stamp {
    /// The seat's number, from 0.
    pub seat: u32,
    /// The ticket, modulo 2^64.
    pub ticket: u64,
}
