//! Why a lock was not opened.
use thiserror::Error;

/// Why a lock was not opened, in the order of the tests.
#[derive(Clone, Copy, Debug, PartialEq, Eq, Drop, Error)]
pub enum LockFault {
    /// The number of seats is not from 1 to 64.
    #[error("a lock has 1 to 64 seats")]
    SeatCount,
    /// There was no memory for the words, the slot or the seats.
    #[error("out of memory")]
    Memory,
}
