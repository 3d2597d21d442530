//! Why no scheduler was opened.
use thiserror::Error;

/// Why no scheduler was opened, in the order of the tests.
#[derive(Clone, Copy, Debug, PartialEq, Eq, Drop, Error)]
pub enum OpenFault {
    /// The number of seats is not from 1 to 64.
    #[error("a scheduler has 1 to 64 seats")]
    SeatCount,
    /// There were to be more than 16 readers.
    #[error("a scheduler has at most 16 readers")]
    ReaderCount,
    /// There was no memory for the scheduler, its history, the press, the readers, the lock or the seats.
    #[error("out of memory")]
    Memory,
}
