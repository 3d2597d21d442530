//! Why no press was opened.
use thiserror::Error;

/// Why no press was opened, in the order of the tests.
#[derive(Clone, Copy, Debug, PartialEq, Eq, Drop, Error)]
pub enum PressFault {
    /// There were to be more than 16 readers.
    #[error("a press has at most 16 readers")]
    ReaderCount,
    /// There was no memory for the press or its readers.
    #[error("out of memory")]
    Memory,
}
