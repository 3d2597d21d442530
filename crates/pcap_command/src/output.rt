//! What a run on the channel writes.

/// What a run on the channel writes.
#[derive(Clone, Copy, Debug, PartialEq, Eq)]
pub enum WireOutput {
    /// One line for the answer to each call; that of a MAP has its whole frame in hexadecimal.
    Lines,
    /// The frames of the MAPs, in a capture of the classic form of pcap.
    Capture,
}
