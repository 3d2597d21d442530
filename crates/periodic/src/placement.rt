//! What a periodic flow takes of one frame, and why it has no place.

use thiserror::Error;

/// What one grant or poll takes of one frame.
#[derive(Clone, Copy, Debug, PartialEq, Eq)]
pub struct Spot {
    /// The flow's SID.
    pub sid: u16,
    /// The bytes of an unsolicited grant, or none where it is a poll.
    pub size: Option<u32>,
    /// The first minislot, counted in the frame.
    pub offset: u16,
    /// How many minislots.
    pub slots: u16,
}

/// Why a flow was not placed.
#[derive(Clone, Copy, Debug, PartialEq, Eq, Error)]
pub enum PlaceFault {
    /// No lawful placement exists.
    #[error("no place")]
    NoPlace,
    /// Memory ran out.
    #[error("out of memory")]
    Memory,
}
