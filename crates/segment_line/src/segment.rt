//! What the first line of a segment stands for.

use minislots::Checked;
use sched_calls::ChannelState;

/// The most bytes of a first line, beside its newline.
pub const MAX_FIRST_LINE: usize = 8_388_608;

/// A segment that goes on after others: what its first line has.
#[derive(Drop)]
pub struct Segment {
    /// The configuration, which all segments of a chain have.
    pub config: Checked,
    /// Its number in the chain, where the first segment, that of a journal without a state, has number 1.
    pub number: u64,
    /// The state after the entries of the segments before it.
    pub state: ChannelState,
}

/// What a first line stands for.
#[derive(Drop)]
pub enum FirstLine {
    /// The first segment, under this configuration.
    First(Checked),
    /// A later one.
    Later(Segment),
}
