//! What is asked of the scheduler.

use crate::amount::Amount;
use crate::opportunity::{Header, Usage};
use crate::spec::FlowSpec;

/// The most scripts, lists of calls, that are run at the same time.
pub const MAX_SCRIPTS: usize = 16;

/// The most Reserves that are neither met nor lapsed.
pub const MAX_RESERVES: usize = 64;

/// A call of the scheduler. Minislots are counted in 64 bits from the channel's timebase.
#[derive(Clone, Copy, Debug, PartialEq, Eq)]
pub enum Call {
    /// Admits a flow under this SID.
    Admit(u16, FlowSpec),
    /// Forgets a flow with its requests, its grants and its placement.
    Remove(u16),
    /// Hands in a bandwidth request for so much, heard by this receiver at this minislot.
    Ask {
        receiver: u8,
        sid: u16,
        amount: Amount,
        heard: u64,
    },
    /// Says that this receiver has handed in every request that it heard before this minislot.
    Heard {
        receiver: u8,
        upto: u64,
    },
    /// Builds the next MAP, at this minislot.
    Build {
        now: u64,
    },
    /// Leaves out the frames whose MAP would be late, at this minislot.
    Skip {
        now: u64,
    },
    /// Asks for a flow's bytes.
    Status(u16),
    /// Asks for an opportunity of so many minislots, whether or not a flow with the modem's SID is live.
    Reserve {
        usage: Usage,
        slots: u32,
    },
    /// Sets the UCD count and the exponents of the backoff windows for every MAP from the next one on.
    Header(Header),
    /// Hands in a bandwidth request, heard by this receiver at this minislot, that supersedes those before: the flow
    /// then waits for so much and no more. So does a request that tells the depth of a queue, and so does each request
    /// of a modem that may have one alone.
    Replace {
        receiver: u8,
        sid: u16,
        amount: Amount,
        heard: u64,
    },
    /// Gives a live flow these parameters in the place of its own, as a Dynamic Service Change does. What it asked for
    /// and what it was granted stay.
    Change(u16, FlowSpec),
    /// Lets an unsolicited flow rest: it is polled in the place of its grants, as unsolicited grants with activity
    /// detection are.
    Rest(u16),
    /// Gives an unsolicited flow that rests its grants again.
    Wake(u16),
}
