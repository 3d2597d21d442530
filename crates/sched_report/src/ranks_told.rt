//! The ranks that asked, in the order in which they are served, as they are told.

use crate::life::POLLED;
use crate::ranks::RankNumbers;

/// The ranks, from the one that is served first on.
pub const RANKS: [u8; 9] = [POLLED, 7, 6, 5, 4, 3, 2, 1, 0];

/// The numbers of a rank.
#[derive(Clone, Copy)]
pub struct RankTold {
    /// The rank: [`POLLED`], or else a priority.
    pub rank: u8,
    /// The numbers of all lives of that rank.
    pub numbers: RankNumbers,
}
