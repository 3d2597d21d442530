//! How a channel did: the numbers of a history, which is taken entry by entry and kept nowhere.
#![tactic(auto)]

mod calls;
mod extremes;
mod gaps;
mod lags;
mod life;
mod lives;
mod named;
mod outlook;
mod percentiles;
mod ranks;
mod ranks_told;
mod refused_sids;
mod reporter;
mod requests;
mod service;
mod slots;
mod spread;
mod tally;
mod totals;
mod waits;

pub use calls::Calls;
pub use extremes::Extremes;
pub use lags::RECEIVERS;
pub use life::{LifeNumbers, POLLED};
pub use ranks::{RankNumbers, RankSums};
pub use ranks_told::{RANKS, RankTold};
pub use reporter::Reporter;
pub use service::{Delays, Request, Service, Sums};
pub use slots::{Slots, Use};
pub use spread::EXACT;
pub use totals::Totals;
