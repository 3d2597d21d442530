//! Minislots of one upstream TDMA channel: the channel's configuration, and times and bursts counted
//! in minislots.
#![tactic(auto)]

mod bursts;
mod config;
mod products;
mod stamp;
mod units;

pub use bursts::{Bursts, Descriptors, GrantSize, Profile};
pub use config::{Checked, Config, ConfigFault, FieldRule};
pub use stamp::Stamp;
pub use units::wire;

/// The most bytes that a request can ask for, and the most that a configuration lets one data grant have.
pub const MAX_ASK: u32 = 1_048_560;
