//! What tests of several crates share: a configuration, and numbers that are drawn.

pub mod draws;

use minislots::{Bursts, Checked, Config};
use std::process::Abort;

/// Minislots of 25 microseconds and 16 bytes, in frames of 40.
pub const BASE: Config = Config {
    ticks: 4,
    bursts: Bursts::Uniform {
        bytes_per_slot: 16,
        overhead: 2,
    },
    frame: 40,
    cycle: 20,
    req_slots: 4,
    poll_slots: 2,
    lead: 40,
    short_max: 8,
    quantum: 64,
    grant_cap: 2000,
    receivers: 1,
    calls: 1000,
    start: 800,
    ranging_start: 0,
    ranging_end: 0,
    data_start: 0,
    data_end: 0,
    channel: 3,
    ucd_count: 1,
    phy: 0,
    flows: 64,
    pending: 64,
    periodic: 40,
    open_idle: 0,
    settle: 0,
};

/// The configuration, which is lawful.
pub fn checked(rt: &impl Abort, config: Config) -> Checked {
    match config.check() {
        Ok(checked) => checked,
        Err(_) => panic!(rt; "the configuration is lawful"),
    }
}
