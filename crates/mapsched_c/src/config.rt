//! A configuration in plain numbers.

ghost use Rattle.std.specs.Prelude.{◌≡◌};
ghost use Rattle.mapsched_c.specs.Config.{bursts_of, or_missing, periodic_of, config_of};

use crate::bursts::PlainBursts;
use minislots::{Bursts, Config};

/// The fields of a [`Config`] by their sizes, and behind them what a channel may lack: it lacks what is 0.
#[repr(C)]
#[derive(Clone, Copy)]
pub struct PlainConfig {
    /// Ticks of 6.25 microseconds in a minislot.
    pub ticks: u32,
    /// Bytes that a minislot carries, where there are no burst descriptors.
    pub bytes_per_slot: u32,
    /// Minislots of guard time and preamble in each burst, where there are no burst descriptors.
    pub overhead: u32,
    /// Minislots that one MAP describes.
    pub frame: u32,
    /// Frames after which the places of periodic flows repeat.
    pub cycle: u32,
    /// Minislots of the request region at the head of each MAP.
    pub req_slots: u32,
    /// Minislots of a poll.
    pub poll_slots: u32,
    /// Minislots before its start at which a MAP must be built.
    pub lead: u32,
    /// The longest grant that is a Short Data Grant, in minislots.
    pub short_max: u32,
    /// The bytes of a grant that a flow must be able to take to be served.
    pub quantum: u32,
    /// The most bytes of one data grant.
    pub grant_cap: u32,
    /// How many recorded calls are kept at a time.
    pub calls: u32,
    /// The minislot at which the first MAP starts.
    pub start: u64,
    /// How many receivers hear requests.
    pub receivers: u8,
    /// The exponent of the first ranging backoff window.
    pub ranging_start: u8,
    /// The exponent of the last ranging backoff window.
    pub ranging_end: u8,
    /// The exponent of the first data backoff window.
    pub data_start: u8,
    /// The exponent of the last data backoff window.
    pub data_end: u8,
    /// The channel's ID.
    pub channel: u8,
    /// The UCD count.
    pub ucd_count: u8,
    /// 0 for a channel of TDMA bursts alone, 1 for one with Advanced PHY bursts.
    pub phy: u8,
    /// 1 where an idle that holds a poll is open to the requests of all modems, else 0.
    pub open_idle: u8,
    /// Whether there are burst descriptors: 0 where there are none.
    pub has_bursts: u32,
    /// The burst descriptors, where there are some.
    pub bursts: PlainBursts,
    /// The most live flows: 64 where it is 0.
    pub flows: u32,
    /// The most pending grants of a MAP: 64 where it is 0.
    pub pending: u32,
    /// Whether there is a limit of periodic grants: 0 where there is none.
    pub has_periodic: u32,
    /// The most grants and polls of an interval, all periodic flows together: 40 where there is no limit.
    pub periodic: u32,
    /// Minislots for which nobody is granted any once a MAP goes by a new UCD.
    pub settle: u32,
}

// The number that stands, or the one of a missing field where it is 0.
fn or_missing(number: u32, missing: u32) -> u32
    ensures { result ≡ or_missing number missing }
{
    if number == 0 { missing } else { number }
}

impl PlainConfig {
    // How many minislots a burst takes by these numbers.
    fn bursts_of(&self) -> Bursts
        ensures { result ≡ bursts_of self.now }
    {
        if self.has_bursts == 0 {
            Bursts::Uniform {
                bytes_per_slot: self.bytes_per_slot,
                overhead: self.overhead,
            }
        } else {
            Bursts::Described(self.bursts.descriptors())
        }
    }

    // The most grants and polls of an interval by these numbers.
    fn periodic_of(&self) -> u32
        ensures { result ≡ periodic_of self.now }
    {
        if self.has_periodic == 0 {
            40
        } else {
            self.periodic
        }
    }

    // The configuration of these numbers.
    pub(crate) fn config(&self) -> Config
        ensures { result ≡ config_of self.now }
    {
        Config {
            ticks: self.ticks,
            bursts: self.bursts_of(),
            frame: self.frame,
            cycle: self.cycle,
            req_slots: self.req_slots,
            poll_slots: self.poll_slots,
            lead: self.lead,
            short_max: self.short_max,
            quantum: self.quantum,
            grant_cap: self.grant_cap,
            receivers: self.receivers,
            calls: self.calls,
            start: self.start,
            ranging_start: self.ranging_start,
            ranging_end: self.ranging_end,
            data_start: self.data_start,
            data_end: self.data_end,
            channel: self.channel,
            ucd_count: self.ucd_count,
            phy: self.phy,
            flows: or_missing(self.flows, 64),
            pending: or_missing(self.pending, 64),
            periodic: self.periodic_of(),
            open_idle: self.open_idle,
            settle: self.settle,
        }
    }
}
