//! The configuration of a channel, and the test that it is lawful.

ghost use Rattle.std.specs.Prelude.{◌≡◌, ◌<◌, ◌^◌, IfOk, OnOk, IfErr};
ghost use Rattle.minislots.specs.Bursts.{HasBursts};
ghost use Rattle.minislots.specs.Config.{first_wrong, IsLawful};
ghost use Rattle.minislots.specs.Sizes.{grant_sizes};

mod fields;
mod ranges;
mod readers;

use crate::bursts::Bursts;
use crate::products::Products;
pub use ranges::FieldRule;
use std::fmt;
use std::marker::Model;
use thiserror::Error;

/// The configuration of one upstream channel, as it is handed in. Each limit is this profile's own.
#[derive(Clone, Copy, Debug, PartialEq, Eq)]
pub struct Config {
    /// Ticks of 6.25 microseconds in a minislot: a power of two from 1 to 128.
    pub ticks: u32,
    /// How many minislots a burst takes.
    pub bursts: Bursts,
    /// Minislots that one MAP describes: 16 to 1024.
    pub frame: u32,
    /// Frames after which the places of periodic flows repeat: 1 to 64.
    pub cycle: u32,
    /// Minislots of the request region at the head of each MAP: at least 1, with room for a burst
    /// of one byte behind it.
    pub req_slots: u32,
    /// Minislots of a poll: at least 1, at most what the request region leaves.
    pub poll_slots: u32,
    /// Minislots before its start at which a MAP must be built: at most 4096 less two frames.
    pub lead: u32,
    /// The longest grant that is a Short Data Grant, in minislots: at most a frame.
    pub short_max: u32,
    /// The bytes of a grant that a flow must be able to take to be served: 64 to 1522, and a burst
    /// of so many bytes fits behind the request region.
    pub quantum: u32,
    /// The most bytes of one data grant: from the quantum to 1048560.
    pub grant_cap: u32,
    /// How many receivers hear requests: 1 to 16.
    pub receivers: u8,
    /// How many recorded calls are kept at a time: 1 to 16777216.
    pub calls: u32,
    /// The minislot at which the first MAP starts: a multiple of the frame, at most 2^60.
    pub start: u64,
    /// The exponent of the first ranging backoff window: 0 to 15.
    pub ranging_start: u8,
    /// The exponent of the last ranging backoff window: 0 to 15.
    pub ranging_end: u8,
    /// The exponent of the first data backoff window: 0 to 15.
    pub data_start: u8,
    /// The exponent of the last data backoff window: 0 to 15.
    pub data_end: u8,
    /// The channel's ID.
    pub channel: u8,
    /// The UCD count.
    pub ucd_count: u8,
    /// The channel's physical layer, which decides the usage codes of data and unsolicited grants: 0 for a channel
    /// of TDMA bursts alone, 1 for one with Advanced PHY bursts.
    pub phy: u8,
    /// The most live flows: 1 to 8191.
    pub flows: u32,
    /// The most pending grants of a MAP: 1 to 125.
    pub pending: u32,
    /// The most grants and polls of an interval, all periodic flows together: at most 2560.
    pub periodic: u32,
    /// Whether an idle in which a poll has room is open to the requests of all modems: 1, else 0.
    pub open_idle: u8,
    /// Minislots for which nobody is granted any once a MAP goes by a new UCD: at most 4096, 0 for none.
    pub settle: u32,
}

/// The first field of a configuration that has no lawful value, in the order of the fields.
#[derive(Clone, Copy, Debug, PartialEq, Eq, Error)]
pub enum ConfigFault {
    Ticks,
    BytesPerSlot,
    Overhead,
    Bursts,
    Frame,
    Cycle,
    ReqSlots,
    PollSlots,
    Lead,
    ShortMax,
    Quantum,
    GrantCap,
    Receivers,
    Calls,
    Start,
    RangingStart,
    RangingEnd,
    DataStart,
    DataEnd,
    Phy,
    Flows,
    Pending,
    Periodic,
    OpenIdle,
    Settle,
}

impl fmt::Display for ConfigFault {
    fn fmt<W: fmt::Write>(&self, f: &mut fmt::Formatter<W>) -> fmt::Result {
        write!(f, "the configuration has no lawful {self:?}")
    }
}

/// What data grants go by, reckoned once for a configuration.
#[derive(Clone, Copy, Debug)]
pub(crate) struct GrantSizes {
    /// How many numbers of bytes, from 0 on, have bursts that are short enough by the profile of short data grants.
    pub(crate) short: u64,
    /// The minislots of a grant of the grant cap: most grants have so many bytes.
    pub(crate) cap_slots: u64,
    /// Whether such a grant is a short one.
    pub(crate) cap_is_short: bool,
    /// The most bytes of a short grant, or 0 where there is none.
    pub(crate) short_bytes: u64,
    /// The numbers of the profile of long data grants.
    pub(crate) by_long: Products,
    /// And of that of short ones.
    pub(crate) by_short: Products,
}

/// A configuration in which each field is lawful.
#[derive(Clone, Copy, Debug)]
pub struct Checked {
    config: Config,
    sizes: GrantSizes,
}

impl Model for Checked {
    ghost use Rattle.minislots.specs.declared.config.Config.{Config};

    ghost Value = { Config };

    ghost use Rattle.std.specs.Prelude.{◌≡◌, ◌<◌, ◌^◌};
    ghost use Rattle.std.proofs.Common.{ap, sym};
    ghost use Rattle.minislots.specs.Config.{IsLawful, HasBounds};
    ghost use Rattle.minislots.specs.Sizes.{grant_sizes};

    ghost view = { λ c. c.config };

    // The bounds follow from the first part, and stand here so that each reader knows its own.
    ghost invariant = { λ c. IsLawful c.config × HasBounds c.config
        × (c.sizes ≡ grant_sizes c.config) × (c.sizes.cap_slots < 2 ^ 46) };

    ghost inverse = { λ c. record { config = c; sizes = grant_sizes c } };

    ghost inverse_ok = { λ c kept. ap (λ n. record c { sizes = n }) (sym kept.2) };
}

impl Config {
    /// The configuration as it is, once each of its fields is known to be lawful. Otherwise the
    /// first field that is wrong, in the order of [`ConfigFault`].
    pub fn check(self) -> Result<Checked, ConfigFault>
        // A lawful configuration is given back as it was handed in.
        ensures ok { IfOk result (λ checked. checked ≡ self) }
        ensures lawful { OnOk result (IsLawful self) }

        // Of any other the first wrong field is named.
        ensures err { IfErr result (λ fault. first_wrong self ≡ Some fault) }
    {
        self.check_fields()?;
        let sizes = self.grant_sizes();
        Ok(Checked {
            config: self,
            sizes,
        })
    }

    // What data grants go by.
    fn grant_sizes(&self) -> GrantSizes
        requires { HasBursts self.now.bursts }
        ensures value { result ≡ grant_sizes self.now }
        ensures small { result.cap_slots < 2 ^ 46 }
    {
        let short = self.bursts.short_sizes(self.short_max);
        let cap = self.bursts.grant_size(short, self.grant_cap);
        GrantSizes {
            short,
            cap_slots: cap.slots,
            cap_is_short: cap.is_short,
            short_bytes: short.saturating_sub(1),
            by_long: self.bursts.long_products(),
            by_short: self.bursts.short_products(),
        }
    }
}

impl Checked {
    /// The configuration that was handed in.
    pub fn config(&self) -> Config
        ensures value { result ≡ self.now }
        ensures lawful { IsLawful self.now }
    {
        self.config
    }
}
