//! A reader for each field of a lawful configuration.

ghost use Rattle.std.specs.Prelude.{◌≡◌, ◌<◌, ◌≤◌, ◌+◌, ◌*◌, ◌%◌, ◌^◌};
ghost use Rattle.minislots.specs.declared.TheConstants.{MAX_ASK};
ghost use Rattle.minislots.specs.Bursts.{HasBursts, long_slots};
ghost use Rattle.minislots.specs.Config.{IsLawful};
ghost use Rattle.minislots.specs.Sizes.{grant_sizes};

use super::{Checked, GrantSizes};
use crate::bursts::Bursts;

impl Checked {
    /// The ticks of 6.25 microseconds in a minislot.
    pub fn ticks(&self) -> u32
        ensures value { result ≡ self.now.ticks }
        ensures lawful { IsLawful self.now }
        ensures positive { 0 < result }
    {
        self.config.ticks
    }

    /// How many minislots a burst takes.
    pub fn bursts(&self) -> Bursts
        ensures value { result ≡ self.now.bursts }
        ensures lawful { IsLawful self.now }
        ensures sound { HasBursts result }
    {
        self.config.bursts
    }

    // The same where it stands, since a copy costs more than most questions to it.
    #[inline(always)]
    pub(crate) fn as_bursts(&self) -> &Bursts
        ensures value { result.now ≡ self.now.bursts }
        ensures lawful { IsLawful self.now }
        ensures sound { HasBursts result.now }
    {
        &self.config.bursts
    }

    // What data grants go by.
    #[inline(always)]
    pub(crate) fn sizes(&self) -> &GrantSizes
        ensures value { result.now ≡ grant_sizes self.now }
        ensures small { result.now.cap_slots < 2 ^ 46 }
    {
        &self.sizes
    }

    /// The minislots that one MAP describes.
    pub fn frame(&self) -> u32
        ensures value { result ≡ self.now.frame }
        ensures lawful { IsLawful self.now }
        ensures least { 16 ≤ result }
        ensures most { result ≤ 1024 }
    {
        self.config.frame
    }

    /// The frames after which the places of periodic flows repeat.
    pub fn cycle(&self) -> u32
        ensures value { result ≡ self.now.cycle }
        ensures lawful { IsLawful self.now }
        ensures positive { 0 < result }
    {
        self.config.cycle
    }

    /// The minislots of the request region at the head of each MAP.
    pub fn req_slots(&self) -> u32
        ensures value { result ≡ self.now.req_slots }
        ensures lawful { IsLawful self.now }
        ensures positive { 0 < result }
        ensures fits { result + long_slots self.now.bursts 1 ≤ self.now.frame }
    {
        self.config.req_slots
    }

    /// The minislots of a poll.
    pub fn poll_slots(&self) -> u32
        ensures value { result ≡ self.now.poll_slots }
        ensures lawful { IsLawful self.now }
        ensures positive { 0 < result }
        ensures fits { result + self.now.req_slots ≤ self.now.frame }
    {
        self.config.poll_slots
    }

    /// How many minislots before its start a MAP must be built.
    pub fn lead(&self) -> u32
        ensures value { result ≡ self.now.lead }
        ensures lawful { IsLawful self.now }
        ensures most { result + 2 * self.now.frame ≤ 4096 }
    {
        self.config.lead
    }

    /// The longest Short Data Grant, in minislots.
    pub fn short_max(&self) -> u32
        ensures value { result ≡ self.now.short_max }
        ensures lawful { IsLawful self.now }
        ensures most { result ≤ self.now.frame }
    {
        self.config.short_max
    }

    /// The bytes of a grant that a flow must be able to take to be served.
    pub fn quantum(&self) -> u32
        ensures value { result ≡ self.now.quantum }
        ensures lawful { IsLawful self.now }
        ensures least { 64 ≤ result }
        ensures most { result ≤ 1522 }
    {
        self.config.quantum
    }

    /// The most bytes of one data grant.
    pub fn grant_cap(&self) -> u32
        ensures value { result ≡ self.now.grant_cap }
        ensures lawful { IsLawful self.now }
        ensures least { self.now.quantum ≤ result }
        ensures most { result ≤ MAX_ASK }
    {
        self.config.grant_cap
    }

    /// How many receivers hear requests.
    pub fn receivers(&self) -> u8
        ensures value { result ≡ self.now.receivers }
        ensures lawful { IsLawful self.now }
    {
        self.config.receivers
    }

    /// How many calls are recorded.
    pub fn calls(&self) -> u32
        ensures value { result ≡ self.now.calls }
        ensures lawful { IsLawful self.now }
        ensures positive { 0 < result }
        ensures most { result ≤ 16777216 }
    {
        self.config.calls
    }

    /// The minislot at which the first MAP starts.
    pub fn start(&self) -> u64
        ensures value { result ≡ self.now.start }
        ensures lawful { IsLawful self.now }
        ensures aligned { result % self.now.frame ≡ 0 }
        ensures most { result ≤ 2 ^ 60 }
    {
        self.config.start
    }

    /// The exponent of the first ranging backoff window.
    pub fn ranging_start(&self) -> u8
        ensures value { result ≡ self.now.ranging_start }
        ensures lawful { IsLawful self.now }
    {
        self.config.ranging_start
    }

    /// The exponent of the last ranging backoff window.
    pub fn ranging_end(&self) -> u8
        ensures value { result ≡ self.now.ranging_end }
        ensures lawful { IsLawful self.now }
    {
        self.config.ranging_end
    }

    /// The exponent of the first data backoff window.
    pub fn data_start(&self) -> u8
        ensures value { result ≡ self.now.data_start }
        ensures lawful { IsLawful self.now }
    {
        self.config.data_start
    }

    /// The exponent of the last data backoff window.
    pub fn data_end(&self) -> u8
        ensures value { result ≡ self.now.data_end }
        ensures lawful { IsLawful self.now }
    {
        self.config.data_end
    }

    /// The channel's ID.
    pub fn channel(&self) -> u8
        ensures value { result ≡ self.now.channel }
        ensures lawful { IsLawful self.now }
    {
        self.config.channel
    }

    /// The UCD count.
    pub fn ucd_count(&self) -> u8
        ensures value { result ≡ self.now.ucd_count }
        ensures lawful { IsLawful self.now }
    {
        self.config.ucd_count
    }

    /// The channel's physical layer: 0 for TDMA bursts alone, 1 with Advanced PHY bursts.
    pub fn phy(&self) -> u8
        ensures value { result ≡ self.now.phy }
        ensures lawful { IsLawful self.now }
        ensures most { result ≤ 1 }
    {
        self.config.phy
    }

    /// The most live flows.
    pub fn flows(&self) -> u32
        ensures value { result ≡ self.now.flows }
        ensures lawful { IsLawful self.now }
        ensures positive { 0 < result }
        ensures most { result ≤ 8191 }
    {
        self.config.flows
    }

    /// The most pending grants of a MAP.
    pub fn pending(&self) -> u32
        ensures value { result ≡ self.now.pending }
        ensures lawful { IsLawful self.now }
        ensures positive { 0 < result }
        ensures most { result ≤ 125 }
    {
        self.config.pending
    }

    /// The most grants and polls of an interval, all periodic flows together.
    pub fn periodic(&self) -> u32
        ensures value { result ≡ self.now.periodic }
        ensures lawful { IsLawful self.now }
        ensures most { result ≤ 2560 }
    {
        self.config.periodic
    }

    /// Whether an idle in which a poll has room is open to the requests of all modems: 1, else 0.
    pub fn open_idle(&self) -> u8
        ensures value { result ≡ self.now.open_idle }
        ensures lawful { IsLawful self.now }
        ensures most { result ≤ 1 }
    {
        self.config.open_idle
    }

    /// The minislots for which nobody is granted any once a MAP goes by a new UCD.
    pub fn settle(&self) -> u32
        ensures value { result ≡ self.now.settle }
        ensures lawful { IsLawful self.now }
        ensures most { result ≤ 4096 }
    {
        self.config.settle
    }
}
