//! Times and bursts in minislots.

ghost use Rattle.std.specs.Prelude.{◌≡◌, ℕ, ◌<◌, ◌≤◌, ◌*◌, ◌^◌, min};
ghost use Rattle.minislots.specs.Bursts.{IsCapacity, AreSound};
ghost use Rattle.minislots.specs.Config.{IsLawful};
ghost use Rattle.minislots.specs.Units.{slots_floor, slots_of_micros, slots_for, bytes_in, wire_of};
ghost use Rattle.minislots.specs.Units.{is_short, slots_for_unsolicited};

use crate::bursts::{Bursts, Descriptors, GrantSize};
use crate::config::Checked;
use crate::products::{MOST_BYTES, MOST_SLOTS};

impl Checked {
    /// The minislots in a time of `micros` microseconds, where they are whole.
    pub fn slots_of_micros(&self, micros: u32) -> Option<u64>
        ensures { result ≡ slots_of_micros self.now micros }
    {
        let quarters = 4 * u64::from(micros);
        if quarters % self.quarter_micros() == 0 {
            Some(self.slots_floor(micros))
        } else {
            None
        }
    }

    /// The whole minislots in a time of `micros` microseconds.
    pub fn slots_floor(&self, micros: u32) -> u64
        ensures { result ≡ slots_floor self.now micros }
    {
        4 * u64::from(micros) / self.quarter_micros()
    }

    /// The minislots of a data grant of `bytes` bytes: preamble, guard time and the bytes with their parity, by the
    /// burst descriptor of its usage.
    #[inline(always)]
    pub fn slots_for(&self, bytes: u32) -> u64
        ensures value { result ≡ slots_for self.now bytes }
        ensures rises { (fewer : ℕ) → fewer ≤ bytes → slots_for self.now fewer ≤ result }
        ensures small { result < 2 ^ 46 }
    {
        self.grant_size(bytes).slots
    }

    /// The minislots of a data grant of `bytes` bytes ([`Checked::slots_for`]), and whether it is a short one: its
    /// burst by the profile of short grants has at most `short_max` minislots, and no more than by that of long ones.
    #[inline(always)]
    pub fn grant_size(&self, bytes: u32) -> GrantSize
        ensures slots { result.slots ≡ slots_for self.now bytes }
        ensures usage { result.is_short ≡ is_short self.now bytes }
        ensures lawful { IsLawful self.now }
        ensures small { result.slots < 2 ^ 46 }
    {
        if bytes == self.grant_cap() {
            return GrantSize {
                slots: self.sizes().cap_slots,
                is_short: self.sizes().cap_is_short,
            };
        }
        match self.as_bursts() {
            Bursts::Uniform { .. } => self.as_bursts().grant_size(self.sizes().short, bytes),
            Bursts::Described(these) => self.described_size(these, bytes),
        }
    }

    // The same by these descriptors, which are those of the channel.
    #[inline(never)]
    fn described_size(&self, these: &Descriptors, bytes: u32) -> GrantSize
        requires these { self.now.bursts ≡ Bursts.Described these.now }
        requires sound { AreSound these.now }
        ensures slots { result.slots ≡ slots_for self.now bytes }
        ensures usage { result.is_short ≡ is_short self.now bytes }
        ensures small { result.slots < 2 ^ 46 }
    {
        if bytes == 0 || bytes > MOST_BYTES {
            return self.as_bursts().grant_size(self.sizes().short, bytes);
        }
        let (sizes, before) = (self.sizes(), bytes - 1);
        let long = sizes.by_long.slots(these.symbols, &these.long, before);
        if u64::from(before) >= sizes.short_bytes {
            return GrantSize {
                slots: long,
                is_short: false,
            };
        }
        let short = sizes.by_short.slots(these.symbols, &these.short, before);
        GrantSize {
            slots: long.min(short),
            is_short: short <= long,
        }
    }

    /// The most bytes of a data grant of at most `slots` minislots, or 0 where there is none.
    #[inline(always)]
    pub fn bytes_in(&self, slots: u32) -> u64
        ensures value { result ≡ bytes_in self.now slots }
        ensures exact { IsCapacity (slots_for self.now) slots result }
    {
        match self.as_bursts() {
            Bursts::Uniform { .. } => {
                self.as_bursts()
                    .bytes(self.short_max(), self.sizes().short, slots)
            }
            Bursts::Described(these) => self.described_bytes(these, slots),
        }
    }

    // The same by these descriptors, which are those of the channel.
    #[inline(never)]
    fn described_bytes(&self, these: &Descriptors, slots: u32) -> u64
        requires these { self.now.bursts ≡ Bursts.Described these.now }
        requires sound { AreSound these.now }
        ensures { result ≡ bytes_in self.now slots }
    {
        if slots > MOST_SLOTS {
            return self
                .as_bursts()
                .bytes(self.short_max(), self.sizes().short, slots);
        }
        let sizes = self.sizes();
        let long = sizes.by_long.bytes(these.symbols, &these.long, slots);
        if slots < self.short_max() {
            return long.max(sizes.by_short.bytes(these.symbols, &these.short, slots));
        }
        long.max(sizes.short_bytes)
    }

    /// The most bytes that the grant cap leaves to a data grant of at most `slots` minislots.
    #[inline(always)]
    pub fn most_in(&self, slots: u32) -> u64
        ensures { result ≡ min (bytes_in self.now slots) self.now.grant_cap }
    {
        let cap = u64::from(self.grant_cap());
        if self.sizes().cap_slots <= u64::from(slots) {
            return cap;
        }
        self.bytes_in(slots).min(cap)
    }

    /// The minislots of an unsolicited grant of `bytes` bytes: those of a data grant, or with Advanced PHY bursts those
    /// of the profile of its own.
    pub fn slots_for_unsolicited(&self, bytes: u32) -> u64
        ensures { result ≡ slots_for_unsolicited self.now bytes }
    {
        if self.phy() == 1 {
            self.as_bursts().unsolicited_slots(bytes)
        } else {
            self.slots_for(bytes)
        }
    }

    // The quarters of a microsecond in a minislot: 25 in each tick.
    fn quarter_micros(&self) -> u64
        ensures value { result ≡ 25 * self.now.ticks }
        ensures positive { 0 < result }
    {
        25 * u64::from(self.ticks())
    }
}

/// What stands on the wire for a minislot: the low 32 bits of its number.
pub fn wire(slot: u64) -> u32
    ensures { result ≡ wire_of slot }
{
    (slot & 0xffff_ffff) as u32
}
