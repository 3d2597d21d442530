//! Bursts: the minislots that so many bytes take on the wire (burst descriptors of the UCD, Reed-Solomon codewords,
//! shortened last codeword).

ghost use Rattle.std.specs.Prelude.{ℕ, ◌≡◌, ◌≤◌, ◌<◌, ◌+◌, ◌^◌, IsTrue};
ghost use Rattle.minislots.specs.Bursts.{are_bursts, are_descriptors, is_profile, is_within, is_short_burst, capacity_of};
ghost use Rattle.minislots.specs.Bursts.{IsSound, AreSound, HasBursts, codeword, parity_bytes, last_codeword, coded};
ghost use Rattle.minislots.specs.Bursts.{slots_by, bytes_by, last_information, rounded_up, length_of};
ghost use Rattle.minislots.specs.Bursts.{long_slots, unsolicited_slots, uniform_slots, uniform_bytes, serves_short};
ghost use Rattle.minislots.specs.Bursts.{short_slots, short_bytes, short_sizes};

/// The fewest information bytes of a shortened last codeword.
pub(crate) const LEAST_INFORMATION: u32 = 16;

/// The burst descriptor of one usage code, as a UCD has it.
#[derive(Clone, Copy, Debug, PartialEq, Eq)]
pub struct Profile {
    /// Symbols of the preamble: at most 1536.
    pub preamble: u32,
    /// Symbols of the guard time: at most 255.
    pub guard: u32,
    /// Bits of a symbol, by the modulation: 1 to 8.
    pub bits: u32,
    /// The bytes that a codeword can correct (FEC T): at most 16. It has twice as many of parity; with 0 there is no
    /// FEC.
    pub parity: u32,
    /// Information bytes of a codeword (FEC k): 16 to 253, and at most 255 with the parity.
    pub information: u32,
    /// Whether the last codeword is shortened: 0 or 1.
    pub shortened: u32,
}

/// The burst descriptors that a channel's data is sent by.
#[derive(Clone, Copy, Debug, PartialEq, Eq)]
pub struct Descriptors {
    /// Symbols of a minislot: 1 to 4096.
    pub symbols: u32,
    /// Of short data grants.
    pub short: Profile,
    /// Of long data grants.
    pub long: Profile,
    /// Of unsolicited grants where the channel has Advanced PHY bursts.
    pub unsolicited: Profile,
}

/// How many minislots a burst takes.
#[derive(Clone, Copy, Debug, PartialEq, Eq)]
pub enum Bursts {
    /// As many as carry its bytes, and the overhead, whatever its usage.
    Uniform {
        /// Bytes that a minislot carries: 1 to 1024.
        bytes_per_slot: u32,
        /// Minislots of guard time and preamble in each burst: 1 to 64.
        overhead: u32,
    },
    /// What the burst descriptor of its usage says.
    Described(Descriptors),
}

/// How long a data grant is, and its usage.
#[derive(Clone, Copy, Debug)]
pub struct GrantSize {
    /// The minislots that it takes.
    pub slots: u64,
    /// Whether it is a short one.
    pub is_short: bool,
}

pub(crate) fn is_within(low: u32, high: u32, n: u32) -> bool
    ensures { result ≡ is_within low high n }
{
    low <= n && n <= high
}

// How many of this size hold so many things, the last one perhaps in part.
fn rounded_up(many: u64, size: u64) -> u64
    requires some { 0 < size }
    requires fits { many + size < 2 ^ 64 }
    ensures value { result ≡ rounded_up many size }
    ensures small { result ≤ many }
{
    (many + size - 1) / size
}

impl Profile {
    // Whether each of its numbers is lawful.
    fn is_lawful(&self) -> bool
        ensures { result ≡ is_profile self.now }
    {
        self.preamble <= 1536
            && self.guard <= 255
            && is_within(1, 8, self.bits)
            && self.parity <= 16
            && is_within(LEAST_INFORMATION, 253, self.information)
            && self.information + 2 * self.parity <= 255
            && self.shortened <= 1
    }

    // The parity bytes of a codeword.
    fn parity_bytes(&self) -> u32
        requires { IsSound self.now }
        ensures { result ≡ parity_bytes self.now }
    {
        2 * self.parity
    }

    // The bytes of a full codeword.
    fn codeword(&self) -> u32
        requires { IsSound self.now }
        ensures { result ≡ codeword self.now }
    {
        self.information + self.parity_bytes()
    }

    // The bytes of the last codeword, where so many information bytes are left for it.
    fn last_codeword(&self, left: u32) -> u32
        requires sound { IsSound self.now }
        requires part { left < self.now.information }
        ensures { result ≡ last_codeword self.now left }
    {
        if left == 0 {
            0
        } else if self.shortened == 1 {
            left.max(LEAST_INFORMATION) + self.parity_bytes()
        } else {
            self.codeword()
        }
    }

    // The bytes of a burst with their parity.
    fn coded(&self, bytes: u32) -> u64
        requires { IsSound self.now }
        ensures value { result ≡ coded self.now bytes }
        ensures small { result < 2 ^ 42 }
    {
        if self.parity == 0 {
            return u64::from(bytes);
        }
        let full = u64::from(bytes / self.information) * u64::from(self.codeword());
        full + u64::from(self.last_codeword(bytes % self.information))
    }

    // The minislots of a burst of so many bytes, where a minislot has so many symbols. All is counted in bits, so that
    // one division is enough.
    #[tactic(auto, using(crate::proofs::BurstLaws::in_bits))]
    fn slots(&self, symbols: u32, bytes: u32) -> u64
        requires sound { IsSound self.now }
        requires some { 0 < symbols }
        ensures value { result ≡ slots_by symbols self.now bytes }
        ensures small { result < 2 ^ 46 }
    {
        let coded = 8 * self.coded(bytes);
        let bits = u64::from(self.bits);
        let spent = bits * u64::from(self.preamble + self.guard);
        rounded_up(spent + coded, bits * u64::from(symbols))
    }

    // The information bytes of a last codeword that has room for at most so many bytes.
    fn last_information(&self, room: u64) -> u64
        requires { IsSound self.now }
        ensures { result ≡ last_information self.now room }
    {
        let parity = u64::from(self.parity_bytes());
        if self.shortened == 1 && u64::from(LEAST_INFORMATION) + parity <= room {
            room - parity
        } else {
            0
        }
    }

    // The most bytes of a burst that takes at most so many minislots.
    #[tactic(auto, unfolding(crate::specs::Bursts::bytes_by))]
    fn bytes(&self, symbols: u32, slots: u32) -> u64
        requires sound { IsSound self.now }
        requires some { symbols ≤ 4096 }
        ensures value { result ≡ bytes_by symbols self.now slots }
        ensures small { result < 2 ^ 48 }
    {
        let spent = u64::from(self.preamble + self.guard);
        let left = (u64::from(slots) * u64::from(symbols)).saturating_sub(spent);
        let room = u64::from(self.bits) * left / 8;
        if self.parity == 0 {
            return room;
        }
        let codeword = u64::from(self.codeword());
        room / codeword * u64::from(self.information) + self.last_information(room % codeword)
    }
}

impl Descriptors {
    /// Whether each number of the descriptors is lawful.
    pub(crate) fn are_lawful(&self) -> bool
        ensures { result ≡ are_descriptors self.now }
    {
        is_within(1, 4096, self.symbols)
            && self.short.is_lawful()
            && self.long.is_lawful()
            && self.unsolicited.is_lawful()
    }

    // The size of a data grant of so many bytes.
    #[inline(never)]
    fn grant_size(&self, sizes: u64, bytes: u32) -> GrantSize
        requires { AreSound self.now }
        ensures slots { (most : ℕ) → sizes ≡ short_sizes (Bursts.Described self.now) most
            → result.slots ≡ length_of (Bursts.Described self.now) most bytes }
        ensures usage { (most : ℕ) → sizes ≡ short_sizes (Bursts.Described self.now) most
            → result.is_short ≡ serves_short self.now most bytes }
        ensures small { result.slots < 2 ^ 46 }
    {
        let long = self.long.slots(self.symbols, bytes);
        if u64::from(bytes) >= sizes {
            return GrantSize {
                slots: long,
                is_short: false,
            };
        }
        let short = self.short.slots(self.symbols, bytes);
        GrantSize {
            slots: long.min(short),
            is_short: short <= long,
        }
    }

    // The most bytes of a data grant of at most so many minislots.
    #[inline(never)]
    fn bytes(&self, most: u32, sizes: u64, slots: u32) -> u64
        requires sound { AreSound self.now }
        requires sizes { sizes ≡ short_sizes (Bursts.Described self.now) most }
        ensures { result ≡ capacity_of (Bursts.Described self.now) most slots }
    {
        let long = self.long.bytes(self.symbols, slots);
        if slots < most {
            return long.max(self.short.bytes(self.symbols, slots));
        }
        long.max(sizes.saturating_sub(1))
    }
}

impl Bursts {
    /// Whether the numbers of the bursts are lawful.
    pub(crate) fn are_lawful(&self) -> bool
        ensures value { result ≡ are_bursts self.now }
        ensures sound { IsTrue result → HasBursts self.now }
    {
        match self {
            Bursts::Uniform {
                bytes_per_slot,
                overhead,
            } => is_within(1, 1024, *bytes_per_slot) && is_within(1, 64, *overhead),
            Bursts::Described(these) => these.are_lawful(),
        }
    }

    /// The minislots of a burst of so many bytes by the profile of long data grants.
    pub(crate) fn long_slots(&self, bytes: u32) -> u64
        requires { HasBursts self.now }
        ensures value { result ≡ long_slots self.now bytes }
        ensures small { result < 2 ^ 46 }
    {
        match self {
            Bursts::Uniform {
                bytes_per_slot,
                overhead,
            } => uniform_slots(*bytes_per_slot, *overhead, bytes),
            Bursts::Described(these) => these.long.slots(these.symbols, bytes),
        }
    }

    /// By that of unsolicited grants, which an Advanced PHY has.
    pub(crate) fn unsolicited_slots(&self, bytes: u32) -> u64
        requires { HasBursts self.now }
        ensures { result ≡ unsolicited_slots self.now bytes }
    {
        match self {
            Bursts::Uniform {
                bytes_per_slot,
                overhead,
            } => uniform_slots(*bytes_per_slot, *overhead, bytes),
            Bursts::Described(these) => these.unsolicited.slots(these.symbols, bytes),
        }
    }

    // The minislots of a burst of so many bytes by the profile of short data grants.
    fn short_slots(&self, bytes: u32) -> u64
        requires { HasBursts self.now }
        ensures { result ≡ short_slots self.now bytes }
    {
        match self {
            Bursts::Uniform {
                bytes_per_slot,
                overhead,
            } => uniform_slots(*bytes_per_slot, *overhead, bytes),
            Bursts::Described(these) => these.short.slots(these.symbols, bytes),
        }
    }

    // The most bytes of a burst of at most so many minislots by it.
    fn short_bytes(&self, slots: u32) -> u64
        requires { HasBursts self.now }
        ensures value { result ≡ short_bytes self.now slots }
        ensures small { result < 2 ^ 48 }
    {
        match self {
            Bursts::Uniform {
                bytes_per_slot,
                overhead,
            } => uniform_bytes(*bytes_per_slot, *overhead, slots),
            Bursts::Described(these) => these.short.bytes(these.symbols, slots),
        }
    }

    /// How many numbers of bytes, from 0 on, have bursts of at most `most` minislots by the profile of short data
    /// grants.
    pub(crate) fn short_sizes(&self, most: u32) -> u64
        requires { HasBursts self.now }
        ensures { result ≡ short_sizes self.now most }
    {
        if self.short_slots(0) <= u64::from(most) {
            self.short_bytes(most) + 1
        } else {
            0
        }
    }

    /// The size of a data grant of so many bytes, by [`Bursts::short_sizes`] of the longest that is short.
    #[inline(always)]
    pub(crate) fn grant_size(&self, sizes: u64, bytes: u32) -> GrantSize
        requires { HasBursts self.now }
        ensures slots { (most : ℕ) → sizes ≡ short_sizes self.now most → result.slots ≡ length_of self.now most bytes }
        ensures usage { (most : ℕ) → sizes ≡ short_sizes self.now most
            → result.is_short ≡ is_short_burst self.now most bytes }
        ensures small { result.slots < 2 ^ 46 }
    {
        match self {
            Bursts::Uniform {
                bytes_per_slot,
                overhead,
            } => GrantSize {
                slots: uniform_slots(*bytes_per_slot, *overhead, bytes),
                is_short: u64::from(bytes) < sizes,
            },
            Bursts::Described(these) => these.grant_size(sizes, bytes),
        }
    }

    /// The most bytes of a data grant of at most so many minislots.
    #[inline(always)]
    pub(crate) fn bytes(&self, most: u32, sizes: u64, slots: u32) -> u64
        requires bursts { HasBursts self.now }
        requires sizes { sizes ≡ short_sizes self.now most }
        ensures { result ≡ capacity_of self.now most slots }
    {
        match self {
            Bursts::Uniform {
                bytes_per_slot,
                overhead,
            } => uniform_bytes(*bytes_per_slot, *overhead, slots),
            Bursts::Described(these) => these.bytes(most, sizes, slots),
        }
    }
}

// The minislots of a burst where each minislot carries the same bytes.
fn uniform_slots(bytes_per_slot: u32, overhead: u32, bytes: u32) -> u64
    requires { 0 < bytes_per_slot }
    ensures value { result ≡ uniform_slots bytes_per_slot overhead bytes }
    ensures small { result < 2 ^ 46 }
{
    u64::from(overhead) + rounded_up(bytes.into(), bytes_per_slot.into())
}

// The bytes in so many minislots beside the overhead.
fn uniform_bytes(bytes_per_slot: u32, overhead: u32, slots: u32) -> u64
    requires { bytes_per_slot ≤ 1024 }
    ensures value { result ≡ uniform_bytes bytes_per_slot overhead slots }
    ensures small { result < 2 ^ 48 }
{
    u64::from(slots.saturating_sub(overhead)) * u64::from(bytes_per_slot)
}
