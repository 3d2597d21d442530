//! A profile's numbers multiplied out for a channel's minislots: its bursts are reckoned by them without a division. In
//! its place is a multiplication by an inverse, which is exact up to the most bytes and minislots here.

ghost use Rattle.std.specs.Prelude.{◌≡◌, ◌<◌, ◌≤◌, ◌+◌, ◌-◌, ◌^◌, nat_lt, if◌then◌else◌};
ghost use Rattle.minislots.specs.Bursts.{IsSound, HasBursts, slots_by, bytes_by};
ghost use Rattle.minislots.specs.Products.{inverse, byte_scale, filled_up, products, no_products};
ghost use Rattle.minislots.specs.Products.{long_products, short_products};

use crate::bursts::{Bursts, LEAST_INFORMATION, Profile};

/// The most bytes of a burst that is reckoned so.
pub(crate) const MOST_BYTES: u32 = 1 << 19;

/// The most minislots whose bytes are.
pub(crate) const MOST_SLOTS: u32 = 1 << 11;

const BYTE_SCALE: u32 = 1 << 31;

const BIT_SCALE: u64 = 1 << 39;

/// A profile's numbers, for minislots of so many symbols.
#[derive(Clone, Copy, Debug)]
pub(crate) struct Products {
    // The inverse of the bits of a minislot.
    by_slot: u64,
    // Those of a codeword's information bytes, and of its bytes, or 0 without FEC.
    by_information: u32,
    by_codeword: u32,
    // The information bytes of a codeword, its parity bytes, all of them, and those of the shortest last one.
    information: u32,
    parity: u32,
    codeword: u32,
    shortest: u32,
    // The bits of a codeword's parity, and of all of it.
    parity_bits: u32,
    codeword_bits: u32,
    // The bits of a minislot, and those of the preamble and the guard time.
    slot_bits: u32,
    head_bits: u32,
    // Those of a burst of one byte, to be rounded down: where it is not filled up, and where it is.
    first_bits: u32,
    least_bits: u32,
}

// What stands in the place of a division of bytes.
fn inverse(divisor: u32) -> u32
    requires { 16 ≤ divisor }
    ensures value { result ≡ inverse byte_scale divisor }
{
    BYTE_SCALE / divisor + 1
}

impl Profile {
    // The information bytes that a last codeword is filled up to.
    fn filled_up(&self) -> u32
        requires { IsSound self.now }
        ensures value { result ≡ filled_up self.now }
        ensures most { result ≤ 253 }
        ensures some { 0 < result }
    {
        if self.shortened == 1 {
            LEAST_INFORMATION
        } else {
            self.information
        }
    }

    // Its numbers.
    fn products(&self, symbols: u32) -> Products
        requires sound { IsSound self.now }
        requires some { 0 < symbols }
        requires few { symbols ≤ 4096 }
        ensures { result ≡ products symbols self.now }
    {
        let has_parity = self.parity > 0;
        let parity = 2 * self.parity;
        let codeword = self.information + parity;
        let slot_bits = self.bits * symbols;
        let head_bits = self.bits * (self.preamble + self.guard);
        let first_bits = head_bits + 8 * (parity + 1) + (slot_bits - 1);
        Products {
            by_slot: BIT_SCALE / u64::from(slot_bits) + 1,
            by_information: if has_parity {
                inverse(self.information)
            } else {
                0
            },
            by_codeword: if has_parity { inverse(codeword) } else { 0 },
            information: self.information,
            parity,
            codeword,
            shortest: if has_parity {
                self.filled_up() + parity
            } else {
                0
            },
            parity_bits: 8 * parity,
            codeword_bits: 8 * codeword,
            slot_bits,
            head_bits,
            first_bits,
            least_bits: first_bits + 8 * if has_parity { self.filled_up() - 1 } else { 0 },
        }
    }
}

impl Bursts {
    /// The numbers of the profile of long data grants, where there is one.
    pub(crate) fn long_products(&self) -> Products
        requires { HasBursts self.now }
        ensures { result ≡ long_products self.now }
    {
        match self {
            Bursts::Uniform { .. } => Products::none(),
            Bursts::Described(these) => these.long.products(these.symbols),
        }
    }

    /// And of that of short ones.
    pub(crate) fn short_products(&self) -> Products
        requires { HasBursts self.now }
        ensures { result ≡ short_products self.now }
    {
        match self {
            Bursts::Uniform { .. } => Products::none(),
            Bursts::Described(these) => these.short.products(these.symbols),
        }
    }
}

impl Products {
    // Those of no profile.
    fn none() -> Products
        ensures { result ≡ no_products }
    {
        Products {
            by_slot: 0,
            by_information: 0,
            by_codeword: 0,
            information: 0,
            parity: 0,
            codeword: 0,
            shortest: 0,
            parity_bits: 0,
            codeword_bits: 0,
            slot_bits: 0,
            head_bits: 0,
            first_bits: 0,
            least_bits: 0,
        }
    }

    /// The minislots of a burst of one byte more than so many, by the profile of these numbers: those of the longer of
    /// two bursts, of which one fills up its last codeword.
    #[inline(always)]
    pub(crate) fn slots(&self, symbols: u32, profile: &Profile, before: u32) -> u64
        requires numbers { self.now ≡ products symbols profile.now }
        requires sound { IsSound profile.now }
        requires positive { 0 < symbols }
        requires few { symbols ≤ 4096 }
        requires most { before < 524288 }
        ensures value { result ≡ slots_by symbols profile.now (before + 1) }
        ensures small { result < 2 ^ 46 }
    {
        let full = (u64::from(before) * u64::from(self.by_information)
            / u64::from(BYTE_SCALE)) as u32;
        let whole = full * self.parity_bits + 8 * before + self.first_bits;
        let bits = whole.max(full * self.codeword_bits + self.least_bits);
        u64::from(bits) * self.by_slot / BIT_SCALE
    }

    /// The most bytes of a burst of at most so many minislots by it.
    #[inline(always)]
    pub(crate) fn bytes(&self, symbols: u32, profile: &Profile, slots: u32) -> u64
        requires numbers { self.now ≡ products symbols profile.now }
        requires sound { IsSound profile.now }
        requires positive { 0 < symbols }
        requires few { symbols ≤ 4096 }
        requires most { slots ≤ 2048 }
        ensures value { result ≡ bytes_by symbols profile.now slots }
    {
        let room = (slots * self.slot_bits).saturating_sub(self.head_bits) / 8;
        let full = (u64::from(room) * u64::from(self.by_codeword) / u64::from(BYTE_SCALE)) as u32;
        let last = self.last_information(room - full * self.codeword);
        u64::from(full * self.information + last)
    }

    // The information bytes of a last codeword that has so much room.
    #[inline(always)]
    fn last_information(&self, room: u32) -> u32
        requires { self.now.parity ≤ self.now.shortest }
        ensures { result ≡ (if nat_lt room self.now.shortest then 0 else room - self.now.parity) }
    {
        if room < self.shortest {
            0
        } else {
            room - self.parity
        }
    }
}
