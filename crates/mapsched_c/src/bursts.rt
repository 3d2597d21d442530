//! Burst descriptors in plain numbers.

ghost use Rattle.std.specs.Prelude.{◌≡◌};
ghost use Rattle.mapsched_c.specs.Bursts.{descriptors_of, is_left_out, profile_of};

use minislots::{Descriptors, Profile};

/// The burst descriptor of a usage.
#[repr(C)]
#[derive(Clone, Copy)]
pub struct PlainProfile {
    /// Symbols of the preamble.
    pub preamble: u32,
    /// Symbols of the guard time.
    pub guard: u32,
    /// Bits of a symbol.
    pub bits: u32,
    /// The bytes that a codeword can correct.
    pub parity: u32,
    /// Information bytes of a codeword.
    pub information: u32,
    /// Whether the last codeword is shortened: 0 or 1.
    pub shortened: u32,
}

impl PlainProfile {
    // Whether each of its numbers is 0.
    fn is_left_out(&self) -> bool
        ensures { result ≡ is_left_out self.now }
    {
        self.preamble == 0
            && self.guard == 0
            && self.bits == 0
            && self.parity == 0
            && self.information == 0
            && self.shortened == 0
    }

    // The descriptor of these numbers.
    fn profile(&self) -> Profile
        ensures { result ≡ profile_of self.now }
    {
        Profile {
            preamble: self.preamble,
            guard: self.guard,
            bits: self.bits,
            parity: self.parity,
            information: self.information,
            shortened: self.shortened,
        }
    }
}

/// The burst descriptors of a channel. `short` and `long` are types of C.
#[repr(C)]
#[derive(Clone, Copy)]
pub struct PlainBursts {
    /// Symbols of a minislot.
    pub symbols: u32,
    /// Of short data grants.
    pub short_data: PlainProfile,
    /// Of long data grants.
    pub long_data: PlainProfile,
    /// Of unsolicited grants where the channel has Advanced PHY bursts. Left out, that is all 0, it is that of long
    /// data grants.
    pub unsolicited: PlainProfile,
}

impl PlainBursts {
    // The descriptors of these numbers.
    pub(crate) fn descriptors(&self) -> Descriptors
        ensures { result ≡ descriptors_of self.now }
    {
        let unsolicited = if self.unsolicited.is_left_out() {
            self.long_data
        } else {
            self.unsolicited
        };
        Descriptors {
            symbols: self.symbols,
            short: self.short_data.profile(),
            long: self.long_data.profile(),
            unsolicited: unsolicited.profile(),
        }
    }
}
