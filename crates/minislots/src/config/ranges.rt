//! The values that a field of a configuration may have.

ghost use Rattle.std.specs.Prelude.{◌≡◌, ℕ, ◌&&◌, None, IfSome, is_some, IsTrue};
ghost use Rattle.minislots.specs.Bursts.{is_within, are_bursts, is_uniform, long_slots};
ghost use Rattle.minislots.specs.Config.{is_lawful_field, first_wrong_of};
ghost use Rattle.minislots.specs.Ranges.{fields_before, with_value, rule_of, meets, most_quantum, is_number};

use super::{Config, ConfigFault};
use crate::MAX_ASK;
use crate::bursts::Bursts;

/// What a field's value must be beside standing in its range.
#[derive(Clone, Copy)]
pub enum FieldRule {
    /// Any whole number.
    Any,
    /// A power of two.
    PowerOfTwo,
    /// A whole number of frames, in minislots.
    WholeFrames,
}

impl ConfigFault {
    /// What the field's value must be beside standing in its range ([`Config::range_of`]).
    pub fn rule(self) -> FieldRule
        ensures value { result ≡ rule_of self }
    {
        match self {
            ConfigFault::Ticks => FieldRule::PowerOfTwo,
            ConfigFault::Start => FieldRule::WholeFrames,
            _ => FieldRule::Any,
        }
    }
}

impl Config {
    /// The least and the greatest value that a field may have beside the fields before it, where none of those is
    /// wrong: of the numbers from the one to the other those that meet the field's rule. There is no such number where
    /// the least is above the greatest, and no range of a field that is no number here: burst descriptors, or what they
    /// stand in the place of.
    pub fn range_of(&self, field: ConfigFault) -> Option<(u64, u64)>
        ensures exact { first_wrong_of self.now (fields_before field) ≡ None → IfSome result
            (λ range. (n : ℕ) → is_lawful_field (with_value self.now field n) field
            ≡ (meets (rule_of field) self.now n && is_within range.0 range.1 n)) }
        ensures number { is_some result ≡ is_number self.now field }
    {
        let frame = u64::from(self.frame);
        let range = match field {
            ConfigFault::Ticks => (1, 128),
            ConfigFault::BytesPerSlot if self.is_uniform() => (1, 1024),
            ConfigFault::Overhead if self.is_uniform() => (1, 64),
            ConfigFault::BytesPerSlot | ConfigFault::Overhead | ConfigFault::Bursts => return None,
            ConfigFault::Frame => (16, 1024),
            ConfigFault::Cycle => (1, 64),
            ConfigFault::ReqSlots => (1, frame.saturating_sub(self.least_burst())),
            ConfigFault::PollSlots => (1, frame.saturating_sub(self.req_slots.into())),
            ConfigFault::Lead => (0, 4096u64.saturating_sub(2 * frame)),
            ConfigFault::ShortMax => (0, frame),
            ConfigFault::Quantum => (64, self.most_quantum()),
            ConfigFault::GrantCap => (self.quantum.into(), MAX_ASK.into()),
            ConfigFault::Receivers => (1, 16),
            ConfigFault::Calls => (1, 1 << 24),
            ConfigFault::Start => (0, 1 << 60),
            ConfigFault::RangingStart => (0, 15),
            ConfigFault::RangingEnd => (0, 15),
            ConfigFault::DataStart => (0, 15),
            ConfigFault::DataEnd => (0, 15),
            ConfigFault::Phy => (0, 1),
            ConfigFault::Flows => (1, 8191),
            ConfigFault::Pending => (1, 125),
            ConfigFault::Periodic => (0, 2560),
            ConfigFault::OpenIdle => (0, 1),
            ConfigFault::Settle => (0, 4096),
        };
        Some(range)
    }

    // Whether each burst has the same overhead, and a minislot the same bytes.
    fn is_uniform(&self) -> bool
        ensures { result ≡ is_uniform self.now.bursts }
    {
        matches!(self.bursts, Bursts::Uniform { .. })
    }

    // The minislots of a burst of one byte by the profile of long grants, where the bursts are lawful.
    fn least_burst(&self) -> u64
        ensures { IsTrue (are_bursts self.now.bursts) → result ≡ long_slots self.now.bursts 1 }
    {
        if self.bursts.are_lawful() {
            self.bursts.long_slots(1)
        } else {
            0
        }
    }

    // The most bytes of a quantum whose burst fits behind the request region, where the bursts are lawful.
    fn most_quantum(&self) -> u64
        ensures { IsTrue (are_bursts self.now.bursts) → result ≡ most_quantum self.now }
    {
        if self.bursts.are_lawful() {
            let left = self.frame.saturating_sub(self.req_slots);
            let sizes = self.bursts.short_sizes(self.short_max);
            self.bursts.bytes(self.short_max, sizes, left).min(1522)
        } else {
            0
        }
    }
}
