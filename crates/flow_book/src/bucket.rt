//! The token bucket of a flow under a rate ceiling.

ghost use Rattle.std.specs.Prelude.{◌≡◌, ℕ, List, ◌*◌, ◌/◌, ◌<◌, ◌≤◌, ◌^◌, ◌==◌, [], IsTrue, false, min};
ghost use Rattle.minislots.specs.declared.config.Config.{Config};
ghost use Rattle.flow_book.specs.Flows.{Charge, AreMadeBy};
ghost use Rattle.flow_book.specs.Bucket.{level_of, most_of, StandsFor, AnswersLevel, AnswersCeiling, HasOneMore};
ghost use Rattle.flow_book.specs.Bucket.{IsSettled, StaysSettled, reserves};
ghost use Rattle.flow_book.specs.FlowState.{level_after};
ghost use Rattle.flow_book.specs.Carried.{carried_charges, MayHaveLevel};
ghost use Rattle.flow_book.specs.Tiers.{unlimited, closed};

use minislots::Checked;
use std::marker::Model;

// The part of a byte in which levels are counted: one bit per second brings 8 of them in a tick of 6.25
// microseconds.
const PARTS: u64 = 1_280_000;

/// What a maximum sustained rate and burst leave to a flow, as the least over all windows of its grants.
/// It is counted in 1/1280000 bytes: a rate of one bit per second brings one of them in each tick. With a
/// rate of 0 there is no ceiling.
#[derive(Clone, Copy, Debug, PartialEq, Eq)]
pub struct Bucket {
    // What the rate brings in a minislot, and what the burst allows: both 0 where there is no ceiling.
    per_slot: u64,
    full: u64,
    // What there was at the start of the last grant, after it.
    level: u64,
    since: u64,
}

impl Model for Bucket {
    ghost use Rattle.std.specs.Prelude.{◌<◌, ◌≤◌, ◌^◌};
    ghost use Rattle.flow_book.specs.Bucket.{BucketView};

    ghost Value = { BucketView };

    ghost view = { λ b. record {
      per_slot = b.per_slot;
      full = b.full;
      level = b.level;
      since = b.since;
    } };

    ghost invariant = { λ b. (b.per_slot < 2 ^ 40) × (b.full < 2 ^ 53) × (b.level ≤ b.full) };

    ghost inverse = { λ v. record { per_slot = v.per_slot; full = v.full; level = v.level; since = v.since } };
}

impl Bucket {
    /// A full bucket for this channel: `rate` in bits per second, `burst` in bytes. It stands for no grants.
    pub fn open(config: &Checked, rate: u32, burst: u32) -> Bucket
        ensures empty { StandsFor config.now rate burst result [] }
        ensures settled { IsSettled result [] }
        ensures since { result.since ≡ 0 }
    {
        let burst = if rate == 0 { 0 } else { burst };
        let full = PARTS * u64::from(burst);
        Bucket {
            per_slot: u64::from(config.ticks()) * u64::from(rate),
            full,
            level: full,
            since: 0,
        }
    }

    // The bucket of a rate and a burst that has this level where its last grant starts: a full one where there is none.
    pub(crate) fn carried(
        config: &Checked,
        rate: u32,
        burst: u32,
        last: Option<u64>,
        level: Option<u64>,
    ) -> Bucket
        requires { MayHaveLevel rate burst level }
        ensures stands { StandsFor config.now rate burst result (carried_charges last burst level) }
        ensures settled { IsSettled result (carried_charges last burst level) }
    {
        let mut bucket = Bucket::open(config, rate, burst);
        if let (Some(start), Some(level)) = (last, level) {
            bucket.level = level;
            bucket.since = start;
        }
        bucket
    }

    // A full bucket of a rate of 0, which holds nothing back.
    pub(crate) fn unlimited() -> Bucket
        ensures { result ≡ unlimited }
    {
        Bucket {
            per_slot: 0,
            full: 0,
            level: 0,
            since: 0,
        }
    }

    // A bucket that never has anything.
    pub(crate) fn closed() -> Bucket
        ensures { result ≡ closed }
    {
        Bucket {
            per_slot: 1,
            full: 0,
            level: 0,
            since: 0,
        }
    }

    // Whether it holds nothing back.
    pub(crate) fn is_unlimited(&self) -> bool
        ensures { result ≡ (self.now.per_slot == 0) }
    {
        self.per_slot == 0
    }

    // Whether it reserves so many bytes at this minislot: one of a rate of 0 reserves nothing.
    pub(crate) fn reserves(&self, slot: u64, bytes: u32) -> bool
        requires { self.now.since ≤ slot }
        ensures { result ≡ reserves self.now slot bytes }
    {
        self.per_slot != 0 && self.has(slot, bytes)
    }

    // The same bucket again, field by field: it is copied with no stop in memory between.
    pub(crate) fn again(&self) -> Bucket
        ensures { result ≡ self.now }
    {
        Bucket {
            per_slot: self.per_slot,
            full: self.full,
            level: self.level,
            since: self.since,
        }
    }

    // What there is at this minislot: none where there is no ceiling.
    pub(crate) fn state(&self, slot: u64) -> Option<u64>
        requires { self.now.since ≤ slot }
        ensures { (c : Config) (rate burst : ℕ) (charges : List Charge) → StandsFor c rate burst self.now charges
            → AreMadeBy slot charges → result ≡ level_after c rate burst slot charges }
    {
        if self.per_slot == 0 {
            return None;
        }
        Some(self.level(slot))
    }

    /// What there is at minislot `slot`, in 1/1280000 bytes: the least that a window of the grants leaves,
    /// and 0 where there is no ceiling. The grants start at or before `slot`.
    pub fn level_at(&self, slot: u64) -> u128
        requires { self.now.since ≤ slot }
        ensures least { AnswersLevel self.now slot result }
        ensures value { result ≡ level_of self.now slot }
    {
        u128::from(self.level(slot))
    }

    // The same level, which is at most what the burst allows.
    fn level(&self, slot: u64) -> u64
        requires { self.now.since ≤ slot }
        ensures { result ≡ level_of self.now slot }
    {
        let brought = brought(slot - self.since, self.per_slot);
        if u128::from(self.full - self.level) <= brought {
            return self.full;
        }
        self.level + brought as u64
    }

    /// Takes a grant of so many bytes that starts at minislot `slot`, where the grants keep the ceiling with
    /// it. Else the answer is false, and nothing changes. The grants start at or before `slot`.
    pub fn take(&mut self, slot: u64, bytes: u32) -> bool
        requires { self.old.since ≤ slot }
        ensures exact { AnswersCeiling self.old slot bytes result }
        ensures taken { IsTrue result → HasOneMore self.old self.new slot bytes }
        ensures settled { IsTrue result → StaysSettled self.old self.new slot bytes }
        ensures same { result ≡ false → self.new ≡ self.old }
        ensures since { self.new.since ≤ slot }
    {
        if self.per_slot == 0 {
            return true;
        }
        let level = self.level(slot);
        let wanted = PARTS * u64::from(bytes);
        if level < wanted {
            return false;
        }
        self.level = level - wanted;
        self.since = slot;
        true
    }

    // Takes a grant of so many bytes that starts at this minislot and keeps the ceiling.
    pub(crate) fn spend(&mut self, slot: u64, bytes: u32)
        requires since { self.old.since ≤ slot }
        requires has { most_of self.old slot bytes ≡ bytes }
        ensures taken { HasOneMore self.old self.new slot bytes }
        ensures settled { StaysSettled self.old self.new slot bytes }
        ensures since { self.new.since ≤ slot }
    {
        if self.per_slot == 0 {
            return;
        }
        self.level = self.level(slot) - PARTS * u64::from(bytes);
        self.since = slot;
    }

    // Takes a grant of the most bytes, up to the limit, that keeps the ceiling and starts at this minislot, and answers
    // how many they are.
    pub(crate) fn take_most(&mut self, slot: u64, limit: u32) -> u32
        requires { self.old.since ≤ slot }
        ensures most { result ≡ most_of self.old slot limit }
        ensures taken { HasOneMore self.old self.new slot result }
        ensures settled { StaysSettled self.old self.new slot result }
        ensures since { self.new.since ≤ slot }
    {
        if self.per_slot == 0 {
            return limit;
        }
        let level = self.level(slot);
        let most = PARTS * u64::from(limit);
        self.since = slot;
        if most <= level {
            self.level = level - most;
            return limit;
        }
        self.level = level % PARTS;
        bytes_of(level, limit)
    }

    // The most bytes, up to the limit, of a grant that starts at this minislot.
    pub(crate) fn most(&self, slot: u64, limit: u32) -> u32
        requires { self.now.since ≤ slot }
        ensures { result ≡ most_of self.now slot limit }
    {
        if self.per_slot == 0 {
            return limit;
        }
        bytes_of(self.level(slot), limit)
    }

    // Whether a grant of so many bytes that starts at this minislot keeps the ceiling.
    pub(crate) fn has(&self, slot: u64, bytes: u32) -> bool
        requires { self.now.since ≤ slot }
        ensures { result ≡ (most_of self.now slot bytes == bytes) }
    {
        let wanted = PARTS * u64::from(bytes);
        if self.per_slot == 0 || wanted <= self.level {
            return true;
        }
        wanted <= self.full
            && u128::from(wanted - self.level) <= brought(slot - self.since, self.per_slot)
    }
}

// The bytes of a level, up to the limit.
fn bytes_of(level: u64, limit: u32) -> u32
    ensures { result ≡ min limit (level / 1280000) }
{
    if PARTS * u64::from(limit) <= level {
        return limit;
    }
    (level / PARTS) as u32
}

// What a rate brings in so many minislots, in 1/1280000 bytes.
fn brought(slots: u64, per_slot: u64) -> u128
    requires { per_slot < 2 ^ 40 }
    ensures value { result ≡ slots * per_slot }
    ensures bound { result < 2 ^ 104 }
{
    u128::from(slots) * u128::from(per_slot)
}
