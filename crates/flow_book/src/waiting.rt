//! A flow that waits for bytes.

ghost use Rattle.std.specs.Prelude.{◌==◌, true, false, ◌+◌, ◌^◌};
ghost use Rattle.std.specs.Prelude.{ℕ, ◌≡◌, ◌<◌, ◌≤◌, List, map};
ghost use Rattle.std.specs.Prelude.{IfSome, Option, Some, IsTrue, ◌↔◌, min, slice_get};
ghost use Rattle.std.specs.List.{AllByRecursion};
ghost use Rattle.minislots.specs.declared.config.Config.{Config};
ghost use Rattle.minislots.specs.Config.{IsLawful};
ghost use Rattle.flow_book.specs.declared.flow.Flow.{Flow};
ghost use Rattle.flow_book.specs.Limits.{HasBegunBy, HaveOneMore, StaySettled, most_in, most_with};
ghost use Rattle.flow_book.specs.Entry.{live, IsBook, IsRoom, IsTurn};
ghost use Rattle.flow_book.specs.Choice.{HasStartedBy, IsEligible};
ghost use Rattle.flow_book.specs.Tiers.{HasTier};
ghost use Rattle.flow_book.specs.Queue.{IsAt};
ghost use Rattle.flow_book.specs.Tiers.{IsSpent, limits_in, turn_at};
ghost use Rattle.flow_book.specs.Queue.{still_waits};

use crate::bucket::Bucket;
use crate::flow::{RESERVED_RANK, Room, SIDS, turn_after, turn_in};
use crate::limits::Limits;
use crate::tiers::Tier;
use minislots::Checked;

// A flow that waits for bytes: its turn in its highest rank, the bytes that it waits for, its place among the flows,
// the number of its tier, none where it has neither a peak rate nor a reservation, and what its maximum sustained rate
// leaves to it.
#[derive(Clone, Copy)]
pub(crate) struct Waiting {
    pub(crate) turn: u128,
    pub(crate) wants: u64,
    pub(crate) place: u32,
    pub(crate) tier: u32,
    pub(crate) sustained: Bucket,
}

impl Waiting {
    // The SID of the flow.
    pub(crate) fn sid(&self) -> u16
        ensures { (rank : ℕ) (last : Option ℕ) (sid : ℕ) → IsTurn rank last sid self.now.turn → result ≡ sid }
    {
        (self.turn % SIDS) as u16
    }

    // What its ceilings leave to it, and its reservation.
    pub(crate) fn limits(&self, tiers: &[Tier]) -> Limits
        ensures { result ≡ limits_in tiers.now self.now }
    {
        let sustained = self.sustained.again();
        let tier = self.tier as usize;
        if tier >= tiers.len() {
            return Limits {
                sustained,
                peak: Bucket::unlimited(),
                reserved: Bucket::unlimited(),
            };
        }
        Limits {
            sustained,
            peak: tiers[tier].peak.again(),
            reserved: tiers[tier].reserved.again(),
        }
    }

    // Its turn at this minislot: with a reservation in the rank of a polled flow where that leaves what it wants at
    // least, and else in its own.
    pub(crate) fn turn_at(&self, tiers: &[Tier], config: &Checked, start: u64) -> u128
        requires { HasBegunBy start (limits_in tiers.now self.now) }
        ensures { result ≡ turn_at config.now tiers.now start self.now }
    {
        let tier = self.tier as usize;
        if tier >= tiers.len() || tiers[tier].reserved.is_unlimited() {
            return self.turn;
        }
        let wanted = self.wants.min(u64::from(config.quantum())) as u32;
        let is_under = tiers[tier].reserved.reserves(start, wanted);
        let rank = if is_under {
            RESERVED_RANK
        } else {
            tiers[tier].rank
        };
        turn_in(self.turn, rank)
    }

    // Whether a grant of so many bytes that starts at this minislot keeps its ceilings.
    fn has(&self, tiers: &[Tier], slot: u64, bytes: u32) -> bool
        requires { HasBegunBy slot (limits_in tiers.now self.now) }
        ensures { result ≡ (most_in (limits_in tiers.now self.now) slot bytes == bytes) }
    {
        let tier = self.tier as usize;
        self.sustained.has(slot, bytes)
            && (tier >= tiers.len() || tiers[tier].peak.has(slot, bytes))
    }

    // Whether its flow may be served at this minislot: what it wants at least fits the room and keeps its ceilings.
    #[inline(always)]
    pub(crate) fn may_be_served(&self, tiers: &[Tier], quantum: u64, start: u64, room: Room) -> bool
        requires quantum { quantum < 2 ^ 32 }
        requires begun { still_waits self.now ≡ true → HasBegunBy start (limits_in tiers.now self.now) }
        ensures waits { IsTrue result → still_waits self.now ≡ true }
        ensures may { (c : Config) (items : List Flow) (f : Flow) → IsLawful c → quantum ≡ c.quantum → IsRoom c room
            → IsBook c items → AllByRecursion (HasStartedBy start) (map live items) → IsAt items self.now → HasTier items tiers.now self.now
            → slice_get items self.now.place ≡ Some f → still_waits self.now ≡ true
            → IsTrue result ↔ IsEligible c start room.slots (live f) }
    {
        let wanted = self.wants.min(quantum);
        if wanted == 0 || wanted > room.bytes {
            return false;
        }
        self.has(tiers, start, wanted as u32)
    }

    // Takes the most bytes, up to the limit, that keep its ceilings in a grant that starts at this minislot, where it
    // wants so many at least, and answers how many they are.
    #[inline(always)]
    fn take_most(&mut self, tiers: &mut [Tier], slot: u64, wanted: u32, limit: u32) -> u32
        requires { HasBegunBy slot (limits_in tiers.old self.old) }
        ensures same { self.new ≡ record self.old { sustained = self.new.sustained } }
        ensures most { result ≡ most_with (limits_in tiers.old self.old) slot wanted limit }
        ensures taken { HaveOneMore (limits_in tiers.old self.old) (limits_in tiers.new self.new) slot wanted
            result }
        ensures settled { StaySettled (limits_in tiers.old self.old) (limits_in tiers.new self.new) slot wanted
            result }
        ensures spent { IsSpent tiers.old tiers.new self.old self.new }
    {
        let tier = self.tier as usize;
        if tier >= tiers.len() {
            return self.sustained.take_most(slot, limit);
        }
        tiers[tier].take_most(&mut self.sustained, slot, wanted, limit)
    }

    // Grants the flow, from this minislot on, the most bytes that it may have of so many at most, and answers how many
    // they are.
    #[inline(always)]
    pub(crate) fn serve(&mut self, tiers: &mut [Tier], quantum: u32, start: u64, most: u64) -> u32
        requires begun { HasBegunBy start (limits_in tiers.old self.old) }
        requires most { most < 2 ^ 32 }
        ensures bytes { result
            ≡ most_with (limits_in tiers.old self.old) start (min self.old.wants quantum) (min self.old.wants most) }
        ensures wants { self.new.wants + result ≡ self.old.wants }
        ensures place { self.new.place ≡ self.old.place }
        ensures limits { HaveOneMore (limits_in tiers.old self.old) (limits_in tiers.new self.new) start
            (min self.old.wants quantum) result }
        ensures settled { StaySettled (limits_in tiers.old self.old) (limits_in tiers.new self.new) start
            (min self.old.wants quantum) result }
        ensures spent { IsSpent tiers.old tiers.new self.old self.new }
        ensures turn { (rank : ℕ) (last : Option ℕ) (sid : ℕ)
            → IsTurn rank last sid self.old.turn → IsTurn rank (Some start) sid self.new.turn }
        ensures later { (rank : ℕ) (last : Option ℕ) (sid : ℕ) → IsTurn rank last sid self.old.turn
            → IfSome last (λ m. m ≤ start) → self.old.turn ≤ self.new.turn }
    {
        let wanted = self.wants.min(u64::from(quantum)) as u32;
        let limit = self.wants.min(most) as u32;
        let bytes = self.take_most(tiers, start, wanted, limit);
        self.wants -= u64::from(bytes);
        self.turn = turn_after(self.turn, start);
        bytes
    }
}
