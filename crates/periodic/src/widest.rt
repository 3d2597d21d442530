//! How many free minislots stand in a row at most, in each frame of the cycle: a search turns away what needs more
//! without a look at the bits.

ghost use Rattle.std.specs.Prelude.{◌≡◌, ℕ, ◌+◌, ◌-◌, ◌*◌, ◌/◌, ◌^◌, ◌<◌, ◌≤◌, ◌⊎◌, List, get_or, true};
ghost use Rattle.minislots.specs.declared.config.Config.{Config};
ghost use Rattle.minislots.specs.Config.{IsLawful};
ghost use Rattle.periodic.specs.declared.bits.Bits.{Bits};
ghost use Rattle.periodic.specs.Bits.{bit_of, bit_for, IsClear};
ghost use Rattle.periodic.specs.Rows.{HaveAtMost, AreBounds};
ghost use Rattle.periodic.specs.Search.{CanBeSought};

use crate::MAX_CYCLE;
use crate::bits::Bits;
use crate::search::Wanted;
use minislots::Checked;

// For each frame of the cycle a bound of the free minislots that stand in a row behind the request region.
#[derive(Clone, Copy)]
pub(crate) struct Widest {
    pub(crate) most: [u16; MAX_CYCLE],
}

// The free minislots in a row before this start, of which there are at most `most` in a row: none where the one before
// is taken.
fn before(bits: &Bits, behind: u64, start: u64, most: u16) -> u64
    ensures reached { (m : ℕ) → behind ≤ m → m < start → start < 1024
        → IsClear bits.now.words m (start - m) → most ≤ result }
    ensures most { result < 2 ^ 16 }
{
    if start <= behind || start > 1024 {
        return 0;
    }
    if bits.next_taken(start - 1) < start {
        return 0;
    }
    u64::from(most)
}

// A bound of the free minislots in a row, with those from `start` to before `end` now free, where it was `most`. One of
// the frame's length says nothing yet.
fn widened(bits: &Bits, config: &Checked, start: u64, end: u64, most: u16) -> u16
    requires end { start ≤ end }
    requires end_most { end < 2 ^ 32 }
    ensures { (old : List ℕ)
        → ((m : ℕ) → (m < start) ⊎ (end ≤ m) → bit_of bits.now.words m ≡ bit_of old m)
        → HaveAtMost config.now old most → HaveAtMost config.now bits.now.words result }
{
    let frame = u64::from(config.frame());
    let known = u64::from(most);
    if known >= frame {
        return most;
    }
    let reached = before(bits, u64::from(config.req_slots()), start, most);
    let taken = bits.next_taken(end.min(1024)).min(frame);
    let widest = reached + taken.saturating_sub(start);
    widest.max(known).min(1024) as u16
}

// Marks the minislots from `start` to before `end` as taken, or as free, and keeps the bound.
pub(crate) fn mark(
    bits: &mut Bits,
    most: &mut u16,
    config: &Checked,
    start: u64,
    end: u64,
    taken: bool,
)
    requires end { start ≤ end }
    requires end_most { end < 2 ^ 32 }
    requires lawful { IsLawful config.now }
    requires bounded { HaveAtMost config.now bits.old.words most.old }
    ensures inside { (m : ℕ)
        → m < 1024 → start ≤ m → m < end → bit_of bits.new.words m ≡ bit_for taken }
    ensures outside { (m : ℕ)
        → (m < start) ⊎ (end ≤ m) → bit_of bits.new.words m ≡ bit_of bits.old.words m }
    ensures bounded { HaveAtMost config.now bits.new.words most.new }
{
    bits.mark(start, end, taken);
    if taken {
        return;
    }
    *most = widened(bits, config, start, end, *most);
}

impl Widest {
    // Nothing is known yet.
    pub(crate) fn open() -> Self
        ensures { (c : Config) → (rows : List Bits) → IsLawful c → AreBounds c rows result.most }
    {
        Widest {
            most: [1024; MAX_CYCLE],
        }
    }

    // Whether some frame of this phase has no room for a grant.
    pub(crate) fn lacks(&self, config: &Checked, wanted: Wanted, phase: u64) -> bool
        requires sought { CanBeSought config.now wanted }
        requires phase { phase < wanted.interval }
        ensures { result ≡ true → (index : ℕ) × (index < config.now.cycle / wanted.interval)
            × (get_or self.now.most (phase + index * wanted.interval) 0 < wanted.slots) }
    {
        for index in 0..u64::from(config.cycle()) / wanted.interval {
            let place = (phase + index * wanted.interval) as usize;
            if u64::from(self.most[place]) < wanted.slots {
                return true;
            }
        }
        false
    }
}
