//! What flows that wait have beside their maximum sustained rate.

ghost use Rattle.std.specs.Prelude.{◌≡◌, ◌<◌, length, slice_get, Some, IfOk, OnOk};
ghost use Rattle.std.specs.List.{AllByRecursion};
ghost use Rattle.sched_calls.specs.FlowSpec.{rank_of};
ghost use Rattle.flow_book.specs.declared.flow.Flow.{Flow};
ghost use Rattle.flow_book.specs.Queue.{IsQueue};
ghost use Rattle.flow_book.specs.Tiers.{HasTier, limits_by};
ghost use Rattle.flow_book.specs.Limits.{HasBegunBy, HaveOneMore, StaySettled, most_with};
ghost use Rattle.flow_book.specs.declared.tiers.TheConstants.{NO_TIER as NONE};

use crate::bucket::Bucket;
use crate::flows::Flows;
use crate::waiting::Waiting;
use std::alloc::{AllocError, Global};

// The number of no tier.
pub(crate) const NO_TIER: u32 = u32::MAX;

// What the peak rate leaves to a flow, and its reservation, with its rank where it is not under that. Contracts alone
// read its place.
#[derive(Clone, Copy)]
pub(crate) struct Tier {
    pub(crate) place: u32,
    pub(crate) rank: u8,
    pub(crate) peak: Bucket,
    pub(crate) reserved: Bucket,
}

impl Tier {
    // Takes the most bytes, up to the limit, that keep the ceilings of its flow, of which this is the sustained one, in
    // a grant that starts at this minislot, where the flow wants so many at least: of a reserved grant no more than the
    // reservation leaves. Answers how many they are.
    #[inline(always)]
    pub(crate) fn take_most(
        &mut self,
        sustained: &mut Bucket,
        slot: u64,
        wanted: u32,
        limit: u32,
    ) -> u32
        requires { HasBegunBy slot (limits_by self.old sustained.old) }
        ensures same { self.new ≡ record self.old { peak = self.new.peak; reserved = self.new.reserved } }
        ensures most { result ≡ most_with (limits_by self.old sustained.old) slot wanted limit }
        ensures taken { HaveOneMore (limits_by self.old sustained.old) (limits_by self.new sustained.new) slot wanted
            result }
        ensures settled { StaySettled (limits_by self.old sustained.old) (limits_by self.new sustained.new) slot wanted
            result }
    {
        let is_reserved = self.reserved.reserves(slot, wanted);
        let limit = if is_reserved {
            self.reserved.most(slot, limit)
        } else {
            limit
        };
        let bytes = sustained.take_most(slot, self.peak.most(slot, limit));
        self.peak.spend(slot, bytes);
        if is_reserved {
            self.reserved.spend(slot, bytes);
        }
        bytes
    }
}

// The number of the next tier, where there is one.
fn next_number(tiers: &Vec<Tier>) -> Result<u32, AllocError>
    ensures { IfOk result (λ number. (number ≡ length tiers.now.items) × (number < NONE)) }
{
    if tiers.len() < NO_TIER as usize {
        return Ok(tiers.len() as u32);
    }
    Err(AllocError)
}

// The tier of the flow at this place.
fn tier_at(flows: &Flows, place: u32) -> Tier
    requires { place < length flows.now }
    ensures { (f : Flow) → slice_get flows.now place ≡ Some f → result ≡ record {
      place = place;
      rank = rank_of f.spec;
      peak = f.limits.peak;
      reserved = f.limits.reserved;
    } }
{
    let flow = flows.at(place as usize);
    Tier {
        place,
        rank: flow.spec.rank(),
        peak: flow.limits.peak.again(),
        reserved: flow.limits.reserved.again(),
    }
}

// The tiers of those that wait, by whose places they are numbered from now on.
pub(crate) fn tiers_of(
    alloc: Global,
    queue: &mut [Waiting],
    flows: &Flows,
) -> Result<Vec<Tier>, AllocError>
    requires { IsQueue flows.now queue.old }
    ensures queue { OnOk result (IsQueue flows.now queue.new) }
    ensures tiers { IfOk result (λ tiers. AllByRecursion (HasTier flows.now tiers.items) queue.new) }
{
    let mut tiers = Vec::new(alloc);
    for index in 0..queue.len() {
        let waiting = queue[index];
        if waiting.tier != NO_TIER {
            queue[index].tier = next_number(&tiers)?;
            tiers.push(tier_at(flows, waiting.place))?;
        }
    }
    Ok(tiers)
}
