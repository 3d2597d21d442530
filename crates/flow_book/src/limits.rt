//! What both ceilings of a flow leave to it, and its reservation.

ghost use Rattle.std.specs.Prelude.{◌≡◌, ◌==◌, []};
ghost use Rattle.sched_calls.specs.FlowSpec.{rate_of, burst_of, peak_of, reserved_of, reserved_burst_of};
ghost use Rattle.sched_calls.specs.declared.spec.TheConstants.{PEAK_BURST as THE_PEAK_BURST};
ghost use Rattle.flow_book.specs.Bucket.{StandsFor, IsSettled, reserves};
ghost use Rattle.minislots.specs.declared.config.Config.{Config};
ghost use Rattle.flow_book.specs.Limits.{HasBegunBy, AreLimitsOf, AreSettled, HaveOneMore, StaySettled};
ghost use Rattle.flow_book.specs.Carried.{carried_flow, MayBeCarried};
ghost use Rattle.flow_book.specs.Limits.{most_in, most_with};

use crate::bucket::Bucket;
use minislots::Checked;
use sched_calls::{FlowSpec, FlowState, PEAK_BURST};

// What both ceilings of a flow leave to it, and its reservation, each over its own present period.
#[derive(Clone, Copy)]
pub(crate) struct Limits {
    // Under the maximum sustained rate and burst.
    pub(crate) sustained: Bucket,
    // Under the peak rate.
    pub(crate) peak: Bucket,
    // Of the minimum reserved rate and its burst.
    pub(crate) reserved: Bucket,
}

impl Limits {
    // Those of a flow with these parameters that was granted nothing.
    pub(crate) fn open(config: &Checked, spec: &FlowSpec) -> Limits
        ensures sustained { StandsFor config.now (rate_of spec.now) (burst_of spec.now) result.sustained [] }
        ensures sustained_settled { IsSettled result.sustained [] }
        ensures peak { StandsFor config.now (peak_of spec.now) THE_PEAK_BURST result.peak [] }
        ensures peak_settled { IsSettled result.peak [] }
        ensures reserved { StandsFor config.now (reserved_of spec.now) (reserved_burst_of spec.now) result.reserved [] }
        ensures reserved_settled { IsSettled result.reserved [] }
    {
        Limits {
            sustained: sustained_of(config, spec),
            peak: peak_of(config, spec),
            reserved: reserved_of(config, spec),
        }
    }

    // Those of a flow that a state tells: each has its level where the last grant starts.
    pub(crate) fn carried(config: &Checked, state: &FlowState) -> Limits
        requires { MayBeCarried state.now }
        ensures stand { AreLimitsOf config.now (carried_flow state.now) result }
        ensures settled { AreSettled (carried_flow state.now) result }
    {
        let (spec, last) = (&state.spec, state.last);
        Limits {
            sustained: Bucket::carried(config, spec.rate(), spec.burst(), last, state.sustained),
            peak: Bucket::carried(config, spec.peak(), PEAK_BURST, last, state.peak),
            reserved: Bucket::carried(
                config,
                spec.reserved(),
                spec.reserved_burst(),
                last,
                state.reserved,
            ),
        }
    }

    // The most bytes, up to the limit, of a grant that starts at this minislot, to one that wants so many at least.
    pub(crate) fn most(&self, slot: u64, wanted: u32, limit: u32) -> u32
        requires { HasBegunBy slot self.now }
        ensures { result ≡ most_with self.now slot wanted limit }
    {
        let limit = if self.reserved.reserves(slot, wanted) {
            self.reserved.most(slot, limit)
        } else {
            limit
        };
        self.sustained.most(slot, self.peak.most(slot, limit))
    }

    // Whether a grant of so many bytes that starts at this minislot keeps both ceilings.
    pub(crate) fn has(&self, slot: u64, bytes: u32) -> bool
        requires { HasBegunBy slot self.now }
        ensures { result ≡ (most_in self.now slot bytes == bytes) }
    {
        self.sustained.has(slot, bytes) && self.peak.has(slot, bytes)
    }

    // Takes a grant of so many bytes that starts at this minislot, to a flow that wants so many at least, where it
    // keeps both ceilings, and the reservation where it is a reserved one. Answers whether it is.
    pub(crate) fn take(&mut self, slot: u64, wanted: u32, bytes: u32) -> bool
        requires begun { HasBegunBy slot self.old }
        requires has { most_with self.old slot wanted bytes ≡ bytes }
        ensures reserved { result ≡ reserves self.old.reserved slot wanted }
        ensures taken { HaveOneMore self.old self.new slot wanted bytes }
        ensures settled { StaySettled self.old self.new slot wanted bytes }
    {
        let is_reserved = self.reserved.reserves(slot, wanted);
        self.sustained.spend(slot, bytes);
        self.peak.spend(slot, bytes);
        if is_reserved {
            self.reserved.spend(slot, bytes);
        }
        is_reserved
    }
}

// The bucket of the maximum sustained rate and burst, full.
pub(crate) fn sustained_of(config: &Checked, spec: &FlowSpec) -> Bucket
    ensures empty { StandsFor config.now (rate_of spec.now) (burst_of spec.now) result [] }
    ensures settled { IsSettled result [] }
{
    Bucket::open(config, spec.rate(), spec.burst())
}

// The bucket of the peak rate, full.
pub(crate) fn peak_of(config: &Checked, spec: &FlowSpec) -> Bucket
    ensures empty { StandsFor config.now (peak_of spec.now) THE_PEAK_BURST result [] }
    ensures settled { IsSettled result [] }
{
    Bucket::open(config, spec.peak(), PEAK_BURST)
}

// The bucket of the reservation, full.
pub(crate) fn reserved_of(config: &Checked, spec: &FlowSpec) -> Bucket
    ensures empty { StandsFor config.now (reserved_of spec.now) (reserved_burst_of spec.now) result [] }
    ensures settled { IsSettled result [] }
{
    Bucket::open(config, spec.reserved(), spec.reserved_burst())
}
