//! The places of the flows beside one another, in each frame of the cycle.

ghost use Rattle.std.specs.Prelude.{◌≡◌, ℕ, ◌<◌, ◌+◌, ◌++◌, [], ◌∷◌, true, false, map};
ghost use Rattle.std.specs.List.{AllByRecursion};
ghost use Rattle.sched_calls.specs.FlowSpec.{size_of};
ghost use Rattle.minislots.specs.Config.{IsLawful};
ghost use Rattle.periodic.specs.Placement.{spots_in};
ghost use Rattle.periodic.specs.Table.{IsApart};
ghost use Rattle.channel_states.specs.PossibleFlow.{IsPossibleFlow};
ghost use Rattle.channel_states.specs.PossiblePlaces.{MayStandTogether, StandBeside};
ghost use Rattle.periodic.specs.Carried.{placed_in};
ghost use Rattle.channel_states.specs.Taken.{taken_in, taken_by, spot_from};

use crate::nominal::nominal_of;
use minislots::Checked;
use periodic::{MAX_SPOTS, Spot};
use sched_calls::{FlowSpec, FlowState};

// What flows take of one frame: the first so many of these spots.
#[derive(Drop)]
struct Taken {
    spots: [Spot; MAX_SPOTS],
    count: usize,
}

// Whether what the flows take of each frame of the cycle may stand together there.
pub(crate) fn stand_beside(config: &Checked, flows: &[FlowState]) -> bool
    requires { (entries next : ℕ)
        × AllByRecursion (IsPossibleFlow config.now entries next) flows.now }
    ensures beside { result ≡ true → StandBeside config.now flows.now }
    ensures not { result ≡ false → StandBeside config.now flows.now → ⊥ }
    ensures lawful { IsLawful config.now }
{
    for place in 0..u64::from(config.cycle()) {
        if !stand_beside_in(config, flows, place) {
            return false;
        }
    }
    true
}

// Whether what the flows take of the frame at this place of the cycle may stand together.
fn stand_beside_in(config: &Checked, flows: &[FlowState], place: u64) -> bool
    requires possible { (entries next : ℕ)
        × AllByRecursion (IsPossibleFlow config.now entries next) flows.now }
    requires place { place < config.now.cycle }
    ensures beside { result ≡ true
        → MayStandTogether (spots_in config.now place (placed_in config.now flows.now)) }
    ensures not { result ≡ false
        → MayStandTogether (spots_in config.now place (placed_in config.now flows.now)) → ⊥ }
{
    let mut taken = Taken::nothing();
    for flow in flows {
        if !taken.add_flow(config, flow, place) {
            return false;
        }
    }
    true
}

impl Taken {
    // Nothing is taken.
    fn nothing() -> Taken
        ensures { taken_in result ≡ [] }
    {
        let empty = Spot {
            sid: 0,
            size: None,
            offset: 0,
            slots: 0,
        };
        Taken {
            spots: [empty; MAX_SPOTS],
            count: 0,
        }
    }

    // Whether what a flow takes of the frame at this place of the cycle may stand beside what is taken. Where it may it
    // is taken then.
    fn add_flow(&mut self, config: &Checked, flow: &FlowState, place: u64) -> bool
        requires together { MayStandTogether (taken_in self.old) }
        requires possible { (entries next : ℕ) × IsPossibleFlow config.now entries next flow.now }
        requires place { place < config.now.cycle }
        ensures together { result ≡ true → MayStandTogether (taken_in self.new) }
        ensures added { result ≡ true
            → taken_in self.new ≡ taken_in self.old ++ taken_by config.now place flow.now }
        ensures not { result ≡ false
            → MayStandTogether (taken_in self.old ++ taken_by config.now place flow.now) → ⊥ }
    {
        let Some(at) = &flow.place else {
            return true;
        };
        let nominal = nominal_of(config, &flow.spec);
        if place % nominal.interval != at.phase {
            return true;
        }
        let starts = at.starts.as_slice();
        let first = (place / nominal.interval) as usize * nominal.grants;
        let group = &starts[first..first + nominal.grants];
        self.add_starts(flow, nominal.slots as u16, group)
    }

    // The same of grants or polls of a flow that start there.
    fn add_starts(&mut self, flow: &FlowState, slots: u16, starts: &[u16]) -> bool
        requires { MayStandTogether (taken_in self.old) }
        ensures together { result ≡ true → MayStandTogether (taken_in self.new) }
        ensures added { result ≡ true
            → taken_in self.new ≡ taken_in self.old ++ map (spot_from flow.now slots) starts.now }
        ensures not { result ≡ false → MayStandTogether
            (taken_in self.old ++ map (spot_from flow.now slots) starts.now) → ⊥ }
    {
        for start in starts {
            let spot = spot_from(flow, slots, *start);
            if !self.add(spot) {
                return false;
            }
        }
        true
    }

    // The same of one spot.
    fn add(&mut self, spot: Spot) -> bool
        requires { MayStandTogether (taken_in self.old) }
        ensures together { result ≡ true → MayStandTogether (taken_in self.new) }
        ensures added { result ≡ true → taken_in self.new ≡ taken_in self.old ++ spot ∷ [] }
        ensures not { result ≡ false → MayStandTogether (taken_in self.old ++ spot ∷ []) → ⊥ }
    {
        if self.count >= MAX_SPOTS {
            return false;
        }
        if !is_apart(&self.spots[..self.count], spot) {
            return false;
        }
        self.spots[self.count] = spot;
        self.count += 1;
        true
    }
}

// Whether none of these spots has a minislot in common with this one.
fn is_apart(spots: &[Spot], spot: Spot) -> bool
    ensures apart { result ≡ true → AllByRecursion (λ s. IsApart s spot) spots.now }
    ensures not { result ≡ false → AllByRecursion (λ s. IsApart s spot) spots.now → ⊥ }
{
    let (start, end) = (u32::from(spot.offset), end_of(spot));
    for other in spots {
        if end_of(*other) > start && end > u32::from(other.offset) {
            return false;
        }
    }
    true
}

// The minislot behind a spot.
fn end_of(spot: Spot) -> u32
    ensures { result ≡ spot.offset + spot.slots }
{
    u32::from(spot.offset) + u32::from(spot.slots)
}

// What a flow takes from this start on.
fn spot_from(flow: &FlowState, slots: u16, start: u16) -> Spot
    ensures { result ≡ spot_from flow.now slots start }
{
    let size = match flow.spec {
        FlowSpec::Unsolicited { size, .. } => Some(size),
        _ => None,
    };
    Spot {
        sid: flow.sid,
        size,
        offset: start,
        slots,
    }
}
