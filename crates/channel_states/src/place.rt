//! The place of a flow by itself.

ghost use Rattle.std.specs.Prelude.{◌≡◌, ◌<◌, ◌≤◌, ◌^◌, true, false, None, [], length};
ghost use Rattle.sched_calls.specs.FlowSpec.{is_periodic, first_fault};
ghost use Rattle.periodic.specs.Placement.{HasLawfulStarts};
ghost use Rattle.channel_states.specs.PossibleFlow.{HasPossiblePlace, IsPossiblePlace, MayRest};
ghost use Rattle.periodic.specs.Carried.{placement_of};
ghost use Rattle.channel_states.specs.Nominal.{IsNominalOf, IsStartFrom, AreStartsFrom};

use crate::nominal::{Nominal, nominal_of};
use minislots::Checked;
use sched_calls::{FlowSpec, FlowState, PlaceState};

// Whether a flow may have its place, or none.
pub(crate) fn has_possible_place(config: &Checked, flow: &FlowState) -> bool
    requires { first_fault config.now flow.now.spec ≡ None }
    ensures possible { result ≡ true → HasPossiblePlace config.now flow.now }
    ensures impossible { result ≡ false → HasPossiblePlace config.now flow.now → ⊥ }
{
    match &flow.place {
        Some(place) => is_periodic(&flow.spec) && is_possible_place(config, &flow.spec, place),
        None => !is_periodic(&flow.spec),
    }
}

// Whether a flow has a place in the cycle.
fn is_periodic(spec: &FlowSpec) -> bool
    ensures { result ≡ is_periodic spec.now }
{
    !matches!(spec, FlowSpec::BestEffort { .. })
}

// Whether a periodic flow may have this place.
fn is_possible_place(config: &Checked, spec: &FlowSpec, place: &PlaceState) -> bool
    requires periodic { is_periodic spec.now ≡ true }
    requires no_fault { first_fault config.now spec.now ≡ None }
    ensures possible { result ≡ true → IsPossiblePlace config.now spec.now place.now }
    ensures impossible { result ≡ false → IsPossiblePlace config.now spec.now place.now → ⊥ }
{
    let nominal = nominal_of(config, spec);
    if nominal.interval <= place.phase {
        return false;
    }
    if place.offset < u64::from(config.req_slots()) || u64::from(config.frame()) <= place.offset {
        return false;
    }
    if place.rests && !may_rest(config, spec, nominal) {
        return false;
    }
    has_lawful_starts(config, spec, nominal, place)
}

// Whether a flow may rest.
fn may_rest(config: &Checked, spec: &FlowSpec, nominal: Nominal) -> bool
    requires { IsNominalOf config.now spec.now nominal }
    ensures may { result ≡ true → MayRest config.now spec.now }
    ensures not { result ≡ false → MayRest config.now spec.now → ⊥ }
{
    !spec.takes_requests() && u64::from(config.poll_slots()) <= nominal.slots
}

// Whether the starts of a place are lawful in each nominal frame of the cycle.
fn has_lawful_starts(
    config: &Checked,
    spec: &FlowSpec,
    nominal: Nominal,
    place: &PlaceState,
) -> bool
    requires periodic { is_periodic spec.now ≡ true }
    requires no_fault { first_fault config.now spec.now ≡ None }
    requires nominal { IsNominalOf config.now spec.now nominal }
    requires phase { place.now.phase < nominal.interval }
    requires within { place.now.offset < config.now.frame }
    ensures lawful { result ≡ true
        → HasLawfulStarts config.now spec.now (placement_of config.now place.now) (λ k. []) }
    ensures unlawful { result ≡ false
        → HasLawfulStarts config.now spec.now (placement_of config.now place.now) (λ k. []) → ⊥ }
{
    let starts = place.starts.as_slice();
    let frames = (u64::from(config.cycle()) / nominal.interval) as usize;
    if starts.len() != frames * nominal.grants {
        return false;
    }
    for index in 0..frames {
        let first = index * nominal.grants;
        let group = &starts[first..first + nominal.grants];
        if !are_starts_in(config, nominal, place.offset, group) {
            return false;
        }
    }
    true
}

// Whether these are lawful starts in one frame, one after the other; they are as many as a nominal frame has.
fn are_starts_in(config: &Checked, nominal: Nominal, offset: u64, starts: &[u16]) -> bool
    requires count { length starts.now ≡ nominal.grants }
    requires slots { nominal.slots ≤ 1024 }
    requires offset { offset < 1024 }
    ensures lawful { result ≡ true → AreStartsFrom config.now nominal offset starts.now }
    ensures unlawful { result ≡ false → AreStartsFrom config.now nominal offset starts.now → ⊥ }
{
    let mut from = offset;
    for start in starts {
        let start = u64::from(*start);
        if start < from || !is_start(config, nominal, offset, start) {
            return false;
        }
        from = start + nominal.slots;
    }
    true
}

// Whether a grant or poll may start there in a frame, at the nominal time of this offset.
fn is_start(config: &Checked, nominal: Nominal, offset: u64, start: u64) -> bool
    requires start { start < 2 ^ 16 }
    requires slots { nominal.slots ≤ 1024 }
    ensures lawful { result ≡ true → IsStartFrom config.now nominal offset start }
    ensures unlawful { result ≡ false → IsStartFrom config.now nominal offset start → ⊥ }
{
    offset <= start
        && start - offset <= nominal.jitter
        && start + nominal.slots <= u64::from(config.frame())
}
