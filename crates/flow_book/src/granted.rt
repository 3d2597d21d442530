//! The data grants of a flow and what they charge, which contracts see and no code reads.

ghost use Rattle.std.specs.Prelude.{◌≡◌, ℕ, ◌+◌, ◌-◌, List, [], ◌∷◌, ◌++◌, if◌then◌else◌};
ghost use Rattle.std.specs.Borrow.{ftrue};
ghost use Rattle.flow_book.specs.Granted.{grants_code, charges_code};
ghost use Rattle.flow_book.specs.Flows.{Charge, charge_of};
ghost use Rattle.sched_calls.specs.FlowSpec.{burst_of, reserved_burst_of};
ghost use Rattle.sched_calls.specs.declared.spec.TheConstants.{PEAK_BURST};
ghost use Rattle.flow_book.specs.Carried.{carried_grants, carried_charges};
ghost use Rattle.flow_book.specs.Book.{has_ceiling_of, has_peak_of, has_reserve_of};
ghost use Rattle.flow_book.specs.declared.flow.Grant.{Grant as DataGrant};

use crate::flow::Grant;
use sched_calls::{FlowSpec, FlowState};
use std::marker::Model;

// The data grants of a flow, in order, and the room for more of them; and what is charged to its ceiling, to its peak
// rate and to its reservation, in the present period of each. They stand in proofs alone, so they take no memory, and a
// copy of them is no work.
#[derive(Drop)]
pub(crate) struct GrantList {
    pub(crate) ghost items: { List DataGrant } by { grants_code },
    pub(crate) ghost sustained: { List Charge } by { charges_code },
    pub(crate) ghost peak: { List Charge } by { charges_code },
    pub(crate) ghost reserved: { List Charge } by { charges_code },
    pub(crate) ghost room: { ℕ },
}

impl Model for GrantList {
    ghost also_owns = { λ _. ftrue };
}

// A struct with `also_owns` has it not by itself. This one owns nothing.
unsafe impl Send for GrantList {}

impl GrantList {
    // No grants, and no room.
    pub(crate) fn none() -> GrantList
        ensures { (result.items ≡ []) × (result.sustained ≡ []) × (result.peak ≡ []) × (result.reserved ≡ []) }
    {
        GrantList {}
    }

    // The carried grant of a flow that a state tells, and what it charges, with no room.
    pub(crate) fn carried(_state: &FlowState) -> GrantList
        ensures { (result.items ≡ carried_grants _state.now.last _state.now.granted)
            × (result.sustained ≡ carried_charges _state.now.last (burst_of _state.now.spec) _state.now.sustained)
            × (result.peak ≡ carried_charges _state.now.last PEAK_BURST _state.now.peak)
            × (result.reserved
            ≡ carried_charges _state.now.last (reserved_burst_of _state.now.spec) _state.now.reserved) }
    {
        GrantList {}
    }

    // The grants with one more, which takes its room, and charges the reservation too where it is a reserved one.
    pub(crate) fn and(_before: &GrantList, _grant: &Grant, _is_reserved: &bool) -> GrantList
        ensures { (result.items ≡ _before.now.items ++ _grant.now ∷ [])
            × (result.sustained ≡ _before.now.sustained ++ charge_of _grant.now ∷ [])
            × (result.peak ≡ _before.now.peak ++ charge_of _grant.now ∷ [])
            × (result.reserved ≡ (if _is_reserved.now then _before.now.reserved ++ charge_of _grant.now ∷ []
            else _before.now.reserved))
            × (result.room ≡ _before.now.room - 1) }
    {
        GrantList {}
    }

    // The same grants, with room for so many more.
    pub(crate) fn with_room(_before: &GrantList, _more: &usize) -> GrantList
        ensures { (result.items ≡ _before.now.items) × (result.sustained ≡ _before.now.sustained)
            × (result.peak ≡ _before.now.peak) × (result.reserved ≡ _before.now.reserved)
            × (result.room ≡ _before.now.room + _more.now) }
    {
        GrantList {}
    }

    // The same grants, of a flow that had these parameters and has others from now on: in a period that begins nothing
    // is charged yet.
    pub(crate) fn under(_before: &GrantList, _spec: &FlowSpec, _next: &FlowSpec) -> GrantList
        ensures { (result.items ≡ _before.now.items)
            × (result.sustained ≡ (if has_ceiling_of _spec.now _next.now then _before.now.sustained else []))
            × (result.peak ≡ (if has_peak_of _spec.now _next.now then _before.now.peak else []))
            × (result.reserved ≡ (if has_reserve_of _spec.now _next.now then _before.now.reserved else []))
            × (result.room ≡ _before.now.room) }
    {
        GrantList {}
    }
}
