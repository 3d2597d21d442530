//! Placed flows that stay where they stand: they rest and wake, or have other parameters and are told anew.

ghost use Rattle.std.specs.Prelude.{◌≡◌, ℕ, ◌^◌, ◌≤◌, ◌%◌, ◌==◌, true, false, None, find, IfSome, IfOk, OnErr};
ghost use Rattle.sched_calls.specs.FlowSpec.{has_place_of, first_fault};
ghost use Rattle.periodic.specs.Placement.{IsToldFrom};
ghost use Rattle.periodic.specs.Fields.{IsSoundFlow};
ghost use Rattle.periodic.specs.PlaceState.{place_state_of};
ghost use Rattle.periodic.specs.Search.{IsReference};
ghost use Rattle.periodic.specs.Table.{placed_at, IsPlaced, HasRoomToPoll, with_placed, without, with_rest};

use super::Table;
use crate::group::{flow_of, lift_out, put_in};
use crate::search::first_nominal;
use crate::spots::PlacedFlow;
use minislots::Checked;
use sched_calls::{FlowSpec, PlaceState, Placement, Starts};
use std::alloc::AllocError;

impl Table {
    /// Lets a placed flow rest: in each frame it is then to have one poll, at the first of its starts there, in the
    /// place of what it takes. Its placement stays. Its grants have room for a poll. Takes no memory.
    pub fn rest(&mut self, sid: u16)
        requires placed { IsPlaced sid self.old.placed }
        requires room { IfSome (find (λ f. f.sid == sid) self.old.placed) (HasRoomToPoll self.old.config) }
        ensures { self.new ≡ record self.old { placed = with_rest sid true self.old.placed } }
    {
        self.set_rest(sid, true);
    }

    /// Wakes a placed flow: it is to have again what it takes. Takes no memory.
    pub fn wake(&mut self, sid: u16)
        requires { IsPlaced sid self.old.placed }
        ensures { self.new ≡ record self.old { placed = with_rest sid false self.old.placed } }
    {
        self.set_rest(sid, false);
    }

    // Notes whether a placed flow rests.
    fn set_rest(&mut self, sid: u16, rests: bool)
        requires placed { IsPlaced sid self.old.placed }
        requires room { rests ≡ true
            → IfSome (find (λ f. f.sid == sid) self.old.placed) (HasRoomToPoll self.old.config) }
        ensures { self.new ≡ record self.old { placed = with_rest sid rests self.old.placed } }
    {
        if let Some((place, mut flow)) = lift_out(&mut self.groups, sid) {
            flow.rests = rests;
            put_in(&mut self.groups, place, flow);
        }
    }

    /// The placement of a placed flow, told from the start of a frame on for parameters by which it may stand there:
    /// its own starts, with its first nominal time at or after `next`.
    pub fn told(&self, sid: u16, spec: &FlowSpec, next: u64) -> Result<Placement, AllocError>
        requires placed { IsPlaced sid self.now.placed }
        requires alike { IfSome (find (λ f. f.sid == sid) self.now.placed)
            (λ f. has_place_of f.spec spec.now ≡ true) }
        requires aligned { next % self.now.config.frame ≡ 0 }
        requires most { next ≤ 2 ^ 61 }
        ensures { IfOk result (λ p. IfSome (find (λ f. f.sid == sid) self.now.placed)
            (λ f. IsToldFrom self.now.config spec.now next f.placement p)) }
    {
        let Some(flow) = flow_of(&self.groups, sid) else {
            return Err(AllocError);
        };
        let starts = Vec::from_slice(*self.groups.allocator(), flow.placement.starts.as_slice())?;
        Ok(Placement {
            reference: reference_from(&self.config, flow, next),
            starts: Starts::from_vec(starts),
        })
    }

    /// The place of the flow with this SID, where it is placed, as the state of a scheduler tells it. Memory is taken
    /// for its starts alone.
    pub fn place_state(&self, sid: u16) -> Result<Option<PlaceState>, AllocError>
        ensures value { IfOk result (λ place. place ≡ place_state_of self.now.config sid self.now.placed) }
        ensures memory { OnErr result (IsPlaced sid self.now.placed) }
    {
        let Some(flow) = flow_of(&self.groups, sid) else {
            return Ok(None);
        };
        let starts = Vec::from_slice(*self.groups.allocator(), flow.placement.starts.as_slice())?;
        Ok(Some(PlaceState {
            phase: flow.phase,
            offset: flow.placement.reference % u64::from(self.config.frame()),
            starts: Starts::from_vec(starts),
            rests: flow.rests,
        }))
    }

    /// Whether this is the placement of a placed flow, told from the start of a frame on for parameters by which it may
    /// stand there.
    pub fn is_told(&self, sid: u16, spec: &FlowSpec, next: u64, placement: &Placement) -> bool
        requires placed { IsPlaced sid self.now.placed }
        requires alike { IfSome (find (λ f. f.sid == sid) self.now.placed)
            (λ f. has_place_of f.spec spec.now ≡ true) }
        requires aligned { next % self.now.config.frame ≡ 0 }
        requires most { next ≤ 2 ^ 61 }
        ensures told { result ≡ true → IfSome (find (λ f. f.sid == sid) self.now.placed)
            (λ f. IsToldFrom self.now.config spec.now next f.placement placement.now) }
        ensures other { result ≡ false → IfSome (find (λ f. f.sid == sid) self.now.placed)
            (λ f. IsToldFrom self.now.config spec.now next f.placement placement.now → ⊥) }
    {
        let Some(flow) = flow_of(&self.groups, sid) else {
            return false;
        };
        if placement.reference != reference_from(&self.config, flow, next) {
            return false;
        }
        placement.starts.as_slice() == flow.placement.starts.as_slice()
    }

    /// Gives a placed flow other parameters, by which it may stand where it stands, with its placement as it was told.
    /// It does not rest. Takes no memory.
    pub fn keep(&mut self, sid: u16, spec: FlowSpec, placement: &Placement)
        requires placed { IsPlaced sid self.old.placed }
        requires alike { IfSome (find (λ f. f.sid == sid) self.old.placed)
            (λ f. has_place_of f.spec spec ≡ true) }
        requires no_fault { first_fault self.old.config spec ≡ None }
        requires told { (next : ℕ) × IfSome (find (λ f. f.sid == sid) self.old.placed)
            (λ f. IsToldFrom self.old.config spec next f.placement placement.now) }
        ensures { self.new ≡ record self.old {
          placed = with_placed (placed_at sid spec placement.now) (without sid self.old.placed);
        } }
    {
        if let Some((place, mut flow)) = lift_out(&mut self.groups, sid) {
            flow.spec = spec;
            flow.placement.reference = placement.reference;
            flow.rests = false;
            put_in(&mut self.groups, place, flow);
        }
    }
}

// The first nominal time of a placed flow at or after the start of a frame.
fn reference_from(config: &Checked, flow: &PlacedFlow, next: u64) -> u64
    requires sound { IsSoundFlow config.now flow.now }
    requires aligned { next % config.now.frame ≡ 0 }
    requires most { next ≤ 2 ^ 61 }
    ensures { IsReference config.now flow.now.interval next flow.now.phase
        (flow.now.placement.reference % config.now.frame) result }
{
    let offset = flow.placement.reference % u64::from(config.frame());
    first_nominal(config, flow.interval, next, flow.phase, offset)
}
