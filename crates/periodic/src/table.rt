//! The placements of a channel's periodic flows in the cycle of frames.

ghost use Rattle.std.specs.Prelude.{◌≡◌, ℕ, ◌+◌, ◌<◌, ◌==◌, ◌≤◌, ◌^◌, ◌%◌, ◌↔◌, []};
ghost use Rattle.std.specs.Prelude.{length, take, drop, true, false, None, IfOk, OnErr, IsErrOf, IfSome, IfNone};
ghost use Rattle.std.specs.List.{AllByRecursion};
ghost use Rattle.std.specs.List.Sorted.{IsPermutation};
ghost use Rattle.sched_calls.specs.FlowSpec.{is_periodic, grants_of, first_fault};
ghost use Rattle.periodic.specs.declared.TheConstants.{MAX_SPOTS, MAX_STARTS};
ghost use Rattle.periodic.specs.Placement.{due_in, IsPlacement, NoPlacement};
ghost use Rattle.periodic.specs.Choice.{IsChosen};
ghost use Rattle.periodic.specs.Fields.{placement_at};
ghost use Rattle.periodic.specs.Search.{starts_of};
ghost use Rattle.periodic.specs.Table.{placed_grants, IsPlaced, IsNotPlaced, HasPlacement, placed_at, with_placed};
ghost use Rattle.periodic.specs.Table.{without, AreSound, IsWithinFrame, FollowInTurn};

mod moving;
mod opening;
mod standing;

use crate::MAX_SPOTS;
use crate::adopt::is_lawful;
use crate::bits::Bits;
use crate::counts::Counts;
use crate::group::{Group, fill, put_in, room_for, take_out};
use crate::placement::{PlaceFault, Spot};
use crate::row::Row;
use crate::search::choose;
use crate::spots::{PlacedFlow, mark, sort};
use crate::widest::Widest;
use minislots::Checked;
use sched_calls::{FlowSpec, Placement, Starts};
use std::alloc::{AllocError, Global};
use std::marker::Model;

/// The placements of one channel's periodic flows, in order of SID, with at most `periodic` grants per interval, as the
/// configuration has it, and at most [`MAX_SPOTS`] grants and polls in each frame. No two of these take the same
/// minislot of a frame.
#[derive(Drop)]
pub struct Table {
    config: Checked,
    // In no order of their own.
    groups: Vec<Group>,
    // What the flows take of each frame of the cycle.
    rows: Vec<Bits>,
    // How many free minislots stand in a row there at most.
    widest: Widest,
    // How many grants and polls they have there.
    counts: Counts,
    // Their grants per interval.
    grants: usize,
    // How many flows are placed.
    len: usize,
}

impl Model for Table {
    ghost use Rattle.periodic.specs.Table.{TableView};

    ghost Value = { TableView };

    ghost use Rattle.periodic.specs.Groups.{placed_in, AreSoundFields};

    ghost view = { λ t. record { config = t.config; placed = placed_in t.groups.items } };

    ghost invariant = { λ t. AreSoundFields t.config t.groups.items t.rows.items
        t.widest.most t.counts.starts t.grants t.len };
}

impl Table {
    /// A table for this channel, without placements.
    pub fn open(alloc: Global, config: Checked) -> Result<Table, AllocError>
        ensures config { IfOk result (λ table. table.config ≡ config) }
        ensures empty { IfOk result (λ table. table.placed ≡ []) }
    {
        let cycle = config.cycle() as usize;
        let rows = vec![in alloc; Bits::free(); cycle]?;
        Ok(Table {
            config,
            groups: Vec::new(alloc),
            rows,
            widest: Widest::open(),
            counts: Counts::open(),
            grants: 0,
            len: 0,
        })
    }

    /// The channel's configuration.
    pub fn config(&self) -> &Checked
        ensures value { result.now ≡ self.now.config }
        ensures sound { AreSound self.now.config self.now.placed }
    {
        &self.config
    }

    /// How many flows are placed.
    pub fn len(&self) -> usize
        ensures value { result ≡ length self.now.placed }
        ensures sound { AreSound self.now.config self.now.placed }
    {
        self.len
    }

    /// The grants per interval of the flows that are placed.
    pub fn grants(&self) -> usize
        ensures value { result ≡ placed_grants self.now.placed }
        ensures sound { AreSound self.now.config self.now.placed }
    {
        self.grants
    }

    /// Whether no flow is placed.
    pub fn is_empty(&self) -> bool
        ensures { result ≡ (length self.now.placed == 0) }
    {
        self.len == 0
    }

    /// Places a periodic flow, from `next` on: a lawful placement beside those that stand, and its
    /// first nominal time at or after `next`. Of all lawful ones it takes that of the least phase, then of the least
    /// offset, then in each frame the least first start, then the least next one. The flow has a new SID from 1 to 8191
    /// and parameters without fault, its grants per interval and those of the flows that are placed are at most
    /// `periodic` of the configuration, and `next` is the start of a frame, at most 2^61. After a fault nothing has
    /// changed.
    pub fn place(&mut self, sid: u16, spec: &FlowSpec, next: u64) -> Result<Placement, PlaceFault>
        requires sid_positive { 0 < sid }
        requires sid_most { sid ≤ 8191 }
        requires is_new { IsNotPlaced sid self.old.placed }
        requires periodic { is_periodic spec.now ≡ true }
        requires no_fault { first_fault self.old.config spec.now ≡ None }
        requires room { placed_grants self.old.placed + grants_of spec.now ≤ self.old.config.periodic }
        requires aligned { next % self.old.config.frame ≡ 0 }
        requires most { next ≤ 2 ^ 61 }

        // The placement is lawful, no lawful one comes before it, and it stands in the table beside the others.
        ensures lawful { IfOk result (IsPlacement self.old.config self.old.placed spec.now next) }
        ensures chosen { IfOk result (IsChosen self.old.config self.old.placed spec.now next) }
        ensures placed { IfOk result
            (λ p. self.new.placed ≡ with_placed (placed_at sid spec.now p) self.old.placed) }
        ensures config { self.new.config ≡ self.old.config }

        // No place is answered exactly where there is none.
        ensures no_place { IsErrOf result PlaceFault.NoPlace
            ↔ NoPlacement self.old.config self.old.placed spec.now next }
        ensures memory { IsErrOf result PlaceFault.Memory
            → HasPlacement self.old.config self.old.placed spec.now next }
        ensures err { OnErr result (self.new ≡ self.old) }
    {
        let mut row = Row::empty();
        let Some(reference) = self.chosen(spec, next, &mut row) else {
            return Err(PlaceFault::NoPlace);
        };
        match self.add(sid, *spec, reference, row.starts()) {
            Ok(placement) => Ok(placement),
            Err(_) => Err(PlaceFault::Memory),
        }
    }

    /// Places a periodic flow where it stood elsewhere: true, and placed, exactly where this is a lawful
    /// placement beside those that stand, its reference being the first nominal time at or after `next`.
    /// The flow, its SID and `next` are as for [`Table::place`]. Memory is lacking only where the answer
    /// would be true; after that fault nothing has changed.
    pub fn adopt(
        &mut self,
        sid: u16,
        spec: &FlowSpec,
        next: u64,
        placement: &Placement,
    ) -> Result<bool, AllocError>
        requires sid_positive { 0 < sid }
        requires sid_most { sid ≤ 8191 }
        requires is_new { IsNotPlaced sid self.old.placed }
        requires periodic { is_periodic spec.now ≡ true }
        requires no_fault { first_fault self.old.config spec.now ≡ None }
        requires room { placed_grants self.old.placed + grants_of spec.now ≤ self.old.config.periodic }
        requires aligned { next % self.old.config.frame ≡ 0 }
        requires most { next ≤ 2 ^ 61 }

        // True stands for a lawful placement, which then stands in the table beside the others.
        ensures lawful { IfOk result (λ taken. taken ≡ true →
            IsPlacement self.old.config self.old.placed spec.now next placement.now) }
        ensures placed { IfOk result (λ taken. taken ≡ true → self.new.placed
            ≡ with_placed (placed_at sid spec.now placement.now) self.old.placed) }
        ensures config { self.new.config ≡ self.old.config }

        // False stands for any other, and nothing has changed.
        ensures unlawful { IfOk result (λ taken. taken ≡ false →
            IsPlacement self.old.config self.old.placed spec.now next placement.now → ⊥) }
        ensures same { IfOk result (λ taken. taken ≡ false → self.new ≡ self.old) }
        ensures memory { OnErr result
            (IsPlacement self.old.config self.old.placed spec.now next placement.now) }
        ensures err { OnErr result (self.new ≡ self.old) }
    {
        if !self.takes(spec, next, placement) {
            return Ok(false);
        }
        self.add(sid, *spec, placement.reference, placement.starts.as_slice())?;
        Ok(true)
    }

    /// Takes out a placed flow, with its placement. Takes no memory.
    pub fn remove(&mut self, sid: u16)
        requires { IsPlaced sid self.old.placed }
        ensures { self.new ≡ record self.old { placed = without sid self.old.placed } }
    {
        let Some(flow) = take_out(&mut self.groups, sid) else {
            return;
        };
        mark(&mut self.rows, &mut self.widest, &self.config, &flow, false);
        self.counts.count(&self.config, &flow, false);
        self.grants -= flow.grants;
        self.len -= 1;
    }

    /// Writes what the placed flows are to have of frame `k`, in the order of their offsets, and answers how
    /// many spots these are: what each takes, but of a flow that rests one poll at the first of its starts there. The
    /// rest of the array stays.
    pub fn in_frame(&self, k: u64, spots: &mut [Spot; MAX_SPOTS]) -> usize
        // Exactly the spots of the frame are written.
        ensures spots { IsPermutation (due_in self.now.config k self.now.placed)
            (take result spots.new) }
        ensures rest { drop result spots.new ≡ drop result spots.old }
        ensures most { result ≤ MAX_SPOTS }

        // They stand one after the other, behind the request region and within the frame.
        ensures ascending { FollowInTurn (take result spots.new) }
        ensures within { AllByRecursion (IsWithinFrame self.now.config) (take result spots.new) }
    {
        let count = fill(&self.groups, &self.config, k, spots);
        sort(&mut spots[..count]);
        count
    }

    // The placement that is taken for these parameters from `next` on, if there is one: its reference, and in the row
    // its starts.
    fn chosen(&mut self, spec: &FlowSpec, next: u64, row: &mut Row) -> Option<u64>
        requires periodic { is_periodic spec.now ≡ true }
        requires no_fault { first_fault self.old.config spec.now ≡ None }
        requires aligned { next % self.old.config.frame ≡ 0 }
        requires most { next ≤ 2 ^ 61 }
        ensures chosen { IfSome result (λ reference. IsChosen self.old.config self.old.placed
            spec.now next (placement_at reference (starts_of row.new))) }
        ensures count { IfSome result (λ _. row.new.count ≤ MAX_STARTS) }
        ensures absent { IfNone result (NoPlacement self.old.config self.old.placed spec.now next) }
        ensures same { self.new ≡ self.old }
    {
        choose(
            &self.rows,
            &self.counts,
            &mut self.widest,
            &self.config,
            spec,
            next,
            row,
        )
    }

    // Whether the placement is lawful for these parameters from `next` on, beside those that stand.
    fn takes(&self, spec: &FlowSpec, next: u64, placement: &Placement) -> bool
        requires periodic { is_periodic spec.now ≡ true }
        requires no_fault { first_fault self.now.config spec.now ≡ None }
        ensures lawful { result ≡ true
            → IsPlacement self.now.config self.now.placed spec.now next placement.now }
        ensures unlawful { result ≡ false
            → IsPlacement self.now.config self.now.placed spec.now next placement.now → ⊥ }
    {
        is_lawful(
            &self.rows,
            &self.counts,
            &self.config,
            spec,
            next,
            placement,
        )
    }

    // Adds a flow with a placement that is lawful beside those that stand, to the group of its interval and phase.
    fn add(
        &mut self,
        sid: u16,
        spec: FlowSpec,
        reference: u64,
        starts: &[u16],
    ) -> Result<Placement, AllocError>
        requires sid_positive { 0 < sid }
        requires sid_most { sid ≤ 8191 }
        requires is_new { IsNotPlaced sid self.old.placed }
        requires periodic { is_periodic spec ≡ true }
        requires no_fault { first_fault self.old.config spec ≡ None }
        requires room { placed_grants self.old.placed + grants_of spec ≤ self.old.config.periodic }
        requires lawful { (next : ℕ) × IsPlacement self.old.config self.old.placed spec next
            (placement_at reference starts.now) }
        ensures placement { IfOk result (λ p. p ≡ placement_at reference starts.now) }
        ensures placed { IfOk result
            (λ p. self.new.placed ≡ with_placed (placed_at sid spec p) self.old.placed) }
        ensures config { self.new.config ≡ self.old.config }
        ensures err { OnErr result (self.new ≡ self.old) }
    {
        let alloc = *self.groups.allocator();
        let kept = Vec::from_slice(alloc, starts)?;
        let answered = Vec::from_slice(alloc, starts)?;
        let placement = Placement {
            reference,
            starts: Starts::from_vec(kept),
        };
        let flow = PlacedFlow::at(&self.config, sid, spec, placement);
        let place = room_for(&mut self.groups, flow.interval, flow.phase)?;
        mark(&mut self.rows, &mut self.widest, &self.config, &flow, true);
        self.counts.count(&self.config, &flow, true);
        self.grants += flow.grants;
        self.len += 1;
        put_in(&mut self.groups, place, flow);
        Ok(Placement {
            reference,
            starts: Starts::from_vec(answered),
        })
    }
}
