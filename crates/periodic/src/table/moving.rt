//! Placed flows that have other parameters and are placed anew.

ghost use Rattle.std.specs.Prelude.{◌≡◌, ℕ, ◌+◌, ◌^◌, ◌<◌, ◌≤◌, ◌%◌, ◌↔◌, true, false, None, Some, get_or, length};
ghost use Rattle.std.specs.Prelude.{IfSome, IfNone, IfOk, OnErr, IsErrOf};
ghost use Rattle.sched_calls.specs.FlowSpec.{is_periodic, grants_of, first_fault};
ghost use Rattle.periodic.specs.declared.TheConstants.{MAX_STARTS};
ghost use Rattle.periodic.specs.Placement.{spots_of, IsPlacement, NoPlacement};
ghost use Rattle.periodic.specs.Choice.{IsChosen};
ghost use Rattle.periodic.specs.Bits.{bit_for};
ghost use Rattle.periodic.specs.Rows.{row_at, AreMarked, AreBounds};
ghost use Rattle.periodic.specs.Counts.{AreCounted, MayCount};
ghost use Rattle.periodic.specs.Fields.{placed_of, placement_at, KeepsTimes, IsSoundFlow};
ghost use Rattle.periodic.specs.Search.{starts_of};
ghost use Rattle.periodic.specs.Table.{placed_grants, placed_at, IsPlaced, HasPlacement, with_placed, without};

use super::Table;
use crate::adopt::is_lawful;
use crate::bits::Bits;
use crate::counts::Counts;
use crate::group::{close_all, flow_of, lift_out, put_in, room_for};
use crate::placement::PlaceFault;
use crate::row::Row;
use crate::search::choose;
use crate::spots::{PlacedFlow, mark};
use crate::widest::Widest;
use minislots::Checked;
use sched_calls::{FlowSpec, Placement, Starts};
use std::alloc::{AllocError, Global};

impl Table {
    /// Gives a placed flow other parameters and places it anew, as [`Table::place`] does, its own placement taken out
    /// before. It does not rest. Its placement is answered, and where it is asked for `twice` once more in memory of
    /// its own. After a fault nothing has changed.
    pub fn place_anew(
        &mut self,
        sid: u16,
        spec: &FlowSpec,
        next: u64,
        twice: bool,
    ) -> Result<(Placement, Option<Placement>), PlaceFault>
        requires placed { IsPlaced sid self.old.placed }
        requires periodic { is_periodic spec.now ≡ true }
        requires no_fault { first_fault self.old.config spec.now ≡ None }
        requires room { placed_grants (without sid self.old.placed) + grants_of spec.now
            ≤ self.old.config.periodic }
        requires aligned { next % self.old.config.frame ≡ 0 }
        requires most { next ≤ 2 ^ 61 }

        // The placement is lawful beside the other flows, and stands beside them in the table.
        ensures lawful { IfOk result (λ answer.
            IsPlacement self.old.config (without sid self.old.placed) spec.now next answer.0) }
        ensures twice { IfOk result (λ answer. twice ≡ true → answer.1 ≡ Some answer.0) }
        ensures placed { IfOk result (λ answer. self.new.placed
            ≡ with_placed (placed_at sid spec.now answer.0) (without sid self.old.placed)) }
        ensures config { self.new.config ≡ self.old.config }

        // No place is answered exactly where there is none.
        ensures no_place { IsErrOf result PlaceFault.NoPlace
            ↔ NoPlacement self.old.config (without sid self.old.placed) spec.now next }
        ensures memory { IsErrOf result PlaceFault.Memory
            → HasPlacement self.old.config (without sid self.old.placed) spec.now next }
        ensures err { OnErr result (self.new ≡ self.old) }
    {
        let mut row = Row::empty();
        let Some(reference) = self.chosen_without(sid, spec, next, &mut row) else {
            return Err(PlaceFault::NoPlace);
        };
        let alloc = *self.groups.allocator();
        let Ok((kept, answer)) = copies_of(alloc, reference, row.starts(), twice) else {
            return Err(PlaceFault::Memory);
        };
        match self.move_to(sid, *spec, kept) {
            Ok(()) => Ok(answer),
            Err(_) => Err(PlaceFault::Memory),
        }
    }

    /// Gives a placed flow other parameters and places it where it was placed anew elsewhere: true, and placed, exactly
    /// where this is a lawful placement beside the other flows, its reference being the first nominal time at or after
    /// `next`. Memory is lacking only where the answer would be true; after that fault nothing has changed.
    pub fn adopt_anew(
        &mut self,
        sid: u16,
        spec: &FlowSpec,
        next: u64,
        placement: &Placement,
    ) -> Result<bool, AllocError>
        requires placed { IsPlaced sid self.old.placed }
        requires periodic { is_periodic spec.now ≡ true }
        requires no_fault { first_fault self.old.config spec.now ≡ None }
        requires room { placed_grants (without sid self.old.placed) + grants_of spec.now
            ≤ self.old.config.periodic }

        // True stands for a lawful placement, which then stands in the table beside the others.
        ensures lawful { IfOk result (λ taken. taken ≡ true →
            IsPlacement self.old.config (without sid self.old.placed) spec.now next placement.now) }
        ensures placed { IfOk result (λ taken. taken ≡ true → self.new.placed
            ≡ with_placed (placed_at sid spec.now placement.now) (without sid self.old.placed)) }
        ensures config { self.new.config ≡ self.old.config }

        // False stands for any other, and nothing has changed.
        ensures unlawful { IfOk result (λ taken. taken ≡ false →
            IsPlacement self.old.config (without sid self.old.placed) spec.now next placement.now
            → ⊥) }
        ensures same { IfOk result (λ taken. taken ≡ false → self.new ≡ self.old) }
        ensures memory { OnErr result
            (IsPlacement self.old.config (without sid self.old.placed) spec.now next placement.now) }
        ensures err { OnErr result (self.new ≡ self.old) }
    {
        if !self.takes_without(sid, spec, next, placement) {
            return Ok(false);
        }
        let kept = placement.copy(*self.groups.allocator())?;
        self.move_to(sid, *spec, kept)?;
        Ok(true)
    }

    /// Whether there is no place for a placed flow with other parameters beside the other flows.
    pub fn has_no_place(&mut self, sid: u16, spec: &FlowSpec, next: u64) -> bool
        requires placed { IsPlaced sid self.old.placed }
        requires periodic { is_periodic spec.now ≡ true }
        requires no_fault { first_fault self.old.config spec.now ≡ None }
        requires aligned { next % self.old.config.frame ≡ 0 }
        requires most { next ≤ 2 ^ 61 }
        ensures none { result ≡ true
            → NoPlacement self.old.config (without sid self.old.placed) spec.now next }
        ensures some { result ≡ false
            → HasPlacement self.old.config (without sid self.old.placed) spec.now next }
        ensures same { self.new ≡ self.old }
    {
        let mut row = Row::empty();
        let reference = self.chosen_without(sid, spec, next, &mut row);
        reference.is_none()
    }

    // The placement that is taken for these parameters from `next` on beside the flows but that of this SID: its
    // reference, and in the row its starts.
    fn chosen_without(&mut self, sid: u16, spec: &FlowSpec, next: u64, row: &mut Row) -> Option<u64>
        requires placed { IsPlaced sid self.old.placed }
        requires periodic { is_periodic spec.now ≡ true }
        requires no_fault { first_fault self.old.config spec.now ≡ None }
        requires aligned { next % self.old.config.frame ≡ 0 }
        requires most { next ≤ 2 ^ 61 }
        ensures chosen { IfSome result (λ reference. IsChosen self.old.config (without sid self.old.placed)
            spec.now next (placement_at reference (starts_of row.new))) }
        ensures count { IfSome result (λ _. row.new.count ≤ MAX_STARTS) }
        ensures absent { IfNone result
            (NoPlacement self.old.config (without sid self.old.placed) spec.now next) }
        ensures same { self.new ≡ self.old }
    {
        let Some(flow) = flow_of(&self.groups, sid) else {
            return None;
        };
        let config = &self.config;
        lift(
            &mut self.rows,
            &mut self.widest,
            &mut self.counts,
            config,
            flow,
            false,
        );
        let chosen = choose(
            &self.rows,
            &self.counts,
            &mut self.widest,
            config,
            spec,
            next,
            row,
        );
        lift(
            &mut self.rows,
            &mut self.widest,
            &mut self.counts,
            config,
            flow,
            true,
        );
        chosen
    }

    // Whether the placement is lawful for these parameters from `next` on, beside the flows but that of this SID.
    fn takes_without(&mut self, sid: u16, spec: &FlowSpec, next: u64, placement: &Placement) -> bool
        requires placed { IsPlaced sid self.old.placed }
        requires periodic { is_periodic spec.now ≡ true }
        requires no_fault { first_fault self.old.config spec.now ≡ None }
        ensures lawful { result ≡ true → IsPlacement self.old.config
            (without sid self.old.placed) spec.now next placement.now }
        ensures unlawful { result ≡ false → IsPlacement self.old.config
            (without sid self.old.placed) spec.now next placement.now → ⊥ }
        ensures same { self.new ≡ self.old }
    {
        let Some(flow) = flow_of(&self.groups, sid) else {
            return false;
        };
        let config = &self.config;
        lift(
            &mut self.rows,
            &mut self.widest,
            &mut self.counts,
            config,
            flow,
            false,
        );
        let lawful = is_lawful(&self.rows, &self.counts, config, spec, next, placement);
        lift(
            &mut self.rows,
            &mut self.widest,
            &mut self.counts,
            config,
            flow,
            true,
        );
        lawful
    }

    // Gives a placed flow other parameters and a placement that is lawful beside the other flows. After the fault
    // nothing has changed.
    fn move_to(&mut self, sid: u16, spec: FlowSpec, placement: Placement) -> Result<(), AllocError>
        requires placed { IsPlaced sid self.old.placed }
        requires periodic { is_periodic spec ≡ true }
        requires no_fault { first_fault self.old.config spec ≡ None }
        requires room { placed_grants (without sid self.old.placed) + grants_of spec
            ≤ self.old.config.periodic }
        requires lawful { (next : ℕ) × IsPlacement self.old.config (without sid self.old.placed)
            spec next placement }
        ensures moved { IfOk result (λ done. self.new ≡ record self.old {
          placed = with_placed (placed_at sid spec placement) (without sid self.old.placed);
        }) }
        ensures err { OnErr result (self.new ≡ self.old) }
    {
        let flow = PlacedFlow::at(&self.config, sid, spec, placement);
        self.put_instead(flow)
    }

    // Puts a flow in the place of the one with its SID, in the group of its own interval and phase. After the fault
    // nothing has changed.
    fn put_instead(&mut self, flow: PlacedFlow) -> Result<(), AllocError>
        requires placed { IsPlaced flow.sid self.old.placed }
        requires times { KeepsTimes self.old.config flow }
        requires periodic { is_periodic flow.spec ≡ true }
        requires no_fault { first_fault self.old.config flow.spec ≡ None }
        requires awake { flow.rests ≡ false }
        requires room { placed_grants (without flow.sid self.old.placed) + grants_of flow.spec
            ≤ self.old.config.periodic }
        requires lawful { (next : ℕ) × IsPlacement self.old.config (without flow.sid self.old.placed)
            flow.spec next flow.placement }
        ensures moved { IfOk result (λ done. self.new ≡ record self.old {
          placed = with_placed (placed_of flow) (without flow.sid self.old.placed);
        }) }
        ensures err { OnErr result (self.new ≡ self.old) }
    {
        let place = room_for(&mut self.groups, flow.interval, flow.phase)?;
        let Some((_, old)) = lift_out(&mut self.groups, flow.sid) else {
            return Ok(());
        };
        let config = &self.config;
        lift(
            &mut self.rows,
            &mut self.widest,
            &mut self.counts,
            config,
            &old,
            false,
        );
        lift(
            &mut self.rows,
            &mut self.widest,
            &mut self.counts,
            config,
            &flow,
            true,
        );
        self.grants = self.grants - old.grants + flow.grants;
        put_in(&mut self.groups, place, flow);
        close_all(&mut self.groups);
        Ok(())
    }
}

// Takes the minislots and the starts of a flow out of the rows and the counts, or puts them in.
fn lift(
    rows: &mut [Bits],
    widest: &mut Widest,
    counts: &mut Counts,
    config: &Checked,
    flow: &PlacedFlow,
    taken: bool,
)
    requires sound { IsSoundFlow config.now flow.now }
    requires long { length rows.old ≡ config.now.cycle }
    requires bounded { AreBounds config.now rows.old widest.old.most }
    requires may { MayCount config.now (placed_of flow.now) taken counts.old.starts }
    ensures long { length rows.new ≡ config.now.cycle }
    ensures marked { (k : ℕ) → AreMarked (spots_of config.now k (placed_of flow.now))
        (bit_for taken) (row_at config.now rows.old k) (row_at config.now rows.new k) }
    ensures bounded { AreBounds config.now rows.new widest.new.most }
    ensures counted { (place : ℕ) → place < config.now.cycle
        → AreCounted taken (get_or counts.old.starts place 0)
        (length (spots_of config.now place (placed_of flow.now))) (get_or counts.new.starts place 0) }
{
    mark(rows, widest, config, flow, taken);
    counts.count(config, flow, taken);
}

// The placement of this reference and these starts, to keep and to answer, and where it is asked for once more: each in
// memory of its own.
fn copies_of(
    alloc: Global,
    reference: u64,
    starts: &[u16],
    twice: bool,
) -> Result<(Placement, (Placement, Option<Placement>)), AllocError>
    ensures kept { IfOk result (λ copies. copies.0 ≡ placement_at reference starts.now) }
    ensures answer { IfOk result (λ copies. copies.1.0 ≡ placement_at reference starts.now) }
    ensures twice { IfOk result
        (λ copies. twice ≡ true → copies.1.1 ≡ Some (placement_at reference starts.now)) }
{
    let kept = Placement {
        reference,
        starts: Starts::from_vec(Vec::from_slice(alloc, starts)?),
    };
    let answer = kept.copy(alloc)?;
    let again = if twice { Some(kept.copy(alloc)?) } else { None };
    Ok((kept, (answer, again)))
}
