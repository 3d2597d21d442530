//! A table goes on from the places of a state.

ghost use Rattle.std.specs.Prelude.{◌≡◌, ◌++◌, List, [], ◌∷◌, IfOk, OnOk};
ghost use Rattle.std.specs.List.{AllByRecursion};
ghost use Rattle.periodic.specs.Placement.{Placed};
ghost use Rattle.periodic.specs.Table.{AreSound};
ghost use Rattle.periodic.specs.Carried.{placed_at, placed_in, LiesInInterval, LiesWhere};

use super::Table;
use minislots::Checked;
use sched_calls::{FlowState, PlaceState};
use std::alloc::{AllocError, Global};

impl Table {
    /// A table for this channel with the flows that a state tells and that have places, which are those of a table. The
    /// reference of each is the first of all its nominal times.
    pub fn open_at(alloc: Global, config: Checked, flows: &[FlowState]) -> Result<Table, AllocError>
        requires sound { AreSound config (placed_in config flows.now) }
        requires lie { AllByRecursion (LiesWhere config) flows.now }
        ensures config { IfOk result (λ table. table.config ≡ config) }
        ensures placed { IfOk result (λ table. table.placed ≡ placed_in config flows.now) }
    {
        let mut table = Table::open(alloc, config)?;
        for flow in flows {
            table.carry(flow)?;
        }
        Ok(table)
    }

    // Places a flow behind those of lower SIDs, where it has a place.
    fn carry(&mut self, flow: &FlowState) -> Result<(), AllocError>
        requires sound { (after : List Placed) × AreSound self.old.config
            (self.old.placed ++ (placed_in self.old.config (flow.now ∷ []) ++ after)) }
        requires lies { LiesWhere self.old.config flow.now }
        ensures config { self.new.config ≡ self.old.config }
        ensures placed { OnOk result
            (self.new.placed ≡ self.old.placed ++ placed_in self.old.config (flow.now ∷ [])) }
    {
        match &flow.place {
            Some(place) => self.carry_at(flow, place),
            None => Ok(()),
        }
    }

    // Places a flow behind those of lower SIDs.
    fn carry_at(&mut self, flow: &FlowState, place: &PlaceState) -> Result<(), AllocError>
        requires sound { (after : List Placed) × AreSound self.old.config
            (self.old.placed ++ placed_at self.old.config flow.now place.now ∷ after) }
        requires lies { LiesInInterval self.old.config flow.now.spec place.now }
        ensures config { self.new.config ≡ self.old.config }
        ensures placed { OnOk result
            (self.new.placed ≡ self.old.placed ++ placed_at self.old.config flow.now place.now ∷ []) }
    {
        let reference = place.phase * u64::from(self.config.frame()) + place.offset;
        self.add(flow.sid, flow.spec, reference, place.starts.as_slice())?;
        if place.rests {
            self.rest(flow.sid);
        }
        Ok(())
    }
}
