//! Who waits under a minimum reserved rate, and who at a ceiling.

ghost use Rattle.std.specs.Prelude.{◌≡◌, filter, map, IfOk};
ghost use Rattle.std.specs.List.{AllByRecursion};
ghost use Rattle.flow_book.specs.Choice.{HasStartedBy};
ghost use Rattle.flow_book.specs.Entry.{live, IsBook};
ghost use Rattle.flow_book.specs.Standing.{waits_so};

use crate::flows::Flows;
use minislots::Checked;
use std::alloc::{AllocError, Global};

/// How a flow that waits for bytes stands to its rates at a minislot.
#[derive(Clone, Copy, Debug, PartialEq, Eq)]
pub enum Standing {
    /// Its minimum reserved rate has room for the quantum, or for all that it waits for where that is less.
    UnderReservation,
    /// Its maximum sustained rate or its peak rate has no room for that.
    AtCeiling,
}

// The SIDs of the flows that wait for bytes at this minislot and stand so, in order.
pub(crate) fn who_waits(
    alloc: Global,
    flows: &Flows,
    config: &Checked,
    standing: Standing,
    start: u64,
) -> Result<Vec<u16>, AllocError>
    requires book { IsBook config.now flows.now }
    requires started { AllByRecursion (HasStartedBy start) (map live flows.now) }
    ensures { IfOk result (λ sids. sids.items
        ≡ map (λ f. f.sid) (filter (waits_so standing config.now start) (map live flows.now))) }
{
    let mut sids = Vec::new(alloc);
    for place in 0..flows.len() {
        let flow = flows.at(place);
        if flow.waits_so(config, standing, start) {
            sids.push(flow.sid)?;
        }
    }
    Ok(sids)
}
