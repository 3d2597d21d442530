//! The flows of a state, each with one grant in the place of all that it was granted.

ghost use Rattle.std.specs.Prelude.{◌≡◌, ◌≤◌, map, IfOk};
ghost use Rattle.std.specs.List.{AllByRecursion};
ghost use Rattle.sched_calls.specs.FlowSpec.{rank_of};
ghost use Rattle.sched_calls.specs.Sids.{AscendBy};
ghost use Rattle.flow_book.specs.Carried.{carried_flow, MayBeCarried};
ghost use Rattle.flow_book.specs.Entry.{live, top_rank, IsTurn, KeepsSums, IsBook};

use crate::batches::Batches;
use crate::flow::{Flow, top_rank, turn_after, turn_of};
use crate::flows::Flows;
use crate::granted::GrantList;
use crate::limits::Limits;
use minislots::Checked;
use sched_calls::{FlowSpec, FlowState};
use std::alloc::{AllocError, Global};

// The turn in its highest rank of a flow whose last data grant starts there, where it has one.
fn turn_from(spec: &FlowSpec, sid: u16, last: Option<u64>) -> u128
    ensures rank { rank_of spec.now ≤ 255 }
    ensures turn { IsTurn (top_rank spec.now) last sid result }
{
    let turn = turn_of(top_rank(spec), sid);
    match last {
        Some(start) => turn_after(turn, start),
        None => turn,
    }
}

impl Flow {
    // The flow that a state tells, with its carried grant.
    fn carried(config: &Checked, state: &FlowState) -> Flow
        requires { MayBeCarried state.now }
        ensures live { live result ≡ carried_flow state.now }
        ensures sums { KeepsSums config.now result }
    {
        Flow {
            turn: turn_from(&state.spec, state.sid, state.last),
            asked: state.asked,
            batches: Batches::carried(state.batches),
            granted: state.granted,
            limits: Limits::carried(config, state),
            spec: state.spec,
            sid: state.sid,
            grants: GrantList::carried(state),
        }
    }
}

// The flows that a state tells, in order of SID.
pub(crate) fn carried_flows(
    alloc: Global,
    config: &Checked,
    states: &[FlowState],
) -> Result<Flows, AllocError>
    requires ascending { AscendBy (λ f. f.sid) states.now }
    requires each { AllByRecursion MayBeCarried states.now }
    ensures shown { IfOk result (λ flows. map live flows ≡ map carried_flow states.now) }
    ensures book { IfOk result (IsBook config.now) }
{
    let mut flows = Flows::new(alloc);
    for state in states {
        let place = flows.len();
        flows.insert(place, Flow::carried(config, state))?;
    }
    Ok(flows)
}
