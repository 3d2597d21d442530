//! Whether a state is possible.

ghost use Rattle.std.specs.Prelude.{IfSome, IfNone};
ghost use Rattle.periodic.specs.Table.{AreSound};
ghost use Rattle.periodic.specs.Carried.{placed_in};
ghost use Rattle.channel_states.specs.Possible.{IsPossible};
ghost use Rattle.channel_states.specs.Faults.{IsFirstFault};

use crate::channel::{has_possible_times, is_possible_change, is_possible_header};
use crate::fault::StateFault;
use crate::flows::{are_few_from_before, first_wrong_sid, have_sids, keep_limits};
use crate::frame::stand_beside;
use crate::reserves::are_possible_reserves;
use minislots::Checked;
use sched_calls::{ChannelState, MAX_WHOLE_HISTORY};

/// What is wrong with a state under a configuration: the first fault in the order of [`StateFault`], and none exactly
/// where the state is possible. Takes no memory.
pub fn fault_of(config: &Checked, state: &ChannelState) -> Option<StateFault>
    ensures possible { IfNone result (IsPossible config.now state.now) }
    ensures impossible { IfSome result (λ _. IsPossible config.now state.now → ⊥) }
    ensures sound { IfNone result (AreSound config.now (placed_in config.now state.now.flows)) }
    ensures first { IfSome result (IsFirstFault config.now state.now) }
{
    let flows = state.flows.as_slice();
    if state.entries > MAX_WHOLE_HISTORY {
        return Some(StateFault::Entries);
    }
    if !has_possible_times(config, state) {
        return Some(StateFault::Times);
    }
    if !is_possible_header(&state.header) {
        return Some(StateFault::Header);
    }
    if !is_possible_change(config, state.next, state.change) {
        return Some(StateFault::Change);
    }
    if !have_sids(flows) {
        return Some(StateFault::Sids);
    }
    if !keep_limits(config, flows) {
        return Some(StateFault::Limits);
    }
    if let Some(sid) = first_wrong_sid(config, state.entries, state.next, flows) {
        return Some(StateFault::Flow(sid));
    }
    if !stand_beside(config, flows) {
        return Some(StateFault::Places);
    }
    if !are_few_from_before(config, state.ack, flows) {
        return Some(StateFault::Waiting);
    }
    if !are_possible_reserves(config, state.reserves.as_slice()) {
        return Some(StateFault::Reserves);
    }
    None
}
