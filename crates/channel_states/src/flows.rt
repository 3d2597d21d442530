//! The live flows of a state, by their SIDs, their number and each by itself.

ghost use Rattle.std.specs.Prelude.{◌≡◌, ◌≤◌, true, false, length, sum_by, IfSome, IfNone};
ghost use Rattle.std.specs.List.{AllByRecursion};
ghost use Rattle.sched_calls.specs.declared.reply.TheConstants.{MAX_WHOLE_HISTORY};
ghost use Rattle.sched_calls.specs.FlowSpec.{grants_of};
ghost use Rattle.sched_calls.specs.Sids.{AscendBy};
ghost use Rattle.channel_states.specs.PossibleFlow.{IsPossibleFlow};
ghost use Rattle.channel_states.specs.Possible.{KeepLimits, waits_from_before, waiting_from_before};
ghost use Rattle.channel_states.specs.Faults.{IsFirstWrong};

use crate::flow::is_possible_flow;
use minislots::Checked;
use sched_calls::FlowState;

// Whether the flows are in order of SID, each with its own.
pub(crate) fn have_sids(flows: &[FlowState]) -> bool
    ensures ascending { result ≡ true → AscendBy (λ f. f.sid) flows.now }
    ensures other { result ≡ false → AscendBy (λ f. f.sid) flows.now → ⊥ }
{
    let mut least = 0;
    for flow in flows {
        if u32::from(flow.sid) < least {
            return false;
        }
        least = u32::from(flow.sid) + 1;
    }
    true
}

// Whether there are no more flows than may be live, with no more grants per interval.
pub(crate) fn keep_limits(config: &Checked, flows: &[FlowState]) -> bool
    ensures within { result ≡ true → KeepLimits config.now flows.now }
    ensures beyond { result ≡ false → KeepLimits config.now flows.now → ⊥ }
{
    flows.len() <= config.flows() as usize && grants_of(flows) <= u64::from(config.periodic())
}

// The grants per interval of flows.
fn grants_of(flows: &[FlowState]) -> u64
    requires { length flows.now ≤ 8191 }
    ensures { result ≡ sum_by (λ f. grants_of f.spec) flows.now }
{
    flows.iter().map(|flow| u64::from(flow.spec.grants())).sum()
}

// The SID of the first flow that cannot be as it is after so many entries, where the next frame starts there.
pub(crate) fn first_wrong_sid(
    config: &Checked,
    entries: u64,
    next: u64,
    flows: &[FlowState],
) -> Option<u16>
    requires { entries ≤ MAX_WHOLE_HISTORY }
    ensures possible { IfNone result
        (AllByRecursion (IsPossibleFlow config.now entries next) flows.now) }
    ensures impossible { IfSome result
        (λ _. AllByRecursion (IsPossibleFlow config.now entries next) flows.now → ⊥) }
    ensures first { IfSome result
        (λ sid. IsFirstWrong (IsPossibleFlow config.now entries next) sid flows.now) }
{
    for flow in flows {
        if !is_possible_flow(config, entries, next, flow) {
            return Some(flow.sid);
        }
    }
    None
}

// Whether no more flows wait from before this minislot than a MAP shows.
pub(crate) fn are_few_from_before(config: &Checked, slot: u64, flows: &[FlowState]) -> bool
    ensures few { result ≡ true → waiting_from_before slot flows.now ≤ config.now.pending }
    ensures many { result ≡ false → waiting_from_before slot flows.now ≤ config.now.pending → ⊥ }
{
    let waiting = flows
        .iter()
        .filter(|flow| waits_from_before(slot, flow))
        .count();
    waiting <= config.pending() as usize
}

// Whether a flow waits from before this minislot.
fn waits_from_before(slot: u64, flow: &FlowState) -> bool
    ensures { result ≡ waits_from_before slot flow.now }
{
    match flow.batches {
        Some(batches) => batches.first.min(batches.second.unwrap_or(batches.first)) < slot,
        None => false,
    }
}
