//! A live flow of a state by itself.

ghost use Rattle.std.specs.Prelude.{◌≡◌, ◌<◌, ◌≤◌, true, false, None, Option, IfSome};
ghost use Rattle.sched_calls.specs.declared.reply.TheConstants.{MAX_WHOLE_HISTORY};
ghost use Rattle.channel_states.specs.PossibleFlow.{IsPossibleFlow, HasPossibleBytes, HasPossibleLast};
ghost use Rattle.channel_states.specs.PossibleFlow.{HasPossibleLevel, HasPossibleLevels, HasPossibleBatches};
ghost use Rattle.channel_states.specs.PossibleFlow.{ArePossibleBatches, IsDescribed};

use crate::place::has_possible_place;
use crate::reserves::is_sid_of_flow;
use minislots::{Checked, MAX_ASK};
use sched_calls::{BatchState, FlowState, PEAK_BURST};

// What a byte of a burst is in a level.
const UNITS: u64 = 1_280_000;

// Whether a flow may be as it is after so many entries, where the next frame starts there.
pub(crate) fn is_possible_flow(config: &Checked, entries: u64, next: u64, flow: &FlowState) -> bool
    requires { entries ≤ MAX_WHOLE_HISTORY }
    ensures possible { result ≡ true → IsPossibleFlow config.now entries next flow.now }
    ensures impossible { result ≡ false → IsPossibleFlow config.now entries next flow.now → ⊥ }
{
    is_sid_of_flow(flow.sid)
        && flow.spec.check(config).is_ok()
        && has_possible_bytes(entries, flow)
        && has_possible_last(config, next, flow)
        && has_possible_levels(flow)
        && has_possible_place(config, flow)
        && has_possible_batches(config, next, flow)
}

// Whether a flow may have asked and been granted as many bytes.
fn has_possible_bytes(entries: u64, flow: &FlowState) -> bool
    requires { entries ≤ MAX_WHOLE_HISTORY }
    ensures possible { result ≡ true → HasPossibleBytes entries flow.now }
    ensures impossible { result ≡ false → HasPossibleBytes entries flow.now → ⊥ }
{
    flow.granted <= flow.asked && flow.asked <= u64::from(MAX_ASK) * entries
}

// Whether the minislot is one of a frame that a MAP may have described.
fn is_described(config: &Checked, next: u64, slot: u64) -> bool
    ensures described { result ≡ true → IsDescribed config.now next slot }
    ensures other { result ≡ false → IsDescribed config.now next slot → ⊥ }
{
    config.start() <= slot && slot < next
}

// Whether a flow's last data grant may have started there.
fn has_possible_last(config: &Checked, next: u64, flow: &FlowState) -> bool
    ensures possible { result ≡ true → HasPossibleLast config.now next flow.now }
    ensures impossible { result ≡ false → HasPossibleLast config.now next flow.now → ⊥ }
{
    match flow.last {
        Some(start) => 0 < flow.granted && is_described(config, next, start),
        None => flow.granted == 0,
    }
}

// Whether the levels of a flow may be these.
fn has_possible_levels(flow: &FlowState) -> bool
    ensures possible { result ≡ true → HasPossibleLevels flow.now }
    ensures impossible { result ≡ false → HasPossibleLevels flow.now → ⊥ }
{
    let (spec, last) = (&flow.spec, flow.last);
    has_possible_level(spec.rate(), spec.burst(), last, flow.sustained)
        && has_possible_level(spec.peak(), PEAK_BURST, last, flow.peak)
        && has_possible_level(spec.reserved(), spec.reserved_burst(), last, flow.reserved)
}

// Whether the level of this rate and burst may be so, of a flow whose last data grant starts there.
fn has_possible_level(rate: u32, burst: u32, last: Option<u64>, level: Option<u64>) -> bool
    ensures possible { result ≡ true → HasPossibleLevel rate burst last level }
    ensures impossible { result ≡ false → HasPossibleLevel rate burst last level → ⊥ }
{
    let Some(level) = level else {
        return rate == 0;
    };
    let full = UNITS * u64::from(burst);
    0 < rate && level <= full && (last.is_some() || level == full)
}

// Whether the requests of a flow may wait in these batches.
fn has_possible_batches(config: &Checked, next: u64, flow: &FlowState) -> bool
    ensures possible { result ≡ true → HasPossibleBatches config.now next flow.now }
    ensures impossible { result ≡ false → HasPossibleBatches config.now next flow.now → ⊥ }
{
    match flow.batches {
        Some(batches) => are_possible_batches(config, next, flow, batches),
        None => flow.asked == flow.granted,
    }
}

// Whether a flow with bytes outstanding may have these batches.
fn are_possible_batches(config: &Checked, next: u64, flow: &FlowState, batches: BatchState) -> bool
    ensures possible { result ≡ true → ArePossibleBatches config.now next flow.now batches }
    ensures impossible { result ≡ false → ArePossibleBatches config.now next flow.now batches → ⊥ }
{
    if batches.end <= flow.granted || flow.asked < batches.end {
        return false;
    }
    if !is_described(config, next, batches.first) {
        return false;
    }
    match batches.second {
        Some(heard) => batches.end != flow.asked && is_described(config, next, heard),
        None => batches.end == flow.asked,
    }
}
