//! Refusals by their numbers and values.

ghost use Rattle.std.specs.Prelude.{◌≡◌, Some, None};
ghost use Rattle.history_reading.specs.Refusals.{fault_with, refusal_with};

use sched_calls::{FlowFault, Refusal};

// The fault in a flow's parameters that has this number.
#[tactic(auto, unfolding(crate::specs::Refusals::fault_with))]
fn fault_with(number: u64) -> Option<FlowFault>
    ensures { result ≡ fault_with number }
{
    Some(match number {
        1 => FlowFault::Size,
        2 => FlowFault::IntervalNotWhole,
        3 => FlowFault::IntervalNotFrames,
        4 => FlowFault::IntervalNotInCycle,
        5 => FlowFault::Priority,
        6 => FlowFault::Burst,
        7 => FlowFault::Grants,
        8 => FlowFault::Reserved,
        _ => return None,
    })
}

// The refusal without a value that has this number.
#[tactic(auto, unfolding(crate::specs::Refusals::refusal_with))]
fn plain_refusal(number: u64) -> Option<Refusal>
    ensures { result ≡ refusal_with number None }
{
    Some(match number {
        1 => Refusal::BadSid,
        2 => Refusal::SidLive,
        4 => Refusal::FlowsFull,
        5 => Refusal::PeriodicFull,
        6 => Refusal::NoPlace,
        7 => Refusal::NoFlow,
        8 => Refusal::NotAsking,
        9 => Refusal::BadReceiver,
        10 => Refusal::BadBytes,
        14 => Refusal::BadClock,
        18 => Refusal::BadLength,
        19 => Refusal::ReservesFull,
        20 => Refusal::BadBackoff,
        21 => Refusal::OtherKind,
        22 => Refusal::NotUnsolicited,
        23 => Refusal::TooShort,
        _ => return None,
    })
}

// The refusal that has this number and this value.
#[tactic(auto, unfolding(crate::specs::Refusals::refusal_with))]
fn valued_refusal(number: u64, value: u64) -> Option<Refusal>
    ensures { result ≡ refusal_with number (Some value) }
{
    Some(match number {
        3 => Refusal::BadFlow(fault_with(value)?),
        11 => Refusal::Acked(value),
        12 => Refusal::Ahead(value),
        13 => Refusal::Backwards(value),
        15 => Refusal::TooEarly(value),
        16 => Refusal::Late(value),
        17 => Refusal::NotLate(value),
        _ => return None,
    })
}

/// The refusal that has this number, and this value or none: a minislot, or the number of a fault in a flow's
/// parameters.
pub fn refusal_with(number: u64, value: Option<u64>) -> Option<Refusal>
    ensures { result ≡ refusal_with number value }
{
    match value {
        None => plain_refusal(number),
        Some(value) => valued_refusal(number, value),
    }
}
