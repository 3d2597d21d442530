//! The parameters of a flow in a script.

ghost use Rattle.std.specs.Prelude.{◌≡◌};
ghost use Rattle.call_reading.specs.Calls.{unsolicited_of, polled_of, best_effort_of, flow_of};

use json_fields::{Tree, number_u8, number_u8_or, number_u32, number_u32_or, text};
use sched_calls::FlowSpec;

// The grants in an interval are one where the key is missing.
#[tactic(auto, unfolding(crate::specs::Calls::unsolicited_of))]
fn unsolicited_of<T: Tree>(value: &T) -> Option<FlowSpec>
    ensures { result ≡ unsolicited_of (T.shown value.now) }
{
    let (Some(size), Some(interval_us), Some(jitter_us), Some(grants)) = (
        number_u32(value, "size"),
        number_u32(value, "interval_us"),
        number_u32(value, "jitter_us"),
        number_u8_or(value, "grants", 1),
    ) else {
        return None;
    };
    Some(FlowSpec::Unsolicited {
        size,
        interval_us,
        jitter_us,
        grants,
    })
}

// A peak rate is 0, which is no ceiling, where the key is missing.
#[tactic(auto, unfolding(crate::specs::Calls::polled_of))]
fn polled_of<T: Tree>(value: &T) -> Option<FlowSpec>
    ensures { result ≡ polled_of (T.shown value.now) }
{
    let (Some(interval_us), Some(jitter_us), Some(rate), Some(burst), Some(peak)) = (
        number_u32(value, "interval_us"),
        number_u32(value, "jitter_us"),
        number_u32(value, "rate"),
        number_u32(value, "burst"),
        number_u32_or(value, "peak", 0),
    ) else {
        return None;
    };
    Some(FlowSpec::Polled {
        interval_us,
        jitter_us,
        rate,
        burst,
        peak,
    })
}

// So is that of a best effort flow, and its reserved rate, which is none, and the burst of it.
#[tactic(auto, unfolding(crate::specs::Calls::best_effort_of))]
fn best_effort_of<T: Tree>(value: &T) -> Option<FlowSpec>
    ensures { result ≡ best_effort_of (T.shown value.now) }
{
    let (
        Some(priority),
        Some(rate),
        Some(burst),
        Some(peak),
        Some(reserved),
        Some(reserved_burst),
    ) = (
        number_u8(value, "priority"),
        number_u32(value, "rate"),
        number_u32(value, "burst"),
        number_u32_or(value, "peak", 0),
        number_u32_or(value, "reserved", 0),
        number_u32_or(value, "reserved_burst", 0),
    ) else {
        return None;
    };
    Some(FlowSpec::BestEffort {
        priority,
        rate,
        burst,
        peak,
        reserved,
        reserved_burst,
    })
}

/// The flow that an object stands for, by its kind. Its values may be ones that are refused.
#[tactic(auto, unfolding(crate::specs::Calls::flow_of))]
pub fn flow_of<T: Tree>(value: &T) -> Option<FlowSpec>
    ensures { result ≡ flow_of (T.shown value.now) }
{
    match text(value, "kind")? {
        "unsolicited" => unsolicited_of(value),
        "polled" => polled_of(value),
        "best_effort" => best_effort_of(value),
        _ => None,
    }
}
