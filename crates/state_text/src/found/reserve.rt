//! A Reserve that waits.

ghost use Rattle.std.specs.Prelude.{◌≡◌, map, IfOk, option_map};
ghost use Rattle.serde_json.specs.View.{items_of};
ghost use Rattle.state_text.specs.Found.{usage_named, reserve_state_in, each_in, each_at};

use json_fields::{Tree, member, number_u8, number_u16, text};
use sched_calls::{Opportunity, ReserveState, Usage};
use std::alloc::{AllocError, Global};

// The usage of this name, with its SID where it has one.
fn usage_named(name: &str, sid: Option<u16>) -> Option<Usage>
    ensures { result ≡ usage_named name.now sid }
{
    match (name, sid) {
        ("initial", None) => Some(Usage::Initial),
        ("quiet", None) => Some(Usage::Quiet),
        ("initial_to", Some(sid)) => Some(Usage::InitialTo(sid)),
        ("station", Some(sid)) => Some(Usage::Station(sid)),
        ("request", Some(sid)) => Some(Usage::Request(sid)),
        ("data", Some(sid)) => Some(Usage::DataTo(sid)),
        _ => None,
    }
}

#[tactic(auto, unfolding(crate::specs::Found::reserve_state_in))]
fn reserve_state_in<T: Tree>(value: &T) -> Option<ReserveState>
    ensures { result ≡ reserve_state_in (T.shown value.now) }
{
    let usage = usage_named(text(value, "usage")?, number_u16(value, "sid"))?;
    let (Some(slots), Some(maps)) = (number_u16(value, "slots"), number_u8(value, "maps")) else {
        return None;
    };
    Some(ReserveState {
        opportunity: Opportunity { usage, slots },
        maps,
    })
}

// The Reserves that values stand for.
fn reserve_states_in<T: Tree>(
    alloc: Global,
    values: &[T],
) -> Result<Option<Vec<ReserveState>>, AllocError>
    ensures { IfOk result (λ found. option_map (λ v. v.items) found
        ≡ each_in reserve_state_in (items_of (map T.shown values.now))) }
{
    let mut found = Vec::with_capacity(alloc, values.len())?;
    for value in values {
        let Some(one) = reserve_state_in(value) else {
            return Ok(None);
        };
        found.push_reserved(one);
    }
    Ok(Some(found))
}

/// The Reserves of the array under this key.
#[tactic(auto, unfolding(crate::specs::Found::each_at))]
pub(crate) fn reserve_states_at<T: Tree>(
    alloc: Global,
    value: &T,
    key: &str,
) -> Result<Option<Vec<ReserveState>>, AllocError>
    ensures { IfOk result (λ found. option_map (λ v. v.items) found
        ≡ each_at reserve_state_in key.now (T.shown value.now)) }
{
    match member(value, key).and_then(Tree::items) {
        Some(values) => reserve_states_in(alloc, values),
        None => Ok(None),
    }
}
