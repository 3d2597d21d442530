//! A live flow of a state.

ghost use Rattle.std.specs.Prelude.{◌≡◌, ◌^◌, map, IfOk, option_map, option_and_then};
ghost use Rattle.serde_json.specs.Find.{get};
ghost use Rattle.serde_json.specs.View.{items_of};
ghost use Rattle.call_reading.specs.Calls.{flow_of};
ghost use Rattle.state_text.specs.Found.{batch_in, place_in, flow_state_in, each_in, each_at};

use super::each::starts_at;
use call_reading::flow_of;
use json_fields::{Tree, member, number_u16, number_u64};
use sched_calls::{BatchState, FlowSpec, FlowState, PlaceState, Starts};
use std::alloc::{AllocError, Global};

#[tactic(auto, unfolding(crate::specs::Found::batch_in))]
fn batch_in<T: Tree>(value: &T) -> Option<BatchState>
    ensures { result ≡ batch_in (T.shown value.now) }
{
    let (Some(end), Some(first)) = (number_u64(value, "end"), number_u64(value, "first")) else {
        return None;
    };
    Some(BatchState {
        end,
        first,
        second: number_u64(value, "second"),
    })
}

#[tactic(auto, unfolding(crate::specs::Found::place_in))]
fn place_in<T: Tree>(alloc: Global, value: &T) -> Result<Option<PlaceState>, AllocError>
    ensures { IfOk result (λ place. place ≡ place_in (T.shown value.now)) }
{
    let (Some(phase), Some(offset), Some(rests)) = (
        number_u64(value, "phase"),
        number_u64(value, "offset"),
        number_u64(value, "rests"),
    ) else {
        return Ok(None);
    };
    let Some(starts) = starts_at(alloc, value, "starts")? else {
        return Ok(None);
    };
    Ok(Some(PlaceState {
        phase,
        offset,
        starts: Starts::from_vec(starts),
        rests: rests == 1,
    }))
}

// The place under this key, where there is one.
fn place_at<T: Tree>(alloc: Global, value: &T, key: &str) -> Result<Option<PlaceState>, AllocError>
    ensures { IfOk result
        (λ place. place ≡ option_and_then place_in (get key.now (T.shown value.now))) }
{
    match member(value, key) {
        Some(found) => place_in(alloc, found),
        None => Ok(None),
    }
}

// The parameters under this key, as they stand in a history.
fn spec_at<T: Tree>(value: &T, key: &str) -> Option<FlowSpec>
    ensures { result ≡ option_and_then flow_of (get key.now (T.shown value.now)) }
{
    flow_of(member(value, key)?)
}

#[tactic(auto, unfolding(crate::specs::Found::flow_state_in))]
fn flow_state_in<T: Tree>(alloc: Global, value: &T) -> Result<Option<FlowState>, AllocError>
    ensures { IfOk result (λ flow. flow ≡ flow_state_in (T.shown value.now)) }
{
    let (Some(sid), Some(spec), Some(asked), Some(granted)) = (
        number_u16(value, "sid"),
        spec_at(value, "flow"),
        number_u64(value, "asked"),
        number_u64(value, "granted"),
    ) else {
        return Ok(None);
    };
    let place = place_at(alloc, value, "place")?;
    Ok(Some(FlowState {
        sid,
        spec,
        asked,
        granted,
        last: number_u64(value, "last"),
        sustained: number_u64(value, "sustained"),
        peak: number_u64(value, "peak"),
        reserved: number_u64(value, "reserved"),
        batches: member(value, "batches").and_then(batch_in),
        place,
    }))
}

// The flows that values stand for.
fn flow_states_in<T: Tree>(
    alloc: Global,
    values: &[T],
) -> Result<Option<Vec<FlowState>>, AllocError>
    ensures { IfOk result (λ found. option_map (λ v. v.items) found
        ≡ each_in flow_state_in (items_of (map T.shown values.now))) }
{
    let mut found = Vec::with_capacity(alloc, values.len())?;
    for value in values {
        let Some(one) = flow_state_in(alloc, value)? else {
            return Ok(None);
        };
        found.push_reserved(one);
    }
    Ok(Some(found))
}

/// The flows of the array under this key.
#[tactic(auto, unfolding(crate::specs::Found::each_at))]
pub(crate) fn flow_states_at<T: Tree>(
    alloc: Global,
    value: &T,
    key: &str,
) -> Result<Option<Vec<FlowState>>, AllocError>
    ensures { IfOk result (λ found. option_map (λ v. v.items) found
        ≡ each_at flow_state_in key.now (T.shown value.now)) }
{
    match member(value, key).and_then(Tree::items) {
        Some(values) => flow_states_in(alloc, values),
        None => Ok(None),
    }
}
