//! A live flow of a state.

ghost use Rattle.std.specs.Prelude.{◌≡◌, ◌++◌, OnOk, Some};
ghost use Rattle.std.specs.List.{AllByRecursion};
ghost use Rattle.history_writing.specs.Tokens.{tokens_of};
ghost use Rattle.state_text.specs.Fits.{BatchesFit, PlacedFits, FlowStateFits};
ghost use Rattle.state_text.specs.StateText.{batch_data, batches_data, place_data, placed_data};
ghost use Rattle.state_text.specs.StateText.{flow_state_data, flow_states_data};

use crate::number::{flag, put_maybe};
use history_writing::{put_count, put_flow, put_offsets};
use json::Writer;
use sched_calls::{BatchState, FlowState, PlaceState};
use std::alloc::AllocError;

// Writes the batches of a flow.
#[tactic(auto, unfolding(crate::specs::StateText::batch_data))]
fn put_batch(out: &mut Writer, batch: &BatchState) -> Result<(), AllocError>
    ensures ok { OnOk result (out.new.tokens ≡ out.old.tokens ++ tokens_of (batch_data batch.now)) }
    ensures before { out.new.before ≡ out.old.before }
    ensures fits { OnOk result (BatchesFit (Some batch.now)) }
{
    out.begin_object()?;
    put_count(out, "end", batch.end)?;
    put_count(out, "first", batch.first)?;
    put_maybe(out, "second", batch.second)?;
    out.end_object()
}

// Writes those of a flow that waits, or null.
fn put_batches(out: &mut Writer, batches: &Option<BatchState>) -> Result<(), AllocError>
    ensures ok { OnOk result (out.new.tokens ≡ out.old.tokens ++ tokens_of (batches_data batches.now)) }
    ensures before { out.new.before ≡ out.old.before }
    ensures fits { OnOk result (BatchesFit batches.now) }
{
    match batches {
        Some(batch) => put_batch(out, batch),
        None => out.null(),
    }
}

// Writes the place of a flow.
#[tactic(auto, unfolding(crate::specs::StateText::place_data))]
fn put_place(out: &mut Writer, place: &PlaceState) -> Result<(), AllocError>
    ensures ok { OnOk result (out.new.tokens ≡ out.old.tokens ++ tokens_of (place_data place.now)) }
    ensures before { out.new.before ≡ out.old.before }
    ensures fits { OnOk result (PlacedFits (Some place.now)) }
{
    out.begin_object()?;
    put_count(out, "offset", place.offset)?;
    put_count(out, "phase", place.phase)?;
    put_count(out, "rests", flag(place.rests))?;
    put_offsets(out, "starts", place.starts.as_slice())?;
    out.end_object()
}

// Writes that of a flow that is placed, or null.
fn put_placed(out: &mut Writer, place: &Option<PlaceState>) -> Result<(), AllocError>
    ensures ok { OnOk result (out.new.tokens ≡ out.old.tokens ++ tokens_of (placed_data place.now)) }
    ensures before { out.new.before ≡ out.old.before }
    ensures fits { OnOk result (PlacedFits place.now) }
{
    match place {
        Some(place) => put_place(out, place),
        None => out.null(),
    }
}

// Writes a live flow.
#[tactic(auto, unfolding(crate::specs::StateText::flow_state_data))]
fn put_flow_state(out: &mut Writer, flow: &FlowState) -> Result<(), AllocError>
    ensures ok { OnOk result (out.new.tokens ≡ out.old.tokens ++ tokens_of (flow_state_data flow.now)) }
    ensures before { out.new.before ≡ out.old.before }
    ensures fits { OnOk result (FlowStateFits flow.now) }
{
    out.begin_object()?;
    put_count(out, "asked", flow.asked)?;
    out.key("batches")?;
    put_batches(out, &flow.batches)?;
    out.key("flow")?;
    put_flow(out, flow.spec)?;
    put_count(out, "granted", flow.granted)?;
    put_maybe(out, "last", flow.last)?;
    put_maybe(out, "peak", flow.peak)?;
    out.key("place")?;
    put_placed(out, &flow.place)?;
    put_maybe(out, "reserved", flow.reserved)?;
    put_count(out, "sid", flow.sid as u64)?;
    put_maybe(out, "sustained", flow.sustained)?;
    out.end_object()
}

// Writes live flows, one after the other.
#[tactic(auto, unfolding(crate::specs::StateText::flow_states_data))]
pub(crate) fn put_flow_states(out: &mut Writer, flows: &[FlowState]) -> Result<(), AllocError>
    ensures ok { OnOk result (out.new.tokens ≡ out.old.tokens ++ tokens_of (flow_states_data flows.now)) }
    ensures before { out.new.before ≡ out.old.before }
    ensures fits { OnOk result (AllByRecursion FlowStateFits flows.now) }
{
    out.begin_array()?;
    for flow in flows {
        put_flow_state(out, flow)?;
    }
    out.end_array()
}
