//! A state as JSON.

ghost use Rattle.std.specs.Prelude.{◌≡◌, ◌++◌, IfOk, OnOk};
ghost use Rattle.history_writing.specs.Tokens.{tokens_of};
ghost use Rattle.state_text.specs.Fits.{HeaderFits, StateFits};
ghost use Rattle.state_text.specs.StateText.{header_data, state_data, state_text, IsStateText};

use crate::flow::put_flow_states;
use crate::number::{put_maybe, put_slots};
use crate::reserve::put_reserve_states;
use history_writing::put_count;
use json::Writer;
use sched_calls::{ChannelState, Header};
use std::alloc::{AllocError, Global};

// Writes the header of the next MAP.
#[tactic(auto, unfolding(crate::specs::StateText::header_data))]
fn put_header(out: &mut Writer, header: Header) -> Result<(), AllocError>
    ensures ok { OnOk result (out.new.tokens ≡ out.old.tokens ++ tokens_of (header_data header)) }
    ensures before { out.new.before ≡ out.old.before }
    ensures fits { HeaderFits header }
{
    out.begin_object()?;
    put_count(out, "data_end", header.data_end as u64)?;
    put_count(out, "data_start", header.data_start as u64)?;
    put_count(out, "ranging_end", header.ranging_end as u64)?;
    put_count(out, "ranging_start", header.ranging_start as u64)?;
    put_count(out, "ucd_count", header.ucd_count as u64)?;
    out.end_object()
}

// Writes a state.
#[tactic(auto, unfolding(crate::specs::StateText::state_data))]
fn put_state(out: &mut Writer, state: &ChannelState) -> Result<(), AllocError>
    ensures ok { OnOk result (out.new.tokens ≡ out.old.tokens ++ tokens_of (state_data state.now)) }
    ensures before { out.new.before ≡ out.old.before }
    ensures fits { OnOk result (StateFits state.now) }
{
    out.begin_object()?;
    put_count(out, "ack", state.ack)?;
    put_maybe(out, "change", state.change)?;
    put_count(out, "entries", state.entries)?;
    out.key("flows")?;
    put_flow_states(out, state.flows.as_slice())?;
    out.key("header")?;
    put_header(out, state.header)?;
    put_count(out, "next", state.next)?;
    put_slots(out, "progress", state.progress.as_slice())?;
    out.key("reserves")?;
    put_reserve_states(out, state.reserves.as_slice())?;
    put_count(out, "ucd_count", state.ucd_count as u64)?;
    out.end_object()
}

/// The text of a state: JSON without spaces, keys in ascending order, all numbers whole.
#[tactic(auto, unfolding(crate::specs::StateText::state_text))]
pub fn state_text(alloc: Global, state: &ChannelState) -> Result<Vec<u8>, AllocError>
    ensures ok { IfOk result (λ text. text.items ≡ state_text state.now) }
    ensures read { IfOk result (λ text. IsStateText text.items state.now) }
    ensures fits { OnOk result (StateFits state.now) }
{
    let mut out = Writer::new(Vec::new(alloc));
    put_state(&mut out, state)?;
    Ok(out.into_inner())
}
