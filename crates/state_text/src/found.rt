//! The state whose parts a JSON object has under their keys, whatever else it has.

ghost use Rattle.std.specs.Prelude.{◌≡◌, IfOk};
ghost use Rattle.state_text.specs.Found.{header_in, state_in};

mod each;
mod flow;
mod reserve;

use each::progress_at;
use flow::flow_states_at;
use json_fields::{Tree, member, number_u8, number_u64};
use reserve::reserve_states_at;
use sched_calls::{ChannelState, FlowStates, Header, Progress, ReserveStates};
use std::alloc::{AllocError, Global};

#[tactic(auto, unfolding(crate::specs::Found::header_in))]
fn header_in<T: Tree>(value: &T) -> Option<Header>
    ensures { result ≡ header_in (T.shown value.now) }
{
    Some(Header {
        ucd_count: number_u8(value, "ucd_count")?,
        ranging_start: number_u8(value, "ranging_start")?,
        ranging_end: number_u8(value, "ranging_end")?,
        data_start: number_u8(value, "data_start")?,
        data_end: number_u8(value, "data_end")?,
    })
}

/// The state.
#[tactic(auto, unfolding(crate::specs::Found::state_in))]
pub(crate) fn state_in<T: Tree>(
    alloc: Global,
    value: &T,
) -> Result<Option<ChannelState>, AllocError>
    ensures { IfOk result (λ state. state ≡ state_in (T.shown value.now)) }
{
    let (Some(entries), Some(next), Some(ack), Some(ucd_count), Some(header)) = (
        number_u64(value, "entries"),
        number_u64(value, "next"),
        number_u64(value, "ack"),
        number_u8(value, "ucd_count"),
        member(value, "header").and_then(header_in),
    ) else {
        return Ok(None);
    };
    let Some(progress) = progress_at(alloc, value, "progress")? else {
        return Ok(None);
    };
    let Some(flows) = flow_states_at(alloc, value, "flows")? else {
        return Ok(None);
    };
    let Some(reserves) = reserve_states_at(alloc, value, "reserves")? else {
        return Ok(None);
    };
    Ok(Some(ChannelState {
        entries,
        next,
        progress: Progress::from_vec(progress),
        ack,
        header,
        ucd_count,
        change: number_u64(value, "change"),
        flows: FlowStates::from_vec(flows),
        reserves: ReserveStates::from_vec(reserves),
    }))
}
