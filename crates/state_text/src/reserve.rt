//! A Reserve that waits.

ghost use Rattle.std.specs.Prelude.{◌≡◌, ◌++◌, OnOk};
ghost use Rattle.std.specs.List.{AllByRecursion};
ghost use Rattle.history_writing.specs.Tokens.{tokens_of};
ghost use Rattle.state_text.specs.Fits.{UsageFits, ReserveFits};
ghost use Rattle.state_text.specs.StateText.{usage_name, usage_sid, reserve_state_data, reserve_states_data};

use crate::number::put_maybe;
use history_writing::{put_count, put_name};
use json::Writer;
use sched_calls::{ReserveState, Usage};
use std::alloc::AllocError;

// The name of a usage.
fn usage_name(usage: Usage) -> &'static str
    ensures { result.now ≡ usage_name usage }
{
    match usage {
        Usage::Initial => "initial",
        Usage::InitialTo(_) => "initial_to",
        Usage::Station(_) => "station",
        Usage::Request(_) => "request",
        Usage::Quiet => "quiet",
        Usage::DataTo(_) => "data",
    }
}

// Its SID, where it has one.
fn usage_sid(usage: Usage) -> Option<u64>
    ensures value { result ≡ usage_sid usage }
    ensures fits { UsageFits usage }
{
    match usage {
        Usage::Initial | Usage::Quiet => None,
        Usage::InitialTo(sid) | Usage::Station(sid) | Usage::Request(sid) | Usage::DataTo(sid) => {
            Some(u64::from(sid))
        }
    }
}

// Writes a Reserve that waits.
#[tactic(auto, unfolding(crate::specs::StateText::reserve_state_data))]
fn put_reserve_state(out: &mut Writer, reserve: &ReserveState) -> Result<(), AllocError>
    ensures ok { OnOk result
        (out.new.tokens ≡ out.old.tokens ++ tokens_of (reserve_state_data reserve.now)) }
    ensures before { out.new.before ≡ out.old.before }
    ensures fits { OnOk result (ReserveFits reserve.now) }
{
    let usage = reserve.opportunity.usage;
    out.begin_object()?;
    put_count(out, "maps", reserve.maps as u64)?;
    put_maybe(out, "sid", usage_sid(usage))?;
    put_count(out, "slots", reserve.opportunity.slots as u64)?;
    put_name(out, "usage", usage_name(usage))?;
    out.end_object()
}

// Writes Reserves that wait, one after the other.
#[tactic(auto, unfolding(crate::specs::StateText::reserve_states_data))]
pub(crate) fn put_reserve_states(
    out: &mut Writer,
    reserves: &[ReserveState],
) -> Result<(), AllocError>
    ensures ok { OnOk result
        (out.new.tokens ≡ out.old.tokens ++ tokens_of (reserve_states_data reserves.now)) }
    ensures before { out.new.before ≡ out.old.before }
    ensures fits { OnOk result (AllByRecursion ReserveFits reserves.now) }
{
    out.begin_array()?;
    for reserve in reserves {
        put_reserve_state(out, reserve)?;
    }
    out.end_array()
}
