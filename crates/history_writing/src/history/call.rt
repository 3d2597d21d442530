//! Calls as JSON.

ghost use Rattle.std.specs.Prelude.{◌≡◌, ◌++◌, OnOk, codes};
ghost use Rattle.serde_json.specs.Data.{string, object, no_members, member};
ghost use Rattle.sched_calls.specs.declared.amount.Amount.TheVariants.{Bytes, Slots};
ghost use Rattle.sched_calls.specs.declared.spec.FlowSpec.TheVariants.{Unsolicited, Polled, BestEffort};
ghost use Rattle.history_writing.specs.Fits.{FlowFits, CallFits};
ghost use Rattle.history_writing.specs.Json.{count, flow_data, request_data, parameters_data, reserve_for, reserve_to};
ghost use Rattle.history_writing.specs.Json.{call_data};
ghost use Rattle.history_writing.specs.Tokens.{tokens_of};

use super::count::{put_count, put_name, put_optional};
use json::Writer;
use sched_calls::{Amount, Call, FlowSpec, Header, Usage};
use std::alloc::AllocError;

#[tactic(auto, unfolding(crate::specs::Json::flow_data))]
fn put_unsolicited(
    out: &mut Writer,
    size: u32,
    interval_us: u32,
    jitter_us: u32,
    grants: u8,
) -> Result<(), AllocError>
    ensures ok { OnOk result (out.new.tokens ≡ out.old.tokens
        ++ tokens_of (flow_data (Unsolicited size interval_us jitter_us grants))) }
    ensures before { out.new.before ≡ out.old.before }
{
    out.begin_object()?;
    put_count(out, "grants", grants as u64)?;
    put_count(out, "interval_us", interval_us as u64)?;
    put_count(out, "jitter_us", jitter_us as u64)?;
    put_name(out, "kind", "unsolicited")?;
    put_count(out, "size", size as u64)?;
    out.end_object()
}

// A peak rate stands where it is a ceiling.
#[tactic(auto, unfolding(crate::specs::Json::flow_data))]
fn put_polled(
    out: &mut Writer,
    interval_us: u32,
    jitter_us: u32,
    rate: u32,
    burst: u32,
    peak: u32,
) -> Result<(), AllocError>
    ensures ok { OnOk result (out.new.tokens ≡ out.old.tokens
        ++ tokens_of (flow_data (Polled interval_us jitter_us rate burst peak))) }
    ensures before { out.new.before ≡ out.old.before }
{
    out.begin_object()?;
    put_count(out, "burst", burst as u64)?;
    put_count(out, "interval_us", interval_us as u64)?;
    put_count(out, "jitter_us", jitter_us as u64)?;
    put_name(out, "kind", "polled")?;
    put_optional(out, "peak", peak as u64, 0)?;
    put_count(out, "rate", rate as u64)?;
    out.end_object()
}

// So does that of a best effort flow, and a reserved rate and its burst each stand where it is above 0.
#[tactic(auto, unfolding(crate::specs::Json::flow_data))]
fn put_best_effort(
    out: &mut Writer,
    priority: u8,
    rate: u32,
    burst: u32,
    peak: u32,
    reserved: u32,
    reserved_burst: u32,
) -> Result<(), AllocError>
    ensures ok { OnOk result (out.new.tokens ≡ out.old.tokens
        ++ tokens_of (flow_data (BestEffort priority rate burst peak reserved reserved_burst))) }
    ensures before { out.new.before ≡ out.old.before }
{
    out.begin_object()?;
    put_count(out, "burst", burst as u64)?;
    put_name(out, "kind", "best_effort")?;
    put_optional(out, "peak", peak as u64, 0)?;
    put_count(out, "priority", priority as u64)?;
    put_count(out, "rate", rate as u64)?;
    put_optional(out, "reserved", reserved as u64, 0)?;
    put_optional(out, "reserved_burst", reserved_burst as u64, 0)?;
    out.end_object()
}

/// Writes the parameters of a flow, by its kind.
#[tactic(auto, unfolding(crate::specs::Json::flow_data))]
pub fn put_flow(out: &mut Writer, flow: FlowSpec) -> Result<(), AllocError>
    ensures ok { OnOk result (out.new.tokens ≡ out.old.tokens ++ tokens_of (flow_data flow)) }
    ensures before { out.new.before ≡ out.old.before }
    ensures fits { FlowFits flow }
{
    match flow {
        FlowSpec::Unsolicited {
            size,
            interval_us,
            jitter_us,
            grants,
        } => put_unsolicited(out, size, interval_us, jitter_us, grants),
        FlowSpec::Polled {
            interval_us,
            jitter_us,
            rate,
            burst,
            peak,
        } => put_polled(out, interval_us, jitter_us, rate, burst, peak),
        FlowSpec::BestEffort {
            priority,
            rate,
            burst,
            peak,
            reserved,
            reserved_burst,
        } => put_best_effort(out, priority, rate, burst, peak, reserved, reserved_burst),
    }
}

// Writes a call of this name with the parameters of a flow.
fn put_parameters(out: &mut Writer, name: &str, sid: u16, flow: FlowSpec) -> Result<(), AllocError>
    ensures ok { OnOk result (out.new.tokens
        ≡ out.old.tokens ++ tokens_of (parameters_data name.now sid flow)) }
    ensures before { out.new.before ≡ out.old.before }
{
    out.begin_object()?;
    put_name(out, "call", name)?;
    out.key("flow")?;
    put_flow(out, flow)?;
    put_count(out, "sid", sid as u64)?;
    out.end_object()
}

// Writes a Reserve that no SID stands beside, by its usage.
fn put_reserve_for(out: &mut Writer, usage: &str, slots: u32) -> Result<(), AllocError>
    ensures ok { OnOk result (out.new.tokens
        ≡ out.old.tokens ++ tokens_of (reserve_for usage.now slots)) }
    ensures before { out.new.before ≡ out.old.before }
{
    out.begin_object()?;
    put_name(out, "call", "reserve")?;
    put_count(out, "slots", slots as u64)?;
    put_name(out, "usage", usage)?;
    out.end_object()
}

// Writes a Reserve with its SID, by its usage.
fn put_reserve_to(out: &mut Writer, usage: &str, modems: u16, slots: u32) -> Result<(), AllocError>
    ensures ok { OnOk result (out.new.tokens
        ≡ out.old.tokens ++ tokens_of (reserve_to usage.now modems slots)) }
    ensures before { out.new.before ≡ out.old.before }
{
    out.begin_object()?;
    put_name(out, "call", "reserve")?;
    put_count(out, "sid", modems as u64)?;
    put_count(out, "slots", slots as u64)?;
    put_name(out, "usage", usage)?;
    out.end_object()
}

// Writes a Reserve: with its SID, which each usage has but `initial` and `quiet`.
#[tactic(auto, unfolding(crate::specs::Json::call_data))]
fn put_reserve(out: &mut Writer, usage: Usage, slots: u32) -> Result<(), AllocError>
    ensures ok { OnOk result (out.new.tokens
        ≡ out.old.tokens ++ tokens_of (call_data (Call.Reserve usage slots))) }
    ensures before { out.new.before ≡ out.old.before }
{
    match usage {
        Usage::Initial => put_reserve_for(out, "initial", slots),
        Usage::InitialTo(sid) => put_reserve_to(out, "initial_to", sid, slots),
        Usage::Station(sid) => put_reserve_to(out, "station", sid, slots),
        Usage::Request(sid) => put_reserve_to(out, "request", sid, slots),
        Usage::Quiet => put_reserve_for(out, "quiet", slots),
        Usage::DataTo(sid) => put_reserve_to(out, "data", sid, slots),
    }
}

fn put_bytes_asked(
    out: &mut Writer,
    name: &str,
    receiver: u8,
    sid: u16,
    bytes: u32,
    heard: u64,
) -> Result<(), AllocError>
    ensures ok { OnOk result (out.new.tokens
        ≡ out.old.tokens ++ tokens_of (request_data name.now receiver sid (Bytes bytes) heard)) }
    ensures before { out.new.before ≡ out.old.before }
{
    out.begin_object()?;
    put_count(out, "bytes", bytes as u64)?;
    put_name(out, "call", name)?;
    put_count(out, "heard", heard)?;
    put_count(out, "receiver", receiver as u64)?;
    put_count(out, "sid", sid as u64)?;
    out.end_object()
}

fn put_slots_asked(
    out: &mut Writer,
    name: &str,
    receiver: u8,
    sid: u16,
    slots: u32,
    heard: u64,
) -> Result<(), AllocError>
    ensures ok { OnOk result (out.new.tokens
        ≡ out.old.tokens ++ tokens_of (request_data name.now receiver sid (Slots slots) heard)) }
    ensures before { out.new.before ≡ out.old.before }
{
    out.begin_object()?;
    put_name(out, "call", name)?;
    put_count(out, "heard", heard)?;
    put_count(out, "receiver", receiver as u64)?;
    put_count(out, "sid", sid as u64)?;
    put_count(out, "slots", slots as u64)?;
    out.end_object()
}

// Writes a request of this name, with its bytes or its minislots.
fn put_request(
    out: &mut Writer,
    name: &str,
    receiver: u8,
    sid: u16,
    amount: Amount,
    heard: u64,
) -> Result<(), AllocError>
    ensures ok { OnOk result (out.new.tokens
        ≡ out.old.tokens ++ tokens_of (request_data name.now receiver sid amount heard)) }
    ensures before { out.new.before ≡ out.old.before }
{
    match amount {
        Amount::Bytes(bytes) => put_bytes_asked(out, name, receiver, sid, bytes, heard),
        Amount::Slots(slots) => put_slots_asked(out, name, receiver, sid, slots, heard),
    }
}

#[tactic(auto, unfolding(crate::specs::Json::call_data))]
fn put_heard(out: &mut Writer, receiver: u8, upto: u64) -> Result<(), AllocError>
    ensures ok { OnOk result (out.new.tokens
        ≡ out.old.tokens ++ tokens_of (call_data (Call.Heard receiver upto))) }
    ensures before { out.new.before ≡ out.old.before }
{
    out.begin_object()?;
    put_name(out, "call", "heard")?;
    put_count(out, "receiver", receiver as u64)?;
    put_count(out, "upto", upto)?;
    out.end_object()
}

// Writes a call that has this name and one whole number.
fn put_numbered(out: &mut Writer, name: &str, key: &str, number: u64) -> Result<(), AllocError>
    ensures ok { OnOk result (out.new.tokens
        ≡ out.old.tokens ++ tokens_of (object (member (codes "call") (string name.now)
        (member key.now (count number) no_members)))) }
    ensures before { out.new.before ≡ out.old.before }
{
    out.begin_object()?;
    put_name(out, "call", name)?;
    put_count(out, key, number)?;
    out.end_object()
}

#[tactic(auto, unfolding(crate::specs::Json::call_data))]
fn put_header(out: &mut Writer, header: Header) -> Result<(), AllocError>
    ensures ok { OnOk result
        (out.new.tokens ≡ out.old.tokens ++ tokens_of (call_data (Call.Header header))) }
    ensures before { out.new.before ≡ out.old.before }
{
    out.begin_object()?;
    put_name(out, "call", "header")?;
    put_count(out, "data_end", header.data_end as u64)?;
    put_count(out, "data_start", header.data_start as u64)?;
    put_count(out, "ranging_end", header.ranging_end as u64)?;
    put_count(out, "ranging_start", header.ranging_start as u64)?;
    put_count(out, "ucd_count", header.ucd_count as u64)?;
    out.end_object()
}

/// Writes a call, by its name.
#[tactic(auto, unfolding(crate::specs::Json::call_data))]
pub fn put_call(out: &mut Writer, call: Call) -> Result<(), AllocError>
    ensures ok { OnOk result (out.new.tokens ≡ out.old.tokens ++ tokens_of (call_data call)) }
    ensures before { out.new.before ≡ out.old.before }
    ensures fits { CallFits call }
{
    match call {
        Call::Admit(sid, flow) => put_parameters(out, "admit", sid, flow),
        Call::Remove(sid) => put_numbered(out, "remove", "sid", sid as u64),
        Call::Ask {
            receiver,
            sid,
            amount,
            heard,
        } => put_request(out, "ask", receiver, sid, amount, heard),
        Call::Heard { receiver, upto } => put_heard(out, receiver, upto),
        Call::Build { now } => put_numbered(out, "build", "now", now),
        Call::Skip { now } => put_numbered(out, "skip", "now", now),
        Call::Status(sid) => put_numbered(out, "status", "sid", sid as u64),
        Call::Reserve { usage, slots } => put_reserve(out, usage, slots),
        Call::Header(header) => put_header(out, header),
        Call::Replace {
            receiver,
            sid,
            amount,
            heard,
        } => put_request(out, "replace", receiver, sid, amount, heard),
        Call::Change(sid, flow) => put_parameters(out, "change", sid, flow),
        Call::Rest(sid) => put_numbered(out, "rest", "sid", sid as u64),
        Call::Wake(sid) => put_numbered(out, "wake", "sid", sid as u64),
    }
}
