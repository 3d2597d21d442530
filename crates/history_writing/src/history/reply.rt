//! Replies as JSON.

ghost use Rattle.std.specs.Prelude.{◌≡◌, ◌++◌, OnOk, Some, codes};
ghost use Rattle.hex.specs.Hex.{encode_lower};
ghost use Rattle.map_codec.specs.WireMap.{IsWellFormed, spelling};
ghost use Rattle.sched_calls.specs.Reply.{IsEncodable};
ghost use Rattle.sched_calls.specs.declared.reply.Reply.TheVariants.{Skipped, Flow};
ghost use Rattle.history_writing.specs.Fits.{MapFits, PlacementFits, ReplyFits, ValueFits};
ghost use Rattle.history_writing.specs.Json.{placed_data, map_data, plain_data, refused_data, reply_data};
ghost use Rattle.history_writing.specs.Tokens.{tokens_of, titled};

use super::count::{put_bytes, put_count, put_name, put_offsets};
use json::Writer;
use map_codec::{MAX_BYTES, WireMap, encode};
use sched_calls::{FrameMap, Placement, Reply};
use sched_lines::{refusal_number, refusal_value, write_hex};
use std::alloc::AllocError;
use std::str;

#[tactic(auto, unfolding(crate::specs::Json::placed_data))]
fn put_placed(out: &mut Writer, kind: &str, placement: &Placement) -> Result<(), AllocError>
    ensures ok { OnOk result
        (out.new.tokens ≡ out.old.tokens ++ tokens_of (placed_data kind.now placement.now)) }
    ensures before { out.new.before ≡ out.old.before }
    ensures fits { OnOk result (PlacementFits (Some placement.now)) }
{
    out.begin_object()?;
    put_name(out, "kind", kind)?;
    put_count(out, "reference", placement.reference)?;
    put_offsets(out, "starts", placement.starts.as_slice())?;
    out.end_object()
}

// Writes the payload of a MAP in lower-case hexadecimal.
fn put_hex(out: &mut Writer, map: &WireMap) -> Result<(), AllocError>
    requires { IsWellFormed map.now }
    ensures ok { OnOk result (out.new.tokens
        ≡ out.old.tokens ++ titled (codes "hex") (encode_lower (spelling map.now))) }
    ensures before { out.new.before ≡ out.old.before }
{
    let mut payload = [0u8; MAX_BYTES];
    let mut digits = [0u8; 2 * MAX_BYTES];
    let len = encode(map, &mut payload);
    let digits = &mut digits[..2 * len];
    write_hex(&payload[..len], digits);
    match str::from_utf8(digits) {
        Ok(text) => put_name(out, "hex", text),
        // Digits are ASCII.
        Err(_) => unreachable!(),
    }
}

#[tactic(auto, unfolding(crate::specs::Json::map_data))]
fn put_map(out: &mut Writer, kind: &str, frame: &FrameMap) -> Result<(), AllocError>
    requires { IsWellFormed frame.now.wire }
    ensures ok { OnOk result
        (out.new.tokens ≡ out.old.tokens ++ tokens_of (map_data kind.now frame.now)) }
    ensures before { out.new.before ≡ out.old.before }
    ensures fits { OnOk result (MapFits frame.now) }
{
    out.begin_object()?;
    put_count(out, "ack", frame.ack)?;
    put_bytes(out, "bytes", frame.bytes.as_slice())?;
    put_hex(out, &frame.wire)?;
    put_name(out, "kind", kind)?;
    put_count(out, "start", frame.start)?;
    out.end_object()
}

#[tactic(auto, unfolding(crate::specs::Json::refused_data))]
fn put_refused(out: &mut Writer, number: u64, value: Option<u64>) -> Result<(), AllocError>
    ensures ok { OnOk result
        (out.new.tokens ≡ out.old.tokens ++ tokens_of (refused_data number value)) }
    ensures before { out.new.before ≡ out.old.before }
    ensures fits { ValueFits value }
{
    out.begin_object()?;
    put_name(out, "kind", "refused")?;
    put_count(out, "number", number)?;
    if let Some(value) = value {
        put_count(out, "value", value)?;
    }
    out.end_object()
}

// Writes a kind that says nothing more.
#[tactic(auto, unfolding(crate::specs::Json::plain_data))]
fn put_plain(out: &mut Writer, kind: &str) -> Result<(), AllocError>
    ensures ok { OnOk result (out.new.tokens ≡ out.old.tokens ++ tokens_of (plain_data kind.now)) }
    ensures before { out.new.before ≡ out.old.before }
{
    out.begin_object()?;
    put_name(out, "kind", kind)?;
    out.end_object()
}

#[tactic(auto, unfolding(crate::specs::Json::reply_data))]
fn put_sums(out: &mut Writer, asked: u64, granted: u64, outstanding: u64) -> Result<(), AllocError>
    ensures ok { OnOk result (out.new.tokens
        ≡ out.old.tokens ++ tokens_of (reply_data (Flow asked granted outstanding))) }
    ensures before { out.new.before ≡ out.old.before }
{
    out.begin_object()?;
    put_count(out, "asked", asked)?;
    put_count(out, "granted", granted)?;
    put_name(out, "kind", "flow")?;
    put_count(out, "outstanding", outstanding)?;
    out.end_object()
}

#[tactic(auto, unfolding(crate::specs::Json::reply_data))]
fn put_skipped(out: &mut Writer, next: u64) -> Result<(), AllocError>
    ensures ok { OnOk result
        (out.new.tokens ≡ out.old.tokens ++ tokens_of (reply_data (Skipped next))) }
    ensures before { out.new.before ≡ out.old.before }
{
    out.begin_object()?;
    put_name(out, "kind", "skipped")?;
    put_count(out, "next", next)?;
    out.end_object()
}

/// Writes a reply, by its kind.
#[tactic(auto, unfolding(crate::specs::Json::reply_data))]
pub fn put_reply(out: &mut Writer, reply: &Reply) -> Result<(), AllocError>
    requires { IsEncodable reply.now }
    ensures ok { OnOk result (out.new.tokens ≡ out.old.tokens ++ tokens_of (reply_data reply.now)) }
    ensures before { out.new.before ≡ out.old.before }
    ensures fits { OnOk result (ReplyFits reply.now) }
{
    match reply {
        Reply::Admitted(None) => put_plain(out, "admitted"),
        Reply::Admitted(Some(placement)) => put_placed(out, "admitted", placement),
        Reply::Changed(None) => put_plain(out, "changed"),
        Reply::Changed(Some(placement)) => put_placed(out, "changed", placement),
        Reply::Removed => put_plain(out, "removed"),
        Reply::Taken => put_plain(out, "taken"),
        Reply::Noted => put_plain(out, "noted"),
        Reply::Reserved => put_plain(out, "reserved"),
        Reply::Built(frame) => put_map(out, "map", frame),
        Reply::Skipped(next) => put_skipped(out, *next),
        Reply::Flow {
            asked,
            granted,
            outstanding,
        } => put_sums(out, *asked, *granted, *outstanding),
        Reply::Refused(refusal) => {
            put_refused(out, refusal_number(*refusal), refusal_value(*refusal))
        }
    }
}
