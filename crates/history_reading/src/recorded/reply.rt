//! One reply of a history.

ghost use Rattle.std.specs.Prelude.{◌≡◌, IfOk, Some};
ghost use Rattle.history_reading.specs.Replies.{placement_of, place_of, admitted_reply, changed_reply, map_of, map_at};
ghost use Rattle.history_reading.specs.Replies.{map_reply, skipped_reply, flow_reply, u64_if, refused_reply, reply_of};

use super::numbers::{numbers_u16, numbers_u32};
use super::refusal::refusal_with;
use hex::FromHexError;
use json_fields::{Tree, member, number_u64, text};
use map_codec::{DecodeFault, WireMap, decode};
use sched_calls::{ByteCounts, FrameMap, Placement, Reply, Starts};
use std::alloc::{AllocError, Global};

// The placement whose reference and starts stand there.
#[tactic(auto, unfolding(crate::specs::Replies::placement_of))]
fn placement_of<T: Tree>(alloc: Global, value: &T) -> Result<Option<Placement>, AllocError>
    ensures { IfOk result (λ placement. placement ≡ placement_of (T.shown value.now)) }
{
    let Some(reference) = number_u64(value, "reference") else {
        return Ok(None);
    };
    let Some(starts) = numbers_u16(alloc, value, "starts")? else {
        return Ok(None);
    };
    Ok(Some(Placement {
        reference,
        starts: Starts::from_vec(starts),
    }))
}

// The place of a flow: a reference and starts, or neither.
#[tactic(auto, unfolding(crate::specs::Replies::place_of))]
fn place_of<T: Tree>(alloc: Global, value: &T) -> Result<Option<Option<Placement>>, AllocError>
    ensures { IfOk result (λ place. place ≡ place_of (T.shown value.now)) }
{
    if member(value, "reference").is_none() && member(value, "starts").is_none() {
        return Ok(Some(None));
    }
    let Some(placement) = placement_of(alloc, value)? else {
        return Ok(None);
    };
    Ok(Some(Some(placement)))
}

#[tactic(auto, unfolding(crate::specs::Replies::admitted_reply))]
fn admitted_reply<T: Tree>(alloc: Global, value: &T) -> Result<Option<Reply>, AllocError>
    ensures { IfOk result (λ reply. reply ≡ admitted_reply (T.shown value.now)) }
{
    let Some(place) = place_of(alloc, value)? else {
        return Ok(None);
    };
    Ok(Some(Reply::Admitted(place)))
}

#[tactic(auto, unfolding(crate::specs::Replies::changed_reply))]
fn changed_reply<T: Tree>(alloc: Global, value: &T) -> Result<Option<Reply>, AllocError>
    ensures { IfOk result (λ reply. reply ≡ changed_reply (T.shown value.now)) }
{
    let Some(place) = place_of(alloc, value)? else {
        return Ok(None);
    };
    Ok(Some(Reply::Changed(place)))
}

/// The MAP of which these bytes are the payload.
#[tactic(auto, unfolding(crate::specs::Replies::map_of))]
pub(crate) fn map_of(alloc: Global, bytes: &[u8]) -> Result<Option<WireMap>, AllocError>
    ensures { IfOk result (λ map. map ≡ map_of bytes.now) }
{
    match decode(alloc, bytes) {
        Ok(map) => Ok(Some(map)),
        Err(DecodeFault::Memory) => Err(AllocError),
        Err(_) => Ok(None),
    }
}

// The MAP whose payload stands under this key in hexadecimal, digits of both cases.
#[tactic(auto, unfolding(crate::specs::Replies::map_at))]
fn map_at<T: Tree>(alloc: Global, value: &T, key: &str) -> Result<Option<WireMap>, AllocError>
    ensures { IfOk result (λ map. map ≡ map_at key.now (T.shown value.now)) }
{
    let Some(digits) = text(value, key) else {
        return Ok(None);
    };
    match hex::decode(alloc, digits) {
        Ok(bytes) => map_of(alloc, &bytes),
        Err(FromHexError::OutOfMemory) => Err(AllocError),
        Err(_) => Ok(None),
    }
}

#[tactic(auto, unfolding(crate::specs::Replies::map_reply))]
fn map_reply<T: Tree>(alloc: Global, value: &T) -> Result<Option<Reply>, AllocError>
    ensures { IfOk result (λ reply. reply ≡ map_reply (T.shown value.now)) }
{
    let (Some(start), Some(ack)) = (number_u64(value, "start"), number_u64(value, "ack")) else {
        return Ok(None);
    };
    let Some(wire) = map_at(alloc, value, "hex")? else {
        return Ok(None);
    };
    let Some(bytes) = numbers_u32(alloc, value, "bytes")? else {
        return Ok(None);
    };
    Ok(Some(Reply::Built(FrameMap {
        start,
        ack,
        wire,
        bytes: ByteCounts::from_vec(bytes),
    })))
}

#[tactic(auto, unfolding(crate::specs::Replies::skipped_reply))]
fn skipped_reply<T: Tree>(value: &T) -> Option<Reply>
    ensures { result ≡ skipped_reply (T.shown value.now) }
{
    Some(Reply::Skipped(number_u64(value, "next")?))
}

#[tactic(auto, unfolding(crate::specs::Replies::flow_reply))]
fn flow_reply<T: Tree>(value: &T) -> Option<Reply>
    ensures { result ≡ flow_reply (T.shown value.now) }
{
    let (Some(asked), Some(granted), Some(outstanding)) = (
        number_u64(value, "asked"),
        number_u64(value, "granted"),
        number_u64(value, "outstanding"),
    ) else {
        return None;
    };
    Some(Reply::Flow {
        asked,
        granted,
        outstanding,
    })
}

// The number under this key where something stands there, which then is a number.
#[tactic(auto, unfolding(crate::specs::Replies::u64_if))]
fn u64_if<T: Tree>(value: &T, key: &str) -> Option<Option<u64>>
    ensures { result ≡ u64_if key.now (T.shown value.now) }
{
    if member(value, key).is_none() {
        return Some(None);
    }
    Some(Some(number_u64(value, key)?))
}

#[tactic(auto, unfolding(crate::specs::Replies::refused_reply))]
fn refused_reply<T: Tree>(value: &T) -> Option<Reply>
    ensures { result ≡ refused_reply (T.shown value.now) }
{
    let number = number_u64(value, "number")?;
    let refusal = refusal_with(number, u64_if(value, "value")?)?;
    Some(Reply::Refused(refusal))
}

/// The reply that an object stands for, by its kind. Takes memory for a placement and for a MAP.
#[tactic(auto, unfolding(crate::specs::Replies::reply_of))]
pub fn reply_of<T: Tree>(alloc: Global, value: &T) -> Result<Option<Reply>, AllocError>
    ensures { IfOk result (λ reply. reply ≡ reply_of (T.shown value.now)) }
{
    let Some(kind) = text(value, "kind") else {
        return Ok(None);
    };
    Ok(match kind {
        "admitted" => return admitted_reply(alloc, value),
        "removed" => Some(Reply::Removed),
        "taken" => Some(Reply::Taken),
        "noted" => Some(Reply::Noted),
        "map" => return map_reply(alloc, value),
        "skipped" => skipped_reply(value),
        "flow" => flow_reply(value),
        "refused" => refused_reply(value),
        "reserved" => Some(Reply::Reserved),
        "changed" => return changed_reply(alloc, value),
        _ => None,
    })
}
