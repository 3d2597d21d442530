//! One reply of a history in its usual spelling, read from its bytes: its members stand in ascending order, with none
//! between them.

ghost use Rattle.std.specs.Prelude.{◌≡◌, ◌^◌, ◌<◌, ℕ, List, codes, Some, IfOk, IfSome, length};
ghost use Rattle.json.specs.Json.{value};
ghost use Rattle.serde_json.specs.Data.{Data, Members, number, unsigned, string, object, no_members, put};
ghost use Rattle.serde_json.specs.Read.{of_json, converted};
ghost use Rattle.history_reading.specs.Replies.{reply_of};
ghost use Rattle.history_reading.specs.Spelled.{with_value, AreMembers, SaysPlace, MakesReply};

use super::quick_member::{Key, bytes_under, number_under, take_end, text_under};
use super::quick_numbers::{u16s_under, u32s_under};
use super::refusal::refusal_with;
use super::reply::map_of;
use byte_tokens::Quick;
use call_reading::{next_key, read_number, read_text};
use json_fields::Stop;
use sched_calls::{ByteCounts, FrameMap, Placement, Reply, Starts};
use std::alloc::Global;

// The reply that a MAP is, behind its acknowledge time.
fn read_map(alloc: Global, reader: &mut Quick<'_>, depth: usize, ack: u64) -> Result<Reply, Stop>
    ensures { IfOk result (λ reply. MakesReply depth
        (put (codes "ack") (number (unsigned ack)) no_members) reply reader.old reader.new) }
{
    let bytes = u32s_under(alloc, reader, depth, Key::Bytes)?;
    let payload = bytes_under(alloc, reader, Key::Hex)?;
    let kind = text_under(reader, Key::Kind)?;
    let start = number_under(reader, Key::Start)?;
    take_end(reader)?;
    if kind != "map" {
        return Err(Stop::Unusual);
    }
    let Some(wire) = map_of(alloc, &payload)? else {
        return Err(Stop::Unusual);
    };
    Ok(Reply::Built(FrameMap {
        start,
        ack,
        wire,
        bytes: ByteCounts::from_vec(bytes),
    }))
}

// The reply that a flow's bytes are, behind those that it asked for.
fn read_flow(reader: &mut Quick<'_>, asked: u64) -> Result<Reply, Stop>
    ensures { IfOk result (λ reply. (depth : ℕ) → MakesReply depth
        (put (codes "asked") (number (unsigned asked)) no_members) reply reader.old reader.new) }
{
    let granted = number_under(reader, Key::Granted)?;
    let kind = text_under(reader, Key::Kind)?;
    let outstanding = number_under(reader, Key::Outstanding)?;
    take_end(reader)?;
    if kind != "flow" {
        return Err(Stop::Unusual);
    }
    Ok(Reply::Flow {
        asked,
        granted,
        outstanding,
    })
}

// The placement of a flow, behind the kind of its reply and the reference.
fn read_placement(
    alloc: Global,
    reader: &mut Quick<'_>,
    depth: usize,
    reference: u64,
) -> Result<Placement, Stop>
    ensures { IfOk result (λ placement. (kind : List ℕ) → SaysPlace depth kind
        (put (codes "reference") (number (unsigned reference))
        (put (codes "kind") (string kind) no_members)) (Some placement) reader.old reader.new) }
{
    let starts = u16s_under(alloc, reader, depth, Key::Starts)?;
    take_end(reader)?;
    Ok(Placement {
        reference,
        starts: Starts::from_vec(starts),
    })
}

// The place of a flow, where it has one, behind the kind of its reply.
fn read_place(
    alloc: Global,
    reader: &mut Quick<'_>,
    depth: usize,
) -> Result<Option<Placement>, Stop>
    ensures { IfOk result (λ place. (kind : List ℕ) → SaysPlace depth kind
        (put (codes "kind") (string kind) no_members) place reader.old reader.new) }
{
    let Some(key) = next_key(reader)? else {
        return Ok(None);
    };
    if key != "reference" {
        return Err(Stop::Unusual);
    }
    let reference = read_number(reader)?;
    let placement = read_placement(alloc, reader, depth, reference)?;
    Ok(Some(placement))
}

// The reply to an admission, behind its kind.
fn read_admitted(alloc: Global, reader: &mut Quick<'_>, depth: usize) -> Result<Reply, Stop>
    ensures { IfOk result (λ reply. MakesReply depth
        (put (codes "kind") (string (codes "admitted")) no_members) reply reader.old reader.new) }
{
    let place = read_place(alloc, reader, depth)?;
    Ok(Reply::Admitted(place))
}

// The reply to a change, behind its kind.
fn read_changed(alloc: Global, reader: &mut Quick<'_>, depth: usize) -> Result<Reply, Stop>
    ensures { IfOk result (λ reply. MakesReply depth
        (put (codes "kind") (string (codes "changed")) no_members) reply reader.old reader.new) }
{
    let place = read_place(alloc, reader, depth)?;
    Ok(Reply::Changed(place))
}

// The reply to a skip, behind its kind.
fn read_skipped(reader: &mut Quick<'_>) -> Result<Reply, Stop>
    ensures { IfOk result (λ reply. (depth : ℕ) → MakesReply depth
        (put (codes "kind") (string (codes "skipped")) no_members) reply reader.old reader.new) }
{
    let next = number_under(reader, Key::Next)?;
    take_end(reader)?;
    Ok(Reply::Skipped(next))
}

// The value of a refusal, where it has one, and the brace behind it.
fn read_value(reader: &mut Quick<'_>) -> Result<Option<u64>, Stop>
    ensures { IfOk result (λ value. IfSome value (λ v. v < 2 ^ 64)
        × ((depth : ℕ) (found : Members)
        → AreMembers depth found (with_value value found) reader.old reader.new)) }
{
    let Some(key) = next_key(reader)? else {
        return Ok(None);
    };
    if key != "value" {
        return Err(Stop::Unusual);
    }
    let value = read_number(reader)?;
    take_end(reader)?;
    Ok(Some(value))
}

// The reply that a refusal is, behind its kind.
fn read_refused(reader: &mut Quick<'_>) -> Result<Reply, Stop>
    ensures { IfOk result (λ reply. (depth : ℕ) → MakesReply depth
        (put (codes "kind") (string (codes "refused")) no_members) reply reader.old reader.new) }
{
    let number = number_under(reader, Key::Number)?;
    let value = read_value(reader)?;
    let Some(refusal) = refusal_with(number, value) else {
        return Err(Stop::Unusual);
    };
    Ok(Reply::Refused(refusal))
}

// The reply of a kind that says nothing more.
fn plain_reply(kind: &str) -> Option<Reply>
    ensures { IfSome result (λ reply.
        reply_of (object (put (codes "kind") (string kind.now) no_members)) ≡ Some reply) }
{
    match kind {
        "removed" => Some(Reply::Removed),
        "taken" => Some(Reply::Taken),
        "noted" => Some(Reply::Noted),
        "reserved" => Some(Reply::Reserved),
        _ => None,
    }
}

// The reply of a kind that says nothing more, behind that kind.
fn read_plain(reader: &mut Quick<'_>, kind: &str) -> Result<Reply, Stop>
    ensures { IfOk result (λ reply. (depth : ℕ) → MakesReply depth
        (put (codes "kind") (string kind.now) no_members) reply reader.old reader.new) }
{
    let Some(reply) = plain_reply(kind) else {
        return Err(Stop::Unusual);
    };
    take_end(reader)?;
    Ok(reply)
}

// The reply of a kind, behind that kind.
fn read_kind(alloc: Global, reader: &mut Quick<'_>, depth: usize, kind: &str) -> Result<Reply, Stop>
    ensures { IfOk result (λ reply. MakesReply depth
        (put (codes "kind") (string kind.now) no_members) reply reader.old reader.new) }
{
    match kind {
        "admitted" => read_admitted(alloc, reader, depth),
        "changed" => read_changed(alloc, reader, depth),
        "skipped" => read_skipped(reader),
        "refused" => read_refused(reader),
        _ => read_plain(reader, kind),
    }
}

// The reply that the members of an object make, whose brace was taken, and the brace that closes it.
fn read_members(alloc: Global, reader: &mut Quick<'_>, depth: usize) -> Result<Reply, Stop>
    ensures { IfOk result (λ reply. MakesReply depth no_members reply reader.old reader.new) }
{
    let Some(key) = next_key(reader)? else {
        return Err(Stop::Unusual);
    };
    match key {
        "kind" => {
            let kind = read_text(reader)?;
            let reply = read_kind(alloc, reader, depth, kind)?;
            Ok(reply)
        }
        "ack" => {
            let ack = read_number(reader)?;
            let reply = read_map(alloc, reader, depth, ack)?;
            Ok(reply)
        }
        "asked" => {
            let asked = read_number(reader)?;
            let reply = read_flow(reader, asked)?;
            Ok(reply)
        }
        _ => Err(Stop::Unusual),
    }
}

/// The reply in its usual spelling that comes next, nested no deeper than this.
pub(crate) fn read_quick_reply(
    alloc: Global,
    reader: &mut Quick<'_>,
    depth: usize,
) -> Result<Reply, Stop>
    ensures { IfOk result (λ reply. (d : Data)
        × (converted of_json (value depth reader.old) ≡ Some (d, reader.new))
        × (reply_of d ≡ Some reply) × (length reader.new < length reader.old)) }
{
    if depth == 0 || !reader.open_object() {
        return Err(Stop::Unusual);
    }
    let reply = read_members(alloc, reader, depth - 1)?;
    Ok(reply)
}
