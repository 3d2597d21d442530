//! One entry of a history in its usual spelling, read from its bytes: its call, its reply and its stamp in the order in
//! which they are written, and nothing else.

ghost use Rattle.std.specs.Prelude.{◌≡◌, ◌^◌, ◌<◌, ℕ, codes, Some, IfOk, OnOk, length};
ghost use Rattle.json.specs.Json.{value};
ghost use Rattle.serde_json.specs.Data.{Data, number, unsigned};
ghost use Rattle.serde_json.specs.Read.{of_json, converted};
ghost use Rattle.call_reading.specs.Calls.{call_of};
ghost use Rattle.history_reading.specs.Replies.{reply_of, entry_of};
ghost use Rattle.history_reading.specs.Spelled.{IsMember};

use super::quick_member::{Key, number_under, take_end, take_key};
use super::quick_reply::read_quick_reply;
use byte_tokens::Quick;
use call_reading::{FromTokens, read_quick_call};
use json_fields::Stop;
use minislots::Stamp;
use sched_calls::{Call, Entry, Reply};
use std::alloc::Global;

// The call under its key.
fn call_under(alloc: Global, reader: &mut Quick<'_>, depth: usize) -> Result<Call, Stop>
    ensures { IfOk result (λ call. (d : Data)
        × IsMember depth (codes "call") d reader.old reader.new × (call_of d ≡ Some call)) }
{
    take_key(reader, Key::Call)?;
    let call = read_quick_call(alloc, reader, depth)?;
    Ok(call)
}

// The reply under its key.
fn reply_under(alloc: Global, reader: &mut Quick<'_>, depth: usize) -> Result<Reply, Stop>
    ensures { IfOk result (λ reply. (d : Data)
        × IsMember depth (codes "reply") d reader.old reader.new × (reply_of d ≡ Some reply)) }
{
    take_key(reader, Key::Reply)?;
    let reply = read_quick_reply(alloc, reader, depth)?;
    Ok(reply)
}

// The seat under its key.
fn seat_under(reader: &mut Quick<'_>) -> Result<u32, Stop>
    ensures { IfOk result (λ n. (n < 2 ^ 32) × ((depth : ℕ)
        → IsMember depth (codes "seat") (number (unsigned n)) reader.old reader.new)) }
{
    let number = number_under(reader, Key::Seat)?;
    let Ok(seat) = u32::try_from(number) else {
        return Err(Stop::Unusual);
    };
    Ok(seat)
}

// The entry in its usual spelling that comes next, nested no deeper than this.
fn read_quick_entry(alloc: Global, reader: &mut Quick<'_>, depth: usize) -> Result<Entry, Stop>
    ensures is { IfOk result (λ entry. (d : Data)
        × (converted of_json (value depth reader.old) ≡ Some (d, reader.new))
        × (entry_of d ≡ Some entry)) }
    ensures shorter { OnOk result (length reader.new < length reader.old) }
{
    if depth == 0 || !reader.open_object() {
        return Err(Stop::Unusual);
    }
    let call = call_under(alloc, reader, depth - 1)?;
    let reply = reply_under(alloc, reader, depth - 1)?;
    let seat = seat_under(reader)?;
    let ticket = number_under(reader, Key::Ticket)?;
    take_end(reader)?;
    let stamp = Stamp { seat, ticket };
    Ok(Entry { stamp, call, reply })
}

/// A history, in which entries stand.
pub struct InHistory;

impl FromTokens<InHistory> for Entry {
    ghost stands_for = { λ d entry. entry_of d ≡ Some entry };

    fn read(alloc: Global, reader: &mut Quick<'_>, depth: usize) -> Result<Entry, Stop> {
        read_quick_entry(alloc, reader, depth)
    }
}
