//! The members of an object in its usual spelling, one after the other in the order in which they are written.

ghost use Rattle.std.specs.Prelude.{◌≡◌, ◌^◌, ◌<◌, ℕ, List, Some, None, Ok, IfOk, OnOk};
ghost use Rattle.hex.specs.Hex.{decode_of};
ghost use Rattle.json.specs.Json.{read_key};
ghost use Rattle.serde_json.specs.Data.{number, unsigned, string};
ghost use Rattle.byte_tokens.specs.Spelled.{spelled_key};
ghost use Rattle.history_reading.specs.Key.{key_of};
ghost use Rattle.history_reading.specs.Spelled.{IsMember};

use byte_tokens::Quick;
use call_reading::{next_key, read_number, read_text};
use json_fields::Stop;
use std::alloc::Global;

/// The keys that are read where they are written.
#[derive(Clone, Copy)]
pub(crate) enum Key {
    Call,
    Reply,
    Seat,
    Ticket,
    Bytes,
    Hex,
    Kind,
    Start,
    Granted,
    Outstanding,
    Starts,
    Next,
    Number,
    Entries,
}

// The letters of a key.
#[inline(always)]
fn name(key: Key) -> &'static str
    ensures { result.now ≡ key_of key }
{
    match key {
        Key::Call => "call",
        Key::Reply => "reply",
        Key::Seat => "seat",
        Key::Ticket => "ticket",
        Key::Bytes => "bytes",
        Key::Hex => "hex",
        Key::Kind => "kind",
        Key::Start => "start",
        Key::Granted => "granted",
        Key::Outstanding => "outstanding",
        Key::Starts => "starts",
        Key::Next => "next",
        Key::Number => "number",
        Key::Entries => "entries",
    }
}

// A key in its quotes, with its colon.
#[inline(always)]
fn spelled(key: Key) -> &'static str
    ensures { result.now ≡ spelled_key (key_of key) }
{
    match key {
        Key::Call => "\"call\":",
        Key::Reply => "\"reply\":",
        Key::Seat => "\"seat\":",
        Key::Ticket => "\"ticket\":",
        Key::Bytes => "\"bytes\":",
        Key::Hex => "\"hex\":",
        Key::Kind => "\"kind\":",
        Key::Start => "\"start\":",
        Key::Granted => "\"granted\":",
        Key::Outstanding => "\"outstanding\":",
        Key::Starts => "\"starts\":",
        Key::Next => "\"next\":",
        Key::Number => "\"number\":",
        Key::Entries => "\"entries\":",
    }
}

// Takes this key, whatever its length.
#[inline(never)]
fn take_any_key(reader: &mut Quick<'_>, key: Key) -> Result<(), Stop>
    ensures { OnOk result (read_key reader.old ≡ Some (Some (key_of key), reader.new)) }
{
    let Some(found) = next_key(reader)? else {
        return Err(Stop::Unusual);
    };
    if found != name(key) {
        return Err(Stop::Unusual);
    }
    Ok(())
}

/// Takes this key.
#[inline(always)]
pub(crate) fn take_key(reader: &mut Quick<'_>, key: Key) -> Result<(), Stop>
    ensures { OnOk result (read_key reader.old ≡ Some (Some (key_of key), reader.new)) }
{
    if reader.take_spelled_key(spelled(key)) {
        return Ok(());
    }
    take_any_key(reader, key)
}

/// Takes the brace that closes an object.
pub(crate) fn take_end(reader: &mut Quick<'_>) -> Result<(), Stop>
    ensures { OnOk result (read_key reader.old ≡ Some (None, reader.new)) }
{
    if next_key(reader)?.is_some() {
        return Err(Stop::Unusual);
    }
    Ok(())
}

/// The whole number under this key.
pub(crate) fn number_under(reader: &mut Quick<'_>, key: Key) -> Result<u64, Stop>
    ensures { IfOk result (λ n. (n < 2 ^ 64) × ((depth : ℕ)
        → IsMember depth (key_of key) (number (unsigned n)) reader.old reader.new)) }
{
    take_key(reader, key)?;
    let number = read_number(reader)?;
    Ok(number)
}

/// The text under this key.
pub(crate) fn text_under<'a>(reader: &mut Quick<'a>, key: Key) -> Result<&'a str, Stop>
    ensures { IfOk result (λ text. (depth : ℕ)
        → IsMember depth (key_of key) (string text.now) reader.old reader.new) }
{
    take_key(reader, key)?;
    let text = read_text(reader)?;
    Ok(text)
}

/// The bytes whose digits are the text under this key.
pub(crate) fn bytes_under(alloc: Global, reader: &mut Quick<'_>, key: Key) -> Result<Vec<u8>, Stop>
    ensures { IfOk result (λ bytes. (digits : List ℕ) × ((depth : ℕ)
        → IsMember depth (key_of key) (string digits) reader.old reader.new)
        × (decode_of digits ≡ Ok bytes.items)) }
{
    take_key(reader, key)?;
    let Some(bytes) = reader.take_hex(alloc) else {
        return Err(Stop::Unusual);
    };
    Ok(bytes)
}
