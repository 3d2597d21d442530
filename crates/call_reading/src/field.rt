//! The keys that a call may have, and the names of the calls, each known by its usual spelling.

ghost use Rattle.std.specs.Prelude.{◌≡◌, ◌<◌, ◌∷◌, ℕ, Some, None, IfSome, IfOk, OnOk, MatchOption, length, option_map};
ghost use Rattle.json.specs.Json.{value, read_key};
ghost use Rattle.json.specs.Token as token;
ghost use Rattle.serde_json.specs.Data.{string};
ghost use Rattle.serde_json.specs.Read.{of_json, converted};
ghost use Rattle.byte_tokens.specs.Spelled.{spelled_key};
ghost use Rattle.call_reading.specs.Field.{ranging_key, key_of};

use super::quick_call::{next_key, read_text};
use byte_tokens::Quick;
use json_fields::Stop;

/// What stands under a key that only a call of ranging may have, or a request in minislots.
#[derive(Clone, Copy)]
pub(crate) enum RangingField {
    Usage,
    Slots,
    UcdCount,
    RangingStart,
    RangingEnd,
    DataStart,
    DataEnd,
}

/// What stands under a key that a call may have.
#[derive(Clone, Copy)]
pub(crate) enum Field {
    Name,
    Sid,
    Receiver,
    Bytes,
    Heard,
    Upto,
    Time,
    Flow,
    Ranging(RangingField),
}

// The field of a key that only a call of ranging may have, or a request in minislots.
fn ranging_field_of(key: &str) -> Option<RangingField>
    ensures { IfSome result (λ field. key.now ≡ ranging_key field) }
{
    match key {
        "usage" => Some(RangingField::Usage),
        "slots" => Some(RangingField::Slots),
        "ucd_count" => Some(RangingField::UcdCount),
        "ranging_start" => Some(RangingField::RangingStart),
        "ranging_end" => Some(RangingField::RangingEnd),
        "data_start" => Some(RangingField::DataStart),
        "data_end" => Some(RangingField::DataEnd),
        _ => None,
    }
}

// The field of a key.
fn field_of(key: &str) -> Option<Field>
    ensures { IfSome result (λ field. key.now ≡ key_of field) }
{
    match key {
        "call" => Some(Field::Name),
        "sid" => Some(Field::Sid),
        "receiver" => Some(Field::Receiver),
        "bytes" => Some(Field::Bytes),
        "heard" => Some(Field::Heard),
        "upto" => Some(Field::Upto),
        "now" => Some(Field::Time),
        "flow" => Some(Field::Flow),
        _ => Some(Field::Ranging(ranging_field_of(key)?)),
    }
}

// The field, where its key is next and spelled so.
#[inline(always)]
fn field_if(reader: &mut Quick<'_>, spelled: &str, field: Field) -> Option<Field>
    requires { spelled.now ≡ spelled_key (key_of field) }
    ensures { MatchOption result (reader.new ≡ reader.old)
        (λ field. read_key reader.old ≡ Some (Some (key_of field), reader.new)) }
{
    if reader.take_spelled_key(spelled) {
        Some(field)
    } else {
        None
    }
}

/// The field whose key is next in its usual spelling. No two of these keys begin with the same letter; those of ranging
/// are seldom.
pub(crate) fn known_field(reader: &mut Quick<'_>) -> Option<Field>
    ensures { MatchOption result (reader.new ≡ reader.old)
        (λ field. read_key reader.old ≡ Some (Some (key_of field), reader.new)) }
{
    match reader.letter() {
        b'b' => field_if(reader, "\"bytes\":", Field::Bytes),
        b'c' => field_if(reader, "\"call\":", Field::Name),
        b'f' => field_if(reader, "\"flow\":", Field::Flow),
        b'h' => field_if(reader, "\"heard\":", Field::Heard),
        b'n' => field_if(reader, "\"now\":", Field::Time),
        b'r' => field_if(reader, "\"receiver\":", Field::Receiver),
        b's' => field_if(reader, "\"sid\":", Field::Sid),
        b'u' => field_if(reader, "\"upto\":", Field::Upto),
        _ => None,
    }
}

/// The field whose key comes next in any spelling, or none at the brace that closes an object.
pub(crate) fn other_field(reader: &mut Quick<'_>) -> Result<Option<Field>, Stop>
    ensures { IfOk result
        (λ field. read_key reader.old ≡ Some (option_map key_of field, reader.new)) }
{
    let Some(key) = next_key(reader)? else {
        return Ok(None);
    };
    let Some(field) = field_of(key) else {
        return Err(Stop::Unusual);
    };
    Ok(Some(field))
}

// The name of a call that comes next in its usual spelling.
fn known_name(reader: &mut Quick<'_>) -> Option<&'static str>
    ensures { MatchOption result (reader.new ≡ reader.old)
        (λ name. reader.old ≡ token.string name.now ∷ reader.new) }
{
    if reader.take_spelled_text("\"status\"") {
        return Some("status");
    }
    if reader.take_spelled_text("\"ask\"") {
        return Some("ask");
    }
    if reader.take_spelled_text("\"heard\"") {
        return Some("heard");
    }
    if reader.take_spelled_text("\"build\"") {
        return Some("build");
    }
    None
}

/// The name of a call, or another text.
#[inline(always)]
pub(crate) fn read_name<'a>(reader: &mut Quick<'a>) -> Result<&'a str, Stop>
    ensures is { IfOk result (λ name. (depth : ℕ) → converted of_json (value depth reader.old)
        ≡ Some (string name.now, reader.new)) }
    ensures shorter { OnOk result (length reader.new < length reader.old) }
{
    if let Some(name) = known_name(reader) {
        return Ok(name);
    }
    read_text(reader)
}
