//! A call of the usual spelling, read from its bytes: without escapes, and with no member that no call has.

ghost use Rattle.std.specs.Prelude.{◌≡◌, ◌<◌, ℕ, codes, Some, None, IfOk, OnOk, length, option_map};
ghost use Rattle.std.specs.Bool.{MatchBool};
ghost use Rattle.json.specs.Json.{value, members, read_key};
ghost use Rattle.serde_json.specs.Data.{Data, Members, no_members, number, unsigned, string};
ghost use Rattle.serde_json.specs.Find.{get};
ghost use Rattle.serde_json.specs.Read.{of_json, of_members, converted};
ghost use Rattle.json_fields.specs.Plain.{data_of, members_of};
ghost use Rattle.call_reading.specs.Calls.{call_of};
ghost use Rattle.call_reading.specs.Field.{ranging_key, key_of, NotesMember};
ghost use Rattle.call_reading.specs.Seen.{seen_of, seen_in, seen_with, nothing, IsNoted};
ghost use Rattle.call_reading.specs.Made.{SaysMembers, MakesCall};

use super::field::{Field, RangingField, known_field, other_field, read_name};
use super::flow::flow_of;
use super::found::{Found, Ranging, made, to_u8};
use super::usual_call::usual_call;
use byte_tokens::Quick;
use json_fields::{Plain, Stop};
use sched_calls::Call;
use std::alloc::Global;

// The most members of an object in which no other stands.
const MOST_MEMBERS: usize = 21;

/// Takes a key, or the brace that closes an object.
pub fn next_key<'a>(reader: &mut Quick<'a>) -> Result<Option<&'a str>, Stop>
    ensures { IfOk result
        (λ k. read_key reader.old ≡ Some (option_map (λ s. s.now) k, reader.new)) }
{
    let Some(key) = reader.next_key() else {
        return Err(Stop::Unusual);
    };
    Ok(key)
}

/// The whole number from 0 to 2^64 - 1 that comes next.
pub fn read_number(reader: &mut Quick<'_>) -> Result<u64, Stop>
    ensures is { IfOk result (λ n. (depth : ℕ) → converted of_json (value depth reader.old)
        ≡ Some (number (unsigned n), reader.new)) }
    ensures shorter { OnOk result (length reader.new < length reader.old) }
{
    let Some(number) = reader.take_number() else {
        return Err(Stop::Unusual);
    };
    Ok(number)
}

/// The text without an escape that comes next.
pub fn read_text<'a>(reader: &mut Quick<'a>) -> Result<&'a str, Stop>
    ensures is { IfOk result (λ text. (depth : ℕ) → converted of_json (value depth reader.old)
        ≡ Some (string text.now, reader.new)) }
    ensures shorter { OnOk result (length reader.new < length reader.old) }
{
    let Some(text) = reader.take_text() else {
        return Err(Stop::Unusual);
    };
    Ok(text)
}

// A whole number, a text, or an object of such values.
#[cycle(object)]
fn read_object_value<'a>(
    alloc: Global,
    reader: &mut Quick<'a>,
    depth: usize,
) -> Result<Plain<'a>, Stop>
    ensures is { IfOk result
        (λ v. converted of_json (value depth reader.old) ≡ Some (data_of v, reader.new)) }
    ensures shorter { OnOk result (length reader.new < length reader.old) }
{
    if reader.is_quoted() {
        let text = read_text(reader)?;
        return Ok(Plain::Text(text));
    }
    if reader.is_braced() {
        return read_object(alloc, reader, depth);
    }
    let number = read_number(reader)?;
    Ok(Plain::Number(number))
}

// The members of an object of such values, whose brace was taken, and the brace that closes it.
#[cycle(object)]
fn read_object_members<'a>(
    alloc: Global,
    reader: &mut Quick<'a>,
    depth: usize,
) -> Result<Vec<(&'a str, Plain<'a>)>, Stop>
    ensures are { IfOk result (λ v. converted (λ ms. of_members ms no_members)
        (members (value depth) (length reader.old) reader.old)
        ≡ Some (members_of v.items, reader.new)) }
    ensures shorter { OnOk result (length reader.new < length reader.old) }
{
    let mut found = Vec::with_capacity(alloc, MOST_MEMBERS)?;
    'members: while let Some(key) = next_key(reader)? {
        let member = read_object_value(alloc, reader, depth)?;
        found.push((key, member))?;
    }
    Ok(found)
}

/// An object of whole numbers, texts and such objects.
#[cycle(object)]
pub(crate) fn read_object<'a>(
    alloc: Global,
    reader: &mut Quick<'a>,
    depth: usize,
) -> Result<Plain<'a>, Stop>
    ensures is { IfOk result
        (λ v. converted of_json (value depth reader.old) ≡ Some (data_of v, reader.new)) }
    ensures shorter { OnOk result (length reader.new < length reader.old) }
{
    if depth == 0 || !reader.open_object() {
        return Err(Stop::Unusual);
    }
    let members = read_object_members(alloc, reader, depth - 1)?;
    Ok(Plain::Object(members))
}

// Reads the value of a field of ranging, and notes it.
fn read_ranging_value<'a>(
    reader: &mut Quick<'a>,
    field: RangingField,
    ranging: &mut Ranging<'a>,
) -> Result<(), Stop>
    ensures is { OnOk result ((d : Data)
        × ((depth : ℕ) → converted of_json (value depth reader.old) ≡ Some (d, reader.new))
        × IsNoted (ranging_key field) d ranging.old ranging.new) }
    ensures shorter { OnOk result (length reader.new < length reader.old) }
{
    match field {
        RangingField::Usage => ranging.usage = Some(read_text(reader)?),
        RangingField::Slots => ranging.slots = Some(read_number(reader)?),
        RangingField::UcdCount => ranging.ucd_count = to_u8(Some(read_number(reader)?)),
        RangingField::RangingStart => ranging.ranging_start = to_u8(Some(read_number(reader)?)),
        RangingField::RangingEnd => ranging.ranging_end = to_u8(Some(read_number(reader)?)),
        RangingField::DataStart => ranging.data_start = to_u8(Some(read_number(reader)?)),
        RangingField::DataEnd => ranging.data_end = to_u8(Some(read_number(reader)?)),
    }
    Ok(())
}

// Reads the value of a field of ranging, and notes it among the others. Compiled once, apart: most calls have none.
#[inline(never)]
fn read_ranging_member<'a>(
    reader: &mut Quick<'a>,
    field: RangingField,
    found: &mut Found<'a>,
) -> Result<(), Stop>
    ensures is { OnOk result ((d : Data)
        × ((depth : ℕ) → converted of_json (value depth reader.old) ≡ Some (d, reader.new))
        × (seen_of found.new ≡ seen_with (ranging_key field) d (seen_of found.old))) }
    ensures shorter { OnOk result (length reader.new < length reader.old) }
{
    let mut ranging = found.ranging_so_far();
    read_ranging_value(reader, field, &mut ranging)?;
    found.ranging = Some(ranging);
    Ok(())
}

// Reads the value of a field, and notes it.
#[inline(always)]
fn read_member<'a>(
    alloc: Global,
    reader: &mut Quick<'a>,
    depth: usize,
    field: Field,
    found: &mut Found<'a>,
) -> Result<(), Stop>
    ensures is { OnOk result ((d : Data)
        × (converted of_json (value depth reader.old) ≡ Some (d, reader.new))
        × (seen_of found.new ≡ seen_with (key_of field) d (seen_of found.old))) }
    ensures shorter { OnOk result (length reader.new < length reader.old) }
{
    match field {
        Field::Name => found.name = Some(read_name(reader)?),
        Field::Sid => found.sid = Some(read_number(reader)?),
        Field::Receiver => found.receiver = Some(read_number(reader)?),
        Field::Bytes => found.bytes = Some(read_number(reader)?),
        Field::Heard => found.heard = Some(read_number(reader)?),
        Field::Upto => found.upto = Some(read_number(reader)?),
        Field::Time => found.time = Some(read_number(reader)?),
        Field::Flow => {
            let value = read_object(alloc, reader, depth)?;
            found.flow = flow_of(&value);
        }
        Field::Ranging(field) => read_ranging_member(reader, field, found)?,
    }
    Ok(())
}

// Reads the next member, if there is one, its key in any spelling. Compiled apart, so that the way of a key that is
// known stays short.
#[inline(never)]
fn read_other<'a>(
    alloc: Global,
    reader: &mut Quick<'a>,
    depth: usize,
    found: &mut Found<'a>,
) -> Result<bool, Stop>
    ensures { IfOk result (λ more. MatchBool more
        (NotesMember depth reader.old reader.new (seen_of found.old) (seen_of found.new))
        ((read_key reader.old ≡ Some (None, reader.new)) × (found.new ≡ found.old))) }
{
    let Some(field) = other_field(reader)? else {
        return Ok(false);
    };
    read_member(alloc, reader, depth, field, found)?;
    Ok(true)
}

// Reads the next member, if there is one.
fn read_next<'a>(
    alloc: Global,
    reader: &mut Quick<'a>,
    depth: usize,
    found: &mut Found<'a>,
) -> Result<bool, Stop>
    ensures { IfOk result (λ more. MatchBool more
        (NotesMember depth reader.old reader.new (seen_of found.old) (seen_of found.new))
        ((read_key reader.old ≡ Some (None, reader.new)) × (found.new ≡ found.old))) }
{
    if let Some(field) = known_field(reader) {
        read_member(alloc, reader, depth, field, found)?;
        return Ok(true);
    }
    if reader.take_end_object() {
        return Ok(false);
    }
    read_other(alloc, reader, depth, found)
}

// What the members of a call say, whose brace was taken, and the brace that closes it.
fn read_members<'a>(
    alloc: Global,
    reader: &mut Quick<'a>,
    depth: usize,
    found: &mut Found<'a>,
) -> Result<(), Stop>
    requires { seen_of found.old ≡ nothing }
    ensures { OnOk result ((ms : Members)
        × SaysMembers depth reader.old reader.new ms × (seen_of found.new ≡ seen_in ms)) }
{
    'members: while read_next(alloc, reader, depth, found)? {}
    Ok(())
}

// The call whose brace was taken, its members in any order. Compiled apart, so that the way of the usual calls stays
// short.
#[inline(never)]
fn read_any_call(alloc: Global, reader: &mut Quick<'_>, depth: usize) -> Result<Call, Stop>
    ensures { IfOk result (λ call. MakesCall depth reader.old reader.new call) }
{
    let mut found = Found::nothing();
    read_members(alloc, reader, depth, &mut found)?;
    let Some(call) = made(&found) else {
        return Err(Stop::Unusual);
    };
    Ok(call)
}

/// The call in its usual spelling that comes next, nested no deeper than this. It has no member that no call has, so
/// none is a configuration.
#[inline(always)]
pub fn read_quick_call(alloc: Global, reader: &mut Quick<'_>, depth: usize) -> Result<Call, Stop>
    ensures is { IfOk result (λ call. (d : Data)
        × (converted of_json (value depth reader.old) ≡ Some (d, reader.new))
        × (call_of d ≡ Some call) × (get (codes "config") d ≡ None)) }
    ensures shorter { OnOk result (length reader.new < length reader.old) }
{
    if depth == 0 || !reader.open_object() {
        return Err(Stop::Unusual);
    }
    let mut attempt = reader.again();
    if let Some(call) = usual_call(&mut attempt) {
        *reader = attempt;
        return Ok(call);
    }
    let call = read_any_call(alloc, reader, depth - 1)?;
    Ok(call)
}
