//! Arrays of whole numbers in their usual spelling.

ghost use Rattle.std.specs.Prelude.{◌≡◌, ◌^◌, ◌<◌, ℕ, List, Some, IfOk, OnOk, length, slice_index};
ghost use Rattle.json.specs.Json.{value, items};
ghost use Rattle.serde_json.specs.Data.{Data, Items, array};
ghost use Rattle.serde_json.specs.Read.{of_json, of_items, converted};
ghost use Rattle.serde_json.specs.View.{items_of};
ghost use Rattle.json_fields.specs.Listed.{StandEach};
ghost use Rattle.history_reading.specs.Replies.{number_below, numbers_of};
ghost use Rattle.history_reading.specs.Key.{key_of};
ghost use Rattle.history_reading.specs.Spelled.{IsMember};

use super::quick_member::{Key, take_key};
use byte_tokens::Quick;
use call_reading::read_number;
use json_fields::Stop;
use std::alloc::Global;

// A whole number that fits.
fn read_u16(reader: &mut Quick<'_>) -> Result<u16, Stop>
    ensures is { IfOk result (λ n. (d : Data)
        × ((depth : ℕ) → converted of_json (value depth reader.old) ≡ Some (d, reader.new))
        × (number_below (2 ^ 16) d ≡ Some n)) }
    ensures shorter { OnOk result (length reader.new < length reader.old) }
{
    let number = read_number(reader)?;
    let Ok(fits) = u16::try_from(number) else {
        return Err(Stop::Unusual);
    };
    Ok(fits)
}

// The numbers of an array whose bracket was taken, and the bracket that closes it.
fn read_u16s(alloc: Global, reader: &mut Quick<'_>, depth: usize) -> Result<Vec<u16>, Stop>
    ensures are { IfOk result (λ numbers. (ds : List Data)
        × (converted of_items (items (value depth) (length reader.old) reader.old)
        ≡ Some (items_of ds, reader.new))
        × StandEach (λ d n. number_below (2 ^ 16) d ≡ Some n) ds numbers.items) }
    ensures shorter { OnOk result (length reader.new < length reader.old) }
{
    let mut numbers = Vec::new(alloc);
    'items: while !reader.take_end_array() {
        let number = read_u16(reader)?;
        numbers.push(number)?;
    }
    Ok(numbers)
}

// Does nothing: it tells the proof of its caller what the type says of each number.
#[inline(always)]
fn tell_fit(numbers: &[u32])
    ensures { (i : ℕ) → slice_index numbers.now i < 2 ^ 32 }
{}

// The numbers of an array whose bracket was taken, and the bracket that closes it.
fn read_u32s(alloc: Global, reader: &mut Quick<'_>, depth: usize) -> Result<Vec<u32>, Stop>
    ensures are { IfOk result (λ numbers. (ds : List Data)
        × (converted of_items (items (value depth) (length reader.old) reader.old)
        ≡ Some (items_of ds, reader.new))
        × StandEach (λ d n. number_below (2 ^ 32) d ≡ Some n) ds numbers.items) }
    ensures shorter { OnOk result (length reader.new < length reader.old) }
{
    if reader.take_end_array() {
        return Ok(Vec::new(alloc));
    }
    let Some(numbers) = reader.take_u32s(alloc) else {
        return Err(Stop::Unusual);
    };
    tell_fit(&numbers);
    Ok(numbers)
}

/// The numbers of the array under this key, in an object whose values nest no deeper than this.
pub(crate) fn u16s_under(
    alloc: Global,
    reader: &mut Quick<'_>,
    depth: usize,
    key: Key,
) -> Result<Vec<u16>, Stop>
    ensures { IfOk result (λ numbers. (ds : Items)
        × IsMember depth (key_of key) (array ds) reader.old reader.new
        × (numbers_of (2 ^ 16) ds ≡ Some numbers.items)) }
{
    take_key(reader, key)?;
    if depth == 0 || !reader.open_array() {
        return Err(Stop::Unusual);
    }
    let numbers = read_u16s(alloc, reader, depth - 1)?;
    Ok(numbers)
}

/// The numbers of the array under this key, in an object whose values nest no deeper than this.
pub(crate) fn u32s_under(
    alloc: Global,
    reader: &mut Quick<'_>,
    depth: usize,
    key: Key,
) -> Result<Vec<u32>, Stop>
    ensures { IfOk result (λ numbers. (ds : Items)
        × IsMember depth (key_of key) (array ds) reader.old reader.new
        × (numbers_of (2 ^ 32) ds ≡ Some numbers.items)) }
{
    take_key(reader, key)?;
    if depth == 0 || !reader.open_array() {
        return Err(Stop::Unusual);
    }
    let numbers = read_u32s(alloc, reader, depth - 1)?;
    Ok(numbers)
}
