//! Values of whole numbers, texts, arrays and objects alone, read straight from the tokens of a text that they borrow.

ghost use Rattle.std.specs.Prelude.{◌≡◌, ◌<◌, map, Some, IfOk, OnOk, IfSome, option_map, length};
ghost use Rattle.json.specs.Json.{value, items, members};
ghost use Rattle.serde_json.specs.Data.{unsigned, no_members};
ghost use Rattle.serde_json.specs.Find.{get_member};
ghost use Rattle.serde_json.specs.Read.{number_of, of_json, of_items, of_members, converted};
ghost use Rattle.serde_json.specs.View.{items_of};
ghost use Rattle.json_fields.specs.Plain.{data_of, members_of};

use super::tree::Tree;
use fast_float::Numeral;
use json::{Invalid, Reader, Token};
use std::alloc::{AllocError, AllocFailed, Global};

// What the members of a call are at most, so that a list of them does not grow while it is read.
const USUAL_MEMBERS: usize = 5;

/// A value of whole numbers, texts, arrays and objects alone.
#[derive(Drop)]
pub enum Plain<'a> {
    Number(u64),
    Text(&'a str),
    Array(Vec<Plain<'a>>),
    Object(Vec<(&'a str, Plain<'a>)>),
}

/// Why a text is not read at once.
#[derive(Clone, Copy, Debug, PartialEq, Eq, Drop)]
pub enum Stop {
    /// It is not plain, or it has a fault.
    Unusual,
    /// Memory ran out.
    Memory,
}

impl From<AllocError> for Stop {
    fn from(_e: AllocError) -> Stop {
        Stop::Memory
    }
}

impl<T: Drop> From<AllocFailed<T>> for Stop {
    fn from(_refused: AllocFailed<T>) -> Stop {
        Stop::Memory
    }
}

impl From<Invalid> for Stop {
    fn from(_e: Invalid) -> Stop {
        Stop::Unusual
    }
}

impl<'a> Tree for Plain<'a> {
    ghost shown = { data_of };

    fn member(&self, key: &str) -> Option<&Plain<'a>> {
        match self {
            Plain::Object(members) => find(members, key),
            _ => None,
        }
    }

    fn text(&self) -> Option<&str> {
        match self {
            Plain::Text(text) => Some(*text),
            _ => None,
        }
    }

    fn whole(&self) -> Option<u64> {
        match self {
            Plain::Number(number) => Some(*number),
            _ => None,
        }
    }

    fn items(&self) -> Option<&[Plain<'a>]> {
        match self {
            Plain::Array(items) => Some(items.as_slice()),
            _ => None,
        }
    }
}

// The last value under this key.
fn find<'v, 'a>(list: &'v Vec<(&'a str, Plain<'a>)>, key: &str) -> Option<&'v Plain<'a>>
    ensures { option_map (λ v. data_of v.now) result
        ≡ get_member key.now (members_of list.now.items) }
{
    let mut left = list.len();
    while left > 0 {
        left -= 1;
        let member = &list[left];
        if member.0 == key {
            return Some(&member.1);
        }
    }
    None
}

/// The whole number that a token writes, where it fits.
pub fn whole_of(text: &str) -> Option<u64>
    ensures { IfSome result (λ n. number_of text.now ≡ Some (unsigned n)) }
{
    let bytes = text.as_bytes();
    if bytes.is_empty() || bytes[0] == b'-' {
        return None;
    }
    Numeral::scan(bytes).to_u64()
}

/// The next value of a reader, nested no deeper than this.
#[cycle(read)]
pub fn read_plain<'a>(
    alloc: Global,
    reader: &mut Reader<'a>,
    depth: usize,
) -> Result<Plain<'a>, Stop>
    ensures is { IfOk result
        (λ v. converted of_json (value depth reader.old) ≡ Some (data_of v, reader.new)) }
    ensures shorter { OnOk result (length reader.new < length reader.old) }
{
    match reader.next().ok_or(Stop::Unusual)? {
        Token::String(text) => Ok(Plain::Text(text)),
        Token::Number(text) => Ok(Plain::Number(whole_of(text).ok_or(Stop::Unusual)?)),
        Token::BeginArray => {
            if depth == 0 {
                return Err(Stop::Unusual);
            }
            Ok(Plain::Array(read_items(alloc, reader, depth - 1)?))
        }
        Token::BeginObject => {
            if depth == 0 {
                return Err(Stop::Unusual);
            }
            Ok(Plain::Object(read_members(alloc, reader, depth - 1)?))
        }
        _ => Err(Stop::Unusual),
    }
}

// The items of an array whose bracket was taken, and the bracket that closes it.
#[cycle(read)]
fn read_items<'a>(
    alloc: Global,
    reader: &mut Reader<'a>,
    depth: usize,
) -> Result<Vec<Plain<'a>>, Stop>
    ensures are { IfOk result
        (λ v. converted of_items (items (value depth) (length reader.old) reader.old)
        ≡ Some (items_of (map data_of v.items), reader.new)) }
    ensures shorter { OnOk result (length reader.new < length reader.old) }
{
    let mut found = Vec::new(alloc);
    'items: while !reader.take_end_array() {
        let item = read_plain(alloc, reader, depth)?;
        found.push(item)?;
    }
    Ok(found)
}

// The members of an object whose brace was taken, and the brace that closes it.
#[cycle(read)]
fn read_members<'a>(
    alloc: Global,
    reader: &mut Reader<'a>,
    depth: usize,
) -> Result<Vec<(&'a str, Plain<'a>)>, Stop>
    ensures are { IfOk result
        (λ v. converted (λ ms. of_members ms no_members)
        (members (value depth) (length reader.old) reader.old)
        ≡ Some (members_of v.items, reader.new)) }
    ensures shorter { OnOk result (length reader.new < length reader.old) }
{
    let mut found = Vec::with_capacity(alloc, USUAL_MEMBERS)?;
    'members: while let Some(key) = reader.next_key()? {
        let member = read_plain(alloc, reader, depth)?;
        found.push((key, member))?;
    }
    Ok(found)
}
