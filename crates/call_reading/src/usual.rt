//! A document in the usual form, a configuration and behind it a list of calls, of entries or of scripts, whose items
//! are read one by one from its bytes: no tree of the text is made.

ghost use Rattle.std.specs.Prelude.{◌≡◌, ◌<◌, List, false, bytes_eq, codes, Some, Ok, IfOk, OnOk, length};
ghost use Rattle.json.specs.Token.{Token};
ghost use Rattle.json.specs.Json.{value, items, read_key};
ghost use Rattle.serde_json.specs.Data.{Data};
ghost use Rattle.serde_json.specs.Read.{of_json, of_items, converted};
ghost use Rattle.serde_json.specs.View.{items_of};
ghost use Rattle.text_stream.specs.Input.{value_of};
ghost use Rattle.json_fields.specs.Fields.{config_of};
ghost use Rattle.json_fields.specs.Listed.{StandEach, IsListOf, IsDocument};
ghost use Rattle.json_fields.specs.Usual.{read_tokens};

use super::quick_call::{next_key, read_object};
use byte_tokens::Quick;
use json_fields::{Stop, config_of};
use minislots::Config;
use std::alloc::Global;

// How deep the values of a document may nest.
const DEPTH: usize = 126;

/// What is read straight from the tokens of a text: a call, an entry, or a list of such. A crate that says so of a type
/// of another crate names a type of its own for the place in which it stands.
pub trait FromTokens<Place>: Sized + Drop {
    ghost stands_for: { Data → Self → Type 0 };

    /// What the next value of a reader stands for, nested no deeper than this.
    fn read(alloc: Global, reader: &mut Quick<'_>, depth: usize) -> Result<Self, Stop>
        ensures is { IfOk result (λ thing. (d : Data) × (converted of_json
            (value depth reader.old) ≡ Some (d, reader.new)) × stands_for d thing) }
        ensures shorter { OnOk result (length reader.new < length reader.old) };
}

// The things of an array whose bracket was taken, and the bracket that closes it.
fn read_things<Place, X: FromTokens<Place>>(
    alloc: Global,
    reader: &mut Quick<'_>,
    depth: usize,
) -> Result<Vec<X>, Stop>
    ensures are { IfOk result (λ things.
        (ds : List Data) × (converted of_items (items (value depth) (length reader.old) reader.old)
        ≡ Some (items_of ds, reader.new)) × StandEach X.stands_for ds things.items) }
    ensures shorter { OnOk result (length reader.new < length reader.old) }
{
    let mut things = Vec::new(alloc);
    'items: while !reader.take_end_array() {
        let thing = X::read(alloc, reader, depth)?;
        things.push(thing)?;
    }
    Ok(things)
}

impl<Place, X: FromTokens<Place>> FromTokens<Place> for Vec<X> {
    ghost stands_for = { λ d things. IsListOf X.stands_for d things.items };

    fn read(alloc: Global, reader: &mut Quick<'_>, depth: usize) -> Result<Vec<X>, Stop> {
        if depth == 0 || !reader.open_array() {
            return Err(Stop::Unusual);
        }
        read_things(alloc, reader, depth - 1)
    }
}

// Takes the key of this name.
fn take_name(reader: &mut Quick<'_>, name: &str) -> Result<(), Stop>
    ensures { OnOk result (read_key reader.old ≡ Some (Some name.now, reader.new)) }
{
    let Some(key) = next_key(reader)? else {
        return Err(Stop::Unusual);
    };
    if key != name {
        return Err(Stop::Unusual);
    }
    Ok(())
}

// The configuration under its key that comes next.
fn read_config(alloc: Global, reader: &mut Quick<'_>) -> Result<Config, Stop>
    ensures is { IfOk result (λ config. (s : List Token) × (d : Data)
        × (read_key reader.old ≡ Some (Some (codes "config"), s))
        × (converted of_json (value 126 s) ≡ Some (d, reader.new))
        × (config_of d ≡ Some config)) }
    ensures shorter { OnOk result (length reader.new < length reader.old) }
{
    take_name(reader, "config")?;
    let value = read_object(alloc, reader, DEPTH)?;
    let Some(config) = config_of(&value) else {
        return Err(Stop::Unusual);
    };
    Ok(config)
}

// The list under the key of this name.
fn read_list<Place, P: FromTokens<Place>>(
    alloc: Global,
    reader: &mut Quick<'_>,
    name: &str,
) -> Result<P, Stop>
    ensures is { IfOk result (λ list. (s : List Token) × (d : Data)
        × (read_key reader.old ≡ Some (Some name.now, s))
        × (converted of_json (value 126 s) ≡ Some (d, reader.new)) × P.stands_for d list) }
    ensures shorter { OnOk result (length reader.new < length reader.old) }
{
    take_name(reader, name)?;
    let list = P::read(alloc, reader, DEPTH)?;
    Ok(list)
}

// The document that the tokens of a text stand for.
fn read_document<Place, P: FromTokens<Place>>(
    alloc: Global,
    reader: &mut Quick<'_>,
    name: &str,
) -> Result<(Config, P), Stop>
    requires { bytes_eq name.now (codes "config") ≡ false }
    ensures { IfOk result (λ r. (d : Data) × (read_tokens reader.old ≡ Some d)
        × IsDocument P.stands_for name.now d r.0 r.1) }
{
    if !reader.open_object() {
        return Err(Stop::Unusual);
    }
    let config = read_config(alloc, reader)?;
    let list = read_list(alloc, reader, name)?;
    if next_key(reader)?.is_some() {
        return Err(Stop::Unusual);
    }
    if !reader.is_over() {
        return Err(Stop::Unusual);
    }
    Ok((config, list))
}

/// The configuration and the list of a text in the usual form: an object with its configuration first, then the list
/// under this name, with no escape and no other member. Any other text is not read, nor is one where memory runs out.
pub fn read_usual<Place, P: FromTokens<Place>>(
    alloc: Global,
    bytes: &[u8],
    name: &str,
) -> Result<(Config, P), Stop>
    requires { bytes_eq name.now (codes "config") ≡ false }
    ensures { IfOk result (λ r. (d : Data) × (value_of bytes.now ≡ Ok d)
        × IsDocument P.stands_for name.now d r.0 r.1) }
{
    let Ok(text) = std::str::from_utf8(bytes) else {
        return Err(Stop::Unusual);
    };
    let mut reader = Quick::new(text);
    read_document(alloc, &mut reader, name)
}

// The thing that the tokens of a text stand for.
fn read_alone<Place, X: FromTokens<Place>>(alloc: Global, reader: &mut Quick<'_>) -> Result<X, Stop>
    ensures { IfOk result
        (λ thing. (d : Data) × (read_tokens reader.old ≡ Some d) × X.stands_for d thing) }
{
    let thing = X::read(alloc, reader, DEPTH + 1)?;
    if !reader.is_over() {
        return Err(Stop::Unusual);
    }
    Ok(thing)
}

/// The call or the entry that a text stands for, as it is read in a document: nothing else stands in the text. Any
/// other text, and one with a fault, is not read.
pub fn read_single<Place, X: FromTokens<Place>>(alloc: Global, bytes: &[u8]) -> Result<X, Stop>
    ensures { IfOk result
        (λ thing. (d : Data) × (value_of bytes.now ≡ Ok d) × X.stands_for d thing) }
{
    let Ok(text) = std::str::from_utf8(bytes) else {
        return Err(Stop::Unusual);
    };
    let mut reader = Quick::new(text);
    read_alone(alloc, &mut reader)
}
