//! The export that writes the payload of a MAP.

ghost use Rattle.std.specs.Prelude.{◌≡◌, ◌≤◌, map, IfOk};
ghost use Rattle.map_codec.specs.declared.wire_map.TheConstants.{MAX_ELEMENTS};
ghost use Rattle.map_codec.specs.WireMap.{spelling, IsWellFormed};
ghost use Rattle.mapsched_c.specs.Encode.{wire_element, wire_map, map_status, map_element, Encodes};
ghost use Rattle.mapsched_c.specs.Text.{GivesText};

use crate::maps::{PlainElement, PlainMap};
use crate::status;
use crate::texts::put_text;
use map_codec::{Element, Elements, MAX_BYTES, MAX_ELEMENTS, MapFault, WireMap, encode};
use std::alloc::{AllocError, Global};

impl PlainElement {
    // The element of these numbers.
    fn element(&self) -> Element
        ensures { result ≡ wire_element self.now }
    {
        Element {
            sid: self.sid,
            iuc: self.iuc,
            offset: self.offset,
        }
    }
}

// The elements of these numbers.
fn wire_elements(alloc: Global, elements: &[PlainElement]) -> Result<Vec<Element>, AllocError>
    ensures { IfOk result (λ v. v.items ≡ map wire_element elements.now) }
{
    let mut items = Vec::with_capacity(alloc, elements.len())?;
    for i in 0..elements.len() {
        items.push_reserved(elements[i].element());
    }
    Ok(items)
}

impl PlainMap {
    // The MAP of these numbers.
    fn wire(&self, alloc: Global) -> Result<WireMap, AllocError>
        requires { self.now.count ≤ MAX_ELEMENTS }
        ensures { IfOk result (λ m. m ≡ wire_map self.now) }
    {
        let items = wire_elements(alloc, &self.elements[..self.count as usize])?;
        Ok(WireMap {
            channel: self.channel,
            ucd_count: self.ucd_count,
            reserved: self.reserved,
            alloc_start: self.alloc_start,
            ack: self.ack,
            ranging_start: self.ranging_start,
            ranging_end: self.ranging_end,
            data_start: self.data_start,
            data_end: self.data_end,
            elements: Elements::from_vec(items),
        })
    }
}

// Tells the element that a fault names, where it names one, and answers its status.
fn tell_fault(fault: MapFault, element: &mut usize) -> u32
    ensures status { result ≡ map_status fault }
    ensures element { element.new ≡ map_element element.old fault }
{
    match fault {
        MapFault::TooMany => status::BAD_MAP + 1,
        MapFault::OutOfRange(at) => {
            *element = at;
            status::BAD_MAP + 2
        }
        MapFault::Descending(at) => {
            *element = at;
            status::BAD_MAP + 3
        }
        MapFault::NoNull => status::BAD_MAP + 4,
        MapFault::SecondNull(at) => {
            *element = at;
            status::BAD_MAP + 5
        }
    }
}

// Writes the bytes of a MAP at the front of the room, if they fit, and tells how many they are.
fn put_spelling(wire: &WireMap, room: &mut [u8], length: &mut usize) -> u32
    requires { IsWellFormed wire.now }
    ensures { GivesText (spelling wire.now) result room.old room.new length.new }
{
    let mut payload = [0; MAX_BYTES];
    let count = encode(wire, &mut payload);
    put_text(&payload[..count], room, length)
}

/// Writes the payload of a MAP at the front of the room, and tells its length; where there is no room for it, tells
/// that alone. A fault's status is `BAD_MAP` and its number, and the element that it names, from 0, is told.
#[unsafe(no_mangle)]
pub extern "C" fn mapsched_encode(
    alloc: Global,
    map: &PlainMap,
    room: &mut [u8],
    length: &mut usize,
    element: &mut usize,
) -> u32
    ensures { Encodes map.now result
        room.old room.new length.old length.new element.old element.new }
{
    if map.count > u32::from(MAX_ELEMENTS) {
        return tell_fault(MapFault::TooMany, element);
    }
    let Ok(wire) = map.wire(alloc) else {
        return status::OUT_OF_MEMORY;
    };
    match wire.check() {
        Ok(()) => put_spelling(&wire, room, length),
        Err(fault) => tell_fault(fault, element),
    }
}
