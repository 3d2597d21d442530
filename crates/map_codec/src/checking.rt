//! Whether a MAP is well formed.

ghost use Rattle.std.specs.Prelude.{◌≡◌, ◌<◌, ◌^◌, ◌↔◌, IsOk};
ghost use Rattle.map_codec.specs.WireMap.{FitsHeader, IsWellFormed};
ghost use Rattle.map_codec.specs.MapFault.{is_in_range, range_fault, descent_fault, null_fault, map_fault, judged};

use crate::element::{Element, iuc};
use crate::map_fault::MapFault;
use crate::wire_map::{MAX_ELEMENTS, WireMap};

// Whether the fields of an element fit their bits, and it is no expansion.
fn is_element(e: Element) -> bool
    ensures { result ≡ is_in_range e }
{
    e.sid < 1 << 14 && e.iuc < iuc::EXPANSION && e.offset < 1 << 14
}

// Whether each element is in range.
fn check_range(elements: &[Element]) -> Result<(), MapFault>
    ensures { result ≡ judged (range_fault elements.now) }
{
    for (i, e) in elements.iter().enumerate() {
        if !is_element(*e) {
            return Err(MapFault::OutOfRange(i));
        }
    }
    Ok(())
}

// Whether no offset descends up to and including the first Null.
fn check_offsets(elements: &[Element]) -> Result<(), MapFault>
    ensures { result ≡ judged (descent_fault elements.now) }
{
    let mut latest = 0;
    for (i, e) in elements.iter().enumerate() {
        if e.offset < latest {
            return Err(MapFault::Descending(i));
        }
        if e.iuc == iuc::NULL {
            return Ok(());
        }
        latest = e.offset;
    }
    Ok(())
}

// Whether exactly one element is a Null.
fn check_one_null(elements: &[Element]) -> Result<(), MapFault>
    ensures { result ≡ judged (null_fault elements.now) }
{
    let mut is_met = false;
    for (i, e) in elements.iter().enumerate() {
        if e.iuc == iuc::NULL {
            if is_met {
                return Err(MapFault::SecondNull(i));
            }
            is_met = true;
        }
    }
    if is_met {
        Ok(())
    } else {
        Err(MapFault::NoNull)
    }
}

// The tests in their order.
#[tactic(auto, unfolding(crate::specs::MapFault::map_fault))]
fn first_fault(map: &WireMap) -> Result<(), MapFault>
    ensures { result ≡ judged (map_fault map.now) }
{
    if map.elements.len() > MAX_ELEMENTS as usize {
        return Err(MapFault::TooMany);
    }
    check_range(map.elements.as_slice())?;
    check_offsets(map.elements.as_slice())?;
    check_one_null(map.elements.as_slice())
}

// The bytes of the backoff windows are bytes, as a proof knows where they are read.
fn are_bytes(map: &WireMap)
    ensures ranging_start { map.now.ranging_start < 2 ^ 8 }
    ensures ranging_end { map.now.ranging_end < 2 ^ 8 }
    ensures data_start { map.now.data_start < 2 ^ 8 }
    ensures data_end { map.now.data_end < 2 ^ 8 }
{
    let _ranging_start = map.ranging_start;
    let _ranging_end = map.ranging_end;
    let _data_start = map.data_start;
    let _data_end = map.data_end;
}

// And so are all numbers before the elements of their types.
fn are_numbers(map: &WireMap)
    ensures { FitsHeader map.now }
{
    let _channel = map.channel;
    let _ucd_count = map.ucd_count;
    let _reserved = map.reserved;
    let _alloc_start = map.alloc_start;
    let _ack = map.ack;
    are_bytes(map);
}

impl WireMap {
    /// Whether the MAP is well formed, as [`encode`](crate::encode) asks, or the first fault in the order of
    /// [`MapFault`]. Takes no memory.
    pub fn check(&self) -> Result<(), MapFault>
        ensures exact { result ≡ judged (map_fault self.now) }
        ensures well_formed { IsOk result ↔ IsWellFormed self.now }
    {
        are_numbers(self);
        first_fault(self)
    }
}
