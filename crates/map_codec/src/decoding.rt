//! The reading of a payload.

ghost use Rattle.std.specs.Prelude.{◌≡◌, ◌+◌, ◌*◌, ◌<◌, ◌≤◌, length, drop, IfOk, IfErr, OnOk};
ghost use Rattle.map_codec.specs.declared.wire_map.WireMap.{WireMap};
ghost use Rattle.map_codec.specs.Element.{element_at, elements_in};
ghost use Rattle.map_codec.specs.WireMap.{map_in, spelling, IsWellFormed, HasOneValue, IsReadBack};
ghost use Rattle.map_codec.specs.DecodeFault.{first_of, length_faults, expansion_fault, descending_fault};
ghost use Rattle.map_codec.specs.DecodeFault.{null_faults, fault_of, checked, Reads, IsFaultOf, IsExact};

use crate::element::{Element, Elements, iuc};
use crate::fault::DecodeFault;
use crate::wire_map::{ELEMENT_BYTES, HEADER_BYTES, MAX_ELEMENTS, WireMap};
use std::alloc::{AllocError, Global};

// Whether the bytes are as many as they say.
fn check_length(bytes: &[u8]) -> Result<(), DecodeFault>
    ensures exact { result ≡ checked (first_of (length_faults bytes.now)) }
    ensures long { OnOk result (HEADER_BYTES ≤ length bytes.now) }
{
    if bytes.len() < HEADER_BYTES {
        return Err(DecodeFault::Short);
    }
    let count = bytes[2];
    if count > MAX_ELEMENTS {
        return Err(DecodeFault::TooMany);
    }
    if bytes.len() != HEADER_BYTES + ELEMENT_BYTES * count as usize {
        return Err(DecodeFault::WrongLength);
    }
    Ok(())
}

// The i-th of the elements that bytes hold.
fn read_element(words: &[u8], i: usize) -> Element
    requires { 4 * i + 4 ≤ length words.now }
    ensures { result ≡ element_at (elements_in words.now) i }
{
    let at = ELEMENT_BYTES * i;
    let word = u32::from_be_bytes([words[at], words[at + 1], words[at + 2], words[at + 3]]);
    Element {
        sid: (word / (1 << 18)) as u16,
        iuc: (word / (1 << 14) % (1 << 4)) as u8,
        offset: (word % (1 << 14)) as u16,
    }
}

// Whether no element is an expansion.
fn check_expansions(words: &[u8]) -> Result<(), DecodeFault>
    ensures { result ≡ checked (expansion_fault (elements_in words.now)) }
{
    for i in 0..words.len() / ELEMENT_BYTES {
        if read_element(words, i).iuc == iuc::EXPANSION {
            return Err(DecodeFault::Expansion(i));
        }
    }
    Ok(())
}

// Whether no offset descends up to and including the first Null.
fn check_order(words: &[u8]) -> Result<(), DecodeFault>
    ensures { result ≡ checked (descending_fault (elements_in words.now)) }
{
    let mut latest = 0;
    for i in 0..words.len() / ELEMENT_BYTES {
        let e = read_element(words, i);
        if e.offset < latest {
            return Err(DecodeFault::Descending(i));
        }
        if e.iuc == iuc::NULL {
            return Ok(());
        }
        latest = e.offset;
    }
    Ok(())
}

// Whether exactly one element is a Null.
fn check_nulls(words: &[u8]) -> Result<(), DecodeFault>
    ensures { result ≡ checked (first_of (null_faults (elements_in words.now))) }
{
    let mut is_met = false;
    for i in 0..words.len() / ELEMENT_BYTES {
        if read_element(words, i).iuc == iuc::NULL {
            if is_met {
                return Err(DecodeFault::SecondNull(i));
            }
            is_met = true;
        }
    }
    if is_met {
        Ok(())
    } else {
        Err(DecodeFault::NoNull)
    }
}

// Whether the bytes are a payload. Takes no memory.
#[tactic(auto, unfolding(crate::specs::DecodeFault::fault_of, crate::specs::DecodeFault::elements_fault))]
fn check(bytes: &[u8]) -> Result<(), DecodeFault>
    ensures exact { result ≡ checked (fault_of bytes.now) }
    ensures long { OnOk result (HEADER_BYTES ≤ length bytes.now) }
{
    check_length(bytes)?;
    let words = &bytes[HEADER_BYTES..];
    check_expansions(words)?;
    check_order(words)?;
    check_nulls(words)
}

// All elements that bytes hold.
fn read_elements(alloc: Global, words: &[u8]) -> Result<Vec<Element>, AllocError>
    ensures { IfOk result (λ v. v.items ≡ elements_in words.now) }
{
    let count = words.len() / ELEMENT_BYTES;
    let mut items = Vec::with_capacity(alloc, count)?;
    for i in 0..count {
        items.push_reserved(read_element(words, i));
    }
    Ok(items)
}

// The fields that the bytes hold, with the elements already read.
#[tactic(auto, unfolding(crate::specs::WireMap::map_in))]
fn read_fields(bytes: &[u8], items: Vec<Element>) -> WireMap
    requires long { HEADER_BYTES ≤ length bytes.now }
    requires read { items.items ≡ elements_in (drop HEADER_BYTES bytes.now) }

    ensures { result ≡ map_in bytes.now }
{
    WireMap {
        channel: bytes[0],
        ucd_count: bytes[1],
        reserved: bytes[3],
        alloc_start: u32::from_be_bytes([bytes[4], bytes[5], bytes[6], bytes[7]]),
        ack: u32::from_be_bytes([bytes[8], bytes[9], bytes[10], bytes[11]]),
        ranging_start: bytes[12],
        ranging_end: bytes[13],
        data_start: bytes[14],
        data_end: bytes[15],
        elements: Elements::from_vec(items),
    }
}

/// The MAP that a payload of the MAP message (CM-SP-MULPIv3.0) spells, by the grammar of this
/// project's profile: 16 bytes; at most 240 elements, as many as the third byte says, and nothing after
/// them; no expansion; exactly one Null; offsets that do not descend up to and including the Null.
/// Offsets after it are free, and codes that have no element are kept as they come.
///
/// The fault is the first in the order of [`DecodeFault`]. Memory is taken only for bytes with none.
pub fn decode(alloc: Global, bytes: &[u8]) -> Result<WireMap, DecodeFault>
    // What is read is well formed, and the bytes are its spelling.
    ensures found { IfOk result (λ m. IsWellFormed m × (bytes.now ≡ spelling m)) }

    // What is spelled so is read, unless memory runs out.
    ensures only { (m : WireMap) → IsWellFormed m → bytes.now ≡ spelling m → Reads m result }

    // Which fault it is.
    ensures exact { IfErr result (IsFaultOf bytes.now) }
{
    check(bytes)?;
    let items = read_elements(alloc, &bytes[HEADER_BYTES..])?;
    Ok(read_fields(bytes, items))
}

/// The laws of the wire form. A spelling is that of one MAP; what is read in a spelling is what was
/// spelled, so that decoding what was encoded gives the value back; and bytes have no fault exactly
/// where they are a payload.
pub fn every_spelling()
    ensures one_value { HasOneValue }
    ensures read_back { IsReadBack }
    ensures exact { IsExact }
{}
