//! The bytes of a MAP.

ghost use Rattle.std.specs.Prelude.{◌≡◌, ◌+◌, ◌*◌, ◌≤◌, ◌++◌, length, take, drop};
ghost use Rattle.std.specs.List.{flat_map, AllByRecursion};
ghost use Rattle.map_codec.specs.Element.{IsInRange, word_of, bytes_of};
ghost use Rattle.map_codec.specs.WireMap.{header, spelling, IsWellFormed};

use crate::element::Element;
use crate::wire_map::{ELEMENT_BYTES, HEADER_BYTES, MAX_BYTES, MAX_ELEMENTS, WireMap};

// The 32 bits of an element.
fn word(e: &Element) -> u32
    requires { IsInRange e.now }
    ensures { result ≡ word_of e.now }
{
    u32::from(e.sid) * (1 << 18) + u32::from(e.iuc) * (1 << 14) + u32::from(e.offset)
}

// The bytes before the first element.
#[tactic(auto, unfolding(crate::specs::WireMap::header))]
fn fixed_bytes(map: &WireMap) -> [u8; HEADER_BYTES]
    requires { length map.now.elements ≤ MAX_ELEMENTS }
    ensures { result ≡ header map.now }
{
    let [start3, start2, start1, start0] = map.alloc_start.to_be_bytes();
    let [ack3, ack2, ack1, ack0] = map.ack.to_be_bytes();
    [
        map.channel,
        map.ucd_count,
        map.elements.len() as u8,
        map.reserved,
        start3,
        start2,
        start1,
        start0,
        ack3,
        ack2,
        ack1,
        ack0,
        map.ranging_start,
        map.ranging_end,
        map.data_start,
        map.data_end,
    ]
}

// Writes bytes from a place on.
fn put(out: &mut [u8], at: usize, bytes: &[u8])
    requires { at + length bytes.now ≤ length out.old }
    ensures { out.new ≡ take at out.old ++ bytes.now ++ drop (at + length bytes.now) out.old }
{
    out[at..at + bytes.len()].copy_from_slice(bytes);
}

// Writes the bytes of elements, one after the other, over all of these.
fn put_elements(elements: &[Element], out: &mut [u8])
    requires range { AllByRecursion IsInRange elements.now }
    requires room { length out.old ≡ 4 * length elements.now }
    ensures { out.new ≡ flat_map bytes_of elements.now }
{
    for (i, e) in elements.iter().enumerate() {
        put(out, ELEMENT_BYTES * i, &word(e).to_be_bytes());
    }
}

/// Writes the payload of a MAP (CM-SP-MULPIv3.0, in the byte order of this project's profile) at the
/// front of an array, and answers how many bytes it has. The rest of the array stays. Takes no memory.
pub fn encode(map: &WireMap, out: &mut [u8; MAX_BYTES]) -> usize
    requires { IsWellFormed map.now }

    ensures len { result ≡ length (spelling map.now) }
    ensures fits { result ≤ MAX_BYTES }
    ensures bytes { out.new ≡ spelling map.now ++ drop (length (spelling map.now)) out.old }
{
    let end = HEADER_BYTES + ELEMENT_BYTES * map.elements.len();
    put(out, 0, &fixed_bytes(map));
    put_elements(map.elements.as_slice(), &mut out[HEADER_BYTES..end]);
    end
}
