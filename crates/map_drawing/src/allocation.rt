//! The allocations of a MAP.

ghost use Rattle.std.specs.Prelude.{◌≡◌, ◌+◌, ◌<◌, ◌≤◌, length, position};
ghost use Rattle.map_codec.specs.Element.{is_null, nulls};
ghost use Rattle.map_drawing.specs.Allocation.{front_length, front_of, behind_of, frame_slots, allocation_at};

use map_codec::{Element, iuc};

/// An allocation of a MAP: the minislots from an element's offset up to that of the next one.
#[derive(Clone, Copy, Debug, PartialEq, Eq)]
pub struct Allocation {
    /// The service identifier that may send.
    pub sid: u16,
    /// The interval usage code.
    pub iuc: u8,
    /// The first minislot, counted from the MAP's alloc start.
    pub offset: u16,
    /// How many minislots it has.
    pub length: u16,
}

// The place of the first Null.
fn null_place(elements: &[Element]) -> Option<usize>
    ensures { result ≡ position is_null elements.now }
{
    elements.iter().position(|element| element.iuc == iuc::NULL)
}

/// How many elements stand before the Null, or in all where there is none.
pub fn front_len(elements: &[Element]) -> usize
    ensures count { result ≡ front_length elements.now }
    ensures within { result ≤ length elements.now }
    ensures ends { nulls elements.now ≡ 1 → result < length elements.now }
{
    null_place(elements).unwrap_or(elements.len())
}

// The elements before the Null.
pub(crate) fn front_of(elements: &[Element]) -> &[Element]
    ensures { result.now ≡ front_of elements.now }
{
    &elements[..front_len(elements)]
}

// The elements behind the Null.
pub(crate) fn behind_of(elements: &[Element]) -> &[Element]
    requires { nulls elements.now ≡ 1 }
    ensures { result.now ≡ behind_of elements.now }
{
    &elements[front_len(elements) + 1..]
}

// How many minislots the frame has: the offset of the Null.
pub(crate) fn frame_slots(elements: &[Element]) -> u16
    requires { nulls elements.now ≡ 1 }
    ensures { result ≡ frame_slots elements.now }
{
    elements[front_len(elements)].offset
}

/// The allocation of the element at a place before another one. Where the offsets descend it has no minislots.
pub fn allocation_at(elements: &[Element], i: usize) -> Allocation
    requires { i + 1 < length elements.now }
    ensures { result ≡ allocation_at elements.now i }
{
    let element = elements[i];
    Allocation {
        sid: element.sid,
        iuc: element.iuc,
        offset: element.offset,
        length: elements[i + 1].offset.saturating_sub(element.offset),
    }
}
