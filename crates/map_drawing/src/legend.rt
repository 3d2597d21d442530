//! The legend of a drawing, and the whole of it.

ghost use Rattle.std.specs.Prelude.{◌≡◌, ◌+◌, ◌<◌, ◌++◌, length, flat_map, OnOk, IfOk};
ghost use Rattle.map_codec.specs.WireMap.{IsWellFormed};
ghost use Rattle.map_codec.specs.Element.{nulls};
ghost use Rattle.map_drawing.specs.Legend.{usage_end, state_of, allocation_line, allocation_lines};
ghost use Rattle.map_drawing.specs.Legend.{behind_line, drawing_text};

use crate::allocation::{Allocation, allocation_at, behind_of, frame_slots, front_len, front_of};
use crate::rows::{letter_of, push_rows, slots_per_row};
use crate::text::{push_column, push_spaces};
use crate::usage::ElementUsage;
use map_codec::{Element, WireMap};
use std::alloc::{AllocError, Global};

// Puts the words of a usage behind a text, at the end of a line.
#[tactic(auto, unfolding(crate::specs::Legend::usage_end))]
fn push_usage(text: &mut Vec<u8>, sid: u16, code: u8) -> Result<(), AllocError>
    ensures { OnOk result (text.new.items ≡ text.old.items ++ usage_end sid code) }
{
    text.extend_from_slice(ElementUsage::of(sid, code).words())?;
    text.extend_from_slice(b"\n")
}

// Puts the line of an allocation with a number behind a text.
#[tactic(auto, unfolding(crate::specs::Legend::allocation_line))]
fn push_allocation(text: &mut Vec<u8>, i: usize, allocation: Allocation) -> Result<(), AllocError>
    ensures { OnOk result (text.new.items ≡ text.old.items ++ allocation_line i allocation) }
{
    text.push(letter_of(i))?;
    text.extend_from_slice(b" ")?;
    push_column(text, 5, u64::from(allocation.sid))?;
    push_column(text, 6, u64::from(allocation.offset))?;
    push_column(text, 5, u64::from(allocation.length))?;
    push_usage(text, allocation.sid, allocation.iuc)
}

// Puts the lines of the allocations behind a text.
fn push_allocations(text: &mut Vec<u8>, elements: &[Element]) -> Result<(), AllocError>
    requires { nulls elements.now ≡ 1 }
    ensures { OnOk result (text.new.items ≡ text.old.items ++ allocation_lines elements.now) }
{
    for i in 0..front_len(elements) {
        push_allocation(text, i, allocation_at(elements, i))?;
    }
    Ok(())
}

// What an element behind the Null is: a data grant to a modem is a pending one.
#[tactic(auto, unfolding(crate::specs::Legend::state_of))]
fn state_of(usage: ElementUsage) -> &'static [u8]
    ensures { result.now ≡ state_of usage }
{
    match usage {
        ElementUsage::ShortGrant
        | ElementUsage::LongGrant
        | ElementUsage::AdvancedShortGrant
        | ElementUsage::AdvancedLongGrant => b"pending: ",
        _ => b"behind the frame: ",
    }
}

// Puts the line of an element behind the Null behind a text.
#[tactic(auto, unfolding(crate::specs::Legend::behind_line))]
fn push_behind(text: &mut Vec<u8>, element: &Element) -> Result<(), AllocError>
    ensures { OnOk result (text.new.items ≡ text.old.items ++ behind_line element.now) }
{
    text.extend_from_slice(b"  ")?;
    push_column(text, 5, u64::from(element.sid))?;
    push_spaces(text, 13)?;
    text.extend_from_slice(state_of(ElementUsage::of(element.sid, element.iuc)))?;
    push_usage(text, element.sid, element.iuc)
}

// Puts the lines of elements behind the Null behind a text.
fn push_all_behind(text: &mut Vec<u8>, elements: &[Element]) -> Result<(), AllocError>
    ensures { OnOk result (text.new.items ≡ text.old.items ++ flat_map behind_line elements.now) }
{
    for element in elements {
        push_behind(text, element)?;
    }
    Ok(())
}

/// Draws the frame of a MAP in so many columns: rows of characters, one for each minislot, behind the number of the
/// row's first one; then a line for each allocation with its letter, SID, offset, minislots and usage in words; then
/// one for each element behind the Null, which tells whether it is a pending grant.
#[tactic(auto, unfolding(crate::specs::Legend::drawing_text))]
pub fn draw_frame(alloc: Global, map: &WireMap, columns: u16) -> Result<Vec<u8>, AllocError>
    requires { IsWellFormed map.now }
    ensures { IfOk result (λ text. text.items ≡ drawing_text map.now.elements columns) }
{
    let elements = map.elements.as_slice();
    let mut text = Vec::new(alloc);
    push_rows(
        &mut text,
        front_of(elements),
        frame_slots(elements),
        slots_per_row(columns),
    )?;
    text.extend_from_slice(b"    SID offset slots usage\n")?;
    push_allocations(&mut text, elements)?;
    push_all_behind(&mut text, behind_of(elements))?;
    Ok(text)
}
