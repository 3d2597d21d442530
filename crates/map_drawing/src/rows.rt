//! A frame in rows of characters, one for each minislot.

ghost use Rattle.std.specs.Prelude.{◌≡◌, ◌+◌, ◌-◌, ◌*◌, ◌^◌, ◌<◌, ◌≤◌, ◌++◌, OnOk};
ghost use Rattle.map_drawing.specs.Rows.{letter_of, begun, character_at, characters, row_slots, row_text, rows_text};
ghost use Rattle.map_drawing.specs.Rows.{ShowsEachOnce};

use crate::text::push_column;
use map_codec::Element;
use std::alloc::AllocError;

// The letter of the allocation with this number.
#[tactic(auto, unfolding(crate::specs::Rows::letter_of))]
pub(crate) fn letter_of(i: usize) -> u8
    ensures { result ≡ letter_of i }
{
    let place = (i % 52) as u8;
    if place < 26 {
        b'A' + place
    } else {
        b'a' + (place - 26)
    }
}

// How many of these elements begin at or before a minislot.
fn begun(front: &[Element], slot: usize) -> usize
    ensures { result ≡ begun front.now slot }
{
    front
        .iter()
        .filter(|element| usize::from(element.offset) <= slot)
        .count()
}

// The character that stands for a minislot in a drawing of the elements before a Null: the letter of the last
// allocation that begins at or before it, or `-` where none does.
#[tactic(auto, unfolding(crate::specs::Rows::character_after))]
fn character_at(front: &[Element], slot: usize) -> u8
    ensures { result ≡ character_at front.now slot }
{
    match begun(front, slot) {
        0 => b'-',
        count => letter_of(count - 1),
    }
}

// How many minislots a row of so many characters has: as many tens as fit behind the number of its first minislot,
// and ten at least.
pub(crate) fn slots_per_row(columns: u16) -> usize
    ensures { result ≡ row_slots columns }
{
    usize::from(columns.saturating_sub(6) / 10 * 10).max(10)
}

// Puts the characters of so many minislots behind a text.
fn push_characters(
    text: &mut Vec<u8>,
    front: &[Element],
    from: usize,
    count: usize,
) -> Result<(), AllocError>
    requires { from + count < 2 ^ 16 }
    ensures { OnOk result (text.new.items ≡ text.old.items ++ characters front.now from count) }
{
    for i in 0..count {
        text.push(character_at(front, from + i))?;
    }
    Ok(())
}

// Puts a row behind a text.
#[tactic(auto, unfolding(crate::specs::Rows::row_text))]
fn push_row(
    text: &mut Vec<u8>,
    front: &[Element],
    slots: u16,
    width: usize,
    row: usize,
) -> Result<(), AllocError>
    requires { row * width < slots }
    ensures { OnOk result (text.new.items ≡ text.old.items ++ row_text front.now slots width row) }
{
    let from = row * width;
    push_column(text, 5, from as u64)?;
    push_characters(text, front, from, width.min(usize::from(slots) - from))?;
    text.extend_from_slice(b"\n")
}

// Puts the rows of a frame of so many minislots behind a text.
#[tactic(auto, unfolding(crate::specs::Rows::rows_text))]
pub(crate) fn push_rows(
    text: &mut Vec<u8>,
    front: &[Element],
    slots: u16,
    width: usize,
) -> Result<(), AllocError>
    requires some { 0 < width }
    requires most { width < 2 ^ 16 }
    ensures { OnOk result (text.new.items ≡ text.old.items ++ rows_text front.now slots width) }
{
    for row in 0..(usize::from(slots) + (width - 1)) / width {
        push_row(text, front, slots, width, row)?;
    }
    Ok(())
}

/// Each allocation stands in a drawing once, at its place: a minislot of the frame has the character of the
/// allocation that has the minislot.
pub fn every_drawing()
    ensures { ShowsEachOnce }
{}
