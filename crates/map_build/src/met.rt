//! What a MAP meets of the opportunities that wait for it, read from where its elements begin.

ghost use Rattle.std.specs.Prelude.{◌≡◌, IfOk};
ghost use Rattle.periodic.specs.Placement.{due_in};
ghost use Rattle.map_build.specs.Plan.{room_at};
ghost use Rattle.map_build.specs.Reading.{meets_place, meets_at, first_to_meet, met_in};

use crate::frame::NO_SPOT;
use map_codec::Element;
use minislots::Checked;
use periodic::{MAX_SPOTS, Spot, Table};
use sched_calls::Opportunity;
use std::alloc::{AllocError, Global};

/// An opportunity that a MAP meets.
#[derive(Clone, Copy, Debug, PartialEq, Eq)]
pub struct Met {
    /// Where it begins: so many minislots from the frame's start.
    pub offset: u16,
    /// Its place among those that wait for the MAP.
    pub place: usize,
}

// Whether the opportunity at this place is met.
fn meets_place(met: &[Met], place: usize) -> bool
    ensures { result ≡ meets_place met.now place }
{
    for x in met {
        if place == x.place {
            return true;
        }
    }
    false
}

/// Whether an opportunity that is met begins at this offset.
pub fn meets_at(met: &[Met], offset: u16) -> bool
    ensures { result ≡ meets_at met.now offset }
{
    for x in met {
        if offset == x.offset {
            return true;
        }
    }
    false
}

// The place of the first opportunity that is not met and is at most as long as the room.
fn first_to_meet(waiting: &[Opportunity], met: &[Met], room: u16) -> Option<usize>
    ensures { result ≡ first_to_meet met.now room 0 waiting.now }
{
    for place in 0..waiting.len() {
        if waiting[place].slots <= room && !meets_place(met, place) {
            return Some(place);
        }
    }
    None
}

// The minislots from an offset to the next poll, unsolicited grant or the end of the frame.
fn room_at(config: &Checked, spots: &[Spot], offset: u16) -> u16
    ensures { result ≡ room_at config.now spots.now offset }
{
    let mut stop = config.frame() as u16;
    for spot in spots {
        if offset <= spot.offset {
            stop = stop.min(spot.offset);
        }
    }
    stop.saturating_sub(offset)
}

// What elements meet of the opportunities that wait, round these spots: the one at their head is none.
fn met_around(
    alloc: Global,
    config: &Checked,
    spots: &[Spot],
    waiting: &[Opportunity],
    elements: &[Element],
) -> Result<Vec<Met>, AllocError>
    ensures { IfOk result (λ met. met.items ≡ met_in config.now spots.now waiting.now elements.now) }
{
    let mut met = Vec::new(alloc);
    for i in 1..elements.len() {
        let offset = elements[i].offset;
        let room = room_at(config, spots, offset);
        if let Some(place) = first_to_meet(waiting, &met, room) {
            met.push(Met { offset, place })?;
        }
    }
    Ok(met)
}

/// What the MAP of frame number `frame` with these elements meets of the opportunities that wait for it, where the
/// table places its polls and unsolicited grants. What begins at an offset is the poll or unsolicited grant whose place
/// that is, else the first opportunity that waits and has room, and never what its element says.
pub fn met_in(
    alloc: Global,
    table: &Table,
    frame: u64,
    waiting: &[Opportunity],
    elements: &[Element],
) -> Result<Vec<Met>, AllocError>
    ensures { IfOk result (λ met. met.items ≡ met_in table.now.config
        (due_in table.now.config frame table.now.placed) waiting.now elements.now) }
{
    let mut spots = [NO_SPOT; MAX_SPOTS];
    let count = table.in_frame(frame, &mut spots);
    met_around(alloc, table.config(), &spots[..count], waiting, elements)
}
