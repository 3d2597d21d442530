//! What a hand-over of a thousand entries takes with nobody else at the lock: so long it holds the scheduler, at most.
ghost use Rattle.std.specs.Prelude.{◌≡◌};

use crate::handing::is_whole;
use crate::run::{Took, nanos_of, print_line};
use crate::storms::{WIDE, call_of};
use sched_history::{Entry, HandedOver};
use shared_sched::{Desk, Shared, open_without_end};
use std::alloc::Global;
use std::sync::Wait;
use std::time::{Clock, Instant};
use ticket_lock::Seat;

// How many calls are made before each hand-over, and how many hand-overs there are.
const PART: usize = 1000;

const PARTS: usize = 1000;

// Makes the calls before a hand-over: the same each time, so an admission of a live flow and a late build from the
// second on.
fn make_part<R: Wait>(rt: &R, shared: &Shared, seat: Seat<Desk>) -> Seat<Desk>
    requires { seat.lock ≡ shared.now.lock }
    ensures { result.lock ≡ shared.now.lock }
{
    let mut seat = seat;
    for number in 0..PART {
        let (back, _answer) = shared.call(rt, seat, call_of(0, number));
        seat = back;
    }
    seat
}

// Hands over what is kept, and gives that list, and the nanoseconds that it took, or none where the clock cannot be
// read or the list is not of the part's entries.
fn time_one<R: Wait + Clock>(
    rt: &R,
    shared: &Shared,
    seat: Seat<Desk>,
    room: Vec<Entry>,
) -> (Seat<Desk>, Vec<Entry>, Option<u64>)
    requires { seat.lock ≡ shared.now.lock }
    ensures { result.0.lock ≡ shared.now.lock }
{
    let start = Instant::now(rt);
    let (seat, answer) = shared.hand_over(rt, seat, room);
    let end = Instant::now(rt);
    let entries = match answer {
        Ok(HandedOver { first: _, entries }) => entries,
        Err(room) => room,
    };
    let took = match (start, end) {
        (Ok(start), Ok(end)) if entries.len() == PART => Some(nanos_of(end.duration_since(start))),
        _ => None,
    };
    (seat, entries, took)
}

// Makes all calls, and the hand-overs between. The nanoseconds of the hand-overs together, or none where one of them
// could not be timed.
fn time_each<R: Wait + Clock>(
    rt: &R,
    shared: &Shared,
    seat: Seat<Desk>,
    room: Vec<Entry>,
) -> (Seat<Desk>, Option<u64>)
    requires { seat.lock ≡ shared.now.lock }
    ensures { result.0.lock ≡ shared.now.lock }
{
    let (mut seat, mut room, mut all) = (seat, room, Some(0u64));
    for _ in 0..PARTS {
        let made = make_part(rt, shared, seat);
        let (back, entries, took) = time_one(rt, shared, made, room);
        all = match (all, took) {
            (Some(all), Some(took)) => Some(all.saturating_add(took)),
            _ => None,
        };
        seat = back;
        room = entries;
        room.clear();
    }
    (seat, all)
}

// Prints what all hand-overs took together, in nanoseconds by the clock.
fn print_parts<R: Print>(rt: &R, wall: u64) -> Option<()> {
    let took = Took { wall, used: 0 };
    print_line(rt, 1, "hand-over", took, PARTS)
}

/// Prints what a hand-over of a thousand entries takes, from the draw of its ticket to the end of its turn.
pub fn print<R: Wait + Clock + Print>(rt: &R, alloc: Global) -> Option<()> {
    let room = Vec::with_capacity(alloc, WIDE.calls as usize).ok()?;
    let opened = open_without_end(rt, alloc, WIDE.check().ok()?, 1, 0);
    let (shared, mut seats, _readers) = opened.ok()?;
    let Some(seat) = seats.pop() else {
        unreachable!()
    };
    let (seat, wall) = time_each(rt, &shared, seat, room);
    seats.push_reserved(seat);
    if !is_whole(rt, shared, seats, PART * PARTS, true) {
        return None;
    }
    print_parts(rt, wall?)
}
