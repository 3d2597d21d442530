//! Calls by two workers at a scheduler under its lock, while a third hands over what is kept, and while nobody does.
ghost use Rattle.std.specs.Prelude.{◌≡◌, length};
ghost use Rattle.ticket_lock.specs.Rule.{Every};
ghost use Rattle.ticket_lock.specs.Standing.{seats_of};

use crate::alone;
use crate::run::{Took, figure, now, print_line};
use crate::storms::{CALLS, WIDE, call_of};
use sched_history::{Entry, HandedOver};
use shared_sched::{Closed, Desk, Shared, open_without_end};
use std::alloc::Global;
use std::sync::Wait;
use std::sync::atomic::AtomicU64;
use std::sync::atomic::Ordering::SeqCst;
use std::thread;
use std::thread::Threads;
use std::time::{Clock, CpuClock, Duration};
use ticket_lock::Seat;

// How many calls two workers make.
const ALL: usize = 2 * CALLS;

// How many calls are made from one handing over to the next.
const PART: usize = 1000;

// After how many calls a worker tells that it made them.
const TOLD: usize = 100;

// Makes all calls of a worker, and tells of them.
fn make_calls<R: Wait>(
    rt: &R,
    shared: &Shared,
    told: &AtomicU64,
    seat: Seat<Desk>,
    worker: usize,
) -> Seat<Desk>
    requires { seat.lock ≡ shared.now.lock }
    ensures { result.lock ≡ shared.now.lock }
{
    let mut seat = seat;
    for number in 0..CALLS {
        let (back, _answer) = shared.call(rt, seat, call_of(worker, number));
        seat = back;
        if number % TOLD == TOLD - 1 {
            told.fetch_add(TOLD as u64, SeqCst);
        }
    }
    seat
}

// Waits until so many calls were told.
fn wait_for<R: Clock>(rt: &R, told: &AtomicU64, calls: usize) {
    for _ in 0..u64::MAX {
        if told.load(SeqCst) >= calls as u64 {
            return;
        }
        thread::sleep(rt, Duration::from_micros(20));
    }
}

// Hands over what is kept after each part of all calls, in exchange for the list that was handed over before.
fn hand_over_all<R: Wait + Clock>(
    rt: &R,
    shared: &Shared,
    told: &AtomicU64,
    seat: Seat<Desk>,
    room: Vec<Entry>,
) -> Seat<Desk>
    requires { seat.lock ≡ shared.now.lock }
    ensures { result.lock ≡ shared.now.lock }
{
    let (mut seat, mut room) = (seat, room);
    for part in 0..ALL / PART {
        wait_for(rt, told, (part + 1) * PART);
        let (back, answer) = shared.hand_over(rt, seat, room);
        seat = back;
        room = match answer {
            Ok(HandedOver { first: _, entries }) => entries,
            Err(room) => room,
        };
        room.clear();
    }
    seat
}

// Two workers make their calls at the same time.
fn call_both<R: Threads + Wait + Sync>(
    rt: &R,
    shared: &Shared,
    told: &AtomicU64,
    seats: (Seat<Desk>, Seat<Desk>),
) -> (Seat<Desk>, Seat<Desk>)
    requires zero { seats.0.lock ≡ shared.now.lock }
    requires one { seats.1.lock ≡ shared.now.lock }
    ensures zero { result.0.lock ≡ shared.now.lock }
    ensures one { result.1.lock ≡ shared.now.lock }
{
    let (zero, one) = seats;
    thread::join(
        rt,
        move || -> Seat<Desk>
            requires own { zero.lock ≡ shared.now.lock }
            ensures own { result.lock ≡ shared.entry.now.lock }
        { make_calls(rt, shared, told, zero, 0) },
        move || -> Seat<Desk>
            requires own { one.lock ≡ shared.now.lock }
            ensures own { result.lock ≡ shared.entry.now.lock }
        { make_calls(rt, shared, told, one, 1) },
    )
}

// Two workers make their calls, while a third hands over, if there is room for what it is given.
fn run<R: Threads + Wait + Clock + Sync>(
    rt: &R,
    shared: &Shared,
    seats: (Seat<Desk>, Seat<Desk>),
    third: Seat<Desk>,
    room: Option<Vec<Entry>>,
) -> ((Seat<Desk>, Seat<Desk>), Seat<Desk>)
    requires zero { seats.0.lock ≡ shared.now.lock }
    requires one { seats.1.lock ≡ shared.now.lock }
    requires two { third.lock ≡ shared.now.lock }
    ensures zero { result.0.0.lock ≡ shared.now.lock }
    ensures one { result.0.1.lock ≡ shared.now.lock }
    ensures two { result.1.lock ≡ shared.now.lock }
{
    let told = AtomicU64::new(0);
    let told = &told;
    thread::join(
        rt,
        move || -> (Seat<Desk>, Seat<Desk>)
            requires zero { seats.0.lock ≡ shared.now.lock }
            requires one { seats.1.lock ≡ shared.now.lock }
            ensures zero { result.0.lock ≡ shared.entry.now.lock }
            ensures one { result.1.lock ≡ shared.entry.now.lock }
        { call_both(rt, shared, told, seats) },
        move || -> Seat<Desk>
            requires own { third.lock ≡ shared.now.lock }
            ensures own { result.lock ≡ shared.entry.now.lock }
        {
            match room {
                Some(room) => hand_over_all(rt, shared, told, third, room),
                None => third,
            }
        },
    )
}

// Closes the scheduler. It says whether so many calls were recorded, and some handed over or none, as is wanted.
pub(crate) fn is_whole<R: Wait>(
    rt: &R,
    shared: Shared,
    seats: Vec<Seat<Desk>>,
    calls: usize,
    hands_over: bool,
) -> bool
    requires own { Every (λ s. s.lock ≡ shared.lock) seats.items }
    requires all { length seats.items ≡ seats_of shared.lock }
{
    let Closed {
        history,
        first,
        counts: _,
        press,
    } = shared.close(seats);
    press.end(rt);
    let kept = history.len() as u64;
    (first > 0) == hands_over && first.saturating_add(kept) == calls as u64
}

// What the calls of two workers take.
fn time_calls<R: Threads + Wait + Sync + Clock + CpuClock>(
    rt: &R,
    alloc: Global,
    hands_over: bool,
) -> Option<Took> {
    let room = if hands_over {
        Some(Vec::with_capacity(alloc, WIDE.calls as usize).ok()?)
    } else {
        None
    };
    let opened = open_without_end(rt, alloc, WIDE.check().ok()?, 3, 0);
    let (shared, mut seats, _readers) = opened.ok()?;
    let two = seats.pop();
    let one = seats.pop();
    let zero = seats.pop();
    let (Some(zero), Some(one), Some(two)) = (zero, one, two) else {
        unreachable!()
    };
    let start = now(rt);
    let ((zero, one), two) = run(rt, &shared, (zero, one), two, room);
    let end = now(rt);
    seats.push_reserved(zero);
    seats.push_reserved(one);
    seats.push_reserved(two);
    figure(start, end, is_whole(rt, shared, seats, ALL, hands_over))
}

/// Prints what each call of two workers takes, while all is kept, and while a third hands over every thousand calls.
pub fn print<R: Threads + Wait + Sync + Clock + CpuClock + Print>(
    rt: &R,
    alloc: Global,
) -> Option<()> {
    print_line(rt, 2, "kept", time_calls(rt, alloc, false)?, ALL)?;
    print_line(rt, 2, "handed", time_calls(rt, alloc, true)?, ALL)?;
    alone::print(rt, alloc)
}
