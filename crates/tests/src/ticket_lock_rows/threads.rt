//! Seats of one lock in threads of their own, which are joined.

ghost use Rattle.std.specs.Prelude.{◌≡◌, Some, IfOk, length};
ghost use Rattle.ticket_lock.specs.Rule.{Every};
ghost use Rattle.ticket_lock.specs.Standing.{head_of};

use super::{Stamps, end_turn};
use minislots::Stamp;
use std::alloc::{AllocError, Global};
use std::process::Abort;
use std::sync::Wait;
use std::thread;
use std::thread::Threads;
use ticket_lock::{Seat, TicketLock};

// Threads that take turns at once, how many each takes, and the first ticket.
#[derive(Clone, Copy)]
pub(super) struct Race {
    pub(super) threads: usize,
    pub(super) turns: usize,
    pub(super) first: u64,
}

// Takes so many turns, each with an entry.
fn take_turns<R: Wait>(
    rt: &R,
    lock: &TicketLock<Stamps>,
    seat: Seat<Stamps>,
    turns: usize,
) -> Seat<Stamps>
    requires own { seat.lock ≡ lock.now }
    requires head { head_of lock.now ≡ Some tt }
    ensures own { result.lock ≡ lock.now }
{
    let mut seat = seat;
    for _ in 0..turns {
        let (held, value) = lock.enter(rt, lock.draw(seat));
        seat = end_turn(lock, held, value, true);
    }
    seat
}

// Takes so many turns by each of these seats, which have a thread of their own.
fn take_all<R: Threads + Wait + Sync>(
    rt: &R,
    lock: &TicketLock<Stamps>,
    seats: Vec<Seat<Stamps>>,
    turns: usize,
) -> Result<Vec<Seat<Stamps>>, AllocError>
    requires own { Every (λ s. s.lock ≡ lock.now) seats.items }
    requires head { head_of lock.now ≡ Some tt }
    ensures own { IfOk result (λ back. Every (λ s. s.lock ≡ lock.now) back.items) }
    ensures count { IfOk result (λ back. length back.items ≡ length seats.items) }
{
    let take = |seat: Seat<Stamps>| -> Seat<Stamps>
        requires own { seat.lock ≡ lock.now }
        requires head { head_of lock.now ≡ Some tt }
        ensures own { result.lock ≡ lock.entry.now }
    { take_turns(rt, lock, seat, turns) };
    thread::map_vec(rt, seats, &take)
}

// The list after all threads have taken their turns at one lock.
fn list_of_all<R: Threads + Wait + Sync + Abort>(rt: &R, alloc: Global, run: Race) -> Vec<Stamp> {
    let empty = Stamps {
        list: Vec::new(alloc),
    };
    let Ok((lock, seats)) = TicketLock::open(alloc, empty, run.threads, run.first) else {
        panic!(rt; "no memory")
    };
    let Ok(seats) = take_all(rt, &lock, seats, run.turns) else {
        panic!(rt; "no memory")
    };
    let Stamps { list } = lock.close(seats);
    list
}

// All entries of a race at the lock stand once, in the order of the tickets.
fn is_run_in_order<R: Threads + Wait + Sync + Abort>(rt: &R, alloc: Global, run: Race) {
    let list = list_of_all(rt, alloc, run);
    is_in_order(rt, run, list.as_slice());
}

// The list of a race has as many entries of each seat as it took turns, and the tickets of all begin with the first,
// and each is one more than the one before.
pub(super) fn is_in_order(rt: &impl Abort, run: Race, list: &[Stamp]) {
    let Race {
        threads,
        turns,
        first,
    } = run;
    assert!(rt;
        list.len() == threads.saturating_mul(turns),
        "{threads} threads, first {first}"
    );
    let mut counts = [0usize; 64];
    for (place, stamp) in list.iter().enumerate() {
        let next = first.wrapping_add(place as u64);
        assert!(rt;
            stamp.ticket == next,
            "{threads} threads, first {first}: ticket {next}"
        );
        if let Some(count) = counts.get_mut(stamp.seat as usize) {
            *count = count.saturating_add(1);
        }
    }
    let are_all = counts.iter().take(threads).all(|count| *count == turns);
    assert!(rt;
        are_all,
        "{threads} threads, first {first}: the turns of each"
    );
}

#[test]
fn entries_of_16_threads_stand_once_in_ticket_order(rt: HostRuntime) {
    for first in [0, u64::MAX] {
        let run = Race {
            threads: 16,
            turns: 1000,
            first,
        };
        is_run_in_order(&rt, rt.alloc(), run);
    }
}

// How often all threads of a race start and end.
const RUNS: u64 = 1000;

#[test]
fn a_seat_that_sleeps_is_woken_for_its_turn(rt: HostRuntime) {
    for first in 0..RUNS {
        let run = Race {
            threads: 16,
            turns: 8,
            first,
        };
        is_run_in_order(&rt, rt.alloc(), run);
        let run = Race {
            threads: 64,
            turns: 4,
            first,
        };
        is_run_in_order(&rt, rt.alloc(), run);
    }
}
