//! Turns at a ticket lock, and at a mutex of the standard library.
ghost use Rattle.std.specs.Prelude.{◌≡◌, [], Some, IfOk, length};
ghost use Rattle.ticket_lock.specs.Rule.{Every};
ghost use Rattle.ticket_lock.specs.Standing.{head_of};

use crate::run::{Took, figure, now, print_line};
use minislots::Stamp;
use std::alloc::{AllocError, Global};
use std::sync::{Barrier, Mutex, Wait};
use std::thread;
use std::thread::Threads;
use std::time::{Clock, CpuClock};
use ticket_lock::{Journal, Seat, TicketLock};

// How many turns are taken in one run, by all threads together.
pub(crate) const TURNS: usize = 400_000;

// A count of turns, of which the lock sees nothing. It has 8 bytes, as the scheduler's desk.
#[derive(Drop)]
pub(crate) struct Count {
    pub(crate) turns: usize,
}

impl Journal for Count {
    type Head = ();

    type Entry = Stamp;

    ghost head = { λ _. tt };

    ghost entries = { λ _. [] };

    ghost kept = { λ all. all };

    ghost stamp = { λ e. e };

    fn len(&self) -> usize {
        0
    }

    fn stamp_at(&self, _i: usize) -> Option<Stamp> {
        None
    }
}

// Takes so many turns by one seat, once all threads have come.
fn take_turns<R: Wait>(
    rt: &R,
    lock: &TicketLock<Count>,
    start: &Barrier,
    seat: Seat<Count>,
    turns: usize,
) -> Seat<Count>
    requires { seat.lock ≡ lock.now }
    ensures { result.lock ≡ lock.now }
{
    let mut seat = seat;
    start.wait(rt);
    for _ in 0..turns {
        let (held, mut value) = lock.enter(rt, lock.draw(seat));
        value.turns = value.turns.wrapping_add(1);
        seat = lock.leave(held, value);
    }
    seat
}

// Takes turns by all seats, in a thread each.
fn take_all<R: Threads + Wait + Sync>(
    rt: &R,
    lock: &TicketLock<Count>,
    start: &Barrier,
    seats: Vec<Seat<Count>>,
    turns: usize,
) -> Result<Vec<Seat<Count>>, AllocError>
    requires { Every (λ s. s.lock ≡ lock.now) seats.items }
    ensures own { IfOk result (λ back. Every (λ s. s.lock ≡ lock.now) back.items) }
    ensures count { IfOk result (λ back. length back.items ≡ length seats.items) }
{
    let take = |seat: Seat<Count>| -> Seat<Count>
        requires { seat.lock ≡ lock.now }
        ensures { result.lock ≡ lock.entry.now }
    { take_turns(rt, lock, start, seat, turns) };
    thread::map_vec(rt, seats, &take)
}

// What turns at a ticket lock take, by so many seats.
pub(crate) fn time_lock<R: Threads + Wait + Sync + Clock + CpuClock>(
    rt: &R,
    alloc: Global,
    threads: usize,
) -> Option<Took> {
    let turns = TURNS / threads.max(1);
    let Ok((lock, seats)) = TicketLock::open(alloc, Count { turns: 0 }, threads, 0) else {
        return None;
    };
    let barrier = Barrier::new(threads);
    let start = now(rt);
    let Ok(seats) = take_all(rt, &lock, &barrier, seats, turns) else {
        lock.discard();
        return None;
    };
    let end = now(rt);
    let Count { turns: taken } = lock.close(seats);
    figure(start, end, taken == threads.saturating_mul(turns))
}

// Takes so many turns by each of 1 to 64 threads, once all have come.
fn turn_mutex<R: Threads + Wait + Sync>(
    rt: &R,
    lock: &Mutex<usize>,
    barrier: &Barrier,
    threads: usize,
    turns: usize,
) {
    let mut seats = [0; 64];
    let row = &mut seats[..threads.min(64)];
    thread::for_each_mut(
        rt,
        row,
        64,
        &|_, _: &mut u8| {
            barrier.wait(rt);
            for _ in 0..turns {
                let mut value = lock.lock(rt);
                *value = value.wrapping_add(1);
            }
        },
    );
}

// What turns at a mutex take, by so many threads, 1 to 64.
fn time_mutex<R: Threads + Wait + Sync + Clock + CpuClock>(rt: &R, threads: usize) -> Option<Took> {
    let turns = TURNS / threads.max(1);
    let (lock, barrier) = (Mutex::new(0usize), Barrier::new(threads));
    let start = now(rt);
    turn_mutex(rt, &lock, &barrier, threads, turns);
    let end = now(rt);
    figure(
        start,
        end,
        lock.into_inner() == threads.saturating_mul(turns),
    )
}

/// Prints what each turn at a ticket lock and at a mutex takes, by the threads that take turns.
pub fn print<R: Threads + Wait + Sync + Clock + CpuClock + Print>(
    rt: &R,
    alloc: Global,
) -> Option<()> {
    for threads in [1, 2, 4, 16, 64] {
        print_line(
            rt,
            threads,
            "ticket_lock",
            time_lock(rt, alloc, threads)?,
            TURNS,
        )?;
        print_line(rt, threads, "mutex", time_mutex(rt, threads)?, TURNS)?;
    }
    Some(())
}
