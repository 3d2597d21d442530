//! Calls at a queue of calls, and turns at the ticket lock by itself.
ghost use Rattle.std.specs.Prelude.{◌≡◌, [], Some, IfOk, length};
ghost use Rattle.ticket_lock.specs.Rule.{Every};

use crate::lock::{Count, TURNS, time_lock};
use crate::run::{Took, figure, now, print_line};
use call_queue::{CallQueue, Calling};
use std::alloc::{AllocError, Global};
use std::sync::{Barrier, Wait};
use std::thread;
use std::thread::Threads;
use std::time::{Clock, CpuClock};
use ticket_lock::{Held, Seat, TicketLock};

// A call counts so many turns, and is answered with how many there were before.
struct Counting;

impl Calling<Count> for Counting {
    ghost use Rattle.std.specs.Prelude.{◌≡◌};

    type Call = usize;

    type Reply = usize;

    ghost made = { λ _ before _ _ reply. reply ≡ before.turns };

    fn make<R: Wait>(_rt: &R, _held: &Held<Count>, value: &mut Count, call: usize) -> usize {
        let before = value.turns;
        value.turns = before.wrapping_add(call);
        before
    }
}

// Makes so many calls by one seat, once all threads have come.
#[tactic(auto, using(crate::proofs::Turned::called_lock))]
fn make_calls<R: Wait>(
    rt: &R,
    queue: &CallQueue<Count, Counting>,
    start: &Barrier,
    seat: Seat<Count>,
    calls: usize,
) -> Seat<Count>
    requires { seat.lock ≡ queue.now }
    ensures { result.lock ≡ queue.now }
{
    let mut seat = seat;
    start.wait(rt);
    for _ in 0..calls {
        let (back, _before) = queue.call(rt, seat, 1);
        seat = back;
    }
    seat
}

// Makes calls by all seats, in a thread each.
fn make_all<R: Threads + Wait + Sync>(
    rt: &R,
    queue: &CallQueue<Count, Counting>,
    start: &Barrier,
    seats: Vec<Seat<Count>>,
    calls: usize,
) -> Result<Vec<Seat<Count>>, AllocError>
    requires { Every (λ s. s.lock ≡ queue.now) seats.items }
    ensures own { IfOk result (λ back. Every (λ s. s.lock ≡ queue.now) back.items) }
    ensures count { IfOk result (λ back. length back.items ≡ length seats.items) }
{
    let make = |seat: Seat<Count>| -> Seat<Count>
        requires { seat.lock ≡ queue.now }
        ensures { result.lock ≡ queue.entry.now }
    { make_calls(rt, queue, start, seat, calls) };
    thread::map_vec(rt, seats, &make)
}

// What calls at a queue take, by so many seats.
fn time_queue<R: Threads + Wait + Sync + Clock + CpuClock>(
    rt: &R,
    alloc: Global,
    threads: usize,
) -> Option<Took> {
    let calls = TURNS / threads.max(1);
    let Ok((lock, seats)) = TicketLock::open(alloc, Count { turns: 0 }, threads, 0) else {
        return None;
    };
    let queue: CallQueue<Count, Counting> = CallQueue::of(alloc, lock, threads);
    let barrier = Barrier::new(threads);
    let start = now(rt);
    let Ok(seats) = make_all(rt, &queue, &barrier, seats, calls) else {
        queue.into_lock().discard();
        return None;
    };
    let end = now(rt);
    let Count { turns: made } = queue.into_lock().close(seats);
    figure(start, end, made == threads.saturating_mul(calls))
}

/// Prints what each call at a queue takes, and each turn at the lock by itself, by the threads that take turns.
pub fn print<R: Threads + Wait + Sync + Clock + CpuClock + Print>(
    rt: &R,
    alloc: Global,
) -> Option<()> {
    for threads in [1, 2, 4, 8, 16, 64] {
        print_line(
            rt,
            threads,
            "ticket_lock",
            time_lock(rt, alloc, threads)?,
            TURNS,
        )?;
        print_line(
            rt,
            threads,
            "call_queue",
            time_queue(rt, alloc, threads)?,
            TURNS,
        )?;
    }
    Some(())
}
