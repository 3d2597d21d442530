//! One worker of a storm: the calls that it makes by its seat.

ghost use Rattle.std.specs.Prelude.{◌≡◌, ◌<◌, ◌^◌, length, MatchOption};
ghost use Rattle.sched_storm.specs.Work.{Hinders, MakesOne, HasWorked};

use crate::gate::Gate;
use crate::starts::{Starts, Stop};
use sched_history::Call;
use shared_sched::{Desk, Shared};
use std::sync::Wait;
use std::thread::yield_now;
use ticket_lock::Seat;

/// How often a worker asks its gate before a call, and yields, until it gives up.
pub const MAX_TURNS: u32 = 1_000_000;

/// How a worker ended.
#[derive(Clone, Copy)]
pub enum Ended {
    /// It made all calls of its script.
    Done,
    /// Its gate held it.
    Held,
    /// The storm was stopped: a thread was not started.
    Stopped,
}

/// What a worker gives back.
#[derive(Drop)]
pub struct Worked {
    /// The seat that it was given.
    pub seat: Seat<Desk>,
    /// How many of its calls were not recorded.
    pub unrecorded: u64,
    /// How it ended.
    pub ended: Ended,
    ghost few: { unrecorded < 2 ^ 59 },
}

// Why the worker may not make its call at this place, or none where its gate lets it pass.
fn hindrance<R: Starts, G: Gate>(
    gate: &G,
    stop: &Stop<R>,
    worker: usize,
    index: usize,
) -> Option<Ended>
    ensures { MatchOption result (G.lets_pass gate.now worker index)
        (Hinders R.lacks_thread (G.holds_back gate.now worker index)) }
{
    for _asked in 0..MAX_TURNS {
        if stop.is_set() {
            return Some(Ended::Stopped);
        }
        if gate.pass(worker, index) {
            return None;
        }
        yield_now();
    }
    Some(Ended::Held)
}

// Makes a call by this seat, and tells whether it was recorded.
fn make_call(rt: &impl Wait, shared: &Shared, seat: Seat<Desk>, call: Call) -> (Seat<Desk>, bool)
    requires own { seat.lock ≡ shared.now.lock }
    ensures makes { MakesOne shared.now.config seat result.0 call result.1 }
{
    // That the configuration allows few enough is told on.
    let _most = shared.config().calls();
    let (seat, answer) = shared.call(rt, seat, call);
    (seat, answer.is_ok())
}

// How many calls a script has.
fn count_calls(script: &[Call]) -> usize
    ensures value { result ≡ length script.now }
    ensures few { result < 2 ^ 59 }
{
    script.len()
}

// What a worker gives back.
fn gives_back(seat: Seat<Desk>, unrecorded: u64, ended: Ended) -> Worked
    requires { unrecorded < 2 ^ 59 }
    ensures seat { result.seat ≡ seat }
    ensures unrecorded { result.unrecorded ≡ unrecorded }
    ensures ended { result.ended ≡ ended }
{
    Worked {
        seat,
        unrecorded,
        ended,
    }
}

/// Makes the calls of a script in order, as far as the gate lets them pass.
pub fn work<R: Starts + Wait, G: Gate>(
    rt: &R,
    shared: &Shared,
    gate: &G,
    stop: &Stop<R>,
    seat: Seat<Desk>,
    script: &[Call],
) -> Worked
    requires own { seat.lock ≡ shared.now.lock }
    ensures worked { HasWorked (G.lets_pass gate.now) (G.holds_back gate.now) R.lacks_thread
        shared.now.config seat script.now result.seat result.unrecorded result.ended }
{
    let worker = seat.number() as usize;
    let calls = count_calls(script);
    let mut seat = seat;
    let mut made = 0;
    let mut unrecorded = 0;
    while made < calls {
        if let Some(ended) = hindrance(gate, stop, worker, made) {
            return gives_back(seat, unrecorded, ended);
        }
        let (next, is_recorded) = make_call(rt, shared, seat, script[made]);
        seat = next;
        if !is_recorded {
            unrecorded += 1;
        }
        gate.answered(worker, made);
        made += 1;
    }
    gives_back(seat, unrecorded, Ended::Done)
}
