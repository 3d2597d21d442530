//! The same calls of a scheduler by the workers of a storm at once, and by one thread without a lock.

use crate::run::{Took, figure, nanos_of, now, print_line};
use flow_book::FlowSpec;
use minislots::{Bursts, Config, Stamp};
use sched_calls::Amount;
use sched_history::{Call, Entry, Reply, Scheduler};
use sched_storm::{Gate, storm_with};
use std::alloc::{AllocError, Global};
use std::sync::Wait;
use std::sync::atomic::AtomicU64;
use std::sync::atomic::Ordering::SeqCst;
use std::thread::Threads;
use std::time::{Clock, CpuClock, Instant};

// Frames of 1024 minislots of 25 microseconds, and the calls of eight workers.
pub(crate) const WIDE: Config = Config {
    ticks: 4,
    bursts: Bursts::Uniform {
        bytes_per_slot: 16,
        overhead: 2,
    },
    frame: 1024,
    cycle: 64,
    req_slots: 4,
    poll_slots: 1,
    lead: 0,
    short_max: 8,
    quantum: 64,
    grant_cap: 64,
    receivers: 1,
    calls: 320_000,
    start: 102_400,
    ranging_start: 0,
    ranging_end: 0,
    data_start: 0,
    data_end: 0,
    channel: 3,
    ucd_count: 1,
    phy: 0,
    flows: 64,
    pending: 64,
    periodic: 40,
    open_idle: 0,
    settle: 0,
};

// Where sixteen workers make theirs.
const WIDEST: Config = Config {
    calls: 640_000,
    ..WIDE
};

// How many calls each worker makes.
pub(crate) const CALLS: usize = 40_000;

// The place of the last of them.
const LAST: usize = CALLS - 1;

// How many of them are requests that are counted.
const TAKEN: usize = CALLS / 2 - 1;

// The call with this number, of the worker with this one: a flow of its own and a build, and then requests and
// questions by turns.
pub(crate) fn call_of(worker: usize, number: usize) -> Call {
    let sid = (worker % 64) as u16 + 1;
    let spec = FlowSpec::BestEffort {
        priority: 3,
        rate: 4_000_000,
        burst: 100_000,
        peak: 0,
        reserved: 0,
        reserved_burst: 0,
    };
    let ask = Call::Ask {
        receiver: 0,
        sid,
        amount: Amount::Bytes(1000),
        heard: 102_400,
    };
    match number {
        0 => Call::Admit(sid, spec),
        1 => Call::Build { now: 102_400 },
        _ if number % 2 == 0 => ask,
        _ => Call::Status(sid),
    }
}

// All calls of a worker.
fn script_of(alloc: Global, worker: usize) -> Result<Vec<Call>, AllocError> {
    let mut calls = Vec::with_capacity(alloc, CALLS)?;
    for number in 0..CALLS {
        calls.push(call_of(worker, number))?;
    }
    Ok(calls)
}

// Whether a history has all calls of so many workers, and as many requests that were counted as they have.
fn is_whole(history: &[Entry], workers: usize) -> bool {
    let mut taken = 0usize;
    for entry in history {
        match entry.reply {
            Reply::Taken => taken = taken.saturating_add(1),
            _ => {}
        }
    }
    taken == workers.saturating_mul(TAKEN) && history.len() == workers.saturating_mul(CALLS)
}

// A gate that lets every call pass, and notes when the first was asked for and when the last was answered, in
// nanoseconds since it was made.
#[derive(Drop)]
struct Timed<'r, R> {
    rt: &'r R,
    made: Instant,
    first: AtomicU64,
    last: AtomicU64,
}

impl<R: Clock> Timed<'_, R> {
    // The nanoseconds since it was made, or 0 where the clock cannot be read.
    fn nanos(&self) -> u64 {
        match Instant::now(self.rt) {
            Ok(at) => nanos_of(at.duration_since(self.made)),
            Err(_) => 0,
        }
    }
}

impl<R: Clock + Sync> Gate for Timed<'_, R> {
    fn pass(&self, _worker: usize, index: usize) -> bool {
        if index == 0 {
            self.first.fetch_min(self.nanos(), SeqCst);
        }
        true
    }

    fn answered(&self, _worker: usize, index: usize) {
        if index == LAST {
            self.last.fetch_max(self.nanos(), SeqCst);
        }
    }
}

// What calls take, with what comes before and after them, and the nanoseconds of the calls by themselves.
#[derive(Clone, Copy)]
struct Span {
    whole: Took,
    calls: u64,
}

// Times a storm of so many workers, 1 to 16: from the opening of its scheduler to its close and the audit of its
// history, and from the first call of a worker to the last answer.
fn time_storm<R: Threads + Wait + Sync + Clock + CpuClock>(
    rt: &R,
    alloc: Global,
    workers: usize,
) -> Option<Span> {
    let checked = WIDEST.check().ok()?;
    let mut scripts = Vec::with_capacity(alloc, workers).ok()?;
    for worker in 0..workers {
        scripts.push(script_of(alloc, worker).ok()?).ok()?;
    }
    let gate = Timed {
        rt,
        made: Instant::now(rt).ok()?,
        first: AtomicU64::new(u64::MAX),
        last: AtomicU64::new(0),
    };
    let start = now(rt);
    let tally = storm_with(rt, alloc, checked, scripts, &gate).ok()?;
    let end = now(rt);
    let first = gate.first.load(SeqCst);
    Some(Span {
        whole: figure(start, end, is_whole(&tally.history, workers))?,
        calls: gate.last.load(SeqCst).saturating_sub(first),
    })
}

// Times the calls of one worker without a lock: from the opening of its scheduler on, and the calls alone.
fn time_bare<R: Clock + CpuClock>(rt: &R, alloc: Global) -> Option<Span> {
    let checked = WIDE.check().ok()?;
    let calls = script_of(alloc, 0).ok()?;
    let start = now(rt);
    let mut scheduler = Scheduler::open(alloc, checked).ok()?;
    let opened = now(rt);
    for (place, call) in calls.iter().enumerate() {
        let ticket = place as u64;
        let _answer = scheduler.call(Stamp { seat: 0, ticket }, *call);
    }
    let end = now(rt);
    let is_whole = is_whole(scheduler.history(), 1);
    Some(Span {
        whole: figure(start, end, is_whole)?,
        calls: figure(opened, end, is_whole)?.wall,
    })
}

// Prints what each call takes, as a part of the whole and by itself.
fn print_span<R: Print>(rt: &R, workers: usize, span: Span) -> Option<()> {
    let calls = CALLS.saturating_mul(workers.max(1));
    print_line(rt, workers, "whole", span.whole, calls)?;
    let alone = Took {
        wall: span.calls,
        used: 0,
    };
    print_line(rt, workers, "calls", alone, calls)
}

/// Prints what each call takes, of a scheduler without a lock, which stands as one of no workers, and of storms.
pub fn print<R: Threads + Wait + Sync + Clock + CpuClock + Print>(
    rt: &R,
    alloc: Global,
) -> Option<()> {
    print_span(rt, 0, time_bare(rt, alloc)?)?;
    for workers in [1, 2, 4, 8, 16] {
        print_span(rt, workers, time_storm(rt, alloc, workers)?)?;
    }
    Some(())
}
