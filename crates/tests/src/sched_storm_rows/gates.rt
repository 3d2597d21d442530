//! Gates that hold workers, and tell whether they run at the same time.

use sched_storm::Gate;
use std::sync::atomic::AtomicU64;
use std::sync::atomic::Ordering::SeqCst;
use std::thread::yield_now;

/// How often a gate is asked about a call before its worker gives up.
pub const MOST: u64 = 1_000_000;

/// When a worker passes.
#[derive(Clone, Copy)]
pub enum Rule {
    /// This worker makes the first so many of its calls, each after the one before was told once.
    Counting(usize, usize),
    /// This worker makes its first call once that of the other was answered.
    After(usize, usize),
    /// Each of two workers looks for the other within one call of the gate, which lets it pass where it found it.
    Meeting,
    /// Worker 1 waits until worker 0 tells that its call was answered, and worker 0 there until worker 1's call was
    /// answered.
    Handover,
    /// Each worker waits until the next one was told that its call was answered; the last of so many waits for nobody.
    FromTheLast(u64),
    /// The first call passes at once, and each other one when it was asked so often before.
    Slow(u64),
}

/// Counts for each of three calls of three workers, one worker after the other.
#[derive(Drop)]
pub struct Counts {
    each: [AtomicU64; 9],
}

impl Counts {
    fn new() -> Counts {
        Counts {
            each: [
                AtomicU64::new(0),
                AtomicU64::new(0),
                AtomicU64::new(0),
                AtomicU64::new(0),
                AtomicU64::new(0),
                AtomicU64::new(0),
                AtomicU64::new(0),
                AtomicU64::new(0),
                AtomicU64::new(0),
            ],
        }
    }

    // Counts one more for this call of a worker.
    fn add(&self, worker: usize, index: usize) {
        if worker < 3 && index < 3 {
            self.each[3 * worker + index].fetch_add(1, SeqCst);
        }
    }

    /// The count for this call of a worker.
    pub fn at(&self, worker: usize, index: usize) -> u64 {
        if worker < 3 && index < 3 {
            self.each[3 * worker + index].load(SeqCst)
        } else {
            0
        }
    }

    // Whether this is counted for the first call of a worker, which is looked at up to a million times.
    fn has_first_in_time(&self, worker: usize) -> bool {
        for _ in 0..MOST {
            if self.at(worker, 0) > 0 {
                return true;
            }
            yield_now();
        }
        false
    }
}

/// A gate with a rule. It counts how often each worker asks and tells about each of its calls.
#[derive(Drop)]
pub struct Ruled {
    rule: Rule,
    /// How often each worker asked.
    pub asked: Counts,
    /// How often each worker told of a call.
    pub told: Counts,
}

impl Ruled {
    /// Nobody has asked, and nobody was told.
    pub fn of(rule: Rule) -> Ruled {
        Ruled {
            rule,
            asked: Counts::new(),
            told: Counts::new(),
        }
    }
}

impl Gate for Ruled {
    fn pass(&self, worker: usize, index: usize) -> bool {
        self.asked.add(worker, index);
        let told = &self.told;
        match self.rule {
            Rule::Counting(held, allowed) => {
                worker != held || index < allowed && (index == 0 || told.at(held, index - 1) == 1)
            }
            Rule::After(held, other) => worker != held || index != 0 || told.at(other, 0) > 0,
            Rule::Meeting => worker > 1 || self.asked.has_first_in_time(1 - worker),
            Rule::Handover => worker == 0 || told.at(0, 0) > 0,
            Rule::FromTheLast(workers) => {
                let both = told.at(0, 0).saturating_add(told.at(1, 0));
                let all = both.saturating_add(told.at(2, 0));
                all.saturating_add(worker as u64).saturating_add(1) == workers
            }
            Rule::Slow(turns) => index == 0 || self.asked.at(worker, index) > turns,
        }
    }

    fn answered(&self, worker: usize, index: usize) {
        self.told.add(worker, index);
        if matches!(self.rule, Rule::Handover) && worker == 0 {
            self.told.has_first_in_time(1);
        }
    }
}
