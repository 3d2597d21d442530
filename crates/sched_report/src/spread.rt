//! How delays are spread: how many there are in each step.

ghost use Rattle.std.specs.Prelude.{◌≡◌, ◌+◌, ◌*◌, ◌^◌, ◌<◌, ◌≤◌, ◌∷◌, ◌++◌, [], List, ℕ, length, slice_index_or};
ghost use Rattle.std.specs.Prelude.{IfOk, IfErr, OnOk, vec_len, vec_capacity};
ghost use Rattle.sched_report.specs.declared.spread.TheConstants.{EXACT};
ghost use Rattle.sched_report.specs.declared.spread.Step.{Step as Counted};
ghost use Rattle.sched_report.specs.Spread.{IsNear};
ghost use Rattle.sched_report.specs.Steps.{upto, AreStepsOf};

use std::alloc::{AllocError, Global};

/// The greatest delay, in minislots, of which a percentile is told exactly.
pub const EXACT: u64 = 65_536;

// The width of the first steps above that.
const FIRST_WIDTH: u64 = 512;

// So many delays of which this value is told.
#[derive(Clone, Copy)]
pub(crate) struct Step {
    value: u64,
    count: u64,
}

// How many delays there are in each step that has some. The values ascend. Up to [`EXACT`] a step has one value; above
// that it has one part in 128 of those from a power of two to the next, and its greatest value is told of each.
#[derive(Drop)]
pub(crate) struct Spread {
    steps: Vec<Step>,
}

impl Spread {
    // That of no delays.
    pub(crate) fn new(alloc: Global) -> Spread
        ensures items { result.steps.items ≡ [] }
        ensures len { vec_len result.steps ≡ 0 }
    {
        Spread {
            steps: Vec::new(alloc),
        }
    }

    // Takes memory for so many delays more. What is counted stays.
    pub(crate) fn reserve(&mut self, more: usize) -> Result<(), AllocError>
        ensures ok { OnOk result (vec_len self.new.steps + more ≤ vec_capacity self.new.steps) }
        ensures items { self.new.steps.items ≡ self.old.steps.items }
        ensures len { vec_len self.new.steps ≡ vec_len self.old.steps }
        ensures capacity { vec_capacity self.old.steps ≤ vec_capacity self.new.steps }
    {
        self.steps.reserve(more)
    }

    // Forgets all delays, and keeps the memory.
    pub(crate) fn clear(&mut self)
        ensures items { self.new.steps.items ≡ [] }
        ensures len { vec_len self.new.steps ≡ 0 }
    {
        self.steps.clear();
    }

    // Counts one delay more.
    pub(crate) fn add(&mut self, delay: u64)
        requires reach { delay < 3 * 2 ^ 62 }
        requires room { vec_len self.old.steps < vec_capacity self.old.steps }
        requires few { (ns : List ℕ) × AreStepsOf self.old.steps.items ns × (length ns < 2 ^ 63) }
        ensures steps { (ns : List ℕ) → AreStepsOf self.old.steps.items ns
            → AreStepsOf self.new.steps.items (ns ++ delay ∷ []) }
        ensures len { vec_len self.new.steps ≤ vec_len self.old.steps + 1 }
        ensures capacity { vec_capacity self.old.steps ≤ vec_capacity self.new.steps }
    {
        let value = told_of(delay);
        match self.place_of(value) {
            Ok(place) => self.steps[place].count += 1,
            Err(place) => self.steps.insert(place, Step { value, count: 1 }).unwrap(),
        }
    }

    // How many delays there are of which no more than this is told.
    pub(crate) fn upto(&self, value: u64) -> u64
        requires { (ns : List ℕ) × AreStepsOf self.now.steps.items ns × (length ns < 2 ^ 63) }
        ensures { result ≡ upto value self.now.steps.items }
    {
        let mut count = 0;
        for step in self.steps.as_slice() {
            if step.value <= value {
                count += step.count;
            }
        }
        count
    }

    // The place of the step with this value, or else where it goes.
    fn place_of(&self, value: u64) -> Result<usize, usize>
        ensures inside { IfOk result (λ place. place < vec_len self.now.steps) }
        ensures found { IfOk result (λ place. (d : Counted)
            → (slice_index_or self.now.steps.items place d).value ≡ value) }
        ensures free { IfErr result (λ place. place ≤ vec_len self.now.steps) }
    {
        let place = self.steps.partition_point(|step| step.value < value);
        match self.steps.get(place) {
            Some(step) if step.value == value => Ok(place),
            _ => Err(place),
        }
    }
}

// What is told of a delay: itself, or the greatest value of its step.
fn told_of(delay: u64) -> u64
    requires { delay < 3 * 2 ^ 62 }
    ensures near { IsNear delay result }
{
    if delay <= EXACT {
        return delay;
    }
    let width = width_at(delay);
    delay - delay % width + (width - 1)
}

// The width of the step of a delay: a power of two, and no more than one part in 128 of it.
fn width_at(delay: u64) -> u64
    requires { EXACT < delay }
    ensures positive { 0 < result }
    ensures narrow { 128 * result ≤ delay }
{
    let mut width = FIRST_WIDTH;
    while width <= delay / 256 {
        width *= 2;
    }
    width
}
