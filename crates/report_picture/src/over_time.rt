//! The use of minislots over time, in steps of as many frames each.

ghost use Rattle.std.specs.Prelude.{◌≡◌, ◌+◌, ◌-◌, ◌*◌, ◌^◌, ◌<◌, ◌≤◌, ◌++◌, ◌∷◌, [], List, ℕ, length, min};
ghost use Rattle.std.specs.Prelude.{slice_index_or};
ghost use Rattle.minislots.specs.declared.config.Config.{Config};
ghost use Rattle.frame_picture.specs.Frames.{Frame};
ghost use Rattle.sched_report.specs.declared.slots.Slots.{Slots as Uses};
ghost use Rattle.sched_report.specs.Uses.{sum_of};
ghost use Rattle.report_picture.specs.OverTime.{use_in, start_of, frames_at, steps_of, step_at, all_steps};
ghost use Rattle.report_picture.specs.OverTime.{CoversEachFrame, HasOneWidth};
ghost use Rattle.report_picture.specs.Kept.{IsOverTime, IsReadyFor, HasBegun};

use crate::few::Few;
use sched_report::Slots;

/// The most steps that there are.
pub const MOST_STEPS: usize = 800;

// No minislots.
pub(crate) const NO_SLOTS: Slots = Slots {
    data_grants: 0,
    idle: 0,
    open_idle: 0,
    opportunity: 0,
    poll: 0,
    request: 0,
    unsolicited: 0,
};

/// Some frames, one after the other.
#[derive(Clone, Copy)]
pub struct Step {
    /// The minislot at which the first of them starts.
    pub first: u64,
    /// The minislot at which the last of them starts.
    pub last: u64,
    /// What their minislots are for.
    pub slots: Slots,
}

// A step of no frames.
pub(crate) const NO_STEP: Step = Step {
    first: 0,
    last: 0,
    slots: NO_SLOTS,
};

// The marks: one more than there are steps.
type Marks = [Slots; 801];

// Where a frame at each mark starts.
type Starts = [u64; 801];

/// The use of minislots over time. It keeps the use of all frames before each step alone, and where the frames start
/// between which a step ends.
#[derive(Clone, Copy)]
pub(crate) struct UseOverTime {
    // How many frames a step has.
    pub(crate) width: u64,
    // How many frames there are.
    pub(crate) frames: u64,
    // The use of all of them.
    pub(crate) total: Slots,
    // Where the last of them starts.
    pub(crate) last: u64,
    // The use of those before each step, and before the first one that is not whole.
    pub(crate) marks: Marks,
    // Where the first frame of each step starts.
    pub(crate) firsts: Starts,
    // Where the last frame before each step starts, and before the first one that is not whole.
    pub(crate) lasts: Starts,
}

// Joins steps two by two: of what is told of each, what is told of each second one stays.
fn join<T: Copy + Drop>(row: &mut [T])
    requires { length row.old ≡ 801 }
    ensures long { length row.new ≡ 801 }
    ensures each { (i : ℕ) (t : T) → i ≤ 400
        → slice_index_or row.new i t ≡ slice_index_or row.old (2 * i) t }
{
    for i in 0..401 {
        row[i] = row[2 * i];
    }
}

// The minislots of one that are not among those of the other.
fn rest_of(all: Slots, before: Slots) -> Slots
    requires { (rest : Uses) × (all ≡ sum_of before rest) }
    ensures { (rest : Uses) → all ≡ sum_of before rest → result ≡ rest }
{
    Slots {
        data_grants: all.data_grants - before.data_grants,
        idle: all.idle - before.idle,
        open_idle: all.open_idle - before.open_idle,
        opportunity: all.opportunity - before.opportunity,
        poll: all.poll - before.poll,
        request: all.request - before.request,
        unsolicited: all.unsolicited - before.unsolicited,
    }
}

impl UseOverTime {
    // That of no frames.
    pub(crate) fn none() -> UseOverTime
        ensures { (c : Config) → IsOverTime c result [] }
    {
        UseOverTime {
            width: 1,
            frames: 0,
            total: NO_SLOTS,
            last: 0,
            marks: [NO_SLOTS; 801],
            firsts: [0; 801],
            lasts: [0; 801],
        }
    }

    // Makes the steps twice as wide, where one frame more has no step.
    fn widen(&mut self)
        requires { (c : Config) × (fs : List Frame) × IsOverTime c self.old fs × (length fs < 2 ^ 45) }
        ensures { (c : Config) (fs : List Frame)
            → IsOverTime c self.old fs → IsReadyFor c self.new fs }
    {
        if self.frames < 800 * self.width {
            return;
        }
        join(&mut self.marks);
        join(&mut self.firsts);
        join(&mut self.lasts);
        self.width *= 2;
    }

    // Notes where the next frame starts, where it is the first one of a step.
    fn begin(&mut self, start: u64)
        requires { (c : Config) × (fs : List Frame) × IsReadyFor c self.old fs × (length fs < 2 ^ 45) }
        ensures { (c : Config) (fs : List Frame)
            → IsReadyFor c self.old fs → HasBegun c self.new fs start }
    {
        if self.frames % self.width == 0 {
            self.firsts[(self.frames / self.width) as usize] = start;
        }
    }

    // Counts one frame more, which starts there, where this is the use of all frames with it.
    pub(crate) fn add(&mut self, total: Slots, start: u64)
        requires { (c : Config) × (fs : List Frame) × IsOverTime c self.old fs × (length fs < 2 ^ 45) }
        ensures { (c : Config) (fs : List Frame) (f : Frame) → IsOverTime c self.old fs
            → total ≡ use_in c (fs ++ f ∷ []) → start ≡ f.built.start
            → IsOverTime c self.new (fs ++ f ∷ []) }
    {
        self.widen();
        self.begin(start);
        self.frames += 1;
        self.total = total;
        self.last = start;
        if self.frames % self.width == 0 {
            let place = (self.frames / self.width) as usize;
            self.marks[place] = total;
            self.lasts[place] = start;
        }
    }

    // How many steps there are.
    pub(crate) fn steps(&self) -> usize
        requires { (c : Config) × (fs : List Frame) × IsOverTime c self.now fs × (length fs < 2 ^ 46) }
        ensures value { result ≡ steps_of self.now.width self.now.frames }
        ensures most { result ≤ 800 }
    {
        ((self.frames + (self.width - 1)) / self.width) as usize
    }

    // The use of the step at a place.
    fn slots(&self, i: usize) -> Slots
        requires { (c : Config) × (fs : List Frame) × IsOverTime c self.now fs × (length fs < 2 ^ 46)
            × (i < steps_of self.now.width self.now.frames) }
        ensures { (c : Config) (fs : List Frame) → IsOverTime c self.now fs
            → result ≡ use_in c (frames_at self.now.width fs i) }
    {
        let behind = self.width * (i as u64 + 1);
        let all = if behind <= self.frames {
            self.marks[i + 1]
        } else {
            self.total
        };
        rest_of(all, self.marks[i])
    }

    // Where the last frame of the step at a place starts.
    fn last(&self, i: usize) -> u64
        requires { (c : Config) × (fs : List Frame) × IsOverTime c self.now fs × (length fs < 2 ^ 46)
            × (i < steps_of self.now.width self.now.frames) }
        ensures { (c : Config) (fs : List Frame) → IsOverTime c self.now fs
            → result ≡ start_of fs (min (self.now.width * (i + 1)) (length fs) - 1) }
    {
        if self.width * (i as u64 + 1) <= self.frames {
            self.lasts[i + 1]
        } else {
            self.last
        }
    }

    // The step at a place.
    pub(crate) fn step(&self, i: usize) -> Step
        requires { (c : Config) × (fs : List Frame) × IsOverTime c self.now fs × (length fs < 2 ^ 46)
            × (i < steps_of self.now.width self.now.frames) }
        ensures { (c : Config) (fs : List Frame) → IsOverTime c self.now fs
            → result ≡ step_at c self.now.width fs i }
    {
        Step {
            first: self.firsts[i],
            last: self.last(i),
            slots: self.slots(i),
        }
    }

    // All steps.
    pub(crate) fn all_steps(&self) -> Few<Step, MOST_STEPS>
        requires { (c : Config) × (fs : List Frame) × IsOverTime c self.now fs × (length fs < 2 ^ 46) }
        ensures { (c : Config) (fs : List Frame) → IsOverTime c self.now fs
            → result ≡ all_steps c self.now.width fs }
    {
        let mut steps = Few::none(NO_STEP);
        for i in 0..self.steps() {
            steps.push(self.step(i));
        }
        steps
    }
}

/// The steps have all frames, each once, in their order.
pub fn every_step()
    ensures { CoversEachFrame }
{}

/// There is one width for so many frames, and no more than 800 steps.
pub fn every_width()
    ensures { HasOneWidth }
{}
