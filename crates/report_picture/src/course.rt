//! Where the steps of a course of frames stand in time.

ghost use Rattle.std.specs.Prelude.{◌≡◌, ◌^◌, ◌<◌, ◌≤◌};
ghost use Rattle.report_picture.specs.Course.{first_frame, frame_behind, end_of, length_of, height_of, time_since};
ghost use Rattle.report_picture.specs.Course.{time_place, HeightsStand};

use crate::axis::{HEIGHT, WIDTH, place};
use crate::over_time::Step;

/// Frames, one after the other, and how they are put into steps.
#[derive(Clone, Copy)]
pub struct Course {
    /// The minislots of a frame.
    pub frame: u32,
    /// The ticks of a minislot.
    pub ticks: u32,
    /// How many frames there are.
    pub frames: u64,
    /// How many of them each step has: the last one has those that are left.
    pub width: u64,
    /// The minislot at which the first one starts.
    pub from: u64,
    /// The minislots from there to the end of the last one.
    pub span: u64,
    /// Whether idles are open to requests.
    pub opens: bool,
}

// The number of the first frame of a step.
pub(crate) fn first_frame(course: Course, i: usize) -> u64
    requires narrow { course.width ≤ 2 ^ 45 }
    requires near { i ≤ 800 }
    ensures { result ≡ first_frame course i }
{
    (course.width * i as u64).min(course.frames)
}

// The number of the frame behind its last one.
pub(crate) fn frame_behind(course: Course, i: usize) -> u64
    requires narrow { course.width ≤ 2 ^ 45 }
    requires near { i ≤ 800 }
    ensures { result ≡ frame_behind course i }
{
    (course.width * (i as u64 + 1)).min(course.frames)
}

// The minislot at which the frame ends that starts there.
pub(crate) fn end_of(course: Course, start: u64) -> u128
    ensures value { result ≡ end_of course start }
    ensures small { result < 2 ^ 80 }
{
    u128::from(start) + u128::from(course.frame)
}

// How many minislots a step is long, those of frames that were left out among them.
fn length_of(course: Course, step: Step) -> u128
    ensures { result ≡ length_of course step }
{
    end_of(course, step.last).saturating_sub(u128::from(step.first))
}

/// How high so many minislots of a step stand, in tenths of a unit: 320 units stand for as many as it is long, those of
/// frames that were left out among them.
pub fn height_of(course: Course, step: Step, slots: u128) -> u128
    requires few { slots < 2 ^ 100 }
    ensures { result ≡ height_of course step slots }
{
    place(HEIGHT, slots, length_of(course, step))
}

// How many minislots there are from where the first frame starts up to this one.
pub(crate) fn time_since(course: Course, minislot: u128) -> u128
    requires { minislot < 2 ^ 80 }
    ensures value { result ≡ time_since course minislot }
    ensures small { result < 2 ^ 80 }
{
    minislot.saturating_sub(u128::from(course.from))
}

// Where a minislot stands, in tenths of a unit: 1024 units stand for the time from the start of the first frame to the
// end of the last one.
pub(crate) fn time_place(course: Course, minislot: u128) -> u128
    requires { minislot < 2 ^ 80 }
    ensures { result ≡ time_place course minislot }
{
    place(WIDTH, time_since(course, minislot), u128::from(course.span))
}

/// Minislots of a step stand as high as they are of those that it is long, to less than a tenth of a unit.
pub fn every_height()
    ensures { HeightsStand }
{}
