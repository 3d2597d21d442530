//! The picture of a report in SVG: the use of minislots over time, stacked, and the delays of requests by rank.
//!
//! However many frames there are, time is put into at most 800 steps of as many frames each, and no frame is kept. The
//! use of a step stands upon those below it, as high as its minislots are of all those from the start of the step's
//! first frame to the end of its last one, those of frames that were left out among them. Places are told in tenths of
//! a unit, rounded down.
#![tactic(auto)]

mod areas;
mod axes;
mod axis;
mod course;
mod decades;
mod delays;
mod few;
mod filled;
mod head;
mod legend;
mod levels;
mod over_time;
mod picture;
mod ranks;
mod rows;
mod scale;
mod spread;
mod timed;

pub use axis::place;
pub use course::{Course, every_height, height_of};
pub use levels::{every_level, level_place};
pub use over_time::{MOST_STEPS, every_step, every_width};
pub use picture::put_report_picture;
pub use scale::{Scale, every_delay};
pub use timed::TimedReporter;
