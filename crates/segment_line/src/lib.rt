//! The first line of a journal that is one segment of a chain: written and read.
#![tactic(auto)]

mod opening;
mod reading;
mod segment;
mod writing;

pub use reading::read_first_line;
pub use segment::{FirstLine, MAX_FIRST_LINE, Segment};
pub use writing::segment_text;
