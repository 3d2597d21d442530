//! A MAP drawn: its allocations, and its frame in rows of characters.
//!
//! Each allocation stands in a drawing once, at its place: from its offset to that of the next element.
#![tactic(auto)]

mod allocation;
mod legend;
mod rows;
mod text;
mod usage;

pub use allocation::{Allocation, allocation_at, front_len};
pub use legend::draw_frame;
pub use rows::every_drawing;
pub use usage::{ALL_MODEMS, ElementUsage};
