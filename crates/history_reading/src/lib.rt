//! The histories that are read.
#![tactic(auto)]

mod recorded;

pub use recorded::{entry_in, read_history, refusal_with};
