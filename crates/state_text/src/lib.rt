//! The text of a scheduler's state, written and read.
#![tactic(auto)]

mod flow;
mod found;
mod number;
mod reading;
mod reserve;
mod state;

pub use reading::{has_unique_keys, read_state, state_of_value};
pub use state::state_text;
