//! The bursts of a channel: the minislots that so many bytes take by each profile, how much of what a grant carries is
//! information, and the most bytes of a grant of so many minislots; as tables for people and as JSON for programs.
#![tactic(auto)]

mod channel;
mod command;
mod input;
mod json;
mod numbers;
mod table;
mod text;

pub use channel::{Channel, channel_of, request_of};
pub use command::{BurstsForm, run_bursts};
pub use input::bursts_input;
pub use numbers::slots_by;
