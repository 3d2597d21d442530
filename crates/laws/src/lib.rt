//! The laws of histories and journals, which are written and read, of requests that wait, and of what the commands mean
//! for one another.
#![tactic(auto)]

mod commands;
mod history;
mod journal;
mod runs;
mod waiting;

pub use commands::agrees_with_commands;
pub use history::every_history;
pub use journal::every_journal;
pub use runs::judges_runs_legal;
pub use waiting::every_wait;
