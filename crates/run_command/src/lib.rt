//! The run of a script: the lines of its answers, plain or with words behind refusals, their history, or their journal.
#![tactic(auto)]

mod input;
mod output;
mod run;

pub use input::run_input;
pub use output::{RunOutput, Words};
pub use run::{run_script, run_with};
