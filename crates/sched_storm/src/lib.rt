//! A storm: scripts that threads run at the same time, each with a seat of its own, on one scheduler under its lock;
//! and the command, from its script to the lines of its tally.
#![tactic(auto)]

mod gate;
mod gather;
mod input;
mod jobs;
mod lines;
mod reading;
mod run;
mod starts;
mod storm;
mod tally;
mod worker;

pub use gate::Gate;
pub use input::storm_input;
pub use run::run_storm;
pub use starts::Starts;
pub use storm::storm_with;
pub use tally::{StormFault, Tally};
