//! The scripts that are read: those of a run, and those of a storm.
#![tactic(auto)]

mod script;

pub use script::{read_script, read_storm};
