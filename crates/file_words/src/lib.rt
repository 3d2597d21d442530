//! What is said of a file that is read: where its faults are and what was expected there, or what it has.
#![tactic(auto)]

mod bursts;
mod config;
mod counts;
mod json_text;
mod lines;
mod load;
mod nearest;
mod notes;
mod objects;
mod one_line;
mod place;
mod refused;
mod settling;
mod sort;
mod tell;
mod walk;
mod words;
mod written;

pub use one_line::{words_on_line, words_on_opening};
pub use words::{words_on, words_on_text};
