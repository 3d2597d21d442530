//! The tokens of a JSON text in its usual spelling, read byte by byte: without escapes, and with any white space
//! between them.
#![tactic(auto)]

mod between;
mod blocks;
mod hexadecimal;
mod listed;
mod numbers;
mod quick;
mod short_numbers;
mod spelled;

pub use quick::Quick;
