//! JSON values, read as a tree or straight from the tokens of a text, and the fields of their objects: texts, whole
//! numbers that fit their type, and a whole configuration.
#![tactic(auto)]

mod bursts;
mod config;
mod field;
pub mod forms;
mod plain;
mod tree;

pub use config::{config_in, config_of};
pub use field::{
    member, number_u8, number_u8_or, number_u16, number_u32, number_u32_or, number_u64, text,
};
pub use plain::{Plain, Stop, read_plain};
pub use tree::Tree;
