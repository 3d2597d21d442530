//! The payload of a MAP message, CM-SP-MULPIv3.0: its fields, its bytes, and the reading of them.
//!
//! A payload is 16 fixed bytes and then one 32-bit word for each information element, each number
//! most significant byte first. The order and widths of the fixed bytes, and the count of all
//! elements among them, are this project's profile.
#![tactic(auto)]

mod checking;
mod decoding;
mod element;
mod encoding;
mod fault;
mod map_fault;
mod wire_map;

pub use decoding::{decode, every_spelling};
pub use element::{Element, Elements, iuc};
pub use encoding::encode;
pub use fault::DecodeFault;
pub use map_fault::MapFault;
pub use wire_map::{ELEMENT_BYTES, HEADER_BYTES, MAX_BYTES, MAX_ELEMENTS, WireMap};
