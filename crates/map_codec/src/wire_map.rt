//! A MAP as it goes on the wire.

use crate::element::Elements;

/// How many bytes stand before the first element.
pub const HEADER_BYTES: usize = 16;
/// How many bytes an element takes.
pub const ELEMENT_BYTES: usize = 4;
/// How many elements a payload may have, the Null and what follows it among them.
pub const MAX_ELEMENTS: u8 = 240;
/// How many bytes the longest payload has.
pub const MAX_BYTES: usize = 976;

/// The fields of the payload of a MAP message (CM-SP-MULPIv3.0), in the order of its bytes, which is
/// this project's profile; the count of the elements stands between the UCD count and the reserved
/// byte.
#[derive(Debug, Drop)]
pub struct WireMap {
    /// The upstream channel.
    pub channel: u8,
    /// The configuration change count of the UCD that the MAP goes by.
    pub ucd_count: u8,
    /// The reserved byte, 0 in the MAPs that this project builds.
    pub reserved: u8,
    /// The minislot at which the MAP's allocations begin, low 32 bits.
    pub alloc_start: u32,
    /// The acknowledge time: the minislot before which whatever a receiver heard was handed in, low 32 bits.
    pub ack: u32,
    /// The start of the backoff window for ranging.
    pub ranging_start: u8,
    /// The end of the backoff window for ranging.
    pub ranging_end: u8,
    /// The start of the backoff window for requests and data.
    pub data_start: u8,
    /// The end of the backoff window for requests and data.
    pub data_end: u8,
    /// The information elements.
    pub elements: Elements,
}
