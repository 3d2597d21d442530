//! A map as it is published.

/// The most bytes that a map takes.
pub const MAX_BYTES: usize = 976;

/// One version of the map: the first `len` of the bytes. The first version is 1.
#[derive(Clone, Copy)]
pub struct Printed {
    /// How many maps were published up to this one.
    pub version: u64,
    /// How many of the bytes are the map's.
    pub len: usize,
    /// The map, and then what does not matter.
    pub bytes: [u8; MAX_BYTES],
}
