//! A MAP with the 64-bit times and the byte counts that do not go on the wire.

ghost use Rattle.std.specs.Prelude.{◌≡◌, IfOk};

use map_codec::{Elements, WireMap};
use std::alloc::{AllocError, Global};
use std::marker::Model;

/// Byte counts, one for each element of a MAP. Contracts see the list.
#[derive(Debug, Drop)]
pub struct ByteCounts {
    items: Vec<u32>,
}

impl Model for ByteCounts {
    ghost use Rattle.std.specs.Prelude.{ℕ, List};

    ghost Value = { List ℕ };

    ghost view = { λ b. b.items.items };
}

impl ByteCounts {
    ghost use Rattle.std.specs.Prelude.{◌≡◌};

    /// The counts in the vector. Takes no memory.
    pub fn from_vec(items: Vec<u32>) -> Self
        ensures { result ≡ items.items }
    {
        ByteCounts { items }
    }

    /// The vector of the counts. Takes no memory.
    pub fn into_vec(self) -> Vec<u32>
        ensures { result.items ≡ self }
    {
        let ByteCounts { items } = self;
        items
    }

    /// The counts.
    pub fn as_slice(&self) -> &[u32]
        ensures { result.now ≡ self.now }
    {
        self.items.as_slice()
    }
}

/// The MAP of one frame.
#[derive(Debug, Drop)]
pub struct FrameMap {
    /// The minislot at which the frame starts.
    pub start: u64,
    /// The acknowledge time: the minislot before which whatever a receiver heard was handed in.
    pub ack: u64,
    /// What goes on the wire.
    pub wire: WireMap,
    /// The bytes of each data grant among the elements, and 0 for every other element.
    pub bytes: ByteCounts,
}

impl FrameMap {
    /// The same MAP again, in memory of its own.
    pub fn copy(&self, alloc: Global) -> Result<FrameMap, AllocError>
        ensures { IfOk result (λ m. m ≡ self.now) }
    {
        Ok(FrameMap {
            start: self.start,
            ack: self.ack,
            wire: copy_of_wire(alloc, &self.wire)?,
            bytes: ByteCounts::from_vec(Vec::from_slice(alloc, self.bytes.as_slice())?),
        })
    }
}

/// The same fields again.
fn copy_of_wire(alloc: Global, wire: &WireMap) -> Result<WireMap, AllocError>
    ensures { IfOk result (λ m. m ≡ wire.now) }
{
    let elements = Elements::from_vec(Vec::from_slice(alloc, wire.elements.as_slice())?);
    Ok(WireMap {
        channel: wire.channel,
        ucd_count: wire.ucd_count,
        reserved: wire.reserved,
        alloc_start: wire.alloc_start,
        ack: wire.ack,
        ranging_start: wire.ranging_start,
        ranging_end: wire.ranging_end,
        data_start: wire.data_start,
        data_end: wire.data_end,
        elements,
    })
}
