//! A periodic flow's place in the cycle.

ghost use Rattle.std.specs.Prelude.{◌≡◌, IfOk};

use std::alloc::{AllocError, Global};
use std::marker::Model;

/// The starts of a placement: offsets in their frames, as many for each nominal frame of the cycle as the flow has
/// grants per interval, in the order of the frames, ascending in each. Contracts see the list.
#[derive(Debug, Drop)]
pub struct Starts {
    items: Vec<u16>,
}

impl Model for Starts {
    ghost use Rattle.std.specs.Prelude.{ℕ, List};

    ghost Value = { List ℕ };

    ghost view = { λ s. s.items.items };
}

impl Starts {
    ghost use Rattle.std.specs.Prelude.{◌≡◌};

    /// The starts in the vector. Takes no memory.
    pub fn from_vec(items: Vec<u16>) -> Self
        ensures { result ≡ items.items }
    {
        Starts { items }
    }

    /// The vector of the starts. Takes no memory.
    pub fn into_vec(self) -> Vec<u16>
        ensures { result.items ≡ self }
    {
        let Starts { items } = self;
        items
    }

    /// The starts.
    pub fn as_slice(&self) -> &[u16]
        ensures { result.now ≡ self.now }
    {
        self.items.as_slice()
    }
}

/// Where a periodic flow stands in the cycle of frames.
#[derive(Debug, Drop)]
pub struct Placement {
    /// The minislot of its first nominal time. It gives the phase and the offset of all others.
    pub reference: u64,
    /// Where its grants start in each nominal frame of the cycle.
    pub starts: Starts,
}

impl Placement {
    /// The same placement again, in memory of its own.
    pub fn copy(&self, alloc: Global) -> Result<Placement, AllocError>
        ensures { IfOk result (λ p. p ≡ self.now) }
    {
        Ok(Placement {
            reference: self.reference,
            starts: Starts::from_vec(Vec::from_slice(alloc, self.starts.as_slice())?),
        })
    }
}
