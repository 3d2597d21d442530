//! What a value has to be so that the lock can keep it.
ghost use Rattle.std.specs.Prelude.{◌≡◌, List, length, option_map, slice_get};
ghost use Rattle.minislots.specs.declared.stamp.Stamp.{Stamp};

use minislots::Stamp;

/// A value that is seen as a fixed head and a list of stamped entries. The list only grows; of its entries the value
/// really has those that it keeps, which the list tells.
pub trait Journal {
    /// What does not change while the value is under a lock.
    type Head;
    /// One entry of the list.
    type Entry;

    // What does not change.
    ghost head: { Self → Self.Head };

    // The entries, the oldest first.
    ghost entries: { Self → List Self.Entry };

    // Which entries of such a list are kept, the oldest first: all of them, or those after some.
    ghost kept: { List Self.Entry → List Self.Entry };

    // Who made an entry.
    ghost stamp: { Self.Entry → Stamp };

    /// How many entries of the list are kept.
    fn len(&self) -> usize
        ensures { result ≡ length (kept (entries self.now)) };

    /// Who made the kept entry at this place, counted from 0. None past the end.
    fn stamp_at(&self, i: usize) -> Option<Stamp>
        ensures { result ≡ option_map stamp (slice_get (kept (entries self.now)) i) };
}
