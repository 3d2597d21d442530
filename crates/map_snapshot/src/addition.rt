//! What a press has appended, and is to be added to the list.
ghost use Rattle.std.specs.Prelude.{◌≡◌, ◌≤◌, Some, IsTrue};
ghost use Rattle.std.specs.Arc.{arc_value};
ghost use Rattle.map_snapshot.specs.declared.printed.TheConstants.{MAX_BYTES};
ghost use Rattle.map_snapshot.specs.Maps.{IsNewest, maps_in};
ghost use Rattle.map_snapshot.specs.Rules.{word_of};

use crate::counts::Counts;
use crate::list::{Seen, add};
use crate::printed::Printed;
use std::alloc::Global;
use std::marker::Model;
use std::sync::Arc;

/// A map that was appended, with the word that counts the list of its press. A press and its additions alone have
/// the word: nothing that a reader can reach adds to the list.
#[derive(Drop)]
pub struct Addition {
    printed: Printed,
    counts: Arc<Counts, Global>,
    seen: Seen,
}

impl Model for Addition {
    ghost use Rattle.std.specs.Prelude.{◌≡◌, ◌≤◌};
    ghost use Rattle.std.specs.Arc.{arc_value};
    ghost use Rattle.map_snapshot.specs.declared.printed.TheConstants.{MAX_BYTES};
    ghost use Rattle.map_snapshot.specs.Maps.{Coming};
    ghost use Rattle.map_snapshot.specs.Rules.{word_of};

    ghost Value = { Coming };

    ghost view = { λ a. record { press = a.seen.book; printed = a.printed } };

    ghost invariant = { λ a.
        ((arc_value a.counts).list ≡ word_of a.seen.book) × (a.printed.len ≤ MAX_BYTES) };
}

impl Addition {
    // The map, for the press whose word it is.
    pub(crate) fn new(printed: Printed, counts: Arc<Counts, Global>, seen: Seen) -> Addition
        requires own { (arc_value counts).list ≡ word_of seen.book }
        requires fits { printed.len ≤ MAX_BYTES }
        ensures made { result ≡ record { press = seen.book; printed = printed } }
    {
        Addition {
            printed,
            counts,
            seen,
        }
    }

    // The map.
    pub(crate) fn printed(&self) -> Printed
        ensures printed { result ≡ self.now.printed }
    {
        self.printed
    }

    // Adds the map to the list where it comes next: the list as it was seen then, and whether the map was added.
    // Readers learn of its version before they are shown it.
    pub(crate) fn add(&self) -> (Seen, bool)
        ensures press { result.0.book ≡ self.now.press }
        ensures added { IsTrue result.1 → IsNewest (Some self.now.printed) (maps_in result.0.log) }
    {
        let mut seen = self.seen.again();
        let added = add(&self.counts.list, &mut seen, &self.printed);
        if added {
            self.counts.latest.raise(self.printed.version);
        }
        (seen, added)
    }
}
