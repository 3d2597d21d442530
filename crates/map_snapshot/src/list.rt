//! The list of what a press has published. It exists in the proofs alone; what runs is one word, which counts it and
//! says whether it has ended.
ghost use Rattle.std.specs.Prelude.{◌≡◌, ◌≤◌, IsTrue, Some, length};
ghost use mathlib.Core.List.{IsPrefix};
ghost use Rattle.map_snapshot.specs.declared.printed.TheConstants.{MAX_BYTES};
ghost use Rattle.map_snapshot.specs.Maps.{IsNewest, IsWhole, maps_in};
ghost use Rattle.map_snapshot.specs.Rules.{word_of};

use crate::printed::Printed;
use logbook::{Gain, Offer, Plain, Play, Rule, Word};

/// What the word says once the list has ended. No list has so many maps that one more could be counted.
pub const ENDED: u64 = u64::MAX;

/// What stands in the list: a map, or that it has ended. A clause reads an array as a list, of any length.
pub enum Entry {
    /// A published map.
    Published([u8; 0]),
    /// Nothing stands behind it.
    End,
}

/// What holds of the word and of the list.
pub struct Counted;

impl Rule<Entry, ()> for Counted {
    ghost use Rattle.std.specs.Prelude.{[]};
    ghost use base.Fml.{ftrue};
    ghost use Rattle.map_snapshot.specs.Rules.{CountsList};

    ghost holds = { λ cells log. CountsList cells log };

    ghost first = { [] };

    ghost hinted = { λ n log. Unit {0} };

    ghost shows = { λ log. [] };

    ghost keeps = { λ names log. ftrue };

    ghost moves = { λ ask before after answer. Unit {0} };
}

/// A step trades nothing.
pub struct Nothing;

impl Gain<Entry, ()> for Nothing {
    ghost use base.Fml.{ftrue};

    ghost after = { λ names about answer. ftrue };
}

/// The step that adds an entry to the list.
pub struct Adds;

impl Play<Entry, ()> for Adds {
    ghost use Rattle.map_snapshot.specs.Rules.{Added};

    ghost then = { Added };
}

impl Plain<Printed, Entry, ()> for Adds {
    ghost use Rattle.std.specs.Prelude.{None};
    ghost use Rattle.map_snapshot.specs.Maps.{map_in};
    ghost use Rattle.map_snapshot.specs.declared.list.Entry.TheVariants.{Published};

    ghost ask = { λ printed. Published (map_in printed) };

    ghost state = { λ printed. None };
}

impl Plain<(), Entry, ()> for Adds {
    ghost use Rattle.std.specs.Prelude.{None};
    ghost use Rattle.map_snapshot.specs.declared.list.Entry.TheVariants.{End};

    ghost ask = { λ nothing. End };

    ghost state = { λ nothing. None };
}

/// The word of the list.
pub type Count = Word<Entry, (), Counted>;

/// What was seen of the list. It has no bytes.
pub type Seen = logbook::Seen<Entry, (), Counted>;

// Adds the map to the list where its version says that it comes next, and says whether it did.
pub(crate) fn add(count: &Count, seen: &mut Seen, printed: &Printed) -> bool
    requires own { count.now ≡ word_of seen.old.book }
    requires fits { printed.now.len ≤ MAX_BYTES }
    ensures book { seen.new.book ≡ seen.old.book }
    ensures added { IsTrue result → IsNewest (Some printed.now) (maps_in seen.new.log) }
{
    let version = printed.version;
    let Some(before) = version.checked_sub(1) else {
        return false;
    };
    let mut offer: Offer<Entry, (), Counted, Nothing> = seen.plain::<Nothing, Printed, Adds>(
        printed,
    );
    let mut pen = seen.no_pen();
    let found = count.compare_exchange::<Adds, Nothing>(
        before, version, seen, &mut offer, &mut pen,
    );
    found == before
}

// Ends the list where it has so many maps, and says whether it did.
pub(crate) fn end(count: &Count, seen: &mut Seen, maps: u64) -> bool
    requires own { count.now ≡ word_of seen.old.book }
    ensures book { seen.new.book ≡ seen.old.book }
    ensures grows { IsPrefix seen.old.log seen.new.log }
    ensures ended { IsTrue result → IsWhole seen.new.log }
    ensures count { IsTrue result → length (maps_in seen.new.log) ≡ maps }
{
    if maps == ENDED {
        return false;
    }
    let mut offer: Offer<Entry, (), Counted, Nothing> = seen.plain::<Nothing, (), Adds>(&());
    let mut pen = seen.no_pen();
    let found = count.compare_exchange::<Adds, Nothing>(maps, ENDED, seen, &mut offer, &mut pen);
    found == maps
}
