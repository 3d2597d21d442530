//! The two ends of the copies, and the rule that both are of one list.
use crate::addition::Addition;
use crate::list::Count;
use crate::sheet::Sheet;
use atomic_table::{Join, Split};
use crossbeam_utils::rule::{Outcome, Protocol};
use left_right::{reader, writer};

/// What an end knows: nothing, or which word counts the list. No value of it is made.
pub type Name = Option<Count>;

/// Each end that knows a word knows that of the copy that readers take.
pub struct OneList;

impl Protocol<Sheet, Name> for OneList {
    ghost use Rattle.std.specs.Prelude.{None};
    ghost use Rattle.map_snapshot.specs.Rules.{AllName, word_of};

    ghost holds = { λ s names. AllName (word_of s.press) names };

    ghost first = { None };
}

/// The one end that publishes.
pub type Writer = writer::Writer<Sheet, Addition, Name, OneList>;

/// An end that reads.
pub type Reader = reader::Reader<Sheet, Name, OneList>;

/// A publish: the writer knows the word of the copy that it shows.
pub struct Shows;

impl Outcome<Sheet, Name> for Shows {
    ghost use Rattle.std.specs.Prelude.{◌≡◌, Some};
    ghost use Rattle.map_snapshot.specs.Rules.{word_of};

    ghost then = { λ v x y w. w ≡ Some (word_of y.press) };
}

/// A read: the copy is of the list that the reader knows.
pub struct Finds;

impl Outcome<Sheet, Name> for Finds {
    ghost use Rattle.std.specs.Prelude.{◌≡◌};
    ghost use Rattle.map_snapshot.specs.Rules.{IsNameOf, word_of};

    ghost then = { λ v x y w. IsNameOf (word_of y.press) v × (w ≡ v) };
}

/// The writer tells what it knows.
pub struct Same;

impl Split<Name> for Same {
    ghost left = { λ v. v };

    ghost right = { λ v. v };
}

/// A new reader knows what it was told.
pub struct Takes;

impl Join<Name> for Takes {
    ghost use Rattle.std.specs.Prelude.{None};

    ghost both = { λ v w. w };

    ghost spent = { None };
}
