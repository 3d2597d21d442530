//! What a press has published, once it has ended.
ghost use Rattle.std.specs.Prelude.{◌≡◌, IfSome};
ghost use mathlib.Core.List.{IsPrefix};
ghost use Rattle.map_snapshot.specs.Rules.{word_of};

use crate::list::{Count, Seen, end};
use crate::printed::Printed;
use crate::told::Told;
use std::marker::Model;

/// What a press that has ended has published, for good: which press it was, its maps, and the newest of them. The list
/// has an end, behind which nothing can be added.
#[derive(Drop)]
pub struct Whole {
    pub(crate) printed: Option<Printed>,
    pub(crate) seen: Seen,
}

impl Model for Whole {
    ghost use Rattle.map_snapshot.specs.Maps.{Known, IsNewest, IsWhole, maps_in};

    ghost Value = { Known };

    ghost view = { λ w. record { press = w.seen.book; list = maps_in w.seen.log } };

    ghost invariant = { λ w. IsNewest w.printed (maps_in w.seen.log) × IsWhole w.seen.log };
}

impl Whole {
    // Ends the list behind what was told, if nothing more stands in it.
    pub(crate) fn of(told: &Told, count: &Count) -> Option<Whole>
        requires own { count.now ≡ word_of told.now.press }
        ensures whole { IfSome result (λ whole. whole ≡ told.now) }
    {
        let mut seen = told.seen.again();
        if end(count, &mut seen, told.version()) {
            return Some(Whole {
                printed: told.newest(),
                seen,
            });
        }
        None
    }
}

impl Told {
    // Takes in all that its press has published: what was known before is a beginning of it.
    pub(crate) fn take_whole(&mut self, whole: &Whole)
        requires own { whole.now.press ≡ self.old.press }
        ensures press { self.new.press ≡ self.old.press }
        ensures whole { self.new.list ≡ whole.now.list }
        ensures began { IsPrefix self.old.list whole.now.list }
    {
        let mut both = whole.seen.again();
        both.learn(&self.seen);
        self.take_in(&whole.printed, &whole.seen);
    }
}
