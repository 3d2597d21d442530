//! A reader.
ghost use Rattle.std.specs.Prelude.{◌≡◌, ◌⊎◌};
ghost use mathlib.Core.List.{IsPrefix};
ghost use Rattle.map_snapshot.specs.Maps.{IsNewest};

use crate::ends;
use crate::ends::Finds;
use crate::latest::Latest;
use crate::printed::Printed;
use crate::told::Told;
use crate::whole::Whole;
use std::marker::Model;

/// What reads the newest map, with no lock. It keeps the newest that it knows.
#[derive(Drop)]
pub struct Reader {
    // It is there between two reads.
    pub(crate) end: Option<ends::Reader>,
    pub(crate) known: Told,
    pub(crate) latest: Latest,
}

impl Model for Reader {
    ghost use Rattle.std.specs.Prelude.{◌≡◌, Some, IsSomeAnd};
    ghost use Rattle.left_right.specs.Sides.{view as name_in};
    ghost use Rattle.map_snapshot.specs.Maps.{Known};
    ghost use Rattle.map_snapshot.specs.Rules.{word_of};

    ghost Value = { Known };

    ghost view = { λ r. r.known };

    ghost invariant = { λ r.
        IsSomeAnd r.end (λ e. name_in e.place ≡ Some (word_of r.known.press)) };
}

impl Reader {
    // Takes in what readers take now, where it is newer than what the reader knows. Not a part of its callers: most
    // reads find nothing newer.
    #[cold]
    #[inline(never)]
    #[tactic(auto, using(crate::proofs::Beginnings::prefix_self))]
    fn read(&mut self)
        ensures press { self.new.press ≡ self.old.press }
        ensures grows { IsPrefix self.old.list self.new.list }
    {
        let Some(end) = self.end.take() else {
            unreachable!()
        };
        match end.enter_as::<Finds>() {
            Ok(reading) => {
                reading.get().tell_to(&mut self.known);
                self.end = Some(reading.leave());
            }
            Err(end) => self.end = Some(end),
        }
    }

    /// The newest map of the list that the reader then knows, or none where that is empty. The list begins with the
    /// one before, so the map is never older than one read before, nor than one that the reader was told of. Its
    /// length is at most `MAX_BYTES`. It takes no memory and no lock, and waits for nobody.
    #[inline(always)]
    pub fn newest(&mut self) -> Option<Printed>
        ensures press { self.new.press ≡ self.old.press }
        ensures grows { IsPrefix self.old.list self.new.list }
        ensures newest { IsNewest result self.new.list }
    {
        if self.latest.is_past(self.known.version()) {
            self.read();
        }
        self.known.newest()
    }

    /// Takes in what its own press told. The list that the reader then knows is the one before or the one that it
    /// was told, and both begin it. It takes no memory, and waits for nobody.
    pub fn learn(&mut self, told: Told)
        requires own { told.press ≡ self.old.press }
        ensures press { self.new.press ≡ self.old.press }
        ensures kept { IsPrefix self.old.list self.new.list }
        ensures told { IsPrefix told.list self.new.list }
        ensures one { (self.new.list ≡ self.old.list) ⊎ (self.new.list ≡ told.list) }
    {
        self.known.take_in(&told.printed, &told.seen);
    }

    /// Takes in all that its press has published. The list that the reader knew before is a beginning of the whole
    /// list, whatever it had read, and the whole list is what it knows then. It takes no memory, and waits for nobody.
    pub fn learn_whole(&mut self, whole: &Whole)
        requires own { whole.now.press ≡ self.old.press }
        ensures press { self.new.press ≡ self.old.press }
        ensures whole { self.new.list ≡ whole.now.list }
        ensures began { IsPrefix self.old.list whole.now.list }
    {
        self.known.take_whole(whole);
    }
}
