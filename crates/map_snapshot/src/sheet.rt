//! What readers take: one of the two copies.
ghost use Rattle.std.specs.Prelude.{◌≡◌, true, [], None};
ghost use mathlib.Core.List.{IsPrefix};
ghost use Rattle.map_snapshot.specs.Maps.{IsNewest, maps_in};

use crate::addition::Addition;
use crate::list::{Count, Seen};
use crate::printed::Printed;
use crate::told::Told;
use left_right::Absorb;
use std::alloc::AllocError;
use std::marker::Model;

/// The newest map, and the list that it stands last in, where it was added to the list.
#[derive(Drop)]
pub struct Sheet {
    printed: Option<Printed>,
    seen: Seen,
    listed: bool,
}

impl Model for Sheet {
    ghost use Rattle.std.specs.Prelude.{◌≡◌, true};
    ghost use Rattle.map_snapshot.specs.Maps.{Page, IsNewest, maps_in};

    ghost Value = { Page };

    ghost view = { λ s. record {
      press = s.seen.book;
      printed = s.printed;
      list = maps_in s.seen.log;
      listed = s.listed;
    } };

    ghost invariant = { λ s. s.listed ≡ true → IsNewest s.printed (maps_in s.seen.log) };
}

impl Sheet {
    // What readers take before anything was published.
    pub(crate) fn blank(seen: Seen) -> Sheet
        requires empty { seen.log ≡ [] }
        ensures made { result
            ≡ record { press = seen.book; printed = None; list = []; listed = true } }
    {
        Sheet {
            printed: None,
            seen,
            listed: true,
        }
    }

    // Whether the map was added to the list. It is, but for a copy that readers do not take.
    pub(crate) fn is_listed(&self) -> bool
        ensures listed { result ≡ self.now.listed }
        ensures newest { result ≡ true → IsNewest self.now.printed self.now.list }
    {
        self.listed
    }

    // The list as it was seen.
    pub(crate) fn seen(&self) -> &Seen
        ensures seen { (result.now.book ≡ self.now.press)
            × (maps_in result.now.log ≡ self.now.list) }
    {
        &self.seen
    }

    // What this copy tells.
    pub(crate) fn told(&self) -> Told
        requires listed { self.now.listed ≡ true }
        ensures told { result ≡ record { press = self.now.press; list = self.now.list } }
    {
        Told {
            printed: self.printed,
            seen: self.seen.again(),
        }
    }

    // Tells a reader of the same press.
    pub(crate) fn tell_to(&self, known: &mut Told)
        requires own { self.now.press ≡ known.old.press }
        ensures press { known.new.press ≡ known.old.press }
        ensures kept { IsPrefix known.old.list known.new.list }
        ensures told { self.now.listed ≡ true → IsPrefix self.now.list known.new.list }
    {
        if self.listed {
            known.take_in(&self.printed, &self.seen);
        }
    }
}

impl Absorb<Addition> for Sheet {
    ghost use Rattle.std.specs.Prelude.{Some};
    ghost use Rattle.map_snapshot.specs.Rules.{word_of};

    type State = (Option<Printed>, Count);

    ghost state = { λ s. (s.printed, word_of s.press) };

    ghost applied = { λ s addition. (Some addition.printed, word_of addition.press) };

    ghost never_fails = { Unit {0} };

    fn absorb_first(&mut self, operation: &Addition, _other: &Sheet) -> Result<(), AllocError> {
        self.printed = Some(operation.printed());
        let (seen, listed) = operation.add();
        self.seen = seen;
        self.listed = listed;
        Ok(())
    }
}
