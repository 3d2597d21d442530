//! The place where one thread leaves something, and how another takes it up, and answers it or calls the first one up.
ghost use Rattle.std.specs.Prelude.{◌≡◌, [], ◌∷◌, Some, None, IfOk, IfErr};
ghost use Rattle.call_queue.specs.declared.board.TheConstants.{WAITING};

use crate::board::{ANSWERED, Board, CALLED, Place, TAKEN, VACANT, WAITING, WORDS};
use crate::deal::Deal;
use crate::plays::{CallUp, Stay, TakeUp, Tell};
use crate::slip::{Kept, Slip};
use crate::waking::WakeDue;
use atomic_table::Table;
use std::alloc::{AllocError, Global};
use std::marker::Model;
use std::sync::atomic::AtomicU64;

/// A place where one thread at a time leaves something. Another takes it up and answers it, each by one exchange. What
/// is taken back is an answer to what was left, or that itself.
#[derive(Drop)]
pub struct Tray<D: Deal> {
    pub(crate) table: Board<D>,
    // 1 while whoever left something sleeps or is about to, and else 0. No clause tells of it.
    pub(crate) asleep: AtomicU64,
}

impl<D: Deal> Model for Tray<D> {
    ghost use Rattle.std.specs.Prelude.{◌≡◌};
    ghost use Rattle.call_queue.specs.Tokens.{AtTray};

    ghost Value = { AtTray D.About };

    ghost view = { λ t. record { table = t.table.shared.table_id; about = t.table.shared.key } };

    ghost invariant = { λ t. (t.table.shared.table_id.words ≡ 16)
        × (t.table.shared.table_id.slots ≡ 1) };
}

/// What a thread has that has taken up what was left on a tray. It has no `Drop`, so it has to answer it, or put it
/// back.
#[must_use]
pub struct Serving<D: Deal> {
    place: Place<D>,
}

impl<D: Deal> Model for Serving<D> {
    ghost use Rattle.std.specs.Prelude.{◌≡◌, [], ◌∷◌, None};
    ghost use Rattle.call_queue.specs.Tokens.{Standing, standing_of};
    ghost use Rattle.call_queue.specs.declared.board.Doing.TheVariants.{Serves};

    ghost Value = { Standing D.About D.Left };

    ghost view = { λ s. standing_of s.place.table_id s.place.me.0 };

    ghost invariant = { λ s. ((l : D.Left) × (s.place.me.0.doing ≡ Serves l))
        × (s.place.me.1 ≡ (0, None) ∷ []) };
}

/// What a thread has that found nothing to take up on a tray. It has no `Drop`, so it has to call up whoever left
/// something there since.
#[must_use]
pub struct Missed<D: Deal> {
    place: Place<D>,
}

impl<D: Deal> Model for Missed<D> {
    ghost use Rattle.call_queue.specs.Tokens.{Standing, standing_of};

    ghost Value = { Standing D.About D.Left };

    ghost view = { λ m. standing_of m.place.table_id m.place.me.0 };
}

impl<D: Deal> Tray<D> {
    /// Opens a tray that was told this. Nothing lies on it.
    pub fn open(alloc: Global, about: &D::About) -> Result<Tray<D>, AllocError>
        ensures about { IfOk result (λ t. t.about ≡ about.now) }
    {
        let words = [VACANT; WORDS];
        let (table, _place) = Table::vacant(alloc, &words, 1, about)?;
        Ok(Tray {
            table,
            asleep: AtomicU64::new(0),
        })
    }

    /// Takes up what was left, if there is something. One step, no memory, no wait.
    pub fn take_up(&self) -> Result<(D::Left, Serving<D>), Missed<D>>
        ensures taken { IfOk result
            (λ r. r.1 ≡ record { tray = self.now; left = Some r.0; missed = [] }) }
        ensures fits { IfOk result (λ r. D.fits self.now.about r.0) }
        ensures missed { IfErr result
            (λ m. m ≡ record { tray = self.now; left = None; missed = WAITING ∷ [] }) }
    {
        let steps = &self.table.shared;
        let (_, mut place) = steps.load_new_seat::<Stay>(0);
        let found = steps.compare_exchange::<TakeUp<D>>(&mut place, 0, WAITING, TAKEN);
        if found != WAITING {
            return Err(Missed { place });
        }
        let lying = steps.exchange(&mut place, 0, None);
        let Some(kept) = lying else { unreachable!() };
        let slip = kept.into_slip();
        let Slip::Left(left) = slip else {
            unreachable!()
        };
        Ok((left, Serving { place }))
    }

    /// Answers what was taken up. It takes no memory and waits for nobody.
    pub fn answer(&self, serving: Serving<D>, back: D::Back) -> WakeDue<D>
        requires own { serving.tray ≡ self.now }
        requires answers { (l : D.Left) × (serving.left ≡ Some l) × D.answers l back }
        ensures due { result.tray ≡ self.now }
    {
        let Serving { mut place } = serving;
        let steps = &self.table.shared;
        let none = steps.exchange(&mut place, 0, Some(Kept::of(Slip::Back(back))));
        let None = none else { unreachable!() };
        steps.store::<Tell>(&mut place, 0, ANSWERED);
        WakeDue::of(place)
    }

    /// Puts back what was taken up, as it was left, and has whoever left it take it back. It takes no memory and waits
    /// for nobody.
    pub fn put_back(&self, serving: Serving<D>, left: D::Left) -> WakeDue<D>
        requires own { serving.tray ≡ self.now }
        requires same { serving.left ≡ Some left }
        ensures due { result.tray ≡ self.now }
    {
        let Serving { mut place } = serving;
        let steps = &self.table.shared;
        let none = steps.exchange(&mut place, 0, Some(Kept::of(Slip::Left(left))));
        let None = none else { unreachable!() };
        steps.store::<Tell>(&mut place, 0, CALLED);
        WakeDue::of(place)
    }

    /// Has whoever left something take it back, if nobody has taken it up. It takes no memory and waits for nobody.
    pub fn call_up(&self) -> WakeDue<D>
        ensures due { result.tray ≡ self.now }
    {
        let (_, place) = self.table.shared.load_new_seat::<Stay>(0);
        self.call_up_at(place)
    }

    /// The same by a thread that found nothing to take up.
    pub fn call_up_missed(&self, missed: Missed<D>) -> WakeDue<D>
        requires own { missed.tray ≡ self.now }
        ensures due { result.tray ≡ self.now }
    {
        let Missed { place } = missed;
        self.call_up_at(place)
    }

    // The same with a token at this tray.
    fn call_up_at(&self, place: Place<D>) -> WakeDue<D>
        requires table { place.table_id ≡ self.now.table }
        requires about { place.me.0.about ≡ self.now.about }
        ensures due { result.tray ≡ self.now }
    {
        let mut place = place;
        let steps = &self.table.shared;
        let _found = steps.compare_exchange::<CallUp>(&mut place, 0, WAITING, CALLED);
        WakeDue::of(place)
    }
}
