//! How a thread leaves something on a tray, waits for the answer, and takes that or what it left back.
//!
//! It sleeps on the word of its tray while that tells that nobody has taken up what it left. It says before that it
//! does (`waking`).
ghost use Rattle.std.specs.Prelude.{◌≡◌, ◌⊎◌, [], ◌∷◌, Some, IfOk, IfErr};
ghost use Rattle.call_queue.specs.declared.board.TheConstants.{WAITING, ANSWERED, CALLED};

use crate::board::{ANSWERED, CALLED, CLAIMED, Place, VACANT, WAITING};
use crate::deal::Deal;
use crate::plays::{Claim, Part, PutDown, Stay, TakeBack, Withdraw};
use crate::slip::{Kept, Slip};
use crate::tray::Tray;
use std::hint;
use std::marker::Model;
use std::sync::Wait;
use std::sync::atomic::Ordering::SeqCst;

// How often a thread looks before it sleeps. It never yields: where other processes keep the cores busy, a thread that
// yields waits for the whole slice of one of them.
const LOOKS: u32 = 1000;

/// What a thread has that left something on a tray. It has no `Drop`, so it has to take something back.
#[must_use]
pub struct Waiting<D: Deal> {
    place: Place<D>,
}

impl<D: Deal> Model for Waiting<D> {
    ghost use Rattle.std.specs.Prelude.{◌≡◌, []};
    ghost use Rattle.call_queue.specs.Tokens.{Standing, standing_of};
    ghost use Rattle.call_queue.specs.declared.board.Doing.TheVariants.{Waits};

    ghost Value = { Standing D.About D.Left };

    ghost view = { λ w. standing_of w.place.table_id w.place.me.0 };

    ghost invariant = { λ w. ((l : D.Left) × (w.place.me.0.doing ≡ Waits l))
        × (w.place.me.1 ≡ []) };
}

// A thread that sleeps or is about to: its tray tells it. It has no `Drop`, so it has to rise.
#[must_use]
struct Lying {
    awaited: u32,
}

impl<D: Deal> Tray<D> {
    /// Leaves this, if nothing lies there, or gives it back. It takes no memory and waits for nobody.
    pub fn leave(&self, left: D::Left) -> Result<Waiting<D>, D::Left>
        requires fits { D.fits self.now.about left }
        ensures left { IfOk result
            (λ w. w ≡ record { tray = self.now; left = Some left; missed = [] }) }
        ensures given_back { IfErr result (λ l. l ≡ left) }
    {
        let steps = &self.table.shared;
        let (_, mut place) = steps.load_new_seat::<Stay>(0);
        let found = steps.compare_exchange::<Claim>(&mut place, 0, VACANT, CLAIMED);
        if found != VACANT {
            return Err(left);
        }
        let none = steps.exchange(&mut place, 0, Some(Kept::of(Slip::Left(left))));
        let None = none else { unreachable!() };
        steps.store::<PutDown>(&mut place, 0, WAITING);
        Ok(Waiting { place })
    }

    /// Takes back the answer to what was left, if it is there. One step, no memory, no wait.
    pub fn take_back(&self, waiting: Waiting<D>) -> Result<D::Back, Waiting<D>>
        requires own { waiting.tray ≡ self.now }
        ensures answered { IfOk result
            (λ b. (l : D.Left) × (waiting.left ≡ Some l) × D.answers l b) }
        ensures given_back { IfErr result
            (λ w. w ≡ record waiting { missed = ANSWERED ∷ waiting.missed }) }
    {
        let Waiting { mut place } = waiting;
        let steps = &self.table.shared;
        let found = steps.compare_exchange::<TakeBack<D>>(&mut place, 0, ANSWERED, CLAIMED);
        if found != ANSWERED {
            return Err(Waiting { place });
        }
        let lying = steps.exchange(&mut place, 0, None);
        steps.store::<Part>(&mut place, 0, VACANT);
        let Some(kept) = lying else { unreachable!() };
        let slip = kept.into_slip();
        let Slip::Back(back) = slip else {
            unreachable!()
        };
        Ok(back)
    }

    /// Takes back what was left, if nobody has taken it up, whether this thread was called up or not. Two steps at
    /// most, no memory, no wait.
    pub fn withdraw(&self, waiting: Waiting<D>) -> Result<D::Left, Waiting<D>>
        requires own { waiting.tray ≡ self.now }
        ensures left { IfOk result (λ l. waiting.left ≡ Some l) }
        ensures given_back { IfErr result
            (λ w. w ≡ record waiting { missed = CALLED ∷ WAITING ∷ waiting.missed }) }
    {
        match self.withdraw_at(waiting, WAITING) {
            Ok(left) => Ok(left),
            Err(same) => self.withdraw_at(same, CALLED),
        }
    }

    /// Takes back what was left, if nobody has taken it up, and else waits for the answer, or until this thread is to
    /// take it back.
    pub fn withdraw_or_wait<R: Wait>(&self, rt: &R, waiting: Waiting<D>) -> Result<D::Back, D::Left>
        requires own { waiting.tray ≡ self.now }
        ensures answered { IfOk result
            (λ b. (l : D.Left) × (waiting.left ≡ Some l) × D.answers l b) }
        ensures left { IfErr result (λ l. waiting.left ≡ Some l) }
    {
        match self.withdraw(waiting) {
            Ok(left) => Err(left),
            Err(taken) => self.wait(rt, taken),
        }
    }

    // Takes back what was left, if the word tells that it waits, or that it is to be taken back.
    fn withdraw_at(&self, waiting: Waiting<D>, word: u64) -> Result<D::Left, Waiting<D>>
        requires own { waiting.tray ≡ self.now }
        requires word { (word ≡ WAITING) ⊎ (word ≡ CALLED) }
        ensures left { IfOk result (λ l. waiting.left ≡ Some l) }
        ensures given_back { IfErr result
            (λ w. w ≡ record waiting { missed = word ∷ waiting.missed }) }
    {
        let Waiting { mut place } = waiting;
        let steps = &self.table.shared;
        let found = steps.compare_exchange::<Withdraw>(&mut place, 0, word, CLAIMED);
        if found != word {
            return Err(Waiting { place });
        }
        let lying = steps.exchange(&mut place, 0, None);
        steps.store::<Part>(&mut place, 0, VACANT);
        let Some(kept) = lying else { unreachable!() };
        let slip = kept.into_slip();
        let Slip::Left(left) = slip else {
            unreachable!()
        };
        Ok(left)
    }

    /// Looks or sleeps until what was left is answered, or this thread is to take it back.
    pub fn wait<R: Wait>(&self, rt: &R, waiting: Waiting<D>) -> Result<D::Back, D::Left>
        requires own { waiting.tray ≡ self.now }
        ensures answered { IfOk result
            (λ b. (l : D.Left) × (waiting.left ≡ Some l) × D.answers l b) }
        ensures left { IfErr result (λ l. waiting.left ≡ Some l) }
    {
        let mut mine = waiting;
        let mut looks = 0;
        for _ in rt.forever() {
            match self.ask(mine) {
                Ok(done) => return done,
                Err(back) => mine = back,
            }
            looks = self.pause(rt, looks);
        }
        unreachable!()
    }

    // One look: whether there is an answer, or this thread is to take back what it left.
    fn ask(&self, waiting: Waiting<D>) -> Result<Result<D::Back, D::Left>, Waiting<D>>
        requires own { waiting.tray ≡ self.now }
        ensures answered { IfOk result (λ r. IfOk r (λ b.
            (l : D.Left) × (waiting.left ≡ Some l) × D.answers l b)) }
        ensures left { IfOk result (λ r. IfErr r (λ l. waiting.left ≡ Some l)) }
        ensures given_back { IfErr result (λ w. w ≡ record waiting { missed = w.missed }) }
    {
        match self.table.shared.peek(0) {
            ANSWERED => match self.take_back(waiting) {
                Ok(back) => Ok(Ok(back)),
                Err(same) => Err(same),
            },
            CALLED => match self.withdraw(waiting) {
                Ok(left) => Ok(Err(left)),
                Err(same) => Err(same),
            },
            _ => Err(waiting),
        }
    }

    // What passes between two looks, after so many since the thread last slept. It tells how many there are then.
    fn pause<R: Wait>(&self, rt: &R, looks: u32) -> u32 {
        if looks >= LOOKS {
            let lying = self.lie_down();
            self.table.shared.park(rt, 0, lying.awaited);
            self.rise(lying);
            return 0;
        }
        hint::spin_loop();
        looks.saturating_add(1)
    }

    // Tells that this thread sleeps, or is about to.
    fn lie_down(&self) -> Lying
        ensures awaited { result.awaited ≡ WAITING }
    {
        self.asleep.store(1, SeqCst);
        Lying {
            awaited: WAITING as u32,
        }
    }

    // Tells that it does not any more.
    fn rise(&self, lying: Lying) {
        let Lying { awaited: _ } = lying;
        self.asleep.store(0, SeqCst);
    }
}
