//! What each step at a tray tells the token that takes it.
use crate::board::{Lying, View};
use crate::deal::Deal;
use crate::slip::Kept;
use atomic_table::Play;
use std::marker::PhantomData;

/// A load by a new token, which does nothing yet.
pub struct Stay;

impl<A, L, B> Play<Option<Kept<L, B>>, View<A, L>> for Stay {
    ghost use Rattle.call_queue.specs.Plays.{Stays};

    ghost then = { Stays };
}

/// A compare-exchange by which a token has a vacant tray to itself.
pub struct Claim;

impl<A, L, B> Play<Option<Kept<L, B>>, View<A, L>> for Claim {
    ghost use Rattle.call_queue.specs.Plays.{Claimed};

    ghost then = { Claimed };
}

/// A store by which a token leaves what it has in the slot.
pub struct PutDown;

impl<A, L, B> Play<Option<Kept<L, B>>, View<A, L>> for PutDown {
    ghost use Rattle.call_queue.specs.Plays.{PutsDown};

    ghost then = { PutsDown };
}

/// A store by which a token gives the slot back, and does nothing more.
pub struct Part;

impl<A, L, B> Play<Option<Kept<L, B>>, View<A, L>> for Part {
    ghost use Rattle.call_queue.specs.Plays.{Parts};

    ghost then = { Parts };
}

/// A store by which a token gives the slot back, and tells whoever left something to act: it is answered, or called up.
pub struct Tell;

impl<A, L, B> Play<Option<Kept<L, B>>, View<A, L>> for Tell {
    ghost use Rattle.call_queue.specs.Plays.{HasTold};

    ghost then = { HasTold };
}

/// A compare-exchange after which whoever left something, if it was not taken up, is to take it back.
pub struct CallUp;

impl<A, L, B> Play<Option<Kept<L, B>>, View<A, L>> for CallUp {
    ghost use Rattle.call_queue.specs.Plays.{CallsUp};

    ghost then = { CallsUp };
}

/// A compare-exchange by which a token that left something takes that back.
pub struct Withdraw;

impl<A, L, B> Play<Option<Kept<L, B>>, View<A, L>> for Withdraw {
    ghost use Rattle.call_queue.specs.Plays.{Withdraws};

    ghost then = { Withdraws };
}

/// A compare-exchange by which a token takes up what lies there, and is to answer it.
pub struct TakeUp<D: Deal> {
    of: PhantomData<D>,
}

impl<D: Deal> Play<Lying<D>, View<D::About, D::Left>> for TakeUp<D> {
    ghost use Rattle.call_queue.specs.Plays.{TakesUp};

    ghost then = { TakesUp D.fits };
}

/// A compare-exchange by which a token that left something takes the answer.
pub struct TakeBack<D: Deal> {
    of: PhantomData<D>,
}

impl<D: Deal> Play<Lying<D>, View<D::About, D::Left>> for TakeBack<D> {
    ghost use Rattle.call_queue.specs.Plays.{TakesBack};

    ghost then = { TakesBack D.answers };
}
