//! What a seat that waits leaves on its tray, and what it takes back.
use crate::calling::Calling;
use crate::deal::Deal;
use std::marker::PhantomData;
use std::snapshot::Snapshot;
use ticket_lock::{Journal, Seat, Ticket, TicketLock};

/// A ticket of this lock and a call are left. The seat that took its turn with that ticket comes back, and the reply.
pub struct Turns<T: Journal, C: Calling<T>> {
    of: PhantomData<(T, C)>,
}

impl<T: Journal, C: Calling<T>> Deal for Turns<T, C> {
    ghost use Rattle.std.specs.Prelude.{◌≡◌};
    ghost use Rattle.call_queue.specs.Turns.{TakesTurn};

    type About = Snapshot<TicketLock<T>>;

    type Left = (Ticket<T>, C::Call);

    type Back = (Seat<T>, C::Reply);

    ghost fits = { λ about left. left.0.lock ≡ about.value };

    ghost answers = { λ left back.
        TakesTurn T.stamp T.head T.entries C.made left.1 back.1 left.0 back.0 };
}
