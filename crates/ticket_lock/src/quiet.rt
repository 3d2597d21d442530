//! A lock while no seat sleeps at it: its leaves wake nobody.
ghost use Rattle.std.specs.Prelude.{◌≡◌, ◌+◌, IfOk, IfErr};
ghost use Rattle.ticket_lock.specs.Calls.{Draws, Enters, MayLeave, Leaves};

use crate::journal::Journal;
use crate::lock::TicketLock;
use crate::seat::{Held, Seat, Ticket};
use std::marker::Model;

/// A lock at which no seat can sleep: seats enter by `try_enter` alone, since nobody reaches the lock in it by a
/// reference. So a leave wakes nobody. It is made of a lock that nobody shares, and gives it back.
pub struct QuietLock<T: Journal> {
    lock: TicketLock<T>,
}

// Clauses see the lock in it.
impl<T: Journal> Model for QuietLock<T> {
    ghost use Rattle.ticket_lock.specs.Standing.{Lock};

    ghost Value = { Lock T.Head T.Entry };

    ghost view = { λ q. q.lock };
}

impl<T: Journal> QuietLock<T> {
    /// This lock, at which no seat sleeps, since nobody shares it.
    pub fn of(lock: TicketLock<T>) -> QuietLock<T>
        ensures { result ≡ lock }
    {
        QuietLock { lock }
    }

    /// The lock itself, which nobody shares any more.
    pub fn into_lock(self) -> TicketLock<T>
        ensures { result ≡ self }
    {
        let QuietLock { lock } = self;
        lock
    }

    /// Draws the next ticket. It takes no memory and waits for nobody.
    pub fn draw(&self, seat: Seat<T>) -> Ticket<T>
        requires own { seat.lock ≡ self.now }
        ensures drawn { Draws T.stamp seat result }
    {
        self.lock.draw(seat)
    }

    /// Enters if the ticket is served, and gives it back if it is not. One look, no memory, no wait.
    pub fn try_enter(&self, ticket: Ticket<T>) -> Result<(Held<T>, T), Ticket<T>>
        requires own { ticket.lock ≡ self.now }
        ensures entered { IfOk result (λ r. Enters T.stamp T.head T.entries ticket r.0 r.1) }
        ensures given_back { IfErr result (λ t. t ≡ record ticket { looks = ticket.looks + 1 }) }
    {
        self.lock.try_enter(ticket)
    }

    /// Gives the value back and serves the next ticket. The value has the head with which it was handed out, and its
    /// list is the one handed out, or that and one entry with the holder's stamp. It takes no memory, waits for
    /// nobody, and wakes nobody.
    pub fn leave(&self, held: Held<T>, value: T) -> Seat<T>
        requires own { held.lock ≡ self.now }
        requires kept { MayLeave T.stamp T.head T.entries held value }
        ensures left { Leaves T.stamp T.head T.entries held value result }
    {
        let (seat, served) = self.lock.serve(held, value);
        served.wakes_nobody(self);
        seat
    }
}
