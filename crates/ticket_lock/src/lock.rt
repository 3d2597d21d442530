//! The lock, and the calls by which a seat draws, enters and leaves. It is a partitioned ticket lock:
//! 1. A seat draws its ticket, t, by a fetch-and-add on `next`. Tickets are served in the order of the draws.
//! 2. It looks at a word of its own, word t mod 64 of a row, until that is t. At most 64 tickets are in flight.
//! 3. The holder of t leaves by one store, of t + 1 into word (t + 1) mod 64, which one seat at most looks at.
//! 4. A seat whose turn is far sleeps on its word. One that is near looks, and sleeps at last. Whoever serves its
//!    ticket wakes it.
//! 5. The words count modulo 2^64. The value goes in and out of a slot that is the holder's alone.
ghost use Rattle.std.specs.Prelude.{◌≡◌, ◌+◌, ◌%◌, ◌^◌, Option, Some, [], ◌∷◌, IfOk, IfErr};
ghost use Rattle.ticket_lock.specs.Calls.{Draws, Enters, MayLeave, Leaves};

use crate::board::{Board, NEXT, Place, Steps, place_of};
use crate::journal::Journal;
use crate::plays::{Draw, Leave, Look};
use crate::seat::{Held, Inside, Seat, Ticket};
use crate::sleep::{Served, Sleepers};
use std::marker::Model;
use std::sync::Wait;

/// A value that one seat at a time holds, in the order of their tickets. Threads share it by a reference.
pub struct TicketLock<T: Journal> {
    pub(crate) table: Board<T>,
    pub(crate) asleep: Sleepers,
}

// Clauses see which lock it is, and what it was opened about.
impl<T: Journal> Model for TicketLock<T> {
    ghost use Rattle.std.specs.Prelude.{◌≡◌, ◌≤◌, Some};
    ghost use Rattle.ticket_lock.specs.Rule.{about_of};
    ghost use Rattle.ticket_lock.specs.Standing.{Lock};

    ghost Value = { Lock T.Head T.Entry };

    ghost view = { λ l. record {
      table = l.table.shared.table_id;
      about = Some (about_of T.head T.entries l.table.shared.key);
    } };

    ghost invariant = { λ l. (l.table.shared.table_id.words ≡ 520)
        × (l.table.shared.table_id.slots ≡ 1) × (1 ≤ l.table.shared.key.seats) };
}

// Puts a value into the slot that the seat holds, and gives the one that was there.
fn exchange<T: Journal>(steps: &Steps<T>, place: &mut Place<T>, value: Option<T>) -> Option<T>
    requires table { place.old.table_id ≡ steps.now.table_id }
    requires held { (old : Option T) × (place.old.me.1 ≡ (0, old) ∷ []) }
    ensures same { place.new.table_id ≡ place.old.table_id }
    ensures view { place.new.me.0 ≡ place.old.me.0 }
    ensures put { place.new.me.1 ≡ (0, value) ∷ [] }
    ensures taken { place.old.me.1 ≡ (0, result) ∷ [] }
{
    steps.exchange(place, 0, value)
}

impl<T: Journal> TicketLock<T> {
    /// Draws the next ticket. It takes no memory and waits for nobody.
    pub fn draw(&self, seat: Seat<T>) -> Ticket<T>
        requires own { seat.lock ≡ self.now }
        ensures drawn { Draws T.stamp seat result }
    {
        let Seat { number, mut place } = seat;
        let residue = self.table.shared.fetch_add::<Draw>(&mut place, NEXT, 1);
        Ticket {
            number,
            residue,
            place,
        }
    }

    /// Enters if the ticket is served, and gives it back if it is not. One look, no memory, no wait.
    pub fn try_enter(&self, ticket: Ticket<T>) -> Result<(Held<T>, T), Ticket<T>>
        requires own { ticket.lock ≡ self.now }
        ensures entered { IfOk result (λ r. Enters T.stamp T.head T.entries ticket r.0 r.1) }
        ensures given_back { IfErr result (λ t. t ≡ record ticket { looks = ticket.looks + 1 }) }
    {
        match self.look(ticket) {
            Ok(inside) => Ok(self.take(inside)),
            Err(back) => Err(back),
        }
    }

    /// Looks or sleeps until the ticket is served, and enters.
    pub fn enter<R: Wait>(&self, rt: &R, ticket: Ticket<T>) -> (Held<T>, T)
        requires own { ticket.lock ≡ self.now }
        ensures entered { Enters T.stamp T.head T.entries ticket result.0 result.1 }
    {
        let mut waiting = ticket;
        let mut looks = 0;
        for _ in rt.forever() {
            match self.look(waiting) {
                Ok(inside) => return self.take(inside),
                Err(back) => waiting = back,
            }
            looks = self.pause(rt, waiting.number(), looks);
        }
        unreachable!()
    }

    /// Gives the value back and serves the next ticket. The value has the head with which it was handed out, and its
    /// list is the one handed out, or that and one entry with the holder's stamp. It takes no memory and
    /// waits for nobody.
    pub fn leave(&self, held: Held<T>, value: T) -> Seat<T>
        requires own { held.lock ≡ self.now }
        requires kept { MayLeave T.stamp T.head T.entries held value }
        ensures left { Leaves T.stamp T.head T.entries held value result }
    {
        let (seat, served) = self.serve(held, value);
        self.wake(served);
        seat
    }

    // Gives the value back and serves the next ticket, whose seat may sleep.
    pub(crate) fn serve(&self, held: Held<T>, value: T) -> (Seat<T>, Served)
        requires own { held.lock ≡ self.now }
        requires kept { MayLeave T.stamp T.head T.entries held value }
        ensures left { Leaves T.stamp T.head T.entries held value result.0 }
        ensures served { result.1.ticket ≡ (held.ticket + 1) % 2 ^ 64 }
    {
        let Held {
            number,
            residue,
            mut place,
        } = held;
        let steps = &self.table.shared;
        let before = exchange(steps, &mut place, Some(value));
        let None = before else { unreachable!() };
        let next = residue.wrapping_add(1);
        steps.store::<Leave>(&mut place, place_of(next), next);
        let seat = Seat { number, place };
        let served = Served::by(&seat, next);
        (seat, served)
    }

    // Looks at the ticket's word. The seat is inside if that is the ticket.
    fn look(&self, ticket: Ticket<T>) -> Result<Inside<T>, Ticket<T>>
        requires own { ticket.lock ≡ self.now }
        ensures entered { IfOk result (λ r. (x : T) × (r.1 ≡ Some x)
            × Enters T.stamp T.head T.entries ticket r.0 x) }
        ensures given_back { IfErr result (λ t. t ≡ record ticket { looks = ticket.looks + 1 }) }
    {
        let Ticket {
            number,
            residue,
            mut place,
        } = ticket;
        let steps = &self.table.shared;
        let granted = steps.load::<Look>(&mut place, place_of(residue));
        if granted == residue {
            Ok(Inside {
                number,
                residue,
                place,
            })
        } else {
            Err(Ticket {
                number,
                residue,
                place,
            })
        }
    }

    // Takes the value out of the slot.
    fn take(&self, inside: Inside<T>) -> (Held<T>, T)
        requires own { inside.0.lock ≡ self.now }
        ensures same { result.0 ≡ inside.0 }
        ensures taken { inside.1 ≡ Some result.1 }
    {
        let Inside {
            number,
            residue,
            mut place,
        } = inside;
        let found = exchange(&self.table.shared, &mut place, None);
        let Some(value) = found else { unreachable!() };
        let held = Held {
            number,
            residue,
            place,
        };
        (held, value)
    }
}
