//! How a lock is closed.
ghost use Rattle.std.specs.Prelude.{◌≡◌, ◌<◌, [], Some, length};
ghost use Rattle.ticket_lock.specs.Rule.{Every, about_of};
ghost use Rattle.ticket_lock.specs.Standing.{seats_of};
ghost use Rattle.ticket_lock.specs.Tokens.{IsGathered};
ghost use Rattle.ticket_lock.specs.Calls.{Closes};

use crate::board::{Place, Steps};
use crate::journal::Journal;
use crate::lock::TicketLock;
use crate::plays::AllNumbers;
use crate::seat::Seat;

// Joins all seats to the last of them, the last first, so that their order is kept.
fn gather<T: Journal>(steps: &Steps<T>, seats: Vec<Seat<T>>) -> Place<T>
    requires words { 0 < steps.now.table_id.words }
    requires some { 0 < length seats.items }
    requires own { Every (λ s. s.lock ≡ record {
      table = steps.now.table_id;
      about = Some (about_of T.head T.entries steps.now.key);
    }) seats.items }
    ensures table { result.table_id ≡ steps.now.table_id }
    ensures gathered { IsGathered
        (Some (about_of T.head T.entries steps.now.key)) seats.items result.me.0 }
{
    let mut seats = seats;
    let last = seats.pop();
    let Some(last) = last else { unreachable!() };
    let Seat {
        number: _,
        mut place,
    } = last;
    while let Some(seat) = seats.pop() {
        let Seat {
            number: _,
            place: other,
        } = seat;
        steps.join_seat::<AllNumbers>(&mut place, other);
    }
    seats.destroy_empty();
    place
}

impl<T: Journal> TicketLock<T> {
    /// Takes the lock apart, and gives the value. All its seats come back, each once, in any order.
    pub fn close(self, seats: Vec<Seat<T>>) -> T
        requires own { Every (λ s. s.lock ≡ self) seats.items }
        requires all { length seats.items ≡ seats_of self }
        ensures closed { Closes T.stamp T.head T.entries self seats.items result }
    {
        let TicketLock { table, asleep: _ } = self;
        let place = gather(&table.shared, seats);
        let mut closed = table.close_with(place);
        let found = closed.take(0);
        closed.free();
        let Some(value) = found else { unreachable!() };
        value
    }
}

impl<T: Journal + Drop> TicketLock<T> {
    /// Lets the lock go, and its value with it, where it cannot be closed any more: a seat of it was
    /// dropped. It takes no memory and waits for nobody.
    pub fn discard(self) {
        let TicketLock { table, asleep: _ } = self;
        drop(table);
    }
}
