//! The three tokens of a seat: idle, with a ticket, and holding the lock.
ghost use Rattle.std.specs.Prelude.{◌≡◌, ◌%◌, ◌^◌};
ghost use Rattle.ticket_lock.specs.Standing.{stamp_of};

use crate::board::Place;
use crate::journal::Journal;
use minislots::Stamp;
use std::marker::Model;

/// An idle seat of a lock. If it is dropped, the lock cannot be closed any more, but discarded.
#[derive(Drop)]
pub struct Seat<T: Journal> {
    pub(crate) number: u32,
    pub(crate) place: Place<T>,
}

/// A seat that waits with a ticket. It has no `Drop`, so it has to go back to its lock.
#[must_use]
pub struct Ticket<T: Journal> {
    pub(crate) number: u32,
    // The ticket modulo 2^64.
    pub(crate) residue: u64,
    pub(crate) place: Place<T>,
}

/// A seat that holds the lock, whose value is with its owner. It has no `Drop`, so it has to leave.
#[must_use]
pub struct Held<T: Journal> {
    pub(crate) number: u32,
    // The ticket modulo 2^64.
    pub(crate) residue: u64,
    pub(crate) place: Place<T>,
}

// A seat that holds the lock, whose value is still in the slot.
pub(crate) struct Inside<T: Journal> {
    pub(crate) number: u32,
    // The ticket modulo 2^64.
    pub(crate) residue: u64,
    pub(crate) place: Place<T>,
}

impl<T: Journal> Model for Seat<T> {
    ghost use Rattle.std.specs.Prelude.{◌≡◌, []};
    ghost use Rattle.ticket_lock.specs.Standing.{Standing, standing_of};
    ghost use Rattle.ticket_lock.specs.Tokens.{IsIdle};

    ghost Value = { Standing T.Head T.Entry };

    ghost view = { λ s. standing_of s.place.table_id s.place.me.0 };

    ghost invariant = { λ s. IsIdle s.number s.place.me.0 × (s.place.me.1 ≡ []) };
}

impl<T: Journal> Model for Ticket<T> {
    ghost use Rattle.std.specs.Prelude.{◌≡◌, []};
    ghost use Rattle.ticket_lock.specs.Standing.{Standing, standing_of};
    ghost use Rattle.ticket_lock.specs.Tokens.{IsWaiting};

    ghost Value = { Standing T.Head T.Entry };

    ghost view = { λ s. standing_of s.place.table_id s.place.me.0 };

    ghost invariant = { λ s. IsWaiting s.number s.residue s.place.me.0 × (s.place.me.1 ≡ []) };
}

impl<T: Journal> Model for Held<T> {
    ghost use Rattle.std.specs.Prelude.{◌≡◌, [], ◌∷◌, None};
    ghost use Rattle.ticket_lock.specs.Standing.{Standing, standing_of};
    ghost use Rattle.ticket_lock.specs.Tokens.{IsHolding};

    ghost Value = { Standing T.Head T.Entry };

    ghost view = { λ s. standing_of s.place.table_id s.place.me.0 };

    ghost invariant = { λ s. IsHolding s.number s.residue s.place.me.0
        × (s.place.me.1 ≡ (0, None) ∷ []) };
}

impl<T: Journal> Model for Inside<T> {
    ghost use Rattle.std.specs.Prelude.{◌≡◌, [], ◌∷◌, Option, Some};
    ghost use Rattle.ticket_lock.specs.Standing.{Standing, standing_of};
    ghost use Rattle.ticket_lock.specs.Tokens.{IsHolding, carried_in};

    ghost Value = { Standing T.Head T.Entry × Option T };

    ghost view = { λ s. (standing_of s.place.table_id s.place.me.0, carried_in s.place.me.1) };

    ghost invariant = { λ s. IsHolding s.number s.residue s.place.me.0
        × ((x : T) × (s.place.me.1 ≡ (0, Some x) ∷ [])) };
}

impl<T: Journal> Seat<T> {
    /// The seat's number, which is its place in the vector that `TicketLock::open` gave.
    pub fn number(&self) -> u32
        ensures number { result ≡ self.now.number }
    {
        self.number
    }
}

impl<T: Journal> Ticket<T> {
    /// The ticket, modulo 2^64.
    pub fn number(&self) -> u64
        ensures number { result ≡ self.now.ticket % 2 ^ 64 }
    {
        self.residue
    }
}

impl<T: Journal> Held<T> {
    /// What an entry of this holder bears: the seat's number, and its ticket modulo 2^64.
    pub fn stamp(&self) -> Stamp
        ensures stamp { result ≡ stamp_of self.now }
    {
        let Held {
            number,
            residue,
            place: _,
        } = self;
        Stamp {
            seat: *number,
            ticket: *residue,
        }
    }
}
